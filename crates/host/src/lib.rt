// Entries for hosts in C: the engine and its table, the trace reader and saving on byte slices, each with one plain number for an answer (document 01, Parts
// of the engine).
#![tactic(auto)]

ghost use Rattle.std.specs.Prelude.{◌≡◌, [], ◌*◌, ◌/◌, ◌%◌, ◌^◌, ◌<◌, length};
ghost use Rattle.cell_bytes.specs.CellBytes.{cells_in};
ghost use Rattle.block.specs.Tests.{tested_line, tested_samples, tested_spectrum};
ghost use Rattle.block.specs.BlockAnswers.{block_answer, verdict_numbers};
ghost use Rattle.distance.specs.BoundAnswers.{bound_answer, bound_numbers};
ghost use Rattle.hartley.specs.Promises.{FirstLineExact, NearDirectSum, NegativeBlock, NegativeSpectrum};
ghost use Rattle.smooth_tests.specs.Tests.{tested_smoothing};
ghost use Rattle.smoothing.specs.Promises.{AnyPair};
ghost use Rattle.smooth_bytes.specs.BytesLeft.{smooth_bytes};
ghost use Rattle.fourier.specs.Parts.{tested_parts, tested_power};
ghost use Rattle.fourier.specs.Scaled.{Values};
ghost use Rattle.block_bytes.specs.BytesLeft.{backward_bytes, forward_bytes};
ghost use Rattle.line_bytes.specs.LinesLeft.{imaginary_bytes, power_bytes, real_bytes};
ghost use Rattle.scaled_bytes.specs.LineHeld.{imaginary_held, as_line, real_held, scaled_of};
ghost use Rattle.search.specs.SearchAnswers.{nearest_answer, nearest_numbers, strongest_answer, strongest_numbers};
ghost use Rattle.search_bytes.specs.Asked.{end_asked};
ghost use Rattle.fetch_bytes.specs.Fetched.{fetch_bytes, fetched_of};
ghost use Rattle.save_tests.specs.Save.{ReadsBack, as_head, save_answer, saving_numbers, trace_left};
ghost use Rattle.save_bytes.specs.SavedOf.{saving_of};
ghost use Rattle.table_bytes.specs.TableLeft.{table_answer, table_left, table_numbers};
ghost use Rattle.trace.specs.Contents.{contents};
ghost use Rattle.trace.specs.TraceAnswers.{contents_numbers, trace_answer};
ghost use Rattle.packing.specs.Packing.{blocks_in, case_in, case_numbers, distance_in, found_in, line_in, number_in, p_in, packed, packed_bound, packed_save, packed_scaled, packed_search, packed_trace, place_in, rate_in, unpacked_block, unpacked_bound, unpacked_fetch, unpacked_save, unpacked_scaled, unpacked_search, unpacked_trace, used_in};
ghost use Rattle.host.specs.Version.{VERSION};

use kind::Line;

// The forward spectrum of the block that the bytes spell, in its place.
#[unsafe(no_mangle)]
pub extern "C" fn hartley_forward(cells: &mut [u8]) -> u64
    ensures answer { result ≡ packed (block_answer (tested_samples (cells_in cells.old))) }
    ensures numbers { unpacked_block result ≡ verdict_numbers (tested_samples (cells_in cells.old)) }
    ensures bytes { cells.new ≡ forward_bytes cells.old }
    ensures distance { result ≡ 0 → NearDirectSum (cells_in cells.old) (cells_in cells.new) }
    ensures first_line { result ≡ 0 → FirstLineExact (cells_in cells.old) (cells_in cells.new) }
    ensures negative { result ≡ 0 → NegativeSpectrum (cells_in cells.old) (cells_in cells.new) }
{
    block_bytes::forward(cells)
}

// The bound of the block that the bytes spell: no line of its forward spectrum is farther from the direct sum.
#[unsafe(no_mangle)]
pub extern "C" fn hartley_bound(cells: &[u8]) -> u64
    ensures answer { result ≡ packed_bound (bound_answer (cells_in cells.now)) }
    ensures numbers { unpacked_bound result ≡ bound_numbers (cells_in cells.now) }
{
    packing::packed_bound(bound_bytes::bound(cells))
}

// The block of the spectrum that the bytes spell, in its place.
#[unsafe(no_mangle)]
pub extern "C" fn hartley_backward(cells: &mut [u8]) -> u64
    ensures answer { result ≡ packed (block_answer (tested_spectrum [] (cells_in cells.old))) }
    ensures numbers { unpacked_block result ≡ verdict_numbers (tested_spectrum [] (cells_in cells.old)) }
    ensures bytes { cells.new ≡ backward_bytes cells.old }
    ensures negative { NegativeBlock (cells_in cells.old) (cells_in cells.new) }
{
    block_bytes::backward(cells)
}

// The block that the bytes spell, smoothed by the weights that the other bytes spell, in its place.
#[unsafe(no_mangle)]
pub extern "C" fn hartley_smooth(cells: &mut [u8], weights: &[u8]) -> u64
    ensures answer { result ≡ packed (block_answer (tested_smoothing (cells_in cells.old) (cells_in weights.now))) }
    ensures numbers { unpacked_block result ≡ verdict_numbers (tested_smoothing (cells_in cells.old) (cells_in weights.now)) }
    ensures bytes { cells.new ≡ smooth_bytes cells.old weights.now }
    ensures any_pair { result ≡ 0 → AnyPair (cells_in cells.old) (cells_in weights.now) (cells_in cells.new) }
{
    smooth_bytes::smooth(cells, weights)
}

// The doubled real and imaginary parts of the spectrum that the bytes spell, for lines 0 to N/2, in two lists of lent bytes.
#[unsafe(no_mangle)]
pub extern "C" fn hartley_parts(spectrum: &[u8], real: &mut [u8], imaginary: &mut [u8]) -> u64
    ensures answer { result ≡ packed (block_answer (tested_parts (cells_in spectrum.now) (cells_in real.old) (cells_in imaginary.old))) }
    ensures numbers { unpacked_block result ≡ verdict_numbers (tested_parts (cells_in spectrum.now) (cells_in real.old) (cells_in imaginary.old)) }
    ensures real { real.new ≡ real_bytes spectrum.now real.old imaginary.old }
    ensures imaginary { imaginary.new ≡ imaginary_bytes spectrum.now real.old imaginary.old }
{
    line_bytes::parts(spectrum, real, imaginary)
}

// The doubled power of the spectrum that the bytes spell, for lines 0 to N/2, in lent bytes.
#[unsafe(no_mangle)]
pub extern "C" fn hartley_power(spectrum: &[u8], powers: &mut [u8]) -> u64
    ensures answer { result ≡ packed (block_answer (tested_power (cells_in spectrum.now) (cells_in powers.old))) }
    ensures numbers { unpacked_block result ≡ verdict_numbers (tested_power (cells_in spectrum.now) (cells_in powers.old)) }
    ensures bytes { powers.new ≡ power_bytes spectrum.now powers.old }
{
    line_bytes::power(spectrum, powers)
}

// A scaled line of the spectrum that the bytes spell: which case it is, and its numbers where they are lent.
#[unsafe(no_mangle)]
pub extern "C" fn hartley_scaled(
    spectrum: &[u8],
    line: usize,
    real: &mut f64,
    imaginary: &mut f64,
) -> u64
    ensures answer { result ≡ packed_scaled (scaled_of spectrum.now (as_line line)) }
    ensures numbers { unpacked_scaled line result ≡ case_numbers (length (cells_in spectrum.now)) line (tested_line (as_line line) (cells_in spectrum.now)) }
    ensures real { real.new ≡ real_held (scaled_of spectrum.now (as_line line)) real.old }
    ensures imaginary { imaginary.new ≡ imaginary_held (scaled_of spectrum.now (as_line line)) imaginary.old }
    ensures values { Values (cells_in spectrum.now) (as_line line) (scaled_of spectrum.now (as_line line)) }
{
    scaled_bytes::scaled(spectrum, Line(line), real, imaginary)
}

// The strongest line from low to high of the powers that the bytes spell.
#[unsafe(no_mangle)]
pub extern "C" fn hartley_strongest(powers: &[u8], low: usize, high: usize) -> u64
    ensures answer { result ≡ packed_search (strongest_answer (cells_in powers.now) (as_line low) (as_line high)) }
    ensures numbers { unpacked_search (end_asked (length (cells_in powers.now)) low high) result ≡ strongest_numbers (cells_in powers.now) low high }
{
    packing::packed_found(search_bytes::strongest(powers, Line(low), Line(high)))
}

// The line nearest to the chosen one that reaches the level, of the powers that the bytes spell; or none.
#[unsafe(no_mangle)]
pub extern "C" fn hartley_nearest(powers: &[u8], chosen: usize, level: i64) -> u64
    ensures answer { result ≡ packed_search (nearest_answer (cells_in powers.now) (as_line chosen) level) }
    ensures numbers { unpacked_search chosen result ≡ nearest_numbers (cells_in powers.now) chosen level }
{
    packing::packed_search(search_bytes::nearest(powers, Line(chosen), level))
}

// The check of a trace.
#[unsafe(no_mangle)]
pub extern "C" fn hartley_check(trace: &[u8]) -> u64
    ensures answer { result ≡ packed_trace (trace_answer (contents trace.now)) }
    ensures numbers { unpacked_trace result ≡ contents_numbers (contents trace.now) }
{
    packing::packed_trace(trace::check(trace))
}

// What the check answers, and the samples of block k of the trace in the lent bytes.
#[unsafe(no_mangle)]
pub extern "C" fn hartley_fetch(trace: &[u8], k: usize, cells: &mut [u8]) -> u64
    ensures answer { result ≡ packed_trace (trace_answer (fetched_of trace.now k cells.old)) }
    ensures numbers { unpacked_fetch k result ≡ contents_numbers (fetched_of trace.now k cells.old) }
    ensures bytes { cells.new ≡ fetch_bytes trace.now k cells.old }
{
    fetch_bytes::fetch(trace, k, cells)
}

// Saves a rate, P and the run of cells that the bytes spell as a trace in the lent bytes. A place of refusal 3 has room in an answer where fewer than 2^59
// bytes of cells are lent, and no machine of this kind has so many.
#[unsafe(no_mangle)]
pub extern "C" fn hartley_save(rate: usize, p: usize, cells: &[u8], trace: &mut [u8]) -> u64
    ensures answer { result ≡ packed_save (save_answer (saving_of (as_head rate p) cells.now (length trace.old))) }
    ensures numbers { length cells.now < 8 * 256 ^ 7 → unpacked_save result ≡ saving_numbers (saving_of (as_head rate p) cells.now (length trace.old)) }
    ensures bytes { trace.new ≡ trace_left trace.old (saving_of (as_head rate p) cells.now (length trace.old)) }
    ensures reads_back { ReadsBack (as_head rate p) (cells_in cells.now) (save_answer (saving_of (as_head rate p) cells.now (length trace.old))) trace.new }
{
    packing::packed_save(save_bytes::save(rate, p, cells, trace))
}

// The engine's quarter table, T(0) to T(256), from its rule, in the lent bytes, which are 257 cells.
#[unsafe(no_mangle)]
pub extern "C" fn hartley_table(table: &mut [u8]) -> u64
    ensures answer { result ≡ packed (table_answer table.old) }
    ensures numbers { unpacked_block result ≡ table_numbers (length (cells_in table.old)) }
    ensures bytes { table.new ≡ table_left (table_answer table.old) table.old }
{
    packing::packed(table_bytes::table(table))
}

// The refusal's number in an answer, or 0 where nothing is refused.
#[unsafe(no_mangle)]
pub extern "C" fn hartley_number(answer: u64) -> u64
    ensures { result ≡ number_in answer }
{
    answer % 256
}

// The refusal's place in an answer that refuses.
#[unsafe(no_mangle)]
pub extern "C" fn hartley_place(answer: u64) -> u64
    ensures { result ≡ place_in answer }
{
    answer / 256
}

// The bound in the answer of a call for one.
#[unsafe(no_mangle)]
pub extern "C" fn hartley_distance(answer: u64) -> u64
    ensures { result ≡ distance_in answer }
{
    answer / 256
}

// Which case a scaled line is, in the answer of a call for one.
#[unsafe(no_mangle)]
pub extern "C" fn hartley_case(answer: u64) -> u64
    ensures { result ≡ case_in answer }
{
    byte_1(answer)
}

// Whether a search has found a line, 1 or 0, in its answer.
#[unsafe(no_mangle)]
pub extern "C" fn hartley_found(answer: u64) -> u64
    ensures { result ≡ found_in answer }
{
    byte_1(answer)
}

// The line that a search has found, in its answer.
#[unsafe(no_mangle)]
pub extern "C" fn hartley_line(answer: u64) -> u64
    ensures { result ≡ line_in answer }
{
    bytes_2_and_3(answer)
}

// The rate in the answer to an accepted trace.
#[unsafe(no_mangle)]
pub extern "C" fn hartley_rate(answer: u64) -> u64
    ensures { result ≡ rate_in answer }
{
    answer / 4294967296
}

// P in the answer to an accepted trace.
#[unsafe(no_mangle)]
pub extern "C" fn hartley_p(answer: u64) -> u64
    ensures { result ≡ p_in answer }
{
    byte_1(answer)
}

// The number of blocks in the answer to an accepted trace.
#[unsafe(no_mangle)]
pub extern "C" fn hartley_blocks(answer: u64) -> u64
    ensures { result ≡ blocks_in answer }
{
    bytes_2_and_3(answer)
}

// The bytes that a saved trace takes, in the answer of a call that saves.
#[unsafe(no_mangle)]
pub extern "C" fn hartley_used(answer: u64) -> u64
    ensures { result ≡ used_in answer }
{
    answer / 256
}

// The version of this interface, for a host whose header may be of another day than its archive.
#[unsafe(no_mangle)]
pub extern "C" fn hartley_version() -> u64
    ensures { result ≡ VERSION }
{
    6
}

// Byte 1 of an answer.
fn byte_1(answer: u64) -> u64
    ensures { result ≡ answer / 256 % 256 }
{
    answer / 256 % 256
}

// Bytes 2 and 3 of an answer.
fn bytes_2_and_3(answer: u64) -> u64
    ensures { result ≡ answer / 256 ^ 2 % 256 ^ 2 }
{
    answer / 65536 % 65536
}
