// The tests of what is lent to a call on a block (document 01, Refused input: 1, 2, 3, 4 in turn). They answer the block's kind, or the first fault.
#![tactic(auto)]

ghost use Rattle.std.specs.Prelude.{◌≡◌, length};
ghost use Rattle.ints.specs.Place.{place_below};
ghost use Rattle.block.specs.Tests.{first_loud, loud, misfit, tested, tested_line, tested_samples, tested_spectrum};
ghost use Rattle.block.specs.TestTable.{line_numbers, samples_numbers, spectrum_numbers};
ghost use Rattle.block.specs.BlockAnswers.{block_numbers};

use cells::Cells;
use kind::{BlockKind, Line};
use refusal::Refusal;

// The least sample.
pub const LEAST_SAMPLE: i64 = -32768;

// The largest sample.
pub const LARGEST_SAMPLE: i64 = 32767;

// How loud a line of a lent spectrum may be, to either side: 2^28.
const LOUDEST_LINE: i64 = 1 << 28;

// The kind of a block of samples, or its first fault.
pub fn tested_samples(cells: &[i64]) -> Result<BlockKind, Refusal>
    ensures answer { result ≡ tested_samples cells.now }
    ensures numbers { block_numbers result ≡ samples_numbers cells.now }
{
    tested(LEAST_SAMPLE, LARGEST_SAMPLE, &[], cells)
}

// The kind of a spectrum, or the first fault of it and of the outputs that go with it: lists of so many cells, for lines 0 to N/2.
pub fn tested_spectrum(outputs: &[usize], cells: &[i64]) -> Result<BlockKind, Refusal>
    ensures answer { result ≡ tested_spectrum outputs.now cells.now }
    ensures numbers { block_numbers result ≡ spectrum_numbers outputs.now cells.now }
{
    tested(-LOUDEST_LINE, LOUDEST_LINE, outputs, cells)
}

// The kind of a spectrum of which a line is asked, or the first fault.
pub fn tested_line(line: Line, cells: &[i64]) -> Result<BlockKind, Refusal>
    ensures answer { result ≡ tested_line line cells.now }
    ensures numbers { block_numbers result ≡ line_numbers line cells.now }
{
    let kind = tested_spectrum(&[], cells)?;
    if cells.len() / 2 < line.0 {
        return Err(Refusal::Line(line));
    }
    Ok(kind)
}

// The tests 1, 2 and 3 in turn.
fn tested(low: i64, high: i64, outputs: &[usize], cells: &[i64]) -> Result<BlockKind, Refusal>
    ensures { result ≡ tested low high outputs.now cells.now }
{
    let kind = BlockKind::of_len(cells.len()).ok_or(Refusal::Length)?;
    if misfit(cells.len() / 2 + 1, outputs) {
        return Err(Refusal::Misfit);
    }
    match first_loud(low, high, cells) {
        Some(place) => Err(Refusal::Loud(place)),
        None => Ok(kind),
    }
}

// Whether an output has not as many cells as wanted.
fn misfit(wanted: usize, outputs: &[usize]) -> bool
    ensures { result ≡ misfit wanted outputs.now }
{
    outputs.iter().any(|cells| *cells != wanted)
}

// Whether a cell is outside low to high. The limits stay two numbers, as the definitions and theorems have them: a struct of both would only stand before
// each in every contract.
pub fn loud(low: i64, high: i64, x: i64) -> bool
    ensures { result ≡ loud low high x }
{
    x < low || high < x
}

// The place of the first cell outside low to high, if there is one.
pub fn first_loud(low: i64, high: i64, cells: &[i64]) -> Option<usize>
    ensures { result ≡ place_below (length cells.now) (first_loud low high cells.now) }
{
    first_loud_of(low, high, cells)
}

// The same of any list of cells that is read by place.
pub fn first_loud_of<C: Cells>(low: i64, high: i64, cells: C) -> Option<usize>
    ensures { result ≡ place_below (length (C.list cells)) (first_loud low high (C.list cells)) }
{
    for i in 0..cells.len() {
        if loud(low, high, cells.cell(i)) {
            return Some(i);
        }
    }
    None
}
