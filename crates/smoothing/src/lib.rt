// Exact smoothing of a block by weights, in its own cells (document 02, Item 7).
#![tactic(auto)]

ghost use Rattle.std.specs.Prelude.{◌≡◌, map, ℕ, ◌+◌, ◌*◌, ◌/◌, ◌≤◌, ◌<◌, length, OnOk};
ghost use Rattle.ints.specs.Cells.{cell};
ghost use Rattle.block.specs.BlockAnswers.{answer_numbers, block_answer, verdict_numbers};
ghost use Rattle.residues.specs.Residue.{centred, residue};
ghost use Rattle.turns.specs.Turn.{CHOSEN};
ghost use Rattle.exact.specs.Smoothing.{combined, cyclic_sums, divided, restored, smoothed};
ghost use Rattle.exact_pair.specs.Pair.{FIRST, Stands};
ghost use Rattle.cyclic_sums.specs.Short.{SHORT};
ghost use Rattle.smooth_tests.specs.Tests.{tested_smoothing};
ghost use Rattle.smoothing.specs.Promises.{AnyPair, smooth_left, sums_left};
ghost use Rattle.smoothing.specs.Inner.{Accepted, LineRoom, Lines, Spectra, lines_combined};

use cyclic_sums::SHORT;
use kind::BlockKind;
use refusal::Refusal;

// The largest block whose rooms are middle ones: a call clears its rooms, and such a block should not wait for those of the largest. Rooms are arrays, since there
// is no heap; `lent_cells`, which lies above, has sizes of its own.
const MIDDLE: usize = 128;

// The cosines that a block of as many cells takes, over a quarter of the turn, both ends among them.
const MIDDLE_QUARTER: usize = MIDDLE / 4 + 1;

// The same for the largest block.
const LARGEST: usize = BlockKind::LARGEST;

const LARGEST_QUARTER: usize = LARGEST / 4 + 1;

// A half modulo 2^31 − 1: twice 2^30 is 2^31, which is 1.
const HALF: i64 = 1073741824;

// The block smoothed by the weights, cyclically and with no rounding, in the samples' place.
pub fn smooth(cells: &mut [i64], weights: &[i64]) -> Result<(), Refusal>
    ensures answer { result ≡ block_answer (tested_smoothing cells.old weights.now) }
    ensures numbers { answer_numbers result ≡ verdict_numbers (tested_smoothing cells.old weights.now) }
    ensures cells { cells.new ≡ smooth_left cells.old weights.now }
    ensures any_pair { OnOk result (AnyPair cells.old weights.now cells.new) }
{
    let kind = smooth_tests::tested(cells, weights)?;
    smooth_taken(cells, weights, kind.p);
    Ok(())
}

// The same of up to 32 samples, whose plain sums are formed sooner than their spectra: the sums go to a list of their own, and the cells are only read.
pub fn smooth_short(
    cells: &[i64],
    weights: &[i64],
    turned: &mut [i64],
    sums: &mut [i64],
) -> Result<(), Refusal>
    requires { (length cells.now ≤ SHORT) × (length turned.old ≡ 2 * length cells.now) × (length sums.old ≡ length cells.now) }
    ensures answer { result ≡ block_answer (tested_smoothing cells.now weights.now) }
    ensures sums { sums.new ≡ sums_left cells.now weights.now sums.old }
{
    smooth_tests::tested(cells, weights)?;
    cyclic_sums::fill_sums(cells, weights, turned, sums);
    Ok(())
}

// The same of a block and weights that are taken. Cells, weights and p stay parameters, and what is accepted a clause: it speaks of cells that are changed.
fn smooth_taken(cells: &mut [i64], weights: &[i64], p: usize)
    requires { Accepted p cells.old weights.now }
    ensures { cells.new ≡ cyclic_sums cells.old weights.now }
{
    if cells.len() <= SHORT {
        cyclic_sums::sum_cells(cells, weights);
    } else {
        smooth_by_spectra(cells, weights, p);
    }
}

// The same by way of the spectra, with room by the number of cells.
fn smooth_by_spectra(cells: &mut [i64], weights: &[i64], p: usize)
    requires { (3 ≤ p) × Accepted p cells.old weights.now }
    ensures { cells.new ≡ smoothed CHOSEN p cells.old weights.now }
{
    if cells.len() <= MIDDLE {
        smooth_in_rooms::<MIDDLE, MIDDLE_QUARTER>(cells, weights, p);
    } else {
        smooth_in_rooms::<LARGEST, LARGEST_QUARTER>(cells, weights, p);
    }
}

// The same with rooms for so many cells and so many cosines.
fn smooth_in_rooms<const CELLS: usize, const COSINES: usize>(
    cells: &mut [i64],
    weights: &[i64],
    p: usize,
)
    requires le_p { (3 ≤ p) × Accepted p cells.old weights.now }
    requires rooms { (length cells.old ≤ CELLS) × (length cells.old / 4 < COSINES) }
    requires few { (CELLS ≤ 1024) × (COSINES ≤ 1024) }
    ensures { cells.new ≡ smoothed CHOSEN p cells.old weights.now }
{
    let len = cells.len();
    let mut spectrum = [0i64; CELLS];
    let mut quarter = [0i64; COSINES];
    smooth_in(
        cells,
        weights,
        &mut spectrum[..len],
        &mut quarter[..len / 4 + 1],
        p,
    );
}

// The same in rooms for the spectrum of the weights and for the cosines. That of the block is made in its own cells.
fn smooth_in(
    cells: &mut [i64],
    weights: &[i64],
    spectrum: &mut [i64],
    quarter: &mut [i64],
    p: usize,
)
    requires le_p { (3 ≤ p) × Accepted p cells.old weights.now }
    requires spectrum_len { (length spectrum.old ≡ length cells.old) × (length quarter.old ≡ length cells.old / 4 + 1) }
    ensures { cells.new ≡ smoothed CHOSEN p cells.old weights.now }
{
    exact_quarter::fill_quarter(quarter, p - 2);
    cyclic_sums::copy(weights, spectrum);
    exact_levels::transform(spectrum, quarter, p);
    exact_levels::transform(cells, quarter, p);
    combine(cells, spectrum);
    exact_levels::transform(cells, quarter, p);
    restore(cells, p);
}

// The lines of two spectra combined, in the cells of the first: each line with its opposite. Lines 0 and N/2 are their own opposites.
fn combine(cells: &mut [i64], spectrum: &[i64])
    requires { Spectra cells.old spectrum.now }
    ensures { Stands FIRST (length cells.old) (combined (length cells.old) cells.old spectrum.now) cells.new }
{
    combine_lines(cells, spectrum, 0, 0);
    for v in 1..cells.len() / 2 + 1 {
        let opposite = cells.len() - v;
        combine_lines(cells, spectrum, v, opposite);
    }
}

// Line v and its opposite: both take the even part of the second spectrum; line v takes its odd part as it is, the opposite line with the other sign.
fn combine_lines(cells: &mut [i64], spectrum: &[i64], v: usize, opposite: usize)
    requires { Lines v opposite cells.old spectrum.now }
    ensures { cells.new ≡ lines_combined v opposite cells.old spectrum.now }
{
    let even = halved(spectrum[v] + spectrum[opposite]);
    let odd = halved(spectrum[v] - spectrum[opposite]);
    let x = residues::folded(cells[v]);
    let y = residues::folded(cells[opposite]);
    cells[v] = residues::folded(x * even + y * odd);
    cells[opposite] = residues::folded(y * even - x * odd);
}

// A half of z modulo 2^31 − 1.
fn halved(z: i64) -> i64
    requires { LineRoom z }
    ensures { result ≡ centred (residue (divided 1 z)) }
{
    residues::centred(residues::folded(z) * HALF)
}

// The cells of a block of 2^p from the spectrum of its spectrum.
fn restore(cells: &mut [i64], p: usize)
    requires { (1 ≤ p) × (p ≤ 10) × ((i : ℕ) → LineRoom (cell cells.old i)) }
    ensures { cells.new ≡ map (restored p) cells.old }
{
    for z in cells.iter_mut() {
        *z = restored(p, *z);
    }
}

// One of them: z divided by 2^p modulo 2^31 − 1, that is, times 2^(31 − p), as the number between −(2^30 − 1) and 2^30 − 1.
fn restored(p: usize, z: i64) -> i64
    requires { (1 ≤ p) × (p ≤ 10) × LineRoom z }
    ensures { result ≡ restored p z }
{
    residues::centred(residues::folded(z) * (1 << (31 - p)))
}
