// The engine: the forward and the backward spectrum of a block, in its own cells (document 01, Levels).
#![tactic(auto)]

ghost use Rattle.std.specs.Prelude.{◌≡◌, [], map, ◌^◌, ◌≤◌, OnOk};
ghost use Rattle.ints.specs.Quotient.{rounded};
ghost use Rattle.kind.specs.BlockKinds.{SCALE_DIGITS};
ghost use Rattle.block.specs.Tests.{tested_samples, tested_spectrum};
ghost use Rattle.block.specs.Transformable.{Transformable};
ghost use Rattle.block.specs.BlockAnswers.{block_answer, verdict_numbers, answer_numbers};
ghost use Rattle.spectrum.specs.Spectrum.{levels_at, forward};
ghost use Rattle.levels.specs.Ready.{Serves};
ghost use Rattle.hartley.specs.Promises.{FirstLineExact, NearDirectSum, NegativeBlock, NegativeSpectrum, backward_left, forward_left};
ghost use Rattle.hartley.specs.Inner.{CanDivide, CanRunLevels};

use ints::Scale;
use kind::{BlockKind, Moment};
use refusal::Refusal;

// The forward spectrum of a block of samples, which it replaces.
pub fn forward(cells: &mut [i64]) -> Result<(), Refusal>
    ensures answer { result ≡ block_answer (tested_samples cells.old) }
    ensures numbers { answer_numbers result ≡ verdict_numbers (tested_samples cells.old) }
    ensures cells { cells.new ≡ forward_left cells.old }
    ensures distance { OnOk result (NearDirectSum cells.old cells.new) }
    ensures first_line { OnOk result (FirstLineExact cells.old cells.new) }
    ensures negative { OnOk result (NegativeSpectrum cells.old cells.new) }
{
    let kind = block::tested_samples(cells)?;
    transform(cells, kind.p);
    Ok(())
}

// The same steps on a lent spectrum, then each cell divided by their number with rounding, in the spectrum's place.
pub fn backward(cells: &mut [i64]) -> Result<(), Refusal>
    ensures answer { result ≡ block_answer (tested_spectrum [] cells.old) }
    ensures numbers { answer_numbers result ≡ verdict_numbers (tested_spectrum [] cells.old) }
    ensures cells { cells.new ≡ backward_left cells.old }
    ensures negative { NegativeBlock cells.old cells.new }
{
    let kind = block::tested_spectrum(&[], cells)?;
    transform(cells, kind.p);
    divide(cells, kind.p);
    Ok(())
}

// Permutes the 2^p cells and runs all levels on them. Cells and p stay two parameters, and what is taken a clause: it speaks of cells that are changed.
fn transform(cells: &mut [i64], p: usize)
    requires { Transformable p cells.old }
    ensures { cells.new ≡ forward p cells.old }
{
    if p <= 2 {
        transform_short(cells, p);
    } else if p == 3 {
        transform_eight(cells);
    } else {
        permutation::permute(cells, p);
        run_levels(cells, p);
    }
}

// The same of two cells, which stay where they are, or of four, of which the middle two are exchanged. Their levels need no table.
fn transform_short(cells: &mut [i64], p: usize)
    requires { (p ≤ 2) × Transformable p cells.old }
    ensures { cells.new ≡ forward p cells.old }
{
    if p == 1 {
        levels::join_two(cells);
    } else {
        permutation::exchange(cells, Moment(1), Moment(2));
        levels::join_four(cells);
    }
}

// The same of eight cells, of which two pairs change places.
fn transform_eight(cells: &mut [i64])
    requires { Transformable 3 cells.old }
    ensures { cells.new ≡ forward 3 cells.old }
{
    permutation::exchange(cells, Moment(1), Moment(4));
    permutation::exchange(cells, Moment(3), Moment(6));
    run_levels(cells, 3);
}

// Levels 1 to p of permuted cells, up to 64 of them by each sixteenth entry of the quarter table, which is set up sooner than all entries.
fn run_levels(cells: &mut [i64], p: usize)
    requires { CanRunLevels p cells.old }
    ensures { cells.new ≡ levels_at SCALE_DIGITS p cells.old }
{
    if p <= 6 {
        run_by_table(cells, &quarter::coarse_table(), p);
    } else {
        run_by_all_entries(cells, p);
    }
}

// The same by all entries. It is a function of its own since one that has a table clears room for it as it begins, which shorter blocks do without.
fn run_by_all_entries(cells: &mut [i64], p: usize)
    requires { CanRunLevels p cells.old }
    ensures { cells.new ≡ levels_at SCALE_DIGITS p cells.old }
{
    run_by_table(cells, &quarter::quarter_table(), p);
}

// The same by a table that serves them. The levels are called from here alone, so that the scale in force is a constant in their loops.
fn run_by_table(cells: &mut [i64], quarter: &[u32], p: usize)
    requires { CanRunLevels p cells.old × Serves SCALE_DIGITS p quarter.now }
    ensures { cells.new ≡ levels_at SCALE_DIGITS p cells.old }
{
    levels::join_levels(cells, quarter, Scale::by(BlockKind::SCALE_DIGITS), p);
}

// Divides each cell of 2^p by their number with rounding.
fn divide(cells: &mut [i64], p: usize)
    requires { CanDivide p cells.old }
    ensures { cells.new ≡ map (rounded (2 ^ p)) cells.old }
{
    let scale = Scale::by(p);
    for x in cells.iter_mut() {
        *x = scale.rounded(*x);
    }
}
