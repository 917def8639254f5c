// The exact spectrum of a block in its own cells (document 02, Item 7): permuted, then joined level by level, by the chosen pair's cosines over a quarter of
// the turn, which are lent: 2^t + 1 of them, equally apart, for 4 × 2^t cells. A level doubles the limit on all cells, so that none is ever above 2^44.
#![tactic(auto)]

ghost use Rattle.std.specs.Prelude.{◌≡◌, List, ◌*◌, ◌^◌, ℤ, length};
ghost use Rattle.ints.specs.Cells.{cell};
ghost use Rattle.exact_pair.specs.Pair.{FIRST, Stands};
ghost use Rattle.exact_levels.specs.Ready.{FourReady, LaterReady, LevelReady, LevelsReady, exact_joined, exact_levels, exact_transformed};

// Permutes the 2^p cells and runs all levels on them. Cells and p stay two parameters: the cells are lent anew at each call.
pub fn transform(cells: &mut [i64], quarter: &[i64], p: usize)
    requires { LevelsReady p quarter.now cells.old }
    ensures { Stands (2 ^ p * FIRST) (2 ^ p) (cell (exact_transformed p cells.old)) cells.new }
{
    permutation::permute(cells, p);
    join_levels(cells, quarter, p);
}

// Levels 1 to p of a block of 2^p cells, four at least.
fn join_levels(cells: &mut [i64], quarter: &[i64], p: usize)
    requires { LevelsReady p quarter.now cells.old }
    ensures { Stands (2 ^ p * FIRST) (2 ^ p) (cell (exact_levels p cells.old)) cells.new }
{
    join_fours(cells);
    join_later_levels(cells, quarter, p);
}

// Levels 1 and 2 of each four cells.
fn join_fours(cells: &mut [i64])
    requires { FourReady cells.old }
    ensures { Stands (4 * FIRST) (length cells.old) (cell (exact_levels 2 cells.old)) cells.new }
{
    // By the number of the four: of cells that were lent as chunks std promises how many they are, and not what they hold.
    for four in 0..cells.len() / 4 {
        let base = four * 4;
        join_four(&mut cells[base..base + 4]);
    }
}

// Levels 1 and 2 of four cells, which need no product. It does what `levels::join_four` does, and stays beside it: that promises an equation with the levels at a
// scale, this a residue within a limit. The same holds of `join_later_levels`.
fn join_four(cells: &mut [i64])
    requires { (length cells.old ≡ 4) × FourReady cells.old }
    ensures { Stands (4 * FIRST) 4 (cell (exact_levels 2 cells.old)) cells.new }
{
    let a = cells[0] + cells[1];
    let b = cells[0] - cells[1];
    let c = cells[2] + cells[3];
    let d = cells[2] - cells[3];
    cells[0] = a + c;
    cells[1] = b + d;
    cells[2] = a - c;
    cells[3] = b - d;
}

// The levels from the third on, of a block that has the first two behind it.
fn join_later_levels(cells: &mut [i64], quarter: &[i64], p: usize)
    requires { LaterReady p quarter.now cells.old }
    ensures { (xs : List ℤ) → length xs ≡ 2 ^ p → Stands (4 * FIRST) (2 ^ p) (cell (exact_levels 2 xs)) cells.old → Stands (2 ^ p * FIRST) (2 ^ p) (cell (exact_levels p xs)) cells.new }
{
    for done in 2..p {
        join_level(cells, quarter, done);
    }
}

// The level after so many: joins neighbouring halves of 2^done cells, pair by pair. Half of such cells take the whole quarter. It has the shape of
// `levels::join_level`, and stays beside it: there the cells are equal to a definition's at a scale, here they stand for a definition's within a limit.
fn join_level(cells: &mut [i64], quarter: &[i64], done: usize)
    requires { LevelReady done quarter.now cells.old }
    ensures { Stands (2 * 2 ^ done * FIRST) (length cells.old) (exact_joined (2 ^ done) (cell cells.old)) cells.new }
{
    let n = 1 << done;
    let stride = (quarter.len() - 1) >> (done - 1);
    // By the number of the pair, as in `join_fours`.
    for block in 0..cells.len() >> (done + 1) {
        let base = block * (2 * n);
        exact_pair::join(&mut cells[base..base + 2 * n], quarter, stride);
    }
}
