// The levels of a block in its own cells (document 01, Levels 2), at a scale that is lent with its half. The quarter's cosines are lent: 2^t + 1 of them,
// equally apart, so that a level over halves of n cells takes each (2^t × 2 / n)th.
#![tactic(auto)]

ghost use Rattle.std.specs.Prelude.{◌≡◌, List, ℕ, ◌^◌, ◌≤◌, ℤ, length};
ghost use Rattle.spectrum.specs.Spectrum.{level_at, levels_at};
ghost use Rattle.levels.specs.Ready.{LARGEST_FIRST, LaterReady, LevelReady, NoneAbove, Ready};

use ints::Scale;

// Levels 1 to p of a block of 2^p cells, eight at least. Cells, quarter, scale and p are handed down one by one: each function takes its own part of the cells,
// of the quarter or of p, so that a value of all four would be made anew for each call.
pub fn join_levels(cells: &mut [i64], quarter: &[u32], scale: Scale, p: usize)
    requires { (3 ≤ p) × (length cells.old ≡ 2 ^ p) × Ready scale.digits p quarter.now cells.old }
    ensures { cells.new ≡ levels_at scale.digits p cells.old }
{
    join_first_levels(cells, quarter, scale);
    join_later_levels(cells, quarter, scale, p);
}

// Levels 1 to 3 of each eight cells, by the middle of the quarter; with its ends that is a table of three entries.
fn join_first_levels(cells: &mut [i64], quarter: &[u32], scale: Scale)
    requires { Ready scale.digits 3 quarter.now cells.old }
    ensures { cells.new ≡ levels_at scale.digits 3 cells.old }
{
    let last = quarter.len() - 1;
    let eighths = [quarter[0], quarter[last / 2], quarter[last]];
    join_eights(cells, &eighths, scale);
}

// Levels 1 to 3 of each eight cells.
fn join_eights(cells: &mut [i64], quarter: &[u32], scale: Scale)
    requires { Ready scale.digits 3 quarter.now cells.old }
    ensures { cells.new ≡ levels_at scale.digits 3 cells.old }
{
    // By the number of the eight: of cells that were lent as chunks std promises how many they are, and not what they hold.
    for eight in 0..cells.len() / 8 {
        let base = eight * 8;
        join_eight(&mut cells[base..base + 8], quarter, scale);
    }
}

// The levels from the fourth on, of a block that has the first three behind it.
fn join_later_levels(cells: &mut [i64], quarter: &[u32], scale: Scale, p: usize)
    requires { LaterReady scale.digits p quarter.now cells.old }
    ensures { (xs : List ℤ) → cells.old ≡ levels_at scale.digits 3 xs → cells.new ≡ levels_at scale.digits p xs }
{
    let mut n = 8;
    let mut stride = (quarter.len() - 1) / 4;
    // By hand: half and stride run on, since to shift them out of a range's number takes 43 instructions more of 750 in a block of 16 cells.
    while n < cells.len() {
        join_level(cells, quarter, scale, n, stride);
        n = 2 * n;
        stride = stride / 2;
    }
}

// One level: joins neighbouring halves of n cells, pair by pair.
fn join_level(cells: &mut [i64], quarter: &[u32], scale: Scale, n: usize, stride: usize)
    requires { LevelReady scale.digits n stride quarter.now cells.old }
    ensures { cells.new ≡ level_at scale.digits n cells.old }
{
    let mut base = 0;
    // By hand: by the pair's number the compiler prepares a vectorised join at each level, 107 instructions more of 790 in a block of 16 cells.
    while base < cells.len() {
        let end = base + 2 * n;
        pair::join(&mut cells[base..end], quarter, scale, stride);
        base = end;
    }
}

// Levels 1 to 3 of eight cells: those of both fours, then the eight joined.
fn join_eight(cells: &mut [i64], quarter: &[u32], scale: Scale)
    requires { (length cells.old ≡ 8) × Ready scale.digits 3 quarter.now cells.old }
    ensures { cells.new ≡ levels_at scale.digits 3 cells.old }
{
    join_four(&mut cells[0..4]);
    join_four(&mut cells[4..8]);
    pair::join(cells, quarter, scale, (quarter.len() - 1) / 2);
}

// Levels 1 and 2 of four cells: level 1 of both twos, then the four joined. They need no product, and are the same at every scale.
pub fn join_four(cells: &mut [i64])
    requires { (length cells.old ≡ 4) × NoneAbove LARGEST_FIRST cells.old }
    ensures { (s : ℕ) → 4 ≤ s → s ≤ 22 → cells.new ≡ levels_at s 2 cells.old }
{
    join_two(&mut cells[0..2]);
    join_two(&mut cells[2..4]);
    pair::join_plain(cells, 2, 0);
    pair::join_plain(cells, 2, 1);
}

// Level 1 of two cells: their sum and their difference.
pub fn join_two(cells: &mut [i64])
    requires { (length cells.old ≡ 2) × NoneAbove LARGEST_FIRST cells.old }
    ensures { (s : ℕ) → 4 ≤ s → s ≤ 22 → cells.new ≡ levels_at s 1 cells.old }
{
    pair::join_plain(cells, 1, 0);
}
