// The permutation of a block in its own cells, by exchanges (document 01, Levels 1).
#![tactic(auto)]

ghost use Rattle.std.specs.Prelude.{◌≡◌, ℕ, ◌+◌, ◌*◌, ◌/◌, ◌^◌, ◌≤◌, ◌<◌, length};
ghost use Rattle.spectrum.specs.Levels.{permuted, reversed};
ghost use Rattle.permutation.specs.Inner.{exchanged, four_exchanged};

use kind::Moment;

// Brings each cell to the place whose p digits are those of its moment reversed. For each u the places 2u, 2u + 1, half + 2u and half + 2u + 1 have u's
// digits between their first and last; their partners have these reversed, so one count in reversed digits serves all four.
pub fn permute(cells: &mut [i64], p: usize)
    requires { (2 ≤ p) × (p ≤ 10) × (length cells.old ≡ 2 ^ p) }
    ensures { cells.new ≡ permuted p cells.old }
{
    let half = cells.len() / 2;
    let quarter = half / 2;
    let mut r = 0;
    for u in 0..quarter {
        exchange_four(cells, u, r, half);
        r = next_reversed(r, quarter / 2);
    }
}

// The exchanges of moments 2u, 2u + 1 and, half a block on, 2u + 1, each with its partner; r is u with its digits reversed.
fn exchange_four(cells: &mut [i64], u: usize, r: usize, half: usize)
    requires { (length cells.old ≡ 2 * half) × (2 * u + 1 < half) × (2 * r + 1 < half) × (half ≤ 512) }
    ensures { cells.new ≡ four_exchanged u r half cells.old }
{
    exchange(cells, Moment(2 * u + 1), Moment(half + 2 * r));
    if u < r {
        exchange(cells, Moment(2 * u), Moment(2 * r));
        exchange(
            cells,
            Moment(half + (2 * u + 1)),
            Moment(half + (2 * r + 1)),
        );
    }
}

// Exchanges the cells of two moments.
pub fn exchange(cells: &mut [i64], one: Moment, other: Moment)
    requires { (one.0 < length cells.old) × (other.0 < length cells.old) }
    ensures { cells.new ≡ exchanged one.0 other.0 cells.old }
{
    // By hand: `swap` compares its two places first, 26 instructions more of 920 in a block of 16 cells.
    let i = one.0;
    let j = other.0;
    let x = cells[i];
    cells[i] = cells[j];
    cells[j] = x;
}

// From the digits of a number reversed, those of the next number: it counts up from the highest digit on.
fn next_reversed(digits: usize, highest: usize) -> usize
    requires { highest ≤ 512 }
    ensures { (p i : ℕ) → highest ≡ 2 ^ p / 2 → digits ≡ reversed p i → result ≡ reversed p (i + 1) }
{
    let mut rest = digits;
    let mut digit = highest;
    // By hand: the digit halves from round to round, which no range counts.
    while 0 < digit {
        if rest < digit {
            return rest + digit;
        }
        rest -= digit;
        digit = digit / 2;
    }
    rest
}
