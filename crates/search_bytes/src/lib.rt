// The search over a list of powers whose cells are bytes, for hosts in C (document 02, Item 2). It is that of `search`; the bytes of a line are read where
// they stand, and only those of the lines that are looked at, so nothing is copied.
#![tactic(auto)]

ghost use Rattle.std.specs.Prelude.{◌≡◌};
ghost use Rattle.cell_bytes.specs.CellBytes.{cells_in};
ghost use Rattle.search.specs.SearchAnswers.{as_found, nearest_answer, strongest_answer};

use cell_bytes::LentCells;
use kind::Line;
use refusal::Refusal;

// The strongest line from low to high of the powers that the bytes spell.
pub fn strongest(powers: &[u8], low: Line, high: Line) -> Result<Line, Refusal>
    ensures { as_found result ≡ strongest_answer (cells_in powers.now) low high }
{
    search::strongest_of(LentCells(powers), low, high)
}

// The line nearest to the chosen one that reaches the level, of the powers that the bytes spell; or none.
pub fn nearest(powers: &[u8], chosen: Line, level: i64) -> Result<Option<Line>, Refusal>
    ensures { result ≡ nearest_answer (cells_in powers.now) chosen level }
{
    search::nearest_of(LentCells(powers), chosen, level)
}
