// The bound of a block whose cells are bytes, for hosts in C (document 02, Item 6). It is that of `distance`; the bytes of a cell are read where they stand,
// so nothing is copied.
#![tactic(auto)]

ghost use Rattle.std.specs.Prelude.{◌≡◌};
ghost use Rattle.cell_bytes.specs.CellBytes.{cells_in};
ghost use Rattle.distance.specs.BoundAnswers.{bound_answer};

use cell_bytes::LentCells;
use refusal::Refusal;

// The bound of the block that the bytes spell.
pub fn bound(bytes: &[u8]) -> Result<u64, Refusal>
    ensures { result ≡ bound_answer (cells_in bytes.now) }
{
    distance::bound_of(LentCells(bytes))
}
