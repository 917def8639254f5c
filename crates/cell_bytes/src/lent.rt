// Lent bytes as the list of cells that they spell, for code that is written once for any list of cells. A cell is read where its bytes stand.
ghost use Rattle.cell_bytes.specs.CellBytes.{cells_in};

use cells::Cells;

// Bytes that spell cells. Where a byte is left over they spell none.
#[derive(Clone, Copy)]
pub struct LentCells<'a>(pub &'a [u8]);

impl<'a> Cells for LentCells<'a> {
    ghost list = { λ lent. cells_in lent.0.now };

    fn len(self) -> usize {
        crate::cell_count(self.0.len(), self.0.len())
    }

    fn cell(self, i: usize) -> i64 {
        crate::cell_at(self.0, i)
    }
}
