// Cells as bytes, for hosts in C: eight bytes each, two's complement, least byte first (document 01, Parts of the engine).
#![tactic(auto)]

ghost use Rattle.std.specs.Prelude.{◌≡◌, ◌+◌, ◌*◌, ◌≤◌, length};
ghost use Rattle.ints.specs.Written.{Put};
ghost use Rattle.little_endian.specs.Reading.{signeds};
ghost use Rattle.little_endian.specs.Spelling.{spelled_signed};
ghost use Rattle.cell_bytes.specs.CellBytes.{CELL, cell_at, cell_count, decoded, encoded, fit_count};

mod lent;

pub use lent::LentCells;

// The bytes of a cell.
pub const CELL: usize = 8;

// 0 is a count here and no mark: so many cells are read, and each call refuses a list of none by its own tests, as the definitions say.

// The number of cells that so many bytes are read as: 0, which no call on a block or a list takes, where a byte is left over or there are more than the most.
pub fn cell_count(most: usize, bytes: usize) -> usize
    ensures { (result ≡ cell_count most bytes) × (CELL * result ≤ most) }
{
    if bytes % CELL != 0 {
        return 0;
    }
    if most < bytes {
        return 0;
    }
    bytes / CELL
}

// The number of cells that so many bytes are read as where just `wanted` are asked for: these, or 0, which is too few for any.
pub fn fit_count(wanted: usize, bytes: usize) -> usize
    ensures { (result ≡ fit_count wanted bytes) × (result ≤ wanted) }
{
    if bytes / CELL != wanted {
        return 0;
    }
    if bytes != CELL * wanted {
        return 0;
    }
    wanted
}

// Reads as many cells as there is room for, from the front of the bytes. Where there are too few bytes for them, nothing is read.
pub fn decode(bytes: &[u8], cells: &mut [i64])
    ensures { cells.new ≡ decoded bytes.now cells.old }
{
    if bytes.len() < CELL * cells.len() {
        return;
    }
    decode_all(&bytes[..CELL * cells.len()], cells);
}

// Reads a cell from each eight bytes.
fn decode_all(bytes: &[u8], cells: &mut [i64])
    requires { length bytes.now ≡ CELL * length cells.old }
    ensures { cells.new ≡ signeds CELL (length cells.old) bytes.now }
{
    for (i, cell) in cells.iter_mut().enumerate() {
        *cell = cell_at(bytes, i);
    }
}

// The cell that the eight bytes from byte 8 i on spell.
pub fn cell_at(bytes: &[u8], i: usize) -> i64
    requires { CELL * i + CELL ≤ length bytes.now }
    ensures { result ≡ cell_at bytes.now i }
{
    let at = CELL * i;
    little_endian::signed_of_word(little_endian::unsigned_64(&bytes[at..at + CELL]))
}

// Writes cells as bytes. Where the bytes are not as many as the cells take, nothing is written.
pub fn encode(cells: &[i64], bytes: &mut [u8])
    ensures { bytes.new ≡ encoded cells.now bytes.old }
{
    if bytes.len() != CELL * cells.len() {
        return;
    }
    for (i, cell) in cells.iter().enumerate() {
        put_cell(*cell, bytes, CELL * i);
    }
}

// Puts a cell as its eight bytes at a place of the lent ones, and answers the place after them.
pub fn put_cell(x: i64, bytes: &mut [u8], at: usize) -> usize
    requires { at + CELL ≤ length bytes.old }
    ensures { Put (spelled_signed CELL x) bytes.old at bytes.new result × (result ≡ at + CELL) }
{
    little_endian::put::<CELL>(little_endian::word_of_signed(x), bytes, at)
}
