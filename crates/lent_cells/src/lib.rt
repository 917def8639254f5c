// Cells that are lent as bytes (document 01, Parts of the engine): the rooms that they are read into, what is written back, and why tests of the cells that
// are read suffice (proofs/).
#![tactic(auto)]

ghost use Rattle.std.specs.Prelude.{◌≡◌, ◌*◌, ◌≤◌, length};
ghost use Rattle.std.specs.Fn.{FnOnceReturnsAt};
ghost use Rattle.kind.specs.BlockKinds.{LARGEST};
ghost use Rattle.little_endian.specs.Reading.{signeds};
ghost use Rattle.cell_bytes.specs.CellBytes.{CELL, cell_count, cells_read};
ghost use Rattle.lent_cells.specs.BytesLeft.{written_back};
ghost use Rattle.lent_cells.specs.Rooms.{CalledInPlace};

use cell_bytes::CELL;
use kind::BlockKind;
use refusal::Refusal;

// The cells of a small room. A call clears its room, and a small block should not wait for the room of the largest. Rooms are arrays, here and in the crates above:
// the project has no heap, and fixed memory.
pub const SMALL: usize = 16;

// The cells of a middle room.
pub const MIDDLE: usize = 128;

// The cells of a room for any block.
pub const LARGEST: usize = BlockKind::LARGEST;

// A call on the cells that the bytes spell, with room by their number. Lengths 2, 4 and 8 are named, so that the compiler works such a block in registers.
pub fn in_place<F: FnOnce(&mut [i64]) -> Result<(), Refusal>>(bytes: &mut [u8], call: F) -> u64
    requires { F.IsAlwaysCallable call }
    ensures { CalledInPlace F.FnOnce call bytes.old bytes.new result }
{
    match cell_bytes::cell_count(CELL * LARGEST, bytes.len()) {
        2 => in_room::<SMALL, F>(bytes, 2, call),
        4 => in_room::<SMALL, F>(bytes, 4, call),
        8 => in_room::<SMALL, F>(bytes, 8, call),
        len if len <= SMALL => in_room::<SMALL, F>(bytes, len, call),
        len if len <= MIDDLE => in_room::<MIDDLE, F>(bytes, len, call),
        len => in_room::<LARGEST, F>(bytes, len, call),
    }
}

// The same in a room of ROOM cells, of which the call takes those that are read.
fn in_room<const ROOM: usize, F: FnOnce(&mut [i64]) -> Result<(), Refusal>>(
    bytes: &mut [u8],
    len: usize,
    call: F,
) -> u64
    requires callable { F.IsAlwaysCallable call }
    requires room { (len ≤ ROOM) × (ROOM ≤ LARGEST) }
    requires counted { len ≡ cell_count (CELL * LARGEST) (length bytes.old) }
    ensures { CalledInPlace F.FnOnce call bytes.old bytes.new result }
{
    let mut room = [0i64; ROOM];
    let cells = &mut room[..len];
    read_cells(bytes, cells);
    let answer = packing::packed(call(cells));
    write_back(answer, cells, bytes);
    answer
}

// What `work` makes of the cells that the bytes spell, which are read into a room by their number.
pub fn with_cells<R, F: FnOnce(&[i64]) -> R>(bytes: &[u8], work: F) -> R
    requires { F.IsAlwaysCallable work }
    ensures { FnOnceReturnsAt F.FnOnce work (cells_read (CELL * LARGEST) bytes.now) result }
{
    match cell_bytes::cell_count(CELL * LARGEST, bytes.len()) {
        len if len <= SMALL => with_room::<SMALL, R, F>(bytes, len, work),
        len if len <= MIDDLE => with_room::<MIDDLE, R, F>(bytes, len, work),
        len => with_room::<LARGEST, R, F>(bytes, len, work),
    }
}

// The same in a room of ROOM cells.
fn with_room<const ROOM: usize, R, F: FnOnce(&[i64]) -> R>(bytes: &[u8], len: usize, work: F) -> R
    requires callable { F.IsAlwaysCallable work }
    requires room { (len ≤ ROOM) × (ROOM ≤ LARGEST) }
    requires counted { len ≡ cell_count (CELL * LARGEST) (length bytes.now) }
    ensures { FnOnceReturnsAt F.FnOnce work (cells_read (CELL * LARGEST) bytes.now) result }
{
    let mut room = [0i64; ROOM];
    let cells = &mut room[..len];
    read_cells(bytes, cells);
    work(cells)
}

// Reads as many cells as there is room for, from as many bytes as they take. The compiler then makes it one copy, and clears the rest of the room alone.
fn read_cells(bytes: &[u8], cells: &mut [i64])
    requires { CELL * length cells.old ≤ length bytes.now }
    ensures { cells.new ≡ signeds CELL (length cells.old) bytes.now }
{
    cell_bytes::decode(&bytes[..CELL * cells.len()], cells);
}

// Writes a call's cells to the lent bytes, unless its answer refuses. The answer is the plain number that a host in C is given, so that it is told what was
// written.
pub fn write_back(answer: u64, cells: &[i64], bytes: &mut [u8])
    ensures { bytes.new ≡ written_back answer cells.now bytes.old }
{
    if answer % 256 == 0 {
        cell_bytes::encode(cells, bytes);
    }
}
