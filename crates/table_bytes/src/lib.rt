// The quarter table in cells that are bytes, for hosts in C (document 02, Item 8; document 01, Parts of the engine).
#![tactic(auto)]

ghost use Rattle.std.specs.Prelude.{◌≡◌, ◌+◌, ◌*◌, ◌≤◌, pos, length};
ghost use Rattle.ints.specs.Written.{Put};
ghost use Rattle.little_endian.specs.Spelling.{spelled_signed, spelled_signeds};
ghost use Rattle.cell_bytes.specs.CellBytes.{CELL};
ghost use Rattle.table_bytes.specs.TableLeft.{as_cells, table_answer, table_left};

use cell_bytes::CELL;
use refusal::Refusal;

// The cells of the table.
pub const TABLE_CELLS: usize = 257;

// The engine's quarter table, T(0) to T(256), in the lent bytes, which are as many cells.
pub fn table(bytes: &mut [u8]) -> Result<(), Refusal>
    ensures answer { result ≡ table_answer bytes.old }
    ensures bytes { bytes.new ≡ table_left (table_answer bytes.old) bytes.old }
{
    if cell_bytes::fit_count(TABLE_CELLS, bytes.len()) != TABLE_CELLS {
        return Err(Refusal::Misfit);
    }
    put_numbers(&table_rule::quarter_table(), bytes);
    Ok(())
}

// Each number as a cell. Beside the loop of `table_text`: one function of both would take `put_number`, its width and its text as parameters, which are more than
// these lines.
fn put_numbers(numbers: &[u32], bytes: &mut [u8])
    requires { length bytes.old ≡ CELL * length numbers.now }
    ensures { bytes.new ≡ spelled_signeds CELL (as_cells numbers.now) }
{
    let mut at = 0;
    for number in numbers {
        at = put_number(*number, bytes, at);
    }
}

// A number as a cell, at a place of the lent bytes; the answer is the place after it.
fn put_number(number: u32, bytes: &mut [u8], at: usize) -> usize
    requires { at + CELL ≤ length bytes.old }
    ensures { Put (spelled_signed CELL (pos number)) bytes.old at bytes.new result }
{
    cell_bytes::put_cell(i64::from(number), bytes, at)
}
