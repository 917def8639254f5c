// The quarter table as text in lent bytes, one number a line (document 02, Item 8).
#![tactic(auto)]

ghost use Rattle.std.specs.Prelude.{[], ◌∷◌, ◌≡◌, ◌+◌, ◌*◌, ◌≤◌, length};
ghost use Rattle.ints.specs.Written.{Put, written};
ghost use Rattle.kind.specs.BlockKinds.{SCALE_DIGITS};
ghost use Rattle.text.specs.Decimals.{decimal};
ghost use Rattle.text.specs.Lines.{text_line};
ghost use Rattle.table_text.specs.TableText.{LINE_BYTES, number_lines, table_text};

// Room for every table: 257 lines of ten digits and a line feed.
pub const ROOM: usize = 257 * 11;

// The engine's quarter table, in the lent bytes; the answer is how many it takes, which the clauses name, and the bytes after them are kept.
pub fn put_table(out: &mut [u8; ROOM]) -> usize
    ensures used { result ≡ length (table_text SCALE_DIGITS) }
    ensures text { out.new ≡ written out.old 0 (table_text SCALE_DIGITS) }
    ensures fits { result ≤ length out.new }
{
    put_numbers(&table_rule::quarter_table(), out)
}

// Each number in a line of its own, from the first of the lent bytes on.
fn put_numbers(numbers: &[u32], out: &mut [u8]) -> usize
    requires { LINE_BYTES * length numbers.now ≤ length out.old }
    ensures { Put (number_lines numbers.now) out.old 0 out.new result × (result ≤ length out.new) }
{
    let mut at = 0;
    for number in numbers {
        at = put_number(*number, out, at);
    }
    at
}

// A number in a line of its own.
fn put_number(number: u32, out: &mut [u8], at: usize) -> usize
    requires { at + LINE_BYTES ≤ length out.old }
    ensures { Put (text_line (decimal number ∷ [])) out.old at out.new result × (result ≤ at + LINE_BYTES) }
{
    text::put_decimal(u64::from(number), b'\n', out, at)
}
