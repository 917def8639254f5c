// Numbers as text (document 01, Listing program), each with the byte that comes after it in a line, straight into lent bytes.
#![tactic(auto)]

ghost use Rattle.std.specs.Prelude.{◌≡◌, ◌+◌, ◌%◌, ◌≤◌, ◌<◌, ◌↔◌, IsTrue, length};
ghost use Rattle.ints.specs.Written.{written};
ghost use Rattle.text.specs.Decimals.{PutField, decimal, digit, signed_decimal};

// Puts x in decimal and the byte after it at a place of the lent bytes, and answers the place after them. Where there is no room for all of it, nothing is put
// and the place itself is answered.
pub fn put_decimal(x: u64, after: u8, out: &mut [u8], at: usize) -> usize
    ensures put { at + length (decimal x) + 1 ≤ length out.old → PutField (decimal x) after out.old at out.new result }
    ensures kept { length out.old < at + length (decimal x) + 1 → (out.new ≡ out.old) × (result ≡ at) }
{
    let digits = count_digits(x);
    if !has_room(digits, out.len(), at) {
        return at;
    }
    put_field(x, digits, after, out, at)
}

// The same with a minus sign in front where x is negative.
// Beside `put_decimal`, which it calls: u64 and i64 have no type in common that holds both, and only this one has a sign to find room for.
pub fn put_signed(x: i64, after: u8, out: &mut [u8], at: usize) -> usize
    ensures put { at + length (signed_decimal x) + 1 ≤ length out.old → PutField (signed_decimal x) after out.old at out.new result }
    ensures kept { length out.old < at + length (signed_decimal x) + 1 → (out.new ≡ out.old) × (result ≡ at) }
{
    let size = ints::magnitude(x);
    if x >= 0 {
        return put_decimal(size, after, out, at);
    }
    let digits = count_digits(size);
    if !has_room(digits + 1, out.len(), at) {
        return at;
    }
    out[at] = b'-';
    put_field(size, digits, after, out, at + 1)
}

// Whether there is room from a place on for so many bytes and one more.
fn has_room(bytes: usize, len: usize, at: usize) -> bool
    ensures { IsTrue result ↔ (at + bytes + 1 ≤ len) }
{
    at < len && bytes < len - at
}

// Puts x, which has so many digits, and the byte after it.
fn put_field(x: u64, digits: usize, after: u8, out: &mut [u8], at: usize) -> usize
    requires { (digits ≡ length (decimal x)) × (at + digits + 1 ≤ length out.old) }
    ensures { PutField (decimal x) after out.old at out.new result }
{
    let end = at + digits;
    out[end] = after;
    put_digits(x, out, at, end);
    end + 1
}

// How many digits x has.
fn count_digits(x: u64) -> usize
    ensures { result ≡ length (decimal x) }
{
    x.checked_ilog10().unwrap_or(0) as usize + 1
}

// Puts the digits of x from one place to another, the last first.
// By hand: itoa writes into a buffer of its own, from which the digits would be copied once more.
fn put_digits(x: u64, out: &mut [u8], at: usize, end: usize)
    requires { (end ≡ at + length (decimal x)) × (end ≤ length out.old) }
    ensures { out.new ≡ written out.old at (decimal x) }
{
    let mut rest = x;
    for i in (at..end).rev() {
        out[i] = last_digit(rest);
        rest /= 10;
    }
}

// The last digit of x.
fn last_digit(x: u64) -> u8
    ensures { result ≡ digit (x % 10) }
{
    b'0' + (x % 10) as u8
}
