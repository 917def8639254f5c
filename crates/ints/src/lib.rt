// Whole numbers: the laws that later proofs cite (proofs/), the rounded quotient by a scale and the absolute value.
#![tactic(auto)]

ghost use Rattle.std.specs.Prelude.{◌≡◌, ◌^◌, ◌≤◌, nat_abs};
ghost use Rattle.ints.specs.Quotient.{Halved, rounded};

// x divided by 2^digits, rounded to the nearest whole number, halves away from zero (document 02, Item 1), where x leaves room for half of 2^digits.
// That half is added, one less where x is negative, and the shift rounds down: x >> 63 is -1 for a negative x and 0 for any other.
pub fn rounded(digits: usize, half: i64, x: i64) -> i64
    requires { Halved digits half × (nat_abs x ≤ 2 ^ 62) }
    ensures { result ≡ rounded (2 ^ digits) x }
{
    (x + half + (x >> 63)) >> digits
}

// A scale 2^digits, and half of it, which is added before the digits are cut off.
#[derive(Clone, Copy)]
pub struct Scale {
    pub digits: usize,
    pub half: i64,
    ghost halved: { Halved digits half },
}

impl Scale {
    // The scale of so many digits.
    pub fn by(digits: usize) -> Scale
        requires { (1 ≤ digits) × (digits ≤ 62) }
        ensures { result.digits ≡ digits }
    {
        Scale {
            digits,
            half: 1 << (digits - 1),
        }
    }

    // x divided by the scale, as `rounded` divides it.
    pub fn rounded(self, x: i64) -> i64
        requires { nat_abs x ≤ 2 ^ 62 }
        ensures { result ≡ rounded (2 ^ self.digits) x }
    {
        rounded(self.digits, self.half, x)
    }
}

// The absolute value of x, for every x: std's, under the name by which docs/PROMISES.md has it.
pub fn magnitude(x: i64) -> u64
    ensures { result ≡ nat_abs x }
{
    x.unsigned_abs()
}
