// Whole numbers modulo 2^31 − 1 (document 02, Item 7). A cell may be any number with the right residue, so that most steps need no exact residue.
#![tactic(auto)]

ghost use Rattle.std.specs.Prelude.{◌≡◌};
ghost use Rattle.residues.specs.Residue.{centred, residue};
ghost use Rattle.residues.specs.Folded.{folded};

// The modulus, 2^31 − 1, a prime.
const MODULUS: i64 = 2147483647;

// The least number that stands for one below 0: 2^30.
const UPPER_HALF: i64 = 1073741824;

// A number with the residue of x: as often as 2^31 goes into x, the modulus is taken away. Where x is at most h × 2^31 in magnitude, it is at most
// 2^31 + h: little more than 2^31 for a cell, and little more than 2^32 for two products.
pub fn folded(x: i64) -> i64
    ensures { result ≡ folded x }
{
    x - (x >> 31) * MODULUS
}

// The number between −(2^30 − 1) and 2^30 − 1 with the residue of x, for every x.
pub fn centred(x: i64) -> i64
    ensures { result ≡ centred (residue x) }
{
    let near = folded(folded(x));
    if near < UPPER_HALF {
        near
    } else {
        near - MODULUS
    }
}
