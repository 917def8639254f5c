// The whole square root, of a number of 64 bits and of one of 122.
#![tactic(auto)]

ghost use Rattle.std.specs.Prelude.{◌≡◌, ◌+◌, ◌*◌, ◌^◌, ◌≤◌, ◌<◌};
ghost use Rattle.cosine.specs.Root.{root};

// The whole square root of x, rounded down.
pub fn root(x: u64) -> u64
    ensures root { result ≡ root x }
    ensures low { result * result ≤ x }
    ensures high { x < (result + 1) * (result + 1) }
{
    digits_of(x, 0)
}

// The whole square root of x × 4^29, rounded down.
pub fn long_root(x: u64) -> u64
    ensures { result ≡ root (x * 4 ^ 29) }
{
    digits_of(x, 29)
}

// The whole square root of x × 4^more, as by hand: for each digit of the root the next two digits of the number are brought down beside the rest, and the
// digit is 1 where 4 root + 1 can be taken from them. Rest and trial stay below 2^63. By hand, though std has `isqrt`: that would take numbers of 128 digits for
// the longer product, and the wrong programs that leave out or double a step are of this loop.
fn digits_of(x: u64, more: usize) -> u64
    requires { more ≤ 29 }
    ensures { result ≡ root (x * 4 ^ more) }
{
    let mut root: u64 = 0;
    let mut rest: u64 = 0;
    let mut left = x;
    for digit in 0..32 + more {
        let brought = 4 * rest + (left >> 62);
        let trial = 4 * root + 1;
        left <<= 2;
        if trial <= brought {
            rest = brought - trial;
            root = 2 * root + 1;
        } else {
            rest = brought;
            root = 2 * root;
        }
    }
    root
}
