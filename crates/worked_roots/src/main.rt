// Whole square roots (document 01, Cosines), run. What is printed is held to the file stdout, which was worked by hand.
#![tactic(auto)]

use std::io::Result;

fn main(rt: HostRuntime) -> Result<()> {
    // squares, and the numbers before and after them
    root_of(&rt, 0)?;
    root_of(&rt, 1)?;
    root_of(&rt, 3)?;
    root_of(&rt, 4)?;
    root_of(&rt, 8)?;
    root_of(&rt, 9)?;
    root_of(&rt, 10)?;
    root_of(&rt, 4294967295)?;
    root_of(&rt, 4294967296)?;
    root_of(&rt, 18446744065119617024)?;
    root_of(&rt, 18446744065119617025)?;
    root_of(&rt, 18446744073709551615)?;
    // x × 4^29: its root is 2^29 times that of x, and then rounded down; of 2^61 it is F(128)
    long_root_of(&rt, 0)?;
    long_root_of(&rt, 1)?;
    long_root_of(&rt, 2)?;
    long_root_of(&rt, 4)?;
    long_root_of(&rt, 2305843009213693952)?;
    long_root_of(&rt, 4611686018427387904)?;
    long_root_of(&rt, 18446744073709551615)
}

// The root of x.
fn root_of(rt: &impl Print, x: u64) -> Result<()> {
    println!(rt; "root of {x}: {}", roots::root(x))
}

// The root of x × 4^29.
fn long_root_of(rt: &impl Print, x: u64) -> Result<()> {
    println!(rt; "long root of {x}: {}", roots::long_root(x))
}
