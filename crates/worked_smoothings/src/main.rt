// Document 02, Item 7: smoothings worked by hand, run. What is printed is held to the file stdout, which was worked by hand from the document.
#![tactic(auto)]

ghost use Rattle.std.specs.Prelude.{◌<◌, length};

use printing::Cells;
use refusal::Refusal;
use std::io;

fn main(rt: HostRuntime) -> io::Result<()> {
    shifts(&rt)?;
    sums(&rt)?;
    limits(&rt)?;
    long_blocks(&rt)?;
    refusals(&rt)
}

// One weight that is not 0 moves the block round the cycle, and multiplies it.
fn shifts(rt: &impl Print) -> io::Result<()> {
    smooth(rt, &mut [1, 2, 3, 4], &[1, 0, 0, 0])?;
    smooth(rt, &mut [1, 2, 3, 4], &[0, 1, 0, 0])?;
    smooth(rt, &mut [1, 2, 3, 4], &[0, 0, 0, 1])?;
    smooth(rt, &mut [1, 2, 3, 4], &[0, 0, -3, 0])
}

// More than one weight that is not 0.
fn sums(rt: &impl Print) -> io::Result<()> {
    smooth(rt, &mut [3, -5], &[2, 1])?;
    smooth(rt, &mut [1, 2, 3, 4], &[20000, -12767, 0, 0])?;
    smooth(rt, &mut [1, 2, 3, 4, 5, 6, 7, 8], &[1, 1, 0, 0, 0, 0, 0, 0])?;
    smooth(
        rt,
        &mut [10, 0, 0, 0, 0, 0, 0, 0],
        &[3, 2, 1, 0, 0, 0, 1, 2],
    )
}

// The largest results.
fn limits(rt: &impl Print) -> io::Result<()> {
    smooth(rt, &mut [-32768, -32768], &[32767, 0])?;
    smooth(rt, &mut [-32768, -32768], &[-16383, -16384])
}

// Blocks that are smoothed by way of their spectra: one sample and one weight, and all alike.
fn long_blocks(rt: &impl Print) -> io::Result<()> {
    smooth_pulse(
        rt,
        "smooth 64 cells, a sample and a weight",
        &mut [0; 64],
        &mut [0; 64],
        (10, 32767),
        (60, -32767),
    )?;
    smooth_pulse(
        rt,
        "smooth 128 cells, a sample and a weight",
        &mut [0; 128],
        &mut [0; 128],
        (127, -32768),
        (127, 32767),
    )?;
    smooth_pulse(
        rt,
        "smooth 1024 cells, a sample and a weight",
        &mut [0; 1024],
        &mut [0; 1024],
        (700, 5),
        (324, -7),
    )?;
    smooth_alike(rt, "smooth 64 cells, all alike", &mut [-3; 64], &[511; 64])?;
    smooth_alike(
        rt,
        "smooth 1024 cells, all alike",
        &mut [-32768; 1024],
        &[31; 1024],
    )
}

// 1, 2, 3 and 20 in turn, and 20 where the running sum passes its limit, whatever comes after.
fn refusals(rt: &impl Print) -> io::Result<()> {
    smooth(rt, &mut [], &[])?;
    smooth(rt, &mut [40000, 1, 2], &[])?;
    smooth(rt, &mut [1, 2, 3, 40000], &[40000, 2, 3])?;
    smooth(rt, &mut [1, 2, 3, 40000], &[40000, 2, 3, 4])?;
    smooth(rt, &mut [1, 2, 3, 4], &[20000, -12767, 0, -1])?;
    smooth(rt, &mut [1, 2, 3, 4], &[32767, 1, -1, 0])?;
    smooth(rt, &mut [1, 2, 3, 4], &[-32768, 0, 0, 0])?;
    smooth(rt, &mut [1, 2, 3, 4], &[1, 9223372036854775807, 0, 0])?;
    smooth(rt, &mut [1, 2, 3, 4], &[-9223372036854775808, 0, 0, 0])
}

// What is left of a block that is smoothed by weights.
fn smooth(rt: &impl Print, cells: &mut [i64], weights: &[i64]) -> io::Result<()> {
    print!(rt; "smooth{}", Cells(cells))?;
    print!(rt; " by{}", Cells(weights))?;
    print_answer(rt, smoothing::smooth(cells, weights))?;
    println!(rt; "{}", Cells(cells))
}

// The same of silent cells but for one sample, by weights that are 0 but for one, each at its place; with each cell that is not 0 afterwards.
fn smooth_pulse(
    rt: &impl Print,
    text: &str,
    cells: &mut [i64],
    weights: &mut [i64],
    sample: (usize, i64),
    weight: (usize, i64),
) -> io::Result<()>
    requires { (sample.0 < length cells.old) × (weight.0 < length weights.old) }
{
    cells[sample.0] = sample.1;
    weights[weight.0] = weight.1;
    print!(rt; "{text}")?;
    print_answer(rt, smoothing::smooth(cells, weights))?;
    print_moments(rt, cells)
}

// The same, with the first cell afterwards and the last.
fn smooth_alike(rt: &impl Print, text: &str, cells: &mut [i64], weights: &[i64]) -> io::Result<()> {
    print!(rt; "{text}")?;
    print_answer(rt, smoothing::smooth(cells, weights))?;
    if let [first, .., last] = cells {
        print!(rt; " {first} {last}")?;
    }
    println!(rt)
}

// Each cell that is not 0, after its moment.
fn print_moments(rt: &impl Print, cells: &[i64]) -> io::Result<()> {
    for (moment, cell) in cells.iter().enumerate() {
        if *cell != 0 {
            print!(rt; " at {moment} {cell}")?;
        }
    }
    println!(rt)
}

// The refusal, if there is one, after a colon.
fn print_answer(rt: &impl Print, answer: Result<(), Refusal>) -> io::Result<()> {
    match answer {
        Ok(()) => print!(rt; ":"),
        Err(refusal) => print!(rt; ": {refusal}"),
    }
}
