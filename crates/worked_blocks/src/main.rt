// Document 01, Samples worked by hand: those of blocks, run. What is printed is held to the file stdout, which was worked by hand from the document.
#![tactic(auto)]

ghost use Rattle.std.specs.Prelude.{◌≡◌, ◌^◌, ◌≤◌, length, nat_abs};

use fourier::ScaledLine;
use ints::Scale;
use kind::{BlockKind, Line};
use printing::Cells;
use refusal::Refusal;
use std::io;

fn main(rt: HostRuntime) -> io::Result<()> {
    constants(&rt)?;
    // T at 0, 64, 128, 192, 256, and one step of each later quarter
    for step in [0, 64, 128, 192, 256, 384, 512, 704, 960, 1088] {
        cosine_at(&rt, step)?;
    }
    for step in [0, 64, 256, 448, 640, 768] {
        sine_at(&rt, step)?;
    }
    rounding_of(&rt, 8192 * 23170)?;
    rounding_of(&rt, -8192 * 23170)?;
    tested_length(&rt, 0)?;
    tested_length(&rt, 1)?;
    tested_length(&rt, 3)?;
    tested_length(&rt, 2048)?;
    tested_length(&rt, BlockKind::LARGEST)?;
    blocks(&rt)?;
    forward_of_zeros(&rt, 0)?;
    forward_of_zeros(&rt, 1)?;
    forward_of_zeros(&rt, 3)?;
    forward_of_zeros(&rt, BlockKind::LARGEST)?;
    forward_of_zeros(&rt, 2048)?;
    parts_and_powers(&rt)?;
    scaled_lines(&rt)
}

// The named constants of the block's kind.
fn constants(rt: &impl Print) -> io::Result<()> {
    println!(rt;
        "constants {} {} {} {}",
        BlockKind::LARGEST,
        BlockKind::TURN,
        BlockKind::SCALE,
        BlockKind::SCALE_DIGITS
    )
}

// The engine's cosine of a step.
fn cosine_at(rt: &impl Print, step: usize) -> io::Result<()> {
    println!(rt;
        "cosine {step} {}",
        quarter::cosine(&quarter::quarter_table(), step)
    )
}

// The engine's sine of a step.
fn sine_at(rt: &impl Print, step: usize) -> io::Result<()> {
    println!(rt;
        "sine {step} {}",
        quarter::sine(&quarter::quarter_table(), step)
    )
}

// The rounding of a level.
fn rounding_of(rt: &impl Print, x: i64) -> io::Result<()>
    requires { nat_abs x ≤ 2 ^ 62 }
{
    println!(rt;
        "rounded {x} {}",
        Scale::by(BlockKind::SCALE_DIGITS).rounded(x)
    )
}

// What the test of a block of samples says of so many zeros: the kind of a block that is taken, as P, or the refusal.
fn tested_length(rt: &impl Print, len: usize) -> io::Result<()>
    requires { len ≤ 2048 }
{
    print!(rt; "length {len}")?;
    let cells = zeros();
    match block::tested_samples(&cells[..len]) {
        Ok(kind) => println!(rt; " P {}", kind.p),
        Err(refusal) => println!(rt; " {refusal}"),
    }
}

// What forward answers to so many zeros.
fn forward_of_zeros(rt: &impl Print, len: usize) -> io::Result<()>
    requires { len ≤ 2048 }
{
    print!(rt; "forward of zeros {len}")?;
    let mut cells = zeros();
    print_answer(rt, hartley::forward(&mut cells[..len]))?;
    println!(rt)
}

// Twice as many zeros as the largest block has cells.
fn zeros() -> [i64; 2048]
    ensures { 2048 ≡ length result }
{
    [0; 2048]
}

// What a call answers, after a colon.
fn print_answer(rt: &impl Print, answer: Result<(), Refusal>) -> io::Result<()> {
    match answer {
        Ok(()) => print!(rt; ": done"),
        Err(refusal) => print!(rt; ": {refusal}"),
    }
}

// Blocks forward, and spectra backward.
fn blocks(rt: &impl Print) -> io::Result<()> {
    forward_of(rt, &mut [0, 0])?;
    forward_of(rt, &mut [3, -5])?;
    forward_of(rt, &mut [1, 2, 3, 4])?;
    backward_of(rt, &mut [10, -4, -2, 0])?;
    forward_of(rt, &mut [1, 2, 3, 4, 5, 6, 7, 8])?;
    forward_of(rt, &mut [0, 1, 0, 0, 0, 0, 0, 0])?;
    // the limits of a sample
    forward_of(rt, &mut [1, 2, 32768, -40000])?;
    forward_of(rt, &mut [-32768, 32767])?;
    forward_of(rt, &mut [-32769, 0])?;
    // the length is tested first
    forward_of(rt, &mut [40000, 1, 2])?;
    // the limits of a line, and the rounding of halves
    backward_of(rt, &mut [268435456, -268435456])?;
    backward_of(rt, &mut [0, 268435457])?;
    backward_of(rt, &mut [-268435457, 0, 0, 0])?;
    backward_of(rt, &mut [1, 0])?;
    backward_of(rt, &mut [-1, 0])
}

// The cells lent to forward, its answer, and the cells that it leaves.
fn forward_of(rt: &impl Print, cells: &mut [i64]) -> io::Result<()> {
    print!(rt; "forward of{}", Cells(cells))?;
    let answer = hartley::forward(cells);
    print_left(rt, answer, cells)
}

// The same for backward.
fn backward_of(rt: &impl Print, cells: &mut [i64]) -> io::Result<()> {
    print!(rt; "backward of{}", Cells(cells))?;
    let answer = hartley::backward(cells);
    print_left(rt, answer, cells)
}

// The answer of a call, and the cells that it leaves.
fn print_left(rt: &impl Print, answer: Result<(), Refusal>, cells: &[i64]) -> io::Result<()> {
    print_answer(rt, answer)?;
    println!(rt; ", cells{}", Cells(cells))
}

// The parts and powers of the listing's block first.
fn parts_and_powers(rt: &impl Print) -> io::Result<()> {
    let listed = [10, -4, -2, 0];
    parts_of(rt, &listed, 3, 3)?;
    power_of(rt, &listed, 3)?;
    parts_of(rt, &[-2, 8], 2, 2)?;
    power_of(rt, &[268435456, -268435456], 2)?;
    // 1 before 2, 2 for either list, 2 before 3
    parts_of(rt, &[1, 2, 3], 1, 1)?;
    parts_of(rt, &listed, 2, 3)?;
    parts_of(rt, &listed, 3, 4)?;
    power_of(rt, &[268435457, 0], 1)?;
    power_of(rt, &[0, -268435457], 2)
}

// What parts answers for lists of so many cells, which hold 7.
fn parts_of(
    rt: &impl Print,
    spectrum: &[i64],
    real_len: usize,
    imaginary_len: usize,
) -> io::Result<()>
    requires { (real_len ≤ 4) × (imaginary_len ≤ 4) }
{
    let mut real = [7; 4];
    let mut imaginary = [7; 4];
    parts_into(
        rt,
        spectrum,
        &mut real[..real_len],
        &mut imaginary[..imaginary_len],
    )
}

// The spectrum lent to parts, the answer, and the two lists that it leaves.
fn parts_into(
    rt: &impl Print,
    spectrum: &[i64],
    real: &mut [i64],
    imaginary: &mut [i64],
) -> io::Result<()> {
    print!(rt; "parts of{}", Cells(spectrum))?;
    print_answer(rt, fourier::parts(spectrum, real, imaginary))?;
    println!(rt; ", real{}, imaginary{}", Cells(real), Cells(imaginary))
}

// What power answers for a list of so many cells, which hold 7.
fn power_of(rt: &impl Print, spectrum: &[i64], len: usize) -> io::Result<()>
    requires { len ≤ 4 }
{
    let mut powers = [7; 4];
    power_into(rt, spectrum, &mut powers[..len])
}

// The spectrum lent to power, the answer, and the list that it leaves.
fn power_into(rt: &impl Print, spectrum: &[i64], powers: &mut [i64]) -> io::Result<()> {
    print!(rt; "power of{}", Cells(spectrum))?;
    print_answer(rt, fourier::power(spectrum, powers))?;
    println!(rt; ", power{}", Cells(powers))
}

// Every line of four cells and of two, a zero, and lines that there are not.
fn scaled_lines(rt: &impl Print) -> io::Result<()> {
    let four = [10, -4, -2, 0];
    let two = [-2, 8];
    scaled_of(rt, &four, 0)?;
    scaled_of(rt, &four, 1)?;
    scaled_of(rt, &four, 2)?;
    scaled_of(rt, &four, 3)?;
    scaled_of(rt, &two, 0)?;
    scaled_of(rt, &two, 1)?;
    scaled_of(rt, &two, 2)?;
    scaled_of(rt, &[0, 0], 0)?;
    let eight = [36, -14, -8, -6, -4, -2, 0, 6];
    scaled_of(rt, &eight, 1)?;
    scaled_of(rt, &eight, 2)?;
    scaled_of(rt, &eight, 3)?;
    scaled_of(rt, &eight, 4)?;
    // lines that are louder than any sample
    let loud = [268435456, -268435456];
    scaled_of(rt, &loud, 0)?;
    scaled_of(rt, &loud, 1)?;
    // 1 and 3 before 4
    scaled_of(rt, &[0, 0, 0], 2)?;
    scaled_of(rt, &[0, 268435457], 2)?;
    scaled_of(rt, &[0, 0, 0, 0], 18446744073709551615)
}

// A line of a spectrum, scaled: its values, or the refusal.
fn scaled_of(rt: &impl Print, spectrum: &[i64], line: usize) -> io::Result<()> {
    print!(rt; "line {line} of{}:", Cells(spectrum))?;
    match fourier::scaled(spectrum, Line(line)) {
        Ok(scaled) => print_scaled(rt, scaled)?,
        Err(refusal) => print!(rt; " {refusal}")?,
    }
    println!(rt)
}

// The values of a scaled line.
fn print_scaled(rt: &impl Print, scaled: ScaledLine) -> io::Result<()> {
    match scaled {
        ScaledLine::Mean(mean) => print_value(rt, "mean", mean),
        ScaledLine::Last(last) => print_value(rt, "last", last),
        ScaledLine::Pair(pair) => {
            print_value(rt, "real", pair.real)?;
            print_value(rt, "imaginary", pair.imaginary)
        }
    }
}

// A word and an f64, cut to three decimals, with a minus before what is negative and before minus zero.
fn print_value(rt: &impl Print, word: &str, x: f64) -> io::Result<()> {
    print!(rt; " {word} ")?;
    if x < 0.0 || 1.0 / x < 0.0 {
        print!(rt; "-")?;
    }
    print_thousandths(rt, x * 1000.0)
}

// A number of thousandths without its sign, if it is an i64.
fn print_thousandths(rt: &impl Print, x: f64) -> io::Result<()> {
    if x >= -9223372036854775808.0 {
        if x < 9223372036854775808.0 {
            return print_decimals(rt, ints::magnitude(std::num::truncating_f64_to_i64(x)));
        }
    }
    Ok(())
}

// So many thousandths, with three decimals.
fn print_decimals(rt: &impl Print, thousandths: u64) -> io::Result<()> {
    let whole = thousandths / 1000;
    let decimals = thousandths % 1000;
    print!(rt; "{whole}.{decimals:03}")
}
