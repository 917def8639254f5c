// The Fourier parts, the power and the scaled lines of a lent Hartley spectrum (document 01, Levels).
#![tactic(auto)]

ghost use Rattle.std.specs.Prelude.{◌≡◌, ℕ, ◌+◌, ◌-◌, ◌/◌, ◌^◌, ◌≤◌, ◌<◌, ℤ, nat_abs, pos, length};
ghost use Rattle.ints.specs.Cells.{cell};
ghost use Rattle.kind.specs.Loudness.{LOUDEST_LINE};
ghost use Rattle.block.specs.Tests.{tested_line};
ghost use Rattle.block.specs.Transformable.{Transformable};
ghost use Rattle.block.specs.BlockAnswers.{block_answer, verdict_numbers, answer_numbers};
ghost use Rattle.fourier.specs.Parts.{H, formula, imaginary_left, powers_left, real_left, square, tested_parts, tested_power};
ghost use Rattle.fourier.specs.Scaled.{Exactly, quotient, scaled_line, scaled_numbers, scaled_to, Values};
ghost use Rattle.fourier.specs.Inner.{PowerOfTwo, scaled_pair};

use kind::Line;
use refusal::Refusal;

// The two doubled parts of a line.
#[derive(Clone, Copy)]
pub enum Doubled {
    Real,
    Imaginary,
}

// The real and the imaginary part of a scaled line.
#[derive(Clone, Copy)]
pub struct Pair {
    pub real: f64,
    pub imaginary: f64,
}

// A scaled line: the mean for line 0, the last line for line N/2, a pair for every other line.
#[derive(Clone, Copy)]
pub enum ScaledLine {
    Mean(f64),
    Last(f64),
    Pair(Pair),
}

// The doubled real and imaginary parts of a spectrum, for lines 0 to N/2, in two lent lists.
pub fn parts(spectrum: &[i64], real: &mut [i64], imaginary: &mut [i64]) -> Result<(), Refusal>
    ensures answer { result ≡ block_answer (tested_parts spectrum.now real.old imaginary.old) }
    ensures numbers { answer_numbers result ≡ verdict_numbers (tested_parts spectrum.now real.old imaginary.old) }
    ensures real { real.new ≡ real_left spectrum.now real.old imaginary.old }
    ensures imaginary { imaginary.new ≡ imaginary_left spectrum.now real.old imaginary.old }
{
    block::tested_spectrum(&[real.len(), imaginary.len()], spectrum)?;
    fill(spectrum, real, |h, m| formula(Doubled::Real, h, m));
    fill(
        spectrum,
        imaginary,
        |h, m| formula(Doubled::Imaginary, h, m),
    );
    Ok(())
}

// The doubled power of a spectrum, for lines 0 to N/2, in a lent list.
pub fn power(spectrum: &[i64], powers: &mut [i64]) -> Result<(), Refusal>
    ensures answer { result ≡ block_answer (tested_power spectrum.now powers.old) }
    ensures numbers { answer_numbers result ≡ verdict_numbers (tested_power spectrum.now powers.old) }
    ensures powers { powers.new ≡ powers_left spectrum.now powers.old }
{
    block::tested_spectrum(&[powers.len()], spectrum)?;
    fill(spectrum, powers, power_of);
    Ok(())
}

// A line of a spectrum, scaled.
pub fn scaled(spectrum: &[i64], line: Line) -> Result<ScaledLine, Refusal>
    ensures answer { result ≡ scaled_to spectrum.now line (tested_line line spectrum.now) }
    ensures numbers { scaled_numbers result ≡ verdict_numbers (tested_line line spectrum.now) }
    ensures values { Values spectrum.now line result }
{
    block::tested_line(line, spectrum)?;
    Ok(scaled_line(spectrum, line))
}

// Fills the list with what `value` makes of H(v) and H(N - v), for lines 0 to N/2. The mirror of line 0 is line 0, that of line v is line N - v.
fn fill<F: Fn(i64, i64) -> i64>(spectrum: &[i64], lines: &mut [i64], value: F)
    requires taken { (P : ℕ) × Transformable P spectrum.now }
    requires long { length lines.old ≡ length spectrum.now / 2 + 1 }
    requires callable { (h m : ℤ) → nat_abs h ≤ LOUDEST_LINE → nat_abs m ≤ LOUDEST_LINE → F.pre value h m }
    ensures { (v : ℕ) → v < length lines.new → F.post value (H spectrum.now v) (H spectrum.now (length spectrum.now - v)) (cell lines.new v) }
{
    // By hand: the mirror goes along with v. With line 0 ahead of the loop the rest is compiled to vectors, in which the powers take a third longer.
    let mut mirror = 0;
    for v in 0..lines.len() {
        lines[v] = value(spectrum[v], spectrum[mirror]);
        mirror = spectrum.len() - (v + 1);
    }
}

// One of the two parts of line v; h is H(v) and m is H(N - v). This and `power_of` are the formulas of one line, for who knows that neither line is too loud.
// Which part stays a case: the theorems and the listing name both by it. h and m stay two numbers, by which the pages name the two formulas.
pub fn formula(which: Doubled, h: i64, m: i64) -> i64
    requires { (nat_abs h ≤ LOUDEST_LINE) × (nat_abs m ≤ LOUDEST_LINE) }
    ensures { result ≡ formula which h m }
{
    match which {
        Doubled::Real => h + m,
        Doubled::Imaginary => m - h,
    }
}

// The doubled power of line v; h is H(v) and m is H(N - v).
pub fn power_of(h: i64, m: i64) -> i64
    requires { (nat_abs h ≤ LOUDEST_LINE) × (nat_abs m ≤ LOUDEST_LINE) }
    ensures { result ≡ pos (square h + square m) }
{
    h * h + m * m
}

// A line that the spectrum has, scaled.
fn scaled_line(spectrum: &[i64], line: Line) -> ScaledLine
    requires { ((P : ℕ) × Transformable P spectrum.now) × (line.0 ≤ length spectrum.now / 2) }
    ensures { result ≡ scaled_line spectrum.now line.0 }
{
    let len = spectrum.len();
    let v = line.0;
    if v == 0 {
        return ScaledLine::Mean(quotient(spectrum[0], len));
    }
    if v == len / 2 {
        return ScaledLine::Last(quotient(spectrum[v], len));
    }
    ScaledLine::Pair(scaled_pair(spectrum[v], spectrum[len - v], len))
}

// The real and the imaginary part of a line, each the doubled part over 2N; h is H(v), m is H(N - v), and len is N.
fn scaled_pair(h: i64, m: i64, len: usize) -> Pair
    requires { (nat_abs h ≤ LOUDEST_LINE) × (nat_abs m ≤ LOUDEST_LINE) × PowerOfTwo 10 len }
    ensures { result ≡ scaled_pair h m len }
{
    Pair {
        real: quotient(formula(Doubled::Real, h, m), 2 * len),
        imaginary: quotient(formula(Doubled::Imaginary, h, m), 2 * len),
    }
}

// h / n, exactly.
fn quotient(h: i64, n: usize) -> f64
    requires { (nat_abs h < 2 ^ 53) × PowerOfTwo 53 n }
    ensures { (result ≡ quotient h n) × Exactly h n result }
{
    h as f64 / n as f64
}
