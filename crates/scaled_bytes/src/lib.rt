// A scaled line of a spectrum whose cells are bytes, for hosts in C, with one plain number for an answer (document 01, Parts of the engine).
#![tactic(auto)]

ghost use Rattle.std.specs.Prelude.{◌≡◌};
ghost use Rattle.scaled_bytes.specs.LineHeld.{ScaledAnswered, imaginary_held, real_held};

use fourier::ScaledLine;
use kind::Line;
use refusal::Refusal;

// A scaled line of the cells that the bytes spell: its case in the answer, and its numbers in what is lent for them.
pub fn scaled(spectrum: &[u8], line: Line, real: &mut f64, imaginary: &mut f64) -> u64
    ensures { ScaledAnswered spectrum.now line real.old imaginary.old real.new imaginary.new result }
{
    let answer = lent_cells::with_cells(spectrum, |cells| fourier::scaled(cells, line));
    put_values(answer, real, imaginary);
    packing::packed_scaled(answer)
}

// Puts the numbers of a scaled line where they are lent: a mean or a last line into `real`, a pair into both. What no number is for is kept.
fn put_values(answer: Result<ScaledLine, Refusal>, real: &mut f64, imaginary: &mut f64)
    ensures { (real.new ≡ real_held answer real.old) × (imaginary.new ≡ imaginary_held answer imaginary.old) }
{
    match answer {
        Ok(ScaledLine::Mean(mean)) => {
            *real = mean;
        }
        Ok(ScaledLine::Last(last)) => {
            *real = last;
        }
        Ok(ScaledLine::Pair(pair)) => {
            *real = pair.real;
            *imaginary = pair.imaginary;
        }
        Err(_) => {}
    }
}
