// What the programs print, and how they end. A program of worked samples prints by format strings, with answers and cells as text from here.
//
// No contract can say what reaches standard output, so what prints promises nothing of it, and asks nothing. What a program prints is held to its file stdout.
#![tactic(auto)]

ghost use Rattle.std.specs.Prelude.{◌≡◌, ◌⊎◌};
ghost use Rattle.std.specs.IoError.{error_kind};
ghost use Rattle.std.specs.Process.{exit_status};
ghost use Rattle.printing.specs.Status.{CLOSED, unwritten_status};

use refusal::Refusal;
use std::fmt;
use std::fmt::{Display, Formatter};
use std::io::{Error, ErrorKind};
use std::process::ExitCode;
use trace::Summary;

// Cells as text, each after a space.
#[derive(Clone, Copy)]
pub struct Cells<'a>(pub &'a [i64]);

impl Display for Cells<'_> {
    fn fmt<W: fmt::Write>(&self, f: &mut Formatter<W>) -> fmt::Result {
        for cell in self.0 {
            write!(f, " {cell}")?;
        }
        Ok(())
    }
}

// What a call answers as text: its value or the refusal, after a space.
#[derive(Clone, Copy)]
pub struct Answer<T>(pub Result<T, Refusal>);

impl<T: Display> Display for Answer<T> {
    fn fmt<W: fmt::Write>(&self, f: &mut Formatter<W>) -> fmt::Result {
        match &self.0 {
            Ok(value) => write!(f, " {value}"),
            Err(refusal) => write!(f, " {refusal}"),
        }
    }
}

// What a trace says of itself as text: rate, P and the number of blocks.
#[derive(Clone, Copy)]
pub struct Said(pub Summary);

impl Display for Said {
    fn fmt<W: fmt::Write>(&self, f: &mut Formatter<W>) -> fmt::Result {
        let Summary { head, blocks } = self.0;
        write!(f, "{} {} {blocks}", head.rate, head.p)
    }
}

// Writes a program's output, and answers the status that it ends with. Where the output cannot be written, the complaint is told on standard error.
pub fn write_out<R: Print + Eprint>(rt: &R, output: &[u8], complaint: &str) -> ExitCode
    ensures { (exit_status result ≡ 0) ⊎ (exit_status result ≡ CLOSED) }
{
    match rt.write_all(output) {
        Ok(()) => ExitCode::SUCCESS,
        Err(error) => {
            let _ = eprintln!(rt; "{complaint}");
            unwritten_status(error)
        }
    }
}

// Where output cannot be written since its reader has gone, the status is that of a program which the signal of a closed pipe ends.
fn unwritten_status(error: Error) -> ExitCode
    ensures { exit_status result ≡ unwritten_status (error_kind error) }
{
    match error.kind() {
        ErrorKind::BrokenPipe => ExitCode::from(128 + 13),
        _ => ExitCode::SUCCESS,
    }
}
