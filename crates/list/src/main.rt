// The listing program (document 01): lists the trace on standard input.
#![tactic(auto)]

ghost use Rattle.std.specs.Prelude.{◌≡◌, ◌+◌, ◌≤◌, IfOk, length};
ghost use Rattle.trace.specs.Contents.{LONGEST};

use std::io::{Read, Result};
use std::process::ExitCode;

// Reads, lists and writes. It keeps its samples in one block of 1,024 zero cells at the start.
fn main(rt: HostRuntime) -> ExitCode {
    let mut trace = [0; trace::LONGEST + 1];
    let mut out = [0; listing::ROOM];
    let Ok(len) = read_trace(&mut rt.stdin(), &mut trace) else {
        let _ = eprintln!(rt; "list: the trace cannot be read");
        return ExitCode::SUCCESS;
    };
    let used = listing::list(&trace[..len], [0; 1024], &mut out);
    printing::write_out(&rt, &out[..used], "list: the listing cannot be written")
}

// Reads the input until the bytes are full or the input ends, and answers how many were read. There is room for a trace that is one byte too long, which is
// enough to see that it is.
fn read_trace(input: &mut impl Read, bytes: &mut [u8; trace::LONGEST + 1]) -> Result<usize>
    ensures fits { IfOk result (λ n. n ≤ length bytes.new) }
    ensures room { LONGEST + 1 ≡ length bytes.new }
{
    // By hand: without a heap the library reads only to the end of what is lent, and refuses an input that ends before.
    let mut n = 0;
    while n < bytes.len() {
        match input.read(&mut bytes[n..])? {
            0 => return Ok(n),
            more => n += more,
        }
    }
    Ok(n)
}
