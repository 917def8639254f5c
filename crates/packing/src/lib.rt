// Answers as plain numbers, for hosts in C (document 01, Parts of the engine). The numbers of the cases and the bytes of each part stay: that interface is
// made of plain numbers.
#![tactic(auto)]

ghost use Rattle.std.specs.Prelude.{◌≡◌, Ok, ◌+◌, ◌*◌, ◌%◌, ◌^◌};
ghost use Rattle.search.specs.SearchAnswers.{as_found};
ghost use Rattle.packing.specs.Packing.{case_packed, found_packed, packed, packed_bound, packed_refusal, packed_save, packed_scaled, packed_search, packed_trace};

use fourier::ScaledLine;
use kind::Line;
use refusal::Refusal;
use trace::Summary;

// The cases of a scaled line.
const MEAN: u64 = 1;

const LAST: u64 = 2;

const PAIR: u64 = 3;

// One more than the largest number of seven bytes.
const SEVEN_BYTES: u64 = 1 << 56;

// The answer of a call on a block.
pub fn packed(answer: Result<(), Refusal>) -> u64
    ensures { result ≡ packed answer }
{
    answer.map_or_else(packed_refusal, |()| 0)
}

// The bound of a block, or the refusal. Of a number that does not fit seven bytes the upper one is left off.
pub fn packed_bound(answer: Result<u64, Refusal>) -> u64
    ensures { result ≡ packed_bound answer }
{
    answer.map_or_else(packed_refusal, |bound| 256 * (bound % SEVEN_BYTES))
}

// The answer of a call on a trace.
pub fn packed_trace(answer: Result<Summary, Refusal>) -> u64
    ensures { result ≡ packed_trace answer }
{
    answer.map_or_else(packed_refusal, packed_contents)
}

// Which case a scaled line is, or the refusal.
pub fn packed_scaled(answer: Result<ScaledLine, Refusal>) -> u64
    ensures { result ≡ packed_scaled answer }
{
    answer.map_or_else(packed_refusal, packed_case)
}

// The line that a search has found, that there is none, or the refusal.
pub fn packed_search(answer: Result<Option<Line>, Refusal>) -> u64
    ensures { result ≡ packed_search answer }
{
    answer.map_or_else(packed_refusal, |found| found.map_or(0, packed_line))
}

// The line of a search that finds one always, or the refusal.
pub fn packed_found(answer: Result<Line, Refusal>) -> u64
    ensures { result ≡ packed_search (as_found answer) }
{
    answer.map_or_else(packed_refusal, packed_line)
}

// The bytes that a saved trace takes, or the refusal. Of a number that does not fit seven bytes the upper one is left off.
pub fn packed_save(answer: Result<usize, Refusal>) -> u64
    ensures { result ≡ packed_save answer }
{
    answer.map_or_else(packed_refusal, |used| 256 * (used as u64 % SEVEN_BYTES))
}

// A refusal: its number in one byte, and of its place the lower seven.
fn packed_refusal(refusal: Refusal) -> u64
    ensures { result ≡ packed_refusal refusal }
{
    let number = refusal.number() as u64;
    let place = refusal.place() as u64 % SEVEN_BYTES;
    number + 256 * place
}

// A line that is found.
fn packed_line(line: Line) -> u64
    ensures { result ≡ found_packed line }
{
    256 * (1 + 256 * (line.0 as u64 % 65536))
}

// Which case a line is.
fn packed_case(line: ScaledLine) -> u64
    ensures { result ≡ case_packed line }
{
    256 * match line {
        ScaledLine::Mean(_) => MEAN,
        ScaledLine::Last(_) => LAST,
        ScaledLine::Pair(_) => PAIR,
    }
}

// What an accepted trace holds. Of each number that does not fit its bytes the upper ones are left off.
fn packed_contents(summary: Summary) -> u64
    ensures { result ≡ packed_trace (Ok summary) }
{
    let p = summary.head.p as u64 % 256;
    let count = summary.blocks as u64 % 65536;
    let rate = summary.head.rate as u64 % 4294967296;
    256 * (p + 256 * (count + 65536 * rate))
}
