// Document 01, Samples worked by hand: those of traces, run. What is printed is held to the file stdout, which was worked by hand from the document.
// The bytes of a worked trace are in hex as in the document, \0 being 00.
#![tactic(auto)]

ghost use Rattle.std.specs.Prelude.{◌≡◌, ◌+◌, ◌*◌, ◌≤◌, length};

use printing::{Answer, Cells, Said};
use record::Head;
use std::fmt::{Display, Formatter};
use std::{fmt, io};
use trace::NextRecord;

// The record of a head: rate 8,000, P = 2.
const HEAD: [u8; 12] = *b"\x06\0\0\0\x01\0\x40\x1F\0\0\x02\0";

// The record of an end.
const END: [u8; 6] = *b"\0\0\0\0\x04\0";

// What a record is, as text, and the place of the next one.
#[derive(Clone, Copy)]
struct Met(NextRecord);

impl Display for Met {
    fn fmt<W: fmt::Write>(&self, f: &mut Formatter<W>) -> fmt::Result {
        match self.0 {
            NextRecord::Block { next } => write!(f, "block, next {next}"),
            NextRecord::Note { next } => write!(f, "note, next {next}"),
            NextRecord::End => write!(f, "end"),
        }
    }
}

fn main(rt: HostRuntime) -> io::Result<()> {
    starts(&rt)?;
    fetches(&rt)?;
    notes(&rt)?;
    kinds(&rt)?;
    first_records(&rt)?;
    second_heads(&rt)?;
    tails(&rt)?;
    sizes(&rt)?;
    sizes_before_cuts(&rt)?;
    cuts(&rt)?;
    heads(&rt)?;
    sample_bytes(&rt)?;
    records(&rt)
}

// Less than a head.
fn starts(rt: &impl Print) -> io::Result<()> {
    checked(rt, "empty trace", b"")?;
    checked(rt, "five bytes", b"\x06\0\0\0\x01")?;
    checked(rt, "six bytes of a head", b"\x06\0\0\0\x01\0")
}

// The listing's trace, whole and cut; a head and an end; and two blocks with P = 1, between them a note whose payload is the bytes of an end.
fn fetches(rt: &impl Print) -> io::Result<()> {
    one_block(
        rt,
        "listing",
        b"\x06\0\0\0\x01\0\x40\x1F\0\0\x02\0\x08\0\0\0\x02\0\x01\0\x02\0\x03\0\x04\0\0\0\0\0\x04\0",
    )?;
    checked(
        rt,
        "listing without its last byte",
        b"\x06\0\0\0\x01\0\x40\x1F\0\0\x02\0\x08\0\0\0\x02\0\x01\0\x02\0\x03\0\x04\0\0\0\0\0\x04",
    )?;
    // a trace that is refused after its block: that comes before 16 and 2
    let name = "listing without its end";
    let cut = b"\x06\0\0\0\x01\0\x40\x1F\0\0\x02\0\x08\0\0\0\x02\0\x01\0\x02\0\x03\0\x04\0";
    fetched(rt, name, cut, 0, 4)?;
    fetched(rt, name, cut, 1, 3)?;
    let no_block = b"\x06\0\0\0\x01\0\x40\x1F\0\0\x02\0\0\0\0\0\x04\0";
    checked(rt, "no block", no_block)?;
    fetched(rt, "no block", no_block, 0, 4)?;
    two_blocks(
        rt,
        "note between two blocks",
        b"\x06\0\0\0\x01\0\x40\x1F\0\0\x01\0\x04\0\0\0\x02\0\x05\0\x06\0\x06\0\0\0\x03\0\0\0\0\0\x04\0\x04\0\0\0\x02\0\x03\0\xFB\xFF\0\0\0\0\x04\0",
    )
}

// Fetches from a trace of one block of 4 cells. 16 comes before 2.
fn one_block(rt: &impl Print, name: &str, trace: &[u8]) -> io::Result<()> {
    checked(rt, name, trace)?;
    fetched(rt, name, trace, 0, 4)?;
    fetched(rt, name, trace, 0, 3)?;
    fetched(rt, name, trace, 0, 5)?;
    fetched(rt, name, trace, 0, 0)?;
    fetched(rt, name, trace, 1, 4)?;
    fetched(rt, name, trace, usize::MAX, 4)?;
    fetched(rt, name, trace, 1, 3)
}

// Fetches from a trace of two blocks of 2 cells.
fn two_blocks(rt: &impl Print, name: &str, trace: &[u8]) -> io::Result<()> {
    checked(rt, name, trace)?;
    fetched(rt, name, trace, 0, 2)?;
    fetched(rt, name, trace, 1, 2)?;
    fetched(rt, name, trace, 2, 2)
}

// The limits of a trace and of a note: head 12, notes 251 * 261 + 7 and end 6 are 65,536 bytes.
fn notes(rt: &impl Print) -> io::Result<()> {
    // 10 comes first, before 15 and 2 too where a record is read by itself
    let too_long = [0xFF; 65537];
    checked(rt, "65537 bytes of FF", &too_long)?;
    fetched_record(rt, &too_long, Head { rate: 0, p: 0 }, 12, 3)?;
    notes_of(rt, "note of 0 bytes", 0, 0)?;
    notes_of(rt, "note of 255 bytes", 0, 255)?;
    notes_of(rt, "note of 256 bytes", 0, 256)?;
    notes_of(rt, "trace of 65536 bytes", 251, 1)?;
    notes_of(rt, "trace of 65537 bytes", 251, 2)
}

// 12 after the head, which comes before 14 and 11 for the payload, but not before 11 for six bytes.
fn kinds(rt: &impl Print) -> io::Result<()> {
    after_head(rt, "kind 0", b"\0\0\0\0\0\0")?;
    after_head(rt, "kind 5", b"\0\0\0\0\x05\0")?;
    after_head(rt, "kind 5 in five bytes", b"\0\0\0\0\x05")?;
    after_head(rt, "kind 0 of an absurd length", b"\xFF\xFF\xFF\xFF\0\0")?;
    after_head(rt, "kind 5 of an absurd length", b"\xFF\xFF\xFF\xFF\x05\0")
}

// 12 for the first record, and the kind's high byte counts; then 17 for what is not the head. 12 comes before 17, and 17 before 14.
fn first_records(rt: &impl Print) -> io::Result<()> {
    checked(rt, "kind 0 first", b"\0\0\0\0\0\0")?;
    checked(rt, "kind 5 first", b"\0\0\0\0\x05\0")?;
    checked(
        rt,
        "kind 257 first",
        b"\x06\0\0\0\x01\x01\x40\x1F\0\0\x02\0",
    )?;
    checked(
        rt,
        "block first",
        b"\x08\0\0\0\x02\0\x01\0\x02\0\x03\0\x04\0",
    )?;
    checked(
        rt,
        "block of a wrong length first",
        b"\x07\0\0\0\x02\0\x01\0\x02\0\x03\0\x04",
    )?;
    checked(rt, "note first", b"\0\0\0\0\x03\0")?;
    checked(rt, "end first", b"\0\0\0\0\x04\0")
}

// 18 for a second head, which comes before 14, 11 for the payload and 15.
fn second_heads(rt: &impl Print) -> io::Result<()> {
    after_head(
        rt,
        "second head",
        b"\x06\0\0\0\x01\0\x40\x1F\0\0\x02\0\0\0\0\0\x04\0",
    )?;
    after_head(
        rt,
        "second head after a note",
        b"\x02\0\0\0\x03\0\x01\x02\x06\0\0\0\x01\0\x40\x1F\0\0\x02\0\0\0\0\0\x04\0",
    )?;
    after_head(
        rt,
        "second head of length 5",
        b"\x05\0\0\0\x01\0\x40\x1F\0\0\x02",
    )?;
    after_head(rt, "second head with no payload", b"\x06\0\0\0\x01\0")?;
    after_head(
        rt,
        "second head of rate 0",
        b"\x06\0\0\0\x01\0\0\0\0\0\x02\0",
    )
}

// 19 for what comes after the end: one byte, a second end, a kind that no record has, or a head.
fn tails(rt: &impl Print) -> io::Result<()> {
    after_head(rt, "byte after the end", b"\0\0\0\0\x04\0\0")?;
    after_head(
        rt,
        "byte after the end, which follows a note",
        b"\0\0\0\0\x03\0\0\0\0\0\x04\0\0",
    )?;
    after_head(rt, "second end", b"\0\0\0\0\x04\0\0\0\0\0\x04\0")?;
    after_head(rt, "kind 5 after the end", b"\0\0\0\0\x04\0\0\0\0\0\x05\0")?;
    after_head(
        rt,
        "head after the end",
        b"\0\0\0\0\x04\0\x06\0\0\0\x01\0\x40\x1F\0\0\x02\0",
    )
}

// 14 for whole records, which for an end comes before 19.
fn sizes(rt: &impl Print) -> io::Result<()> {
    checked(rt, "head of length 5", b"\x05\0\0\0\x01\0\x40\x1F\0\0\x02")?;
    checked(
        rt,
        "head of length 7",
        b"\x07\0\0\0\x01\0\x40\x1F\0\0\x02\0\0",
    )?;
    after_head(
        rt,
        "block of 6 bytes",
        b"\x06\0\0\0\x02\0\x01\0\x02\0\x03\0\0\0\0\0\x04\0",
    )?;
    after_head(
        rt,
        "block of 10 bytes",
        b"\x0A\0\0\0\x02\0\x01\0\x02\0\x03\0\x04\0\x05\0\0\0\0\0\x04\0",
    )?;
    after_head(rt, "end of length 1", b"\x01\0\0\0\x04\0\0")?;
    after_head(
        rt,
        "end of length 1 and a byte after it",
        b"\x01\0\0\0\x04\0\0\0",
    )
}

// 14 before 11. The length's high bytes count.
fn sizes_before_cuts(rt: &impl Print) -> io::Result<()> {
    checked(rt, "head of length 5 with no payload", b"\x05\0\0\0\x01\0")?;
    after_head(rt, "block of 10 bytes with no payload", b"\x0A\0\0\0\x02\0")?;
    after_head(
        rt,
        "block of 65544 bytes with 8 of them",
        b"\x08\0\x01\0\x02\0\x01\0\x02\0\x03\0\x04\0",
    )?;
    after_head(rt, "note of 256 bytes with no payload", b"\0\x01\0\0\x03\0")?;
    after_head(rt, "end of length 1 with no payload", b"\x01\0\0\0\x04\0")
}

// 11 for the payload, at the record's first byte.
fn cuts(rt: &impl Print) -> io::Result<()> {
    checked(
        rt,
        "head one byte short",
        b"\x06\0\0\0\x01\0\x40\x1F\0\0\x02",
    )?;
    after_head(
        rt,
        "block one byte short",
        b"\x08\0\0\0\x02\0\x01\0\x02\0\x03\0\x04",
    )?;
    after_head(rt, "note one byte short", b"\x03\0\0\0\x03\0\x01\x02")?;
    after_head(
        rt,
        "block cut after a note",
        b"\x02\0\0\0\x03\0\x01\x02\x08\0\0\0\x02\0\x01\0",
    )?;
    after_head(rt, "nothing after the head", b"")
}

// 15 and its limits. 11 comes first. All bytes of the rate and of P count.
fn heads(rt: &impl Print) -> io::Result<()> {
    checked(
        rt,
        "head of rate 0",
        b"\x06\0\0\0\x01\0\0\0\0\0\x02\0\0\0\0\0\x04\0",
    )?;
    checked(
        rt,
        "head of rate 16909060",
        b"\x06\0\0\0\x01\0\x04\x03\x02\x01\x02\0\0\0\0\0\x04\0",
    )?;
    checked(
        rt,
        "head of rate 4294967295",
        b"\x06\0\0\0\x01\0\xFF\xFF\xFF\xFF\x02\0\0\0\0\0\x04\0",
    )?;
    checked(
        rt,
        "head of P 0",
        b"\x06\0\0\0\x01\0\x40\x1F\0\0\0\0\0\0\0\0\x04\0",
    )?;
    checked(
        rt,
        "head of P 10",
        b"\x06\0\0\0\x01\0\x40\x1F\0\0\x0A\0\0\0\0\0\x04\0",
    )?;
    checked(
        rt,
        "head of P 11",
        b"\x06\0\0\0\x01\0\x40\x1F\0\0\x0B\0\0\0\0\0\x04\0",
    )?;
    checked(
        rt,
        "head of P 257",
        b"\x06\0\0\0\x01\0\x40\x1F\0\0\x01\x01\0\0\0\0\x04\0",
    )?;
    checked(
        rt,
        "head of rate 0 and P 11, one byte short",
        b"\x06\0\0\0\x01\0\0\0\0\0\x0B",
    )
}

// The limits of a sample, its sign and the order of its bytes, in a block of two.
fn sample_bytes(rt: &impl Print) -> io::Result<()> {
    fetched(
        rt,
        "outermost samples",
        b"\x06\0\0\0\x01\0\x40\x1F\0\0\x01\0\x04\0\0\0\x02\0\0\x80\xFF\x7F\0\0\0\0\x04\0",
        0,
        2,
    )?;
    fetched(
        rt,
        "samples of two bytes",
        b"\x06\0\0\0\x01\0\x40\x1F\0\0\x01\0\x04\0\0\0\x02\0\xFF\xFF\x01\x02\0\0\0\0\x04\0",
        0,
        2,
    )
}

// Records read by themselves: of a trace of two blocks with P = 1 and a note between them, and of one of one such block.
fn records(rt: &impl Print) -> io::Result<()> {
    each_record(
        rt,
        b"\x06\0\0\0\x01\0\x40\x1F\0\0\x01\0\x04\0\0\0\x02\0\x05\0\x06\0\x06\0\0\0\x03\0\0\0\0\0\x04\0\x04\0\0\0\x02\0\x03\0\xFB\xFF\0\0\0\0\x04\0",
    )?;
    refused_records(
        rt,
        b"\x06\0\0\0\x01\0\x40\x1F\0\0\x01\0\x04\0\0\0\x02\0\x05\0\x06\0\0\0\0\0\x04\0",
    )
}

// Each record after the head, then places at which none begins.
fn each_record(rt: &impl Print, trace: &[u8]) -> io::Result<()> {
    let head = Head { rate: 8000, p: 1 };
    for at in [12, 22, 34, 44, 0, 43, 50, 51, usize::MAX] {
        fetched_record(rt, trace, head, at, 2)?;
    }
    Ok(())
}

// The tests that come before the record's own: 15 of the head, then 2. A head of another P finds a block of wrong length.
fn refused_records(rt: &impl Print, trace: &[u8]) -> io::Result<()> {
    fetched_record(rt, trace, Head { rate: 0, p: 1 }, 12, 3)?;
    fetched_record(rt, trace, Head { rate: 8000, p: 0 }, 12, 1)?;
    fetched_record(rt, trace, Head { rate: 8000, p: 11 }, 12, 3)?;
    let largest = Head {
        rate: 8000,
        p: usize::MAX,
    };
    fetched_record(rt, trace, largest, 12, 3)?;
    let right = Head { rate: 8000, p: 1 };
    fetched_record(rt, trace, right, 12, 3)?;
    fetched_record(rt, trace, right, 51, 0)?;
    fetched_record(rt, trace, Head { rate: 8000, p: 2 }, 12, 4)
}

// What check answers to the head of rate 8,000 and P = 2 and these bytes after it.
fn after_head(rt: &impl Print, name: &str, rest: &[u8]) -> io::Result<()>
    requires { length rest.now ≤ 60 }
{
    let mut bytes = [0; 72];
    let at = put(&mut bytes, 0, &HEAD);
    let end = put(&mut bytes, at, rest);
    checked(rt, name, &bytes[..end])
}

// What check answers to a head, so many notes of 255 bytes, a last note of so many bytes, and an end.
fn notes_of(rt: &impl Print, name: &str, count: usize, last: usize) -> io::Result<()>
    requires { (last ≤ 65535) × (24 + 261 * count + last ≤ 65537) }
{
    let mut bytes = [0xFF; 65537];
    let start = put(&mut bytes, 0, &HEAD);
    for i in 0..count {
        put_note(&mut bytes, start + 261 * i, 255);
    }
    let after = put_note(&mut bytes, start + 261 * count, last);
    let end = put(&mut bytes, after, &END);
    checked(rt, name, &bytes[..end])
}

// Makes the bytes from a place on a note, by its length and kind, and answers where it ends.
fn put_note(bytes: &mut [u8], at: usize, len: usize) -> usize
    requires { (len ≤ 65535) × (at + 6 + len ≤ length bytes.old) }
    ensures { result ≡ at + 6 + len }
{
    let [low, high] = (len as u16).to_le_bytes();
    put(bytes, at, &[low, high, 0, 0, 3, 0]) + len
}

// Writes a part to its place among the bytes, and answers where it ends.
fn put(bytes: &mut [u8], at: usize, part: &[u8]) -> usize
    requires { at + length part.now ≤ length bytes.old }
    ensures { result ≡ at + length part.now }
{
    let end = at + part.len();
    bytes[at..end].copy_from_slice(part);
    end
}

// What check answers to a trace of this name.
fn checked(rt: &impl Print, name: &str, trace: &[u8]) -> io::Result<()> {
    let answer = trace::check(trace).map(|summary| Said(summary));
    println!(rt; "{name}:{}", Answer(answer))
}

// What fetch answers to a trace of this name for block k and so many cells, which hold 7, and the cells that it leaves.
fn fetched(rt: &impl Print, name: &str, trace: &[u8], k: usize, len: usize) -> io::Result<()>
    requires { len ≤ 5 }
{
    let mut room = [7; 5];
    let cells = &mut room[..len];
    let answer = trace::fetch(trace, k, cells).map(|summary| Said(summary));
    println!(rt;
        "{name}, block {k} into {len} cells:{}, cells{}",
        Answer(answer),
        Cells(cells)
    )
}

// What fetch_record answers at a place, after this head, for so many cells, which hold 7, and the cells that it leaves.
fn fetched_record(
    rt: &impl Print,
    trace: &[u8],
    head: Head,
    at: usize,
    len: usize,
) -> io::Result<()>
    requires { len ≤ 5 }
{
    let mut room = [7; 5];
    let cells = &mut room[..len];
    let answer = trace::fetch_record(trace, head, at, cells).map(|record| Met(record));
    print!(rt; "head {} {}, record at {at}", head.rate, head.p)?;
    println!(rt;
        " into {len} cells:{}, cells{}",
        Answer(answer),
        Cells(cells)
    )
}
