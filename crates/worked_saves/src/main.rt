// Saved traces worked by hand from document 02, Item 4, and run. What is printed is held to the file stdout.
// Each save is a line: what is asked, how many bytes are used or why it is refused, and how many of the other lent
// bytes are kept. A trace that is saved follows in hex, as in the documents, and is read back by check and fetch.
#![tactic(auto)]

ghost use Rattle.std.specs.Prelude.{◌≡◌, ◌≤◌, length, IfOk, IfSome};
ghost use Rattle.save_tests.specs.Save.{as_head, saving, trace_left};

use printing::{Answer, Cells, Said};
use std::io;

// What every lent byte holds before a save.
const LENT: u8 = 0xAA;

fn main(rt: HostRuntime) -> io::Result<()> {
    listing(&rt)?;
    no_blocks(&rt)?;
    sample_bytes(&rt)?;
    heads(&rt)?;
    lengths(&rt)?;
    loud_cells(&rt)?;
    misfits(&rt)?;
    order(&rt)?;
    long_runs(&rt)
}

// The listing's trace, in as many bytes as it has and in four more; and its cells in two blocks.
fn listing(rt: &impl Print) -> io::Result<()> {
    let cells = [1, 2, 3, 4];
    saved(rt, 8000, 2, &cells, 32)?;
    saved(rt, 8000, 2, &cells, 36)?;
    saved(rt, 8000, 1, &cells, 38)
}

// A head and an end; the same with the least rate and P, and with the largest.
fn no_blocks(rt: &impl Print) -> io::Result<()> {
    saved_empty(rt, 8000, 2, 18)?;
    saved_empty(rt, 1, 1, 18)?;
    saved_empty(rt, 4294967295, 10, 20)
}

// The limits of a sample, its sign and the order of its bytes.
fn sample_bytes(rt: &impl Print) -> io::Result<()> {
    saved(rt, 8000, 1, &[-32768, 32767, -1, -256, 255, 513], 48)
}

// 15: rates and P beyond their limits, where nothing else is wrong.
fn heads(rt: &impl Print) -> io::Result<()> {
    saved_empty(rt, 0, 1, 18)?;
    saved_empty(rt, 4294967296, 1, 18)?;
    saved_empty(rt, 18446744073709551615, 1, 18)?;
    saved_empty(rt, 8000, 0, 18)?;
    saved_empty(rt, 8000, 11, 18)?;
    saved_empty(rt, 8000, 18446744073709551615, 18)
}

// 1: a block and a half, and half a block.
fn lengths(rt: &impl Print) -> io::Result<()> {
    saved(rt, 8000, 1, &[1, 2, 3], 48)?;
    saved(rt, 8000, 3, &[1, 2, 3, 4], 48)
}

// 3: just beyond the limits of a sample, and far beyond them; the first of two loud cells.
fn loud_cells(rt: &impl Print) -> io::Result<()> {
    saved(rt, 8000, 1, &[1, 2, 32768, 4], 38)?;
    saved(rt, 8000, 2, &[1, 2, -32769, 4], 32)?;
    saved(rt, 8000, 1, &[-9223372036854775808, 2], 28)?;
    saved(rt, 8000, 1, &[1, 65537, 9223372036854775807, 4], 38)
}

// 2: one byte too few, and no byte at all.
fn misfits(rt: &impl Print) -> io::Result<()> {
    let cells = [1, 2, 3, 4];
    saved(rt, 8000, 2, &cells, 31)?;
    saved(rt, 8000, 1, &cells, 37)?;
    saved(rt, 8000, 2, &cells, 0)?;
    saved_empty(rt, 8000, 2, 17)
}

// 15 before 1, 3 and 2; 1 before 3 and 2; 3 before 2.
fn order(rt: &impl Print) -> io::Result<()> {
    let cells = [1, 2, 32768];
    saved(rt, 0, 1, &cells, 27)?;
    saved(rt, 8000, 1, &cells, 27)?;
    saved(rt, 8000, 1, &[1, 2, 32768, 4], 27)
}

// 10: 6,551 blocks of two cells are 65,528 bytes, and with one block more 65,538. 3 comes before 10, and 10 before 2.
fn long_runs(rt: &impl Print) -> io::Result<()> {
    long_saved(rt, 13102, 65528)?;
    long_saved(rt, 13104, 65538)?;
    long_saved(rt, 13104, 18)?;
    long_saved(rt, 13106, 18)
}

// Saves no cells where so many bytes are lent. Rate and P stay two numbers, as `save` takes them.
fn saved_empty(rt: &impl Print, rate: usize, p: usize, room: usize) -> io::Result<()>
    requires { room ≤ 48 }
{
    saved(rt, rate, p, &[], room)
}

// Saves a run of cells where so many bytes are lent.
fn saved(rt: &impl Print, rate: usize, p: usize, cells: &[i64], room: usize) -> io::Result<()>
    requires { room ≤ 48 }
{
    let mut bytes = [LENT; 48];
    saved_into(rt, rate, p, cells, &mut bytes[..room])
}

// Saves a run of cells in these bytes, and reads the trace back.
fn saved_into(
    rt: &impl Print,
    rate: usize,
    p: usize,
    cells: &[i64],
    bytes: &mut [u8],
) -> io::Result<()> {
    print_asked(rt, rate, p, bytes.len())?;
    print!(rt; " cells{}", Cells(cells))?;
    if let Some(used) = answered(rt, rate, p, cells, bytes)? {
        print_bytes(rt, &bytes[..used])?;
        read_back(rt, &bytes[..used])?;
    }
    Ok(())
}

// Saves so many cells of the long run, in blocks of two, where so many bytes are lent.
fn long_saved(rt: &impl Print, count: usize, room: usize) -> io::Result<()>
    requires { (count ≤ 13106) × (room ≤ 65538) }
{
    let cells = long_run();
    let mut bytes = long_room();
    long_saved_into(rt, &cells[..count], &mut bytes[..room])
}

// Two blocks of two cells more than have room in a trace. The last cell is loud.
fn long_run() -> [i64; 13106]
    ensures { 13106 ≡ length result }
{
    let mut cells = [-2; 13106];
    cells[13105] = 32768;
    cells
}

// Room for a trace that is one block too long.
fn long_room() -> [u8; 65538]
    ensures { 65538 ≡ length result }
{
    [LENT; 65538]
}

// Saves cells of the long run in these bytes, and fetches the last of the trace's 6,551 blocks.
fn long_saved_into(rt: &impl Print, cells: &[i64], bytes: &mut [u8]) -> io::Result<()> {
    print_asked(rt, 8000, 1, bytes.len())?;
    let count = cells.len();
    print!(rt; " {count} cells")?;
    if let Some(used) = answered(rt, 8000, 1, cells, bytes)? {
        fetched(rt, &bytes[..used], 6550, 1)?;
    }
    Ok(())
}

// Rate, P and the number of lent bytes. The cells follow.
fn print_asked(rt: &impl Print, rate: usize, p: usize, room: usize) -> io::Result<()> {
    print!(rt; "save rate {rate}, P {p} into {room} bytes,")
}

// Prints what save answers and how many of the other lent bytes are kept, and answers how many bytes are used where it saves. Where nothing can be printed,
// too, the bytes are as save leaves them.
fn answered(
    rt: &impl Print,
    rate: usize,
    p: usize,
    cells: &[i64],
    bytes: &mut [u8],
) -> io::Result<Option<usize>>
    ensures used { IfOk result (λ saved. IfSome saved (λ used. used ≤ length bytes.new)) }
    ensures bytes { bytes.new ≡ trace_left bytes.old (saving (as_head rate p) cells.now (length bytes.old)) }
{
    match saving::save(rate, p, cells, bytes) {
        Ok(used) => {
            print!(rt; ": {used} used")?;
            print_kept(rt, &bytes[used..])?;
            Ok(Some(used))
        }
        Err(refusal) => {
            print!(rt; ": {refusal}")?;
            print_kept(rt, bytes)?;
            Ok(None)
        }
    }
}

// How many of these lent bytes are kept: they hold what every lent byte held, up to the first that does not.
fn print_kept(rt: &impl Print, bytes: &[u8]) -> io::Result<()> {
    let kept = bytes.iter().take_while(|byte| **byte == LENT).count();
    println!(rt; ", {kept} kept")
}

// The bytes of a saved trace.
fn print_bytes(rt: &impl Print, bytes: &[u8]) -> io::Result<()> {
    print!(rt; "saved bytes")?;
    for byte in bytes {
        print!(rt; " {byte:02X}")?;
    }
    println!(rt)
}

// What check answers to a saved trace, and what fetch answers for each of its blocks.
fn read_back(rt: &impl Print, trace: &[u8]) -> io::Result<()> {
    let answer = trace::check(trace);
    println!(rt;
        "saved trace:{}",
        Answer(answer.map(|summary| Said(summary)))
    )?;
    if let Ok(summary) = answer {
        for k in 0..summary.blocks {
            fetched(rt, trace, k, summary.head.p)?;
        }
    }
    Ok(())
}

// What fetch answers for block k, which has two cells or four. The lent cells hold 7.
fn fetched(rt: &impl Print, trace: &[u8], k: usize, p: usize) -> io::Result<()> {
    if p == 1 {
        fetched_into(rt, trace, k, &mut [7, 7])
    } else {
        fetched_into(rt, trace, k, &mut [7, 7, 7, 7])
    }
}

// What fetch answers for block k and these cells, and the cells that it leaves.
fn fetched_into(rt: &impl Print, trace: &[u8], k: usize, cells: &mut [i64]) -> io::Result<()> {
    let answer = trace::fetch(trace, k, cells).map(|summary| Said(summary));
    println!(rt;
        "saved trace, block {k}:{}, cells{}",
        Answer(answer),
        Cells(cells)
    )
}
