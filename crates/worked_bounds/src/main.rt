// Document 02, Item 6: bounds worked by hand, run. What is printed is held to the file stdout, which was worked by hand from the document.
#![tactic(auto)]

use printing::{Answer, Cells};
use std::io::Result;

fn main(rt: HostRuntime) -> Result<()> {
    // two and four samples, however loud
    bound_of(&rt, &[32767, -32768])?;
    bound_of(&rt, &[32767, -32768, 0, 0])?;
    // eight: silent, quiet and at either limit
    bound_of(&rt, &[0, 0, 0, 0, 0, 0, 0, 0])?;
    bound_of(&rt, &[1, 2, 3, -100, 5, 6, 7, 8])?;
    bound_of(&rt, &[1, 2, 3, 4, 5, 6, 7, 32767])?;
    bound_of(&rt, &[-32768, 2, 3, 4, 5, 6, 7, 8])?;
    // the paper's own, of 1,024
    bound_of_zeros_and(&rt, 100)?;
    bound_of_zeros_and(&rt, -100)?;
    bound_of_zeros_and(&rt, 0)?;
    bound_of_zeros_and(&rt, -32768)?;
    refusals(&rt)
}

// 1 before 3, and 3 beyond either limit.
fn refusals(rt: &impl Print) -> Result<()> {
    bound_of(rt, &[])?;
    bound_of(rt, &[40000, 1, 2])?;
    bound_of(rt, &[1, 2, 32768, -40000])?;
    bound_of(rt, &[1, -32769])?;
    bound_of_zeros_and(rt, 32768)
}

// What is answered of a block: the bound, or the refusal.
fn bound_of(rt: &impl Print, cells: &[i64]) -> Result<()> {
    println!(rt;
        "bound of{}:{}",
        Cells(cells),
        Answer(distance::bound(cells))
    )
}

// The same of 1,024 cells that are 0, but for cell 1,000, which is x.
fn bound_of_zeros_and(rt: &impl Print, x: i64) -> Result<()> {
    let mut cells = [0; 1024];
    cells[1000] = x;
    println!(rt;
        "bound of zeros and {x}:{}",
        Answer(distance::bound(cells.as_slice()))
    )
}
