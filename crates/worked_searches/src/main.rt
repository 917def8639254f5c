// Searches over powers worked by hand from document 02, Item 2, and run. What is printed is held to the file stdout.
#![tactic(auto)]

use kind::Line;
use printing::{Answer, Cells};
use std::fmt;
use std::fmt::{Display, Formatter};
use std::io::Result;

fn main(rt: HostRuntime) -> Result<()> {
    bands(&rt)?;
    below_zero(&rt)?;
    nearest_lines(&rt)?;
    levels(&rt)?;
    lengths(&rt)?;
    ends(&rt)
}

// Equals side by side, bands of one line, and the ends of a band.
fn bands(rt: &impl Print) -> Result<()> {
    let powers = [5, 9, 9, 2, 9];
    strongest_of(rt, &powers, 0, 4)?;
    strongest_of(rt, &powers, 2, 4)?;
    strongest_of(rt, &powers, 3, 3)?;
    strongest_of(rt, &powers, 3, 4)?;
    strongest_of(rt, &powers, 0, 1)?;
    strongest_of(rt, &[7, 7], 0, 1)?;
    // more than four lines, the strongest one first, in the middle and last
    strongest_of(rt, &[9, 1, 2, 3, 4, 5, 6, 7, 8], 0, 8)?;
    strongest_of(rt, &[1, 2, 3, 4, 5, 9, 6, 9, 8], 0, 8)?;
    strongest_of(rt, &[1, 2, 3, 4, 5, 6, 7, 8, 9], 0, 8)
}

// A list may hold any cells, and they are compared as signed numbers.
fn below_zero(rt: &impl Print) -> Result<()> {
    let powers = [-3, -2, -2];
    strongest_of(rt, &powers, 0, 2)?;
    nearest_of(rt, &powers, 0, -2)?;
    nearest_of(rt, &powers, 1, 0)?;
    strongest_of(rt, &[-9223372036854775808, 9223372036854775807], 0, 1)
}

// A hit at distance 0; two equally near; hits on one side alone; the far ends of the list.
fn nearest_lines(rt: &impl Print) -> Result<()> {
    let powers = [5, 9, 9, 2, 9];
    nearest_of(rt, &powers, 2, 9)?;
    nearest_of(rt, &powers, 3, 9)?;
    nearest_of(rt, &powers, 0, 9)?;
    nearest_of(rt, &powers, 3, 2)?;
    nearest_of(rt, &[8, 1, 1, 1, 1], 4, 8)?;
    nearest_of(rt, &[1, 1, 1, 1, 8], 0, 8)?;
    nearest_of(rt, &[1, 1, 1, 1, 8], 1, 8)
}

// A level that a power just reaches, one above it, above every power, and below every power.
fn levels(rt: &impl Print) -> Result<()> {
    let powers = [5, 3, 4];
    nearest_of(rt, &powers, 2, 5)?;
    nearest_of(rt, &powers, 2, 6)?;
    nearest_of(rt, &powers, 1, 4)?;
    nearest_of(rt, &powers, 1, 0)?;
    nearest_of(rt, &powers, 1, -9223372036854775808)
}

// Lengths that no list of powers has, which come before the lines: 0, 1, 4, 6 and 8 cells.
fn lengths(rt: &impl Print) -> Result<()> {
    strongest_of(rt, &[], 1, 0)?;
    strongest_of(rt, &[7], 9, 9)?;
    strongest_of(rt, &[7, 7, 7, 7], 9, 0)?;
    nearest_of(rt, &[7, 7, 7, 7, 7, 7], 9, 7)?;
    nearest_of(rt, &[7, 7, 7, 7, 7, 7, 7, 7], 0, 7)
}

// Lines above N/2, the low end before the high one, and a band turned round.
fn ends(rt: &impl Print) -> Result<()> {
    let powers = [5, 9, 9, 2, 9];
    strongest_of(rt, &powers, 5, 4)?;
    strongest_of(rt, &powers, 0, 5)?;
    strongest_of(rt, &powers, 6, 5)?;
    strongest_of(rt, &powers, 5, 6)?;
    strongest_of(rt, &powers, 3, 1)?;
    nearest_of(rt, &powers, 5, 9)?;
    nearest_of(rt, &powers, 18446744073709551615, 9)
}

// The strongest line from low to high.
fn strongest_of(rt: &impl Print, powers: &[i64], low: usize, high: usize) -> Result<()> {
    let answer = search::strongest(powers, Line(low), Line(high)).map(|line| Found(Some(line)));
    println!(rt;
        "strongest from {low} to {high} of{}:{}",
        Cells(powers),
        Answer(answer)
    )
}

// The line nearest to the chosen one that reaches the level.
fn nearest_of(rt: &impl Print, powers: &[i64], chosen: usize, level: i64) -> Result<()> {
    let answer = search::nearest(powers, Line(chosen), level).map(Found);
    println!(rt;
        "nearest to {chosen} from {level} on, of{}:{}",
        Cells(powers),
        Answer(answer)
    )
}

// What a search finds, as text.
#[derive(Clone, Copy)]
struct Found(Option<Line>);

impl Display for Found {
    fn fmt<W: fmt::Write>(&self, f: &mut Formatter<W>) -> fmt::Result {
        match self.0 {
            Some(line) => write!(f, "line {}", line.0),
            None => write!(f, "none"),
        }
    }
}
