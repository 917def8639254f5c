// Refusals with their numbers and places.
#![tactic(auto)]

ghost use Rattle.std.specs.Prelude.{◌≡◌, Some};
ghost use Rattle.refusal.specs.RefusalTable.{number, place};
ghost use Rattle.refusal.specs.RefusalText.{refusal_text};

use kind::Line;
use std::error::Error;
use std::fmt;

// Why an input is refused: the rows of document 01, Refused input, in its order and by its words, those of document 02, Item 3, which stand in place of
// its 13, and that of Item 7. A refusal holds its place, a cell, a line, a byte of the trace, the number of a block or a weight, unless the papers' place is 0.
#[derive(Clone, Copy, Debug, PartialEq, Eq)]
pub enum Refusal {
    Length,
    Misfit,
    Loud(usize),
    Line(Line),
    Long,
    Cut(usize),
    Kind(usize),
    Size(usize),
    Head(usize),
    Absent(usize),
    Headless(usize),
    SecondHead(usize),
    Tail(usize),
    Weights(usize),
}

impl Refusal {
    // The refusal's number in the papers.
    pub fn number(self) -> usize
        ensures { result ≡ number self }
    {
        match self {
            Refusal::Length => 1,
            Refusal::Misfit => 2,
            Refusal::Loud(_) => 3,
            Refusal::Line(_) => 4,
            Refusal::Long => 10,
            Refusal::Cut(_) => 11,
            Refusal::Kind(_) => 12,
            Refusal::Size(_) => 14,
            Refusal::Head(_) => 15,
            Refusal::Absent(_) => 16,
            Refusal::Headless(_) => 17,
            Refusal::SecondHead(_) => 18,
            Refusal::Tail(_) => 19,
            Refusal::Weights(_) => 20,
        }
    }

    // The refusal's place.
    pub fn place(self) -> usize
        ensures { result ≡ place self }
    {
        match self {
            Refusal::Length | Refusal::Misfit | Refusal::Long => 0,
            Refusal::Line(line) => line.0,
            Refusal::Loud(cell) => cell,
            Refusal::Absent(block) => block,
            Refusal::Weights(weight) => weight,
            Refusal::Cut(byte) | Refusal::Kind(byte) | Refusal::Size(byte) => byte,
            Refusal::Head(byte) | Refusal::Headless(byte) | Refusal::SecondHead(byte) => byte,
            Refusal::Tail(byte) => byte,
        }
    }
}

// The line of a refusal: its number and its place.
impl fmt::Display for Refusal {
    ghost output = { λ refusal. Some (refusal_text refusal) };

    fn fmt<W: fmt::Write>(&self, f: &mut fmt::Formatter<W>) -> fmt::Result {
        write!(f, "refused {} {}", self.number(), self.place())
    }
}

impl Error for Refusal {}
