// The search over a list of doubled powers, those of lines 0 to N/2 (document 02, Item 2): the strongest line of a band, and the line nearest to a chosen
// one whose power reaches a level. The list is a slice, or bytes that spell it: whatever is read by place.
#![tactic(auto)]

ghost use Rattle.std.specs.Prelude.{◌≡◌, ◌+◌, ◌^◌, ◌≤◌, ◌<◌, ◌≤ℤ◌, length};
ghost use Rattle.kind.specs.BlockKinds.{LARGEST};
ghost use Rattle.search.specs.Search.{Strongest, nearest, reaches};
ghost use Rattle.search.specs.SearchTests.{tested_band, tested_chosen, wrong_length};
ghost use Rattle.search.specs.SearchAnswers.{as_found, nearest_answer, nearest_numbers, search_numbers, strongest_answer, strongest_numbers};
ghost use Rattle.search.specs.Inner.{NoneWithin, ReachesAt, stronger};

use cells::Cells;
use kind::{BlockKind, Line};
use refusal::Refusal;

// The strongest line so far, with its power.
#[derive(Clone, Copy)]
pub struct Peak {
    pub line: usize,
    pub power: i64,
}

// The strongest line from low to high, both included; the lowest of equals. There is always one.
pub fn strongest(powers: &[i64], low: Line, high: Line) -> Result<Line, Refusal>
    ensures answer { as_found result ≡ strongest_answer powers.now low high }
    ensures numbers { search_numbers (as_found result) ≡ strongest_numbers powers.now low.0 high.0 }
{
    strongest_of(powers, low, high)
}

// The same of any list of powers that is read by place.
pub fn strongest_of<C: Cells>(powers: C, low: Line, high: Line) -> Result<Line, Refusal>
    ensures answer { as_found result ≡ strongest_answer (C.list powers) low high }
    ensures numbers { search_numbers (as_found result) ≡ strongest_numbers (C.list powers) low.0 high.0 }
{
    tested_band(powers.len(), low, high)?;
    Ok(look_through(powers, low, high))
}

// The line nearest to the chosen one whose power reaches the level, the lower of two equally near; or none.
pub fn nearest(powers: &[i64], chosen: Line, level: i64) -> Result<Option<Line>, Refusal>
    ensures answer { result ≡ nearest_answer powers.now chosen level }
    ensures numbers { search_numbers result ≡ nearest_numbers powers.now chosen.0 level }
{
    nearest_of(powers, chosen, level)
}

// The same of any list of powers that is read by place.
pub fn nearest_of<C: Cells>(powers: C, chosen: Line, level: i64) -> Result<Option<Line>, Refusal>
    ensures answer { result ≡ nearest_answer (C.list powers) chosen level }
    ensures numbers { search_numbers result ≡ nearest_numbers (C.list powers) chosen.0 level }
{
    tested_chosen(powers.len(), chosen)?;
    Ok(look_outwards(powers, chosen, level))
}

// The checks of a list of so many powers and of the ends of a band, in turn.
pub fn tested_band(cells: usize, low: Line, high: Line) -> Result<(), Refusal>
    ensures { result ≡ tested_band cells low high }
{
    if wrong_length(cells) {
        return Err(Refusal::Length);
    }
    let from = low.0;
    let to = high.0;
    let last = cells - 1;
    if last < from {
        return Err(Refusal::Line(low));
    }
    if last < to {
        return Err(Refusal::Line(high));
    }
    if to < from {
        return Err(Refusal::Line(low));
    }
    Ok(())
}

// The checks of a list of so many powers and of a chosen line, in turn.
pub fn tested_chosen(cells: usize, chosen: Line) -> Result<(), Refusal>
    ensures { result ≡ tested_chosen cells chosen }
{
    if wrong_length(cells) {
        return Err(Refusal::Length);
    }
    if cells - 1 < chosen.0 {
        return Err(Refusal::Line(chosen));
    }
    Ok(())
}

// Whether no block has so many lines from 0 to N/2.
fn wrong_length(cells: usize) -> bool
    ensures { result ≡ wrong_length cells }
{
    if cells == 0 {
        return true;
    }
    if BlockKind::LARGEST < cells {
        return true;
    }
    BlockKind::of_len(2 * (cells - 1)).is_none()
}

// The strongest line of a band that the list has: the first lines one by one, so many that the others are whole fours.
fn look_through<C: Cells>(powers: C, low: Line, high: Line) -> Line
    requires { (low.0 ≤ high.0) × (high.0 < length (C.list powers)) × (high.0 < LARGEST) }
    ensures { Strongest (C.list powers) low.0 high.0 result.0 }
{
    let mut peak = Peak {
        line: low.0,
        power: powers.cell(low.0),
    };
    let start = low.0 + 1;
    let lines = high.0 - low.0;
    let fours = start + lines % 4;
    for next in start..fours {
        peak = stronger(peak, next, powers.cell(next));
    }
    for k in 0..lines / 4 {
        let next = fours + 4 * k;
        peak = stronger_of_four(
            peak,
            next,
            powers.cell(next),
            powers.cell(next + 1),
            powers.cell(next + 2),
            powers.cell(next + 3),
        );
    }
    Line(peak.line)
}

// The strongest line so far, once four lines are looked at, from line v on. Mostly none is stronger, and then one comparison with the largest tells it.
pub fn stronger_of_four(peak: Peak, v: usize, a: i64, b: i64, c: i64, d: i64) -> Peak
    requires { v + 3 < 2 ^ 64 }
    ensures { result ≡ stronger (stronger (stronger (stronger peak v a) (v + 1) b) (v + 2) c) (v + 3) d }
{
    if reaches(peak.power, larger(larger(a, b), larger(c, d))) {
        return peak;
    }
    stronger(
        stronger(stronger(stronger(peak, v, a), v + 1, b), v + 2, c),
        v + 3,
        d,
    )
}

// The larger of two powers. By hand: `max` would be a second comparison of powers beside `reaches`.
fn larger(a: i64, b: i64) -> i64
    ensures { (a ≤ℤ result) × (b ≤ℤ result) }
{
    if reaches(a, b) { a } else { b }
}

// The strongest line so far, once line v is looked at, which lies above the others.
pub fn stronger(peak: Peak, v: usize, power: i64) -> Peak
    ensures { result ≡ stronger peak v power }
{
    let next = Peak { line: v, power };
    let kept = reaches(peak.power, power);
    if kept { peak } else { next }
}

// Whether a power reaches a level. This is the only comparison of powers.
#[tactic(auto, unfolding(crate::specs::Search::reaches))]
pub fn reaches(power: i64, level: i64) -> bool
    ensures { result ≡ reaches power level }
{
    level <= power
}

// The nearest line to a line of the list: that line itself, then one below and one above at each distance, as far as there are both, then what is left,
// which lies on one side alone.
fn look_outwards<C: Cells>(powers: C, chosen: Line, level: i64) -> Option<Line>
    requires { chosen.0 < length (C.list powers) }
    ensures { result ≡ nearest (C.list powers) chosen.0 level }
{
    let v = chosen.0;
    if reaches_at(powers, v, level) {
        return Some(chosen);
    }
    let lines = powers.len();
    let near = v.min(lines - 1 - v);
    // With `..=near`, as measured, a look through the whole list takes a quarter longer.
    for far in 1..near + 1 {
        let below = v - far;
        let above = v + far;
        if reaches_at(powers, below, level) {
            return Some(Line(below));
        }
        if reaches_at(powers, above, level) {
            return Some(Line(above));
        }
    }
    for far in near + 1..v + 1 {
        let low = v - far;
        if reaches_at(powers, low, level) {
            return Some(Line(low));
        }
    }
    for far in near + 1..lines - v {
        let high = v + far;
        if reaches_at(powers, high, level) {
            return Some(Line(high));
        }
    }
    None
}

// Whether the power of line v reaches the level.
fn reaches_at<C: Cells>(powers: C, v: usize, level: i64) -> bool
    requires { v < length (C.list powers) }
    ensures { ReachesAt (C.list powers) v level result }
{
    reaches(powers.cell(v), level)
}
