// The engine's quarter table, and the cosine and sine of any step of a turn by a quarter's cosines.
#![tactic(auto)]

mod coarse;
mod table;

ghost use Rattle.std.specs.Prelude.{◌≡◌, ◌*◌};
ghost use Rattle.ints.specs.Tabulate.{tabulate};
ghost use Rattle.kind.specs.BlockKinds.{SCALE_DIGITS};
ghost use Rattle.cosine.specs.Cosine.{away, cosine, entries, sine, quarter_table};

use kind::BlockKind;

// The engine's quarter table: T(0) to T(256).
pub fn quarter_table() -> [u32; 257]
    ensures { result ≡ tabulate 257 (quarter_table SCALE_DIGITS) }
{
    table::QUARTER
}

// Each sixteenth entry of it, T(0), T(16), .., T(256): what blocks of up to 64 cells need. A table that is a constant is set up anew in each call, and
// all 257 entries are a good part of what a block of 16 cells takes.
pub fn coarse_table() -> [u32; 17]
    ensures { result ≡ tabulate 17 (λ j. quarter_table SCALE_DIGITS (j * 16)) }
{
    coarse::SIXTEENTHS
}

// The cosine of a step, whatever its number, from the cosines of a quarter turn: odd about 256, even about 0.
pub fn cosine(quarter: &[u32; 257], step: usize) -> i64
    ensures { result ≡ cosine (entries quarter.now) step }
{
    let k = steps_away(step);
    if k <= 256 {
        i64::from(quarter[k])
    } else {
        -i64::from(quarter[512 - k])
    }
}

// The sine of a step: the cosine 256 steps back, which is 768 on.
pub fn sine(quarter: &[u32; 257], step: usize) -> i64
    ensures { result ≡ sine (entries quarter.now) step }
{
    cosine(quarter, step % BlockKind::TURN + 768)
}

// The steps from here to the nearest whole turn, 0 to 512.
pub fn steps_away(step: usize) -> usize
    ensures { result ≡ away step }
{
    let turned = step % BlockKind::TURN;
    if turned <= 512 {
        turned
    } else {
        BlockKind::TURN - turned
    }
}
