// The quarter table from its rule (document 02, Item 8): inside a quarter the cosine is had from the whole turn's cosine at twice the angle, and the whole
// turn's cosine is folded back to a quarter's. No number of the table stands here.
#![tactic(auto)]

ghost use Rattle.std.specs.Prelude.{◌≡◌, ◌+◌, ◌-◌, ◌/◌, ◌≤◌, ◌^◌, nat_abs, length};
ghost use Rattle.ints.specs.Tabulate.{tabulate};
ghost use Rattle.kind.specs.BlockKinds.{SCALE_DIGITS};
ghost use Rattle.cosine.specs.Cosine.{cosine, fine_with, half_angle, quarter_table};

use kind::BlockKind;

// 1, at the scale of the fine cosines, 2^60.
const ONE: u64 = 1 << 60;

// The doublings that lead from every step of a quarter to 0 or 256, or to a step that is folded back to one of them.
const DOUBLINGS: usize = 8;

// The engine's quarter table, T(0) to T(256).
pub fn quarter_table() -> [u32; 257]
    ensures { result ≡ tabulate 257 (quarter_table SCALE_DIGITS) }
{
    let mut table = [0; 257];
    fill(BlockKind::SCALE_DIGITS, &mut table);
    table
}

// Fills the lent table, at scale 2^s.
fn fill(s: usize, table: &mut [u32])
    requires { s ≤ 22 }
    ensures { table.new ≡ tabulate (length table.old) (quarter_table s) }
{
    for (j, entry) in table.iter_mut().enumerate() {
        *entry = at_scale(s, quarter_cosine(DOUBLINGS, j));
    }
}

// A fine cosine, rounded to scale 2^s.
fn at_scale(s: usize, fine: u64) -> u32
    requires { (s ≤ 22) × (fine ≤ 2 ^ 60) }
    ensures { result ≡ (fine + 2 ^ (59 - s)) / 2 ^ (60 - s) }
{
    ((fine + (1 << (59 - s))) >> (60 - s)) as u32
}

// The fine cosine at j steps, of a quarter, with so many doublings left: from the whole turn's cosine at twice the angle.
#[cycle(cosine)]
fn quarter_cosine(doublings: usize, j: usize) -> u64
    ensures { result ≡ fine_with 60 doublings j }
{
    if j == 0 {
        return ONE;
    }
    if 256 <= j {
        return 0;
    }
    if doublings == 0 {
        return 0;
    }
    half_angle(turn_cosine(doublings - 1, 2 * j))
}

// The fine cosine at any step of the whole turn, with so many doublings left: folded back to a quarter's.
#[cycle(cosine)]
fn turn_cosine(doublings: usize, step: usize) -> i64
    ensures { result ≡ cosine (fine_with 60 doublings) step }
{
    let k = quarter::steps_away(step);
    if k <= 256 {
        quarter_cosine(doublings, k) as i64
    } else {
        -(quarter_cosine(doublings, 512 - k) as i64)
    }
}

// The half-angle law: the cosine from that of twice the angle. (2^60 + G) × 2^59 is 2 (2^60 + G) × 4^29.
fn half_angle(twice: i64) -> u64
    requires { nat_abs twice ≤ 2 ^ 60 }
    ensures { result ≡ half_angle 60 twice }
{
    roots::long_root(2 * ((ONE as i64 + twice) as u64))
}
