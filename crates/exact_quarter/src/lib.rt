// The chosen pair's cosines over a quarter of the turn (document 02, Item 7), computed from the pair, step by step.
#![tactic(auto)]

ghost use Rattle.std.specs.Prelude.{◌≡◌, ℕ, ◌+◌, ◌-◌, ◌^◌, ◌≤◌, ◌+ℤ◌, ◌-ℤ◌, ◌*ℤ◌, nat_abs, length};
ghost use Rattle.exact_pair.specs.Pair.{cosine_step, quarter_of, sine_step};
ghost use Rattle.residues.specs.Residue.{centred, residue};
ghost use Rattle.exact_quarter.specs.Stepping.{Fills};

// The chosen pair: cosine and sine of one step of 1,024.
const COSINE: i64 = 28670693;

const SINE: i64 = 368578328;

// Cosine and sine of an angle, each between −2^30 and 2^30.
#[derive(Clone, Copy)]
pub struct Angle {
    pub cosine: i64,
    pub sine: i64,
    ghost small: { (nat_abs cosine ≤ 2 ^ 30) × (nat_abs sine ≤ 2 ^ 30) },
}

impl Angle {
    // The sum of both angles.
    fn plus(self, other: Angle) -> Angle
        ensures cosine { result.cosine ≡ centred (residue (self.cosine *ℤ other.cosine -ℤ self.sine *ℤ other.sine)) }
        ensures sine { result.sine ≡ centred (residue (self.cosine *ℤ other.sine +ℤ self.sine *ℤ other.cosine)) }
    {
        Angle {
            cosine: residues::centred(self.cosine * other.cosine - self.sine * other.sine),
            sine: residues::centred(self.cosine * other.sine + self.sine * other.cosine),
        }
    }
}

// Fills a list of 2^t + 1 cells with the quarter's cosines.
pub fn fill_quarter(quarter: &mut [i64], t: usize)
    requires { (t ≤ 8) × (length quarter.old ≡ 2 ^ t + 1) }
    ensures { quarter.new ≡ quarter_of t }
{
    fill_by(quarter, step_between(t));
}

// The angle between neighbouring entries of 2^t + 1: one step, doubled 8 − t times.
fn step_between(t: usize) -> Angle
    requires { t ≤ 8 }
    ensures { (result.cosine ≡ cosine_step (2 ^ (8 - t))) × (result.sine ≡ sine_step (2 ^ (8 - t))) }
{
    let mut angle = Angle {
        cosine: COSINE,
        sine: SINE,
    };
    for k in t..8 {
        angle = angle.plus(angle);
    }
    angle
}

// Fills the list from both its ends: the sine of an angle is the cosine of what is left to the quarter.
fn fill_by(quarter: &mut [i64], step: Angle)
    requires { Fills quarter.old step.cosine step.sine }
    ensures { (t : ℕ) → t ≤ 8 → length quarter.old ≡ 2 ^ t + 1 → quarter.new ≡ quarter_of t }
{
    let last = quarter.len() - 1;
    let mut angle = Angle { cosine: 1, sine: 0 };
    for j in 0..last / 2 + 1 {
        quarter[j] = angle.cosine;
        quarter[last - j] = angle.sine;
        angle = angle.plus(step);
    }
}
