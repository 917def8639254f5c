// How far a line of a forward spectrum can lie from the direct sum, by the loudest sample of the block (document 02, Item 6). The block is a slice, or bytes
// that spell it: whatever is read by place.
#![tactic(auto)]

ghost use Rattle.std.specs.Prelude.{◌≡◌, ℕ, ◌+◌, ◌*◌, Ok};
ghost use Rattle.kind.specs.BlockKinds.{SCALE};
ghost use Rattle.spectrum.specs.Distance.{bound, ceiling};
ghost use Rattle.distance.specs.BoundAnswers.{bound_answer, bound_answer_numbers, bound_numbers};
ghost use Rattle.distance.specs.Inner.{CanBound, CanStep, answer_by, heard};

use block::{LARGEST_SAMPLE, LEAST_SAMPLE};
use cells::Cells;
use kind::BlockKind;
use refusal::Refusal;

// The bound for a block of samples: no line of its forward spectrum is farther from the direct sum. It takes the blocks that forward takes.
pub fn bound(cells: &[i64]) -> Result<u64, Refusal>
    ensures answer { result ≡ bound_answer cells.now }
    ensures numbers { bound_answer_numbers result ≡ bound_numbers cells.now }
{
    bound_of(cells)
}

// The same for any list of cells that is read by place.
pub fn bound_of<C: Cells>(cells: C) -> Result<u64, Refusal>
    ensures answer { result ≡ bound_answer (C.list cells) }
    ensures numbers { bound_answer_numbers result ≡ bound_numbers (C.list cells) }
{
    let kind = BlockKind::of_len(cells.len()).ok_or(Refusal::Length)?;
    answer(kind.p, listen(cells))
}

// The answer for 2^p cells, by what was heard of them.
#[tactic(auto, unfolding(crate::specs::Inner::answer_by))]
fn answer(p: usize, listened: Result<u64, Refusal>) -> Result<u64, Refusal>
    requires { (M : ℕ) → listened ≡ Ok M → CanBound SCALE M p }
    ensures { result ≡ answer_by p listened }
{
    Ok(bound_for(BlockKind::SCALE as u64, listened?, p))
}

// The largest magnitude of the cells, or the refusal of the first loud one.
fn listen<C: Cells>(cells: C) -> Result<u64, Refusal>
    ensures { result ≡ heard (C.list cells) }
{
    let mut largest: u64 = 0;
    for i in 0..cells.len() {
        let x = cells.cell(i);
        if block::loud(LEAST_SAMPLE, LARGEST_SAMPLE, x) {
            return Err(Refusal::Loud(i));
        }
        largest = largest.max(ints::magnitude(x));
    }
    Ok(largest)
}

// The bound for 2^p samples of at most this magnitude, at this scale. Levels 1 and 2 are exact; each level more joins halves of
// twice as many samples.
fn bound_for(scale: u64, largest: u64, p: usize) -> u64
    requires { CanBound scale largest p }
    ensures { result ≡ bound scale largest p }
{
    let mut so_far = 0;
    for level in 2..p {
        so_far = next_bound(scale, (1 << level) * largest, so_far);
    }
    so_far
}

// The bound after one level more: 5/2 of the one before, and what half the length times the magnitude is over the scale, both rounded up, and 1.
fn next_bound(scale: u64, product: u64, before: u64) -> u64
    requires { CanStep scale product before }
    ensures { result ≡ ceiling (5 * before) 2 + ceiling product scale + 1 }
{
    (5 * before).div_ceil(2) + product.div_ceil(scale) + 1
}
