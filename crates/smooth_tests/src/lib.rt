// The tests of what is lent to smoothing (document 02, Item 7): 1, 2, 3 and 20 in turn.
#![tactic(auto)]

ghost use Rattle.std.specs.Prelude.{◌≡◌, length};
ghost use Rattle.ints.specs.Place.{place_below};
ghost use Rattle.block.specs.BlockAnswers.{block_numbers};
ghost use Rattle.smooth_tests.specs.Tests.{first_heavy, smoothing_numbers, tested_smoothing};

use block::{LARGEST_SAMPLE, LEAST_SAMPLE};
use kind::BlockKind;
use refusal::Refusal;

// The most that the weights' magnitudes may add to.
const LARGEST_WEIGHTS: u64 = 32767;

// The kind of a block of samples that comes with weights, or the first fault of both.
pub fn tested(cells: &[i64], weights: &[i64]) -> Result<BlockKind, Refusal>
    ensures answer { result ≡ tested_smoothing cells.now weights.now }
    ensures numbers { block_numbers result ≡ smoothing_numbers cells.now weights.now }
{
    let kind = BlockKind::of_len(cells.len()).ok_or(Refusal::Length)?;
    if weights.len() != cells.len() {
        return Err(Refusal::Misfit);
    }
    if let Some(place) = block::first_loud(LEAST_SAMPLE, LARGEST_SAMPLE, cells) {
        return Err(Refusal::Loud(place));
    }
    match first_heavy(weights) {
        Some(place) => Err(Refusal::Weights(place)),
        None => Ok(kind),
    }
}

// The place of the first weight where the running sum of the magnitudes passes its limit, if there is one. A sum that goes on is within the limit, so that
// no magnitude is too large to be added.
fn first_heavy(weights: &[i64]) -> Option<usize>
    ensures { result ≡ place_below (length weights.now) (first_heavy weights.now) }
{
    let mut running = 0;
    for (i, weight) in weights.iter().enumerate() {
        running += ints::magnitude(*weight);
        if LARGEST_WEIGHTS < running {
            return Some(i);
        }
    }
    None
}
