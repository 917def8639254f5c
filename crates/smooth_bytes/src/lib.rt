// Smoothing of a block whose cells are bytes by weights whose cells are bytes, for hosts in C (document 02, Item 7).
#![tactic(auto)]

ghost use Rattle.std.specs.Prelude.{◌≡◌, ◌*◌, ◌≤◌, length};
ghost use Rattle.kind.specs.BlockKinds.{LARGEST};
ghost use Rattle.cell_bytes.specs.CellBytes.{CELL, cell_count, fit_count};
ghost use Rattle.cyclic_sums.specs.Short.{SHORT};
ghost use Rattle.smooth_bytes.specs.Inner.{SmoothAnswered};

use cell_bytes::CELL;
use lent_cells::{LARGEST, MIDDLE};

// Smoothing of the cells that the bytes spell, eight bytes each. Of a block of up to 32 cells their number is known where it is compiled.
pub fn smooth(bytes: &mut [u8], weights: &[u8]) -> u64
    ensures { SmoothAnswered bytes.old weights.now bytes.new result }
{
    if weights.len() != bytes.len() {
        return smooth_long(bytes, weights);
    }
    match bytes.len() {
        16 => smooth_cells::<2, 4>(bytes, weights),
        32 => smooth_cells::<4, 8>(bytes, weights),
        64 => smooth_cells::<8, 16>(bytes, weights),
        128 => smooth_cells::<16, 32>(bytes, weights),
        256 => smooth_cells::<32, 64>(bytes, weights),
        _ => smooth_long(bytes, weights),
    }
}

// Smoothing of N samples by N weights. TWICE is 2 N, since the length of a list may not be computed from N.
fn smooth_cells<const N: usize, const TWICE: usize>(bytes: &mut [u8], weights: &[u8]) -> u64
    requires short { (N ≤ SHORT) × (TWICE ≡ 2 * N) }
    requires whole { (length bytes.old ≡ CELL * N) × (length weights.now ≡ CELL * N) }
    ensures { SmoothAnswered bytes.old weights.now bytes.new result }
{
    let mut cells = [0i64; N];
    let mut values = [0i64; N];
    let mut turned = [0i64; TWICE];
    let mut sums = [0i64; N];
    cell_bytes::decode(bytes, &mut cells);
    cell_bytes::decode(weights, &mut values);
    let answer = packing::packed(smoothing::smooth_short(&cells, &values, &mut turned, &mut sums));
    lent_cells::write_back(answer, &sums, bytes);
    answer
}

// Smoothing of a longer block, or of bytes that are refused: those of no block, and weights that misfit, which are read as no cell.
fn smooth_long(bytes: &mut [u8], weights: &[u8]) -> u64
    ensures { SmoothAnswered bytes.old weights.now bytes.new result }
{
    let samples = cell_bytes::cell_count(CELL * LARGEST, bytes.len());
    let count = cell_bytes::fit_count(samples, weights.len());
    if samples <= MIDDLE {
        smooth_in::<MIDDLE>(bytes, weights, samples, count)
    } else {
        smooth_in::<LARGEST>(bytes, weights, samples, count)
    }
}

// The same in rooms of ROOM cells, for the cells that are read and for the weights.
fn smooth_in<const ROOM: usize>(
    bytes: &mut [u8],
    weights: &[u8],
    samples: usize,
    count: usize,
) -> u64
    requires room { (samples ≤ ROOM) × (ROOM ≤ LARGEST) }
    requires samples_len { samples ≡ cell_count (CELL * LARGEST) (length bytes.old) }
    requires count_len { (count ≡ fit_count samples (length weights.now)) × (count ≤ samples) }
    ensures { SmoothAnswered bytes.old weights.now bytes.new result }
{
    let mut samples_room = [0i64; ROOM];
    let mut weights_room = [0i64; ROOM];
    let cells = &mut samples_room[..samples];
    let values = &mut weights_room[..count];
    cell_bytes::decode(bytes, cells);
    cell_bytes::decode(weights, values);
    let answer = packing::packed(smoothing::smooth(cells, values));
    lent_cells::write_back(answer, cells, bytes);
    answer
}
