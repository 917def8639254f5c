// The plain cyclic sums of a short block and its weights (document 02, Item 7), for which the way by spectra would take longer.
#![tactic(auto)]

ghost use Rattle.std.specs.Prelude.{◌≡◌, ◌*◌, ◌≤◌, length};
ghost use Rattle.exact.specs.Smoothing.{cyclic_sums};
ghost use Rattle.cyclic_sums.specs.Short.{SHORT, Short, Sliding, dot_product, slid_sums, turned_back};

// The cells of the longest block that is summed so.
pub const SHORT: usize = 32;

// The cells of as many weights backwards, twice.
const SHORT_TWICE: usize = 2 * SHORT;

// The cyclic sums of the samples in the cells and of the weights, in the samples' place. The rooms are arrays, since there is no heap; that they suffice is asked
// of each list by itself.
pub fn sum_cells(cells: &mut [i64], weights: &[i64])
    requires { (length cells.old ≤ SHORT) × Short cells.old weights.now }
    ensures { cells.new ≡ cyclic_sums cells.old weights.now }
{
    let mut room = [0i64; SHORT];
    let mut turned = [0i64; SHORT_TWICE];
    let samples = &mut room[..cells.len()];
    copy(cells, samples);
    fill_sums(samples, weights, &mut turned[..2 * cells.len()], cells);
}

// Copies the samples. By hand: std's copy is compiled to a call of memmove, which the archive for hosts in C needs for nothing else.
pub fn copy(from: &[i64], to: &mut [i64])
    requires { length to.old ≡ length from.now }
    ensures { to.new ≡ from.now }
{
    for i in 0..from.len() {
        to[i] = from[i];
    }
}

// The cyclic sums of the samples and of the weights, with room for the weights backwards, twice.
pub fn fill_sums(samples: &[i64], weights: &[i64], turned: &mut [i64], sums: &mut [i64])
    requires samples_len_bound { (length samples.now ≤ SHORT) × Short samples.now weights.now }
    requires turned_len { (length turned.old ≡ 2 * length samples.now) × (length sums.old ≡ length samples.now) }
    ensures { sums.new ≡ cyclic_sums samples.now weights.now }
{
    turn_back(weights, turned);
    slide(samples, turned, sums);
}

// The weights backwards, twice.
fn turn_back(weights: &[i64], turned: &mut [i64])
    requires { length turned.old ≡ 2 * length weights.now }
    ensures { turned.new ≡ turned_back weights.now }
{
    let n = weights.len();
    for i in 0..n {
        let weight = weights[n - 1 - i];
        turned[i] = weight;
        turned[n + i] = weight;
    }
}

// The sum at each moment t, for which the samples meet the turned weights from place N − 1 − t on: weight t down to the first, and then the last down.
fn slide(samples: &[i64], turned: &[i64], sums: &mut [i64])
    requires { (length samples.now ≤ SHORT) × Sliding samples.now turned.now × (length sums.old ≡ length samples.now) }
    ensures { sums.new ≡ slid_sums samples.now turned.now }
{
    let n = samples.len();
    for (t, sum) in sums.iter_mut().enumerate() {
        let start = n - 1 - t;
        *sum = dot(samples, &turned[start..start + n]);
    }
}

// The sum of the products of as many samples and factors.
fn dot(samples: &[i64], factors: &[i64]) -> i64
    requires { (length samples.now ≤ SHORT) × Short samples.now factors.now }
    ensures { result ≡ dot_product samples.now factors.now }
{
    let mut sum = 0;
    for (i, sample) in samples.iter().enumerate() {
        sum += *sample * factors[i];
    }
    sum
}
