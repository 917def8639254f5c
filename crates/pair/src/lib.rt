// One pair of neighbouring halves joined in its own cells (document 01, Levels 2): four lines at a time, from the same four cells, by the quarter's
// cosines alone, at a scale that is lent with its half.
#![tactic(auto)]

ghost use Rattle.std.specs.Prelude.{◌≡◌, ◌+◌, ◌*◌, ◌-◌, ◌/◌, ◌≤◌, ◌<◌, nat_abs, ◌+ℤ◌, ◌*ℤ◌, length};
ghost use Rattle.ints.specs.Cells.{cell};
ghost use Rattle.spectrum.specs.Limits.{LARGEST_PRODUCT, LARGEST_SUM};
ghost use Rattle.pair.specs.Pair.{Joinable, Quad, joined_pair, quadded, split};

use ints::Scale;

// The lines of the joined halves, the second behind the first. Lines 0 and n/2 of each half need no product; of the others, lines v, n - v, n + v and
// 2n - v have the same four cells, and line v takes entry v × stride of the quarter's cosines.
pub fn join(cells: &mut [i64], quarter: &[u32], scale: Scale, stride: usize)
    requires { Joinable scale.digits stride quarter.now cells.old }
    ensures { cells.new ≡ joined_pair scale.digits cells.old }
{
    let n = cells.len() / 2;
    let last = quarter.len() - 1;
    // By hand: the entry runs beside v, since `v * stride` takes 200 instructions more of 20,000 in a block of 256 cells.
    let mut entry = stride;
    for v in 1..n / 2 {
        let cosine = i64::from(quarter[entry]);
        let sine = i64::from(quarter[last - entry]);
        join_quad(cells, n, v, cosine, sine, scale);
        entry += stride;
    }
    join_plain(cells, n, 0);
    join_plain(cells, n, n / 2);
}

// Lines v and n + v where cosine and sine are 1 and 0, or 0 and 1 with the line its own mirror.
pub fn join_plain(cells: &mut [i64], n: usize, v: usize)
    requires { (length cells.old ≡ 2 * n) × (v < n) × (nat_abs (cell cells.old v) ≤ LARGEST_PRODUCT) × (nat_abs (cell cells.old (n + v)) ≤ LARGEST_PRODUCT) }
    ensures { cells.new ≡ split cells.old n v (cell cells.old (n + v)) }
{
    let b = cells[n + v];
    put_both(cells, n, v, b);
}

// Lines v, n - v, n + v and 2n - v, by line v's cosine and sine. For line n - v the two cells change places, and the cosine its sign.
// n is handed down, half the number of the cells, and cosine and sine stay two numbers: for line n - v they change places, which no angle shows plainer.
fn join_quad(cells: &mut [i64], n: usize, v: usize, cosine: i64, sine: i64, scale: Scale)
    requires { Quad scale.digits n v cosine sine cells.old }
    ensures { cells.new ≡ quadded scale.digits n v cosine sine cells.old }
{
    let mirror = n - v;
    let b = cells[n + v];
    let mirrored = cells[n + mirror];
    let q = scale.rounded(sum_of_products(b, mirrored, cosine, sine));
    let r = scale.rounded(sum_of_products(b, mirrored, sine, -cosine));
    put_both(cells, n, v, q);
    put_both(cells, n, mirror, r);
}

// Cell v plus q, and in cell n + v, half a turn on, cell v minus q.
pub fn put_both(cells: &mut [i64], n: usize, v: usize, q: i64)
    requires { (length cells.old ≡ 2 * n) × (v < n) × (nat_abs (cell cells.old v) ≤ LARGEST_PRODUCT) × (nat_abs q ≤ LARGEST_SUM) }
    ensures { cells.new ≡ split cells.old n v q }
{
    let a = cells[v];
    cells[v] = a + q;
    cells[n + v] = a - q;
}

// The sum of both products of a line.
fn sum_of_products(b: i64, mirrored: i64, cosine: i64, sine: i64) -> i64
    requires { (nat_abs b * nat_abs cosine ≤ LARGEST_PRODUCT) × (nat_abs mirrored * nat_abs sine ≤ LARGEST_PRODUCT) }
    ensures { (result ≡ b *ℤ cosine +ℤ mirrored *ℤ sine) × (nat_abs result ≤ LARGEST_SUM) }
{
    b * cosine + mirrored * sine
}
