// Two neighbouring halves of an exact spectrum joined in their own cells (document 02, Item 7): four lines at a time, from the same four cells, by the
// cosines of the pair in force, `CHOSEN`, over a quarter of the turn. A cell holds any number with the right residue, and is folded before it is multiplied.
#![tactic(auto)]

ghost use Rattle.std.specs.Prelude.{◌≡◌, ◌*◌, ◌/◌, length};
ghost use Rattle.ints.specs.Cells.{cell};
ghost use Rattle.residues.specs.Folded.{folded};
ghost use Rattle.exact_pair.specs.Pair.{FIRST, Factors, PairReady, Quad, Stands, exact_line, folded_quad, products};

// The lines of two joined halves, the second behind the first. Lines 0 and n/2 of each half need no product; of the others, lines v, n - v, n + v and
// 2n - v have the same four cells, and line v takes entry v × stride of the quarter's cosines.
// It has the shape of `pair::join`, and stays beside it: there a line is a rounded quotient at a scale, here it stands for a sum that is folded.
pub fn join(cells: &mut [i64], quarter: &[i64], stride: usize)
    requires { PairReady stride quarter.now cells.old }
    ensures { Stands (length cells.old * FIRST) (length cells.old) (exact_line (length cells.old / 2) (cell cells.old)) cells.new }
{
    let n = cells.len() / 2;
    let last = quarter.len() - 1;
    for v in 1..n / 2 {
        let entry = v * stride;
        let cosine = quarter[entry];
        let sine = quarter[last - entry];
        join_quad(cells, n, v, cosine, sine);
    }
    pair::join_plain(cells, n, 0);
    pair::join_plain(cells, n, n / 2);
}

// Lines v, n - v, n + v and 2n - v, by line v's cosine and sine. For line n - v cosine and sine change places, and the cosine its sign.
fn join_quad(cells: &mut [i64], n: usize, v: usize, cosine: i64, sine: i64)
    requires { Quad n v cosine sine cells.old }
    ensures { cells.new ≡ folded_quad n v cosine sine cells.old }
{
    let mirror = n - v;
    let b = residues::folded(cells[n + v]);
    let mirrored = residues::folded(cells[n + mirror]);
    let q = folded_sum(b, mirrored, cosine, sine);
    let r = folded_sum(b, mirrored, sine, -cosine);
    pair::put_both(cells, n, v, q);
    pair::put_both(cells, n, mirror, r);
}

// Both products of a line, added and folded.
fn folded_sum(b: i64, mirrored: i64, cosine: i64, sine: i64) -> i64
    requires { Factors b mirrored cosine sine }
    ensures { result ≡ folded (products b mirrored cosine sine) }
{
    residues::folded(b * cosine + mirrored * sine)
}
