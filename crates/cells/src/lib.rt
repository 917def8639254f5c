// A list of cells that is read by place, whatever holds them: a slice of whole numbers, or bytes that spell them.
#![tactic(auto)]

ghost use Rattle.std.specs.Prelude.{◌≡◌, ◌<◌, List, ℤ, length};
ghost use Rattle.ints.specs.Cells.{cell};

// Cells that are read by place. `list` is the list that they are.
pub trait Cells: Copy {
    ghost list: { Self → List ℤ };

    // The number of cells.
    fn len(self) -> usize
        ensures { result ≡ length (list self) };

    // The cell at a place.
    fn cell(self, i: usize) -> i64
        requires { i < length (list self) }
        ensures { result ≡ cell (list self) i };
}

// A lent slice is the list of its cells.
impl<'a> Cells for &'a [i64] {
    ghost list = { λ s. s.now };

    fn len(self) -> usize {
        self.len()
    }

    fn cell(self, i: usize) -> i64 {
        self[i]
    }
}
