// How large matrices are, and where their parts begin.
ghost use Rattle.std.specs.Prelude.{◌≡◌, ◌+◌, ◌*◌, ◌<◌, ◌≤◌};

// A matrix of this size has so many rows of as many elements, row by row: 64 at most, so that no place overflows.
#[derive(Clone, Copy)]
pub(crate) struct Size {
    pub(crate) rows: usize,
    ghost small: { rows ≤ 64 },
}

impl Size {
    pub(crate) const LARGEST: usize = 64;

    // How many elements a matrix has.
    pub(crate) fn elements(self) -> usize
        ensures { result ≡ self.rows * self.rows }
    {
        self.rows * self.rows
    }

    // Where row i begins.
    pub(crate) fn row_start(self, i: usize) -> usize
        requires { i < self.rows }
        ensures value { result ≡ i * self.rows }
        ensures inside { result + self.rows ≤ self.rows * self.rows }
    {
        i * self.rows
    }

    // The place of the entry (i, j).
    pub(crate) fn place(self, i: usize, j: usize) -> usize
        requires i_inside { i < self.rows }
        requires j_inside { j < self.rows }
        ensures value { result ≡ i * self.rows + j }
        ensures inside { result < self.rows * self.rows }
    {
        self.row_start(i) + j
    }
}
