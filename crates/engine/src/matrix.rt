// Matrices that lie row by row in a work area, and the rows and columns that are made of them.
ghost use Rattle.std.specs.Prelude.{◌≡◌, ℕ, ◌+◌, ◌*◌, ◌<◌, ◌≤◌, true, length, take, drop};
ghost use Rattle.algebra.specs.Sums.{at};
ghost use Rattle.recursion.specs.Steps.{stepped};
ghost use Rattle.engine.specs.Matrices.{IsProduct, Joined, Normal, NormalFrom, WithColumn, entry, means, times};

use crate::size::Size;
use algebra::Algebra;

// Puts elements into normal form, so that the loops below need not test them.
pub(crate) fn normalize<E: Algebra>(xs: &mut [E])
    ensures same { (p : ℕ) → p < length xs.old → means E.Algebra xs.new p ≡ means E.Algebra xs.old p }
    ensures normal { Normal E.Algebra.normal xs.new (length xs.old) }
{
    for x in xs.iter_mut() {
        *x = x.normalized();
    }
}

// Zero at each place. `fill` asks for a clone that cannot fail, which no bound says of an algebra's elements.
fn clear<E: Algebra>(out: &mut [E])
    ensures zero { (p : ℕ) → p < length out.old → means E.Algebra out.new p ≡ E.Algebra.ops.zero }
    ensures normal { Normal E.Algebra.normal out.new (length out.old) }
{
    for x in out.iter_mut() {
        *x = E::zero();
    }
}

// Adds a times the row b. Nothing is asked of what is not in normal form, and nothing is said of it: a target may be
// given any block.
fn add_row<E: Algebra>(out: &mut [E], a: E, b: &[E])
    requires { length b.now ≡ length out.old }
    ensures { E.Algebra.normal a ≡ true → Normal E.Algebra.normal b.now (length out.old) → Normal E.Algebra.normal out.old (length out.old) →
        ((p : ℕ) → p < length out.old → means E.Algebra out.new p
        ≡ E.Algebra.ops.add (means E.Algebra out.old p) (E.Algebra.ops.mul (E.Algebra.mean a) (means E.Algebra b.now p)))
        × Normal E.Algebra.normal out.new (length out.old) }
{
    // by place: a proof knows no element after `iter_mut().zip`
    for (p, x) in out.iter_mut().enumerate() {
        *x = x.accumulate(a, b[p]);
    }
}

// The row x times the matrix m, passing over what is zero in x. It has no twin in the products by columns below, where
// the other operand of a product stands left; and m is no `Matrix`, since nobody says that it is in normal form.
fn row_times<E: Algebra>(size: Size, x: &[E], m: &[E], out: &mut [E])
    requires x_len { length x.now ≡ size.rows }
    requires m_len { length m.now ≡ size.rows * size.rows }
    requires out_len { length out.old ≡ size.rows }
    ensures { Normal E.Algebra.normal x.now size.rows → Normal E.Algebra.normal m.now (size.rows * size.rows) →
        ((j : ℕ) → j < size.rows → means E.Algebra out.new j
        ≡ stepped E.Algebra.ops size.rows (means E.Algebra x.now) (entry E.Algebra size.rows m.now) j)
        × Normal E.Algebra.normal out.new size.rows }
{
    clear(out);
    for (k, a) in x.iter().enumerate() {
        if !a.is_zero() {
            let start = size.row_start(k);
            add_row(out, *a, &m[start..start + size.rows]);
        }
    }
}

// A matrix in normal form.
#[derive(Drop)]
struct Matrix<'a, E: Algebra> {
    size: Size,
    elements: &'a [E],
    ghost square: { length elements.now ≡ size.rows * size.rows },
    ghost normal: { Normal E.Algebra.normal elements.now (size.rows * size.rows) },
}

impl<'a, E: Algebra> Matrix<'a, E> {
    fn entry(&self, i: usize, j: usize) -> E
        requires i_inside { i < self.now.size.rows }
        requires j_inside { j < self.now.size.rows }
        ensures value { E.Algebra.mean result ≡ entry E.Algebra self.now.size.rows self.now.elements.now i j }
        ensures normal { E.Algebra.normal result ≡ true }
    {
        self.elements[self.size.place(i, j)]
    }

    // What these write to is a slice of just the size, and of no type of its own: it would be lent anew at each call.

    // How many entries are zero. By `filter` and `count` a frame takes up to 1.15 times as long.
    fn zeros(&self) -> usize
        ensures { result ≤ length self.now.elements.now }
    {
        let mut count = 0;
        for x in self.elements {
            if x.is_zero() {
                count += 1;
            }
        }
        count
    }

    // Adds column k, times b. It is no twin of `add_row`: the order of a product matters, and here b stands right.
    fn add_column(&self, k: usize, b: E, out: &mut [E])
        requires k_inside { k < self.now.size.rows }
        requires out_len { length out.old ≡ self.now.size.rows }
        requires b_normal { E.Algebra.normal b ≡ true }
        requires out_normal { Normal E.Algebra.normal out.old self.now.size.rows }
        ensures added { (p : ℕ) → p < self.now.size.rows → means E.Algebra out.new p
            ≡ E.Algebra.ops.add (means E.Algebra out.old p) (E.Algebra.ops.mul (entry E.Algebra self.now.size.rows self.now.elements.now p k) (E.Algebra.mean b)) }
        ensures normal { Normal E.Algebra.normal out.new self.now.size.rows }
    {
        for (p, x) in out.iter_mut().enumerate() {
            *x = x.accumulate(self.entry(p, k), b);
        }
    }

    // This matrix times column j of the matrix n, passing over what is zero in that column.
    fn times_column(&self, n: &Matrix<'_, E>, j: usize, out: &mut [E])
        requires same_size { n.now.size.rows ≡ self.now.size.rows }
        requires j_inside { j < self.now.size.rows }
        requires out_len { length out.old ≡ self.now.size.rows }
        ensures times { (i : ℕ) → i < self.now.size.rows → means E.Algebra out.new i
            ≡ times E.Algebra.ops self.now.size.rows (entry E.Algebra self.now.size.rows self.now.elements.now) (entry E.Algebra self.now.size.rows n.now.elements.now) i j }
        ensures normal { Normal E.Algebra.normal out.new self.now.size.rows }
    {
        clear(out);
        // by index: a column is no slice to go over
        for k in 0..self.size.rows {
            let b = n.entry(k, j);
            if !b.is_zero() {
                self.add_column(k, b, out);
            }
        }
    }

    // Each row of a matrix times this one, in its place.
    fn rows_times(&self, first: &mut [E], row: &mut [E])
        requires first_len { length first.old ≡ self.now.size.rows * self.now.size.rows }
        requires row_len { length row.old ≡ self.now.size.rows }
        requires first_normal { Normal E.Algebra.normal first.old (self.now.size.rows * self.now.size.rows) }
        ensures { IsProduct E.Algebra self.now.size.rows first.old self.now.elements.now first.new }
    {
        // by index: a proof knows no element after `chunks_exact_mut`
        for i in 0..self.size.rows {
            let start = self.size.row_start(i);
            let x = &mut first[start..start + self.size.rows];
            row_times(self.size, x, self.elements, row);
            x.copy_from_slice(row);
        }
    }

    // This matrix times each column of another one, in its place.
    fn times_columns(&self, second: &mut [E], column: &mut [E])
        requires second_len { length second.old ≡ self.now.size.rows * self.now.size.rows }
        requires column_len { length column.old ≡ self.now.size.rows }
        requires second_normal { Normal E.Algebra.normal second.old (self.now.size.rows * self.now.size.rows) }
        ensures { IsProduct E.Algebra self.now.size.rows self.now.elements.now second.old second.new }
    {
        // by index, as a column is no slice
        for j in 0..self.size.rows {
            let n = Matrix {
                size: self.size,
                elements: second,
            };
            self.times_column(&n, j, column);
            put_column(self.size, second, j, column);
        }
    }
}

// Puts a column into place j: a column is no slice that could be copied.
fn put_column<E: Algebra>(size: Size, m: &mut [E], j: usize, column: &[E])
    requires m_len { length m.old ≡ size.rows * size.rows }
    requires j_inside { j < size.rows }
    requires column_len { length column.now ≡ size.rows }
    ensures there { WithColumn E.Algebra.ops.zero E.Algebra.mean column.now j size.rows m.old m.new }
    ensures normal { WithColumn true E.Algebra.normal column.now j size.rows m.old m.new }
{
    for (i, x) in column.iter().enumerate() {
        m[size.place(i, j)] = *x;
    }
}

// The product of two neighbouring matrices takes the place of the first. Whichever of them has more
// zeros decides the order of the work: a single step costs about as little on either side of a block.
pub(crate) fn join_pair<E: Algebra>(size: Size, pair: &mut [E], row: &mut [E])
    requires pair_len { length pair.old ≡ 2 * (size.rows * size.rows) }
    requires row_len { length row.old ≡ size.rows }
    requires normal { Normal E.Algebra.normal pair.old (2 * (size.rows * size.rows)) }
    ensures { IsProduct E.Algebra size.rows (take (size.rows * size.rows) pair.old) (drop (size.rows * size.rows) pair.old) (take (size.rows * size.rows) pair.new) }
{
    let (first, second) = pair.split_at_mut(size.elements());
    let left = Matrix {
        size,
        elements: first,
    };
    let right = Matrix {
        size,
        elements: second,
    };
    if left.zeros() < right.zeros() {
        left.times_columns(second, row);
        first.copy_from_slice(second);
    } else {
        right.rows_times(first, row);
    }
}

// The same at place a of the work area.
pub(crate) fn join<E: Algebra>(size: Size, work: &mut [E], row: &mut [E], a: usize)
    requires work_in_bounds { a + size.rows * size.rows + size.rows * size.rows ≤ length work.old }
    requires row_in_bounds { size.rows ≤ length row.old }
    requires normal_from { NormalFrom E.Algebra.normal work.old a (size.rows * size.rows + size.rows * size.rows) }
    ensures { Joined E.Algebra size.rows a work.old work.new }
{
    join_pair(
        size,
        &mut work[a..a + 2 * size.elements()],
        &mut row[..size.rows],
    );
}

// The state times the matrix m: a vector step.
pub(crate) fn apply<E: Algebra>(size: Size, state: &mut [E], m: &[E], row: &mut [E])
    requires m_len { length m.now ≡ size.rows * size.rows }
    requires state_in_bounds { size.rows ≤ length state.old }
    requires row_in_bounds { size.rows ≤ length row.old }
    ensures rest { drop size.rows state.new ≡ drop size.rows state.old }
    ensures times { Normal E.Algebra.normal m.now (size.rows * size.rows) → (j : ℕ) → j < size.rows → means E.Algebra state.new j
        ≡ stepped E.Algebra.ops size.rows (means E.Algebra state.old) (entry E.Algebra size.rows m.now) j }
{
    let state = &mut state[..size.rows];
    let row = &mut row[..size.rows];
    normalize(state);
    row_times(size, state, m, row);
    state.copy_from_slice(row);
}
