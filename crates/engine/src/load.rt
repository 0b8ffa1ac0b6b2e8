// The matrices of symbols, built in the work area.
ghost use Rattle.std.specs.Prelude.{◌≡◌, ℕ, ◌+◌, ◌*◌, ◌<◌, ◌≤◌, true, length, take};
ghost use Rattle.engine.specs.Matrices.{Normal, NormalFrom, cell, entry, means};

use crate::size::Size;
use algebra::Algebra;
use recursion::Recursion;

// An entry of a symbol's matrix, in normal form. A recursion and a symbol go together in this file
// alone, so no type stands for both.
fn element<R: Recursion>(r: &R, symbol: u32, i: usize, j: usize) -> R::Element
    ensures value { R.Element.Algebra.mean result ≡ R.Element.Algebra.mean (R.Recursion.cell r.now symbol i j) }
    ensures normal { R.Element.Algebra.normal result ≡ true }
{
    r.entry(symbol, i, j).normalized()
}

// Row i of the matrix of a symbol.
fn load_row<R: Recursion>(r: &R, symbol: u32, i: usize, row: &mut [R::Element])
    ensures value { (j : ℕ) → j < length row.old → means R.Element.Algebra row.new j
        ≡ R.Element.Algebra.mean (R.Recursion.cell r.now symbol i j) }
    ensures normal { Normal R.Element.Algebra.normal row.new (length row.old) }
{
    // by index: over `iter_mut().enumerate()` a single step takes 1.35 times as long
    for j in 0..row.len() {
        row[j] = element(r, symbol, i, j);
    }
}

// The matrix of a symbol, row by row.
fn load_rows<R: Recursion>(r: &R, symbol: u32, size: Size, m: &mut [R::Element])
    requires { length m.old ≡ size.rows * size.rows }
    ensures cells { (i j : ℕ) → i < size.rows → j < size.rows → entry R.Element.Algebra size.rows m.new i j
        ≡ R.Element.Algebra.mean (R.Recursion.cell r.now symbol i j) }
    ensures normal { Normal R.Element.Algebra.normal m.new (size.rows * size.rows) }
{
    // by index: a proof knows no element after `chunks_exact_mut`
    for i in 0..size.rows {
        let start = size.row_start(i);
        load_row(r, symbol, i, &mut m[start..start + size.rows]);
    }
}

// The same at place a of the work area.
pub(crate) fn load<R: Recursion>(r: &R, symbol: u32, size: Size, work: &mut [R::Element], a: usize)
    requires { a + size.rows * size.rows ≤ length work.old }
    ensures before { take a work.new ≡ take a work.old }
    ensures cells { (i j : ℕ) → i < size.rows → j < size.rows → cell R.Element.Algebra.ops.zero R.Element.Algebra.mean work.new size.rows a i j
        ≡ R.Element.Algebra.mean (R.Recursion.cell r.now symbol i j) }
    ensures normal { NormalFrom R.Element.Algebra.normal work.new a (size.rows * size.rows) }
{
    load_rows(r, symbol, size, &mut work[a..a + size.elements()]);
}
