// Determinants modulo n of eight rows of eight words, by elimination. n need not be prime, and nothing is divided by: Euclid's
// algorithm on two words of a column clears one of them, by subtracting multiples of rows and by an exchange with its sign.
// Each step takes the matrix by value and returns it (S82). Only the first `size` rows and columns count.
//
//   subtract_multiple       a row less a multiple of a row
//   reduce_row, exchange    the two operations on rows; both keep the determinant
//   clear_entry, clear_column, triangulate
//   diagonal                the product of the diagonal
//   determinant             all of it, with the reciprocal of n found once
#![tactic(auto)]

ghost use Rattle.std.specs.Prelude.{◌≡◌, ◌+◌, ◌≤◌};
ghost use Rattle.reduction.specs.Moduli.{Ready};
ghost use Rattle.evaluator_matrices.specs.LeadingMinors.{leading_minor};
ghost use Rattle.evaluator_matrices.specs.Elimination.{Reducible, Exchangeable, BelowDiagonal, ColumnNext};
ghost use Rattle.evaluator_matrices.specs.Elimination.{cell, ResidueCells, LessMultiple, RowReduced, Exchanged};
ghost use Rattle.evaluator_matrices.specs.Elimination.{EntryCleared, Triangular, MinorKept};

use reduction::Reciprocal;

// x less q times y.
fn subtract_multiple(x: [u32; 8], y: [u32; 8], m: Reciprocal, q: u32) -> [u32; 8]
    requires { (Ready m) × (q ≤ m.n) }
    ensures { LessMultiple m.n q x y result }
{
    let mut z = x;
    for c in 0..8 {
        z[c] = reduction::add_product(m, x[c], m.n - q, y[c]);
    }
    z
}

// Row i loses so many times row h that the remainder of their words is left at column j.
fn reduce_row(a: [[u32; 8]; 8], m: Reciprocal, i: usize, h: usize, j: usize) -> [[u32; 8]; 8]
    requires { (Ready m) × Reducible m.n i h j a }
    ensures { RowReduced m.n i h j a result }
{
    let q = a[i][j] / a[h][j];
    let mut r = a;
    r[i] = subtract_multiple(a[i], a[h], m, q);
    r
}

// Rows i and j change places. What comes to i has its sign changed, being less twice itself, so the determinant stays.
fn exchange(a: [[u32; 8]; 8], m: Reciprocal, i: usize, j: usize) -> [[u32; 8]; 8]
    requires { (Ready m) × Exchangeable m.n i j a }
    ensures { Exchanged m.n i j a result }
{
    let x = a[j];
    let mut r = a;
    r[i] = subtract_multiple(x, x, m, 2);
    r[j] = a[i];
    r
}

// Euclid's algorithm on the words of rows i and j at column j, until row i has 0 there.
fn clear_entry(a: [[u32; 8]; 8], m: Reciprocal, i: usize, j: usize) -> [[u32; 8]; 8]
    requires { (Ready m) × BelowDiagonal m.n i j a }
    ensures { EntryCleared m.n i j a result }
{
    let mut r = a;
    while r[i][j] != 0 {
        let s = reduce_row(r, m, j, i, j);
        if s[j][j] == 0 {
            return exchange(s, m, i, j);
        }
        let t = reduce_row(s, m, i, j, j);
        r = t;
    }
    r
}

// Column j below the diagonal.
fn clear_column(a: [[u32; 8]; 8], m: Reciprocal, size: usize, j: usize) -> [[u32; 8]; 8]
    requires { (Ready m) × ColumnNext m.n size j a }
    ensures { MinorKept m.n size a result × Triangular size (j + 1) result }
{
    let mut r = a;
    for i in j + 1..size {
        let s = clear_entry(r, m, i, j);
        r = s;
    }
    r
}

fn triangulate(a: [[u32; 8]; 8], m: Reciprocal, size: usize) -> [[u32; 8]; 8]
    requires ready { (Ready m) × ((2 ≤ m.n) × (size ≤ 8)) }
    requires residue_cells { ResidueCells m.n a }
    ensures { MinorKept m.n size a result × Triangular size size result }
{
    let mut r = a;
    for j in 0..size {
        let s = clear_column(r, m, size, j);
        r = s;
    }
    r
}

fn diagonal(a: [[u32; 8]; 8], m: Reciprocal, size: usize) -> u32
    requires ready { (Ready m) × ((2 ≤ m.n) × (size ≤ 8)) }
    requires triangular { Triangular size size a }
    ensures { result ≡ leading_minor m.n size (cell a) }
{
    let mut x = reduction::reduce(m, 1);
    for k in 0..size {
        x = reduction::product(m, x, a[k][k]);
    }
    x
}

// The determinant of the first `size` rows and columns.
pub fn determinant(a: [[u32; 8]; 8], n: u32, size: usize) -> u32
    requires le_n { (2 ≤ n) × (size ≤ 8) }
    requires residue_cells { ResidueCells n a }
    ensures { result ≡ leading_minor n size (cell a) }
{
    let m = reduction::modulus_of(n);
    let r = triangulate(a, m, size);
    diagonal(r, m, size)
}
