// The first column of the live rows of Sylvester's matrix, cleared but for one row. A row is its words at the columns that are left and the
// two multipliers that make it of f and g; what is done to a row is done to its multipliers. Nothing is asked of the modulus.
//
//   row r    ROW words from ROW r on: b words, at FIRST the multiplier of f, of e words, at SECOND that of g, of d words
//
//   Sizes                                    the sizes of a row
//   add_words                                a multiple of words added to words
//   add_row, reduce_row, subtract_multiple   a multiple of a row added to a row
//   euclid, clear_row, clear_column          the first column cleared but for one row
//   pivot                                    the row to begin with
#![tactic(auto)]

ghost use Rattle.std.specs.Prelude.{◌+◌, ◌*◌, ◌<◌, ◌≤◌, length, get_or};
ghost use Rattle.windows.specs.Window.{Moved, Clear, addMul};
ghost use Rattle.band_clearing.specs.Bands.{row_size, row_count, band_room, PairAsked, HeadsBelow, RowAdded, RowReduced};
ghost use Rattle.band_clearing.specs.Bands.{KeepsTwo, RowCleared, RowAsked, ColumnAsked, ColumnCleared};

// The words of a row, and the places of its two multipliers.
pub const ROW: usize = 145;

pub const FIRST: usize = 49;

pub const SECOND: usize = 97;

// The words of a row at the columns that are left, and the degrees of f and g.
#[derive(Clone, Copy)]
pub struct Sizes {
    pub b: usize,
    pub d: usize,
    pub e: usize,
}

// w[dst + j] += c * w[src + j], for j < len. The rows are plain words, and their steps short: the plain loop is the quicker one.
fn add_words(w: &mut [u32], n: u32, c: u32, src: usize, dst: usize, len: usize)
    requires le_n { (1 ≤ n) × ((src + len ≤ length w.old) × (dst + len ≤ length w.old)) }
    requires clear { Clear src dst len }
    ensures { Moved (addMul n c) src dst len w.old w.new }
{
    if reduction::power_of_two(n) {
        windows::add_scaled_masked(w, n, c, src, dst, len);
        return;
    }
    let m = reduction::modulus_of(n);
    windows::add_scaled(w, n, m, c, src, dst, len);
}

// Row k gains c times row i.
fn add_row(w: &mut [u32], n: u32, c: u32, i: usize, k: usize, s: Sizes)
    requires { PairAsked n s.b s.d s.e i k w.old }
    ensures { RowAdded n c s.b s.d s.e i k w.old w.new }
{
    let from = ROW * i;
    let to = ROW * k;
    add_words(w, n, c, from, to, s.b);
    add_words(w, n, c, from + FIRST, to + FIRST, s.e);
    add_words(w, n, c, from + SECOND, to + SECOND, s.d);
}

// Row i loses so many times row k that the remainder of their first words is left.
fn reduce_row(w: &mut [u32], n: u32, i: usize, k: usize, s: Sizes)
    requires pair_asked { PairAsked n s.b s.d s.e i k w.old }
    requires heads_below { HeadsBelow n w.old }
    requires bound { 1 ≤ get_or w.old (row_size * k) 0 }
    ensures { RowReduced n s.b s.d s.e i k w.old w.new }
{
    let q = w[ROW * i] / w[ROW * k];
    add_row(w, n, n - q, k, i, s);
}

// Row k loses that multiple of row i which clears its first word, where the words of row i tell one.
fn subtract_multiple(w: &mut [u32], n: u32, i: usize, k: usize, s: Sizes)
    requires { PairAsked n s.b s.d s.e i k w.old }
    ensures { KeepsTwo n s.b s.d s.e i k w.old w.new }
{
    let y = w[ROW * k];
    let c = bezout::cofactor(n, w[ROW * i]);
    if y % c.g != 0 {
        return;
    }
    let q = arithmetic::mul_mod(n, y / c.g, c.s);
    add_row(w, n, n - q, i, k, s);
}

// Euclid's algorithm on the first words of rows i and k; the row that is left with one is answered.
fn euclid(w: &mut [u32], n: u32, i: usize, k: usize, s: Sizes) -> usize
    requires pair_asked { PairAsked n s.b s.d s.e i k w.old }
    requires heads_below { HeadsBelow n w.old }
    ensures { RowCleared n s.b s.d s.e i k result w.old w.new }
{
    while w[ROW * k] != 0 {
        reduce_row(w, n, i, k, s);
        if w[ROW * i] == 0 {
            return k;
        }
        reduce_row(w, n, k, i, s);
    }
    i
}

// Of rows i and k one is left with a word in the first column, and is answered: i, unless Euclid's algorithm leaves k.
fn clear_row(w: &mut [u32], n: u32, i: usize, k: usize, s: Sizes) -> usize
    requires { RowAsked n s.b s.d s.e i k w.old }
    ensures { RowCleared n s.b s.d s.e i k result w.old w.new }
{
    if i == k {
        return i;
    }
    if w[ROW * k] == 0 {
        return i;
    }
    subtract_multiple(w, n, i, k, s);
    euclid(w, n, i, k, s)
}

// The first column of l rows, cleared but for the row that is answered; t is the row to begin with.
pub fn clear_column(w: &mut [u32], n: u32, t: usize, l: usize, s: Sizes) -> usize
    requires { ColumnAsked n s.b s.d s.e l t w.old }
    ensures { ColumnCleared n s.b s.d s.e l l result w.old w.new }
{
    let mut p = t;
    for k in 0..l {
        p = clear_row(w, n, p, k, s);
    }
    p
}

// A row whose first word has the least greatest common divisor with n: it divides the others wherever one does.
pub fn pivot(w: &[u32], n: u32, l: usize) -> usize
    requires { (1 ≤ l) × ((l < row_count) × (band_room ≤ length w.now)) }
    ensures { result < l }
{
    let mut best: usize = 0;
    let mut least = n;
    for k in 0..l {
        let g = bezout::gcd(w[ROW * k], n);
        if g == 1 {
            return k;
        }
        if g < least {
            least = g;
            best = k;
        }
    }
    best
}
