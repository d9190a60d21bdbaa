// Unit times monic, in windows of one buffer, and what it stands on.
//
//   w, n   the buffer and the modulus; m its record
//   d      the degree of f, which stands at 0
//   t, i   the place of the highest coefficient of f that is no nilpotent, a unit, and its inverse; H, monic of degree t, stands at h,
//          the unit polynomial U in the upper words of the room at v
//   k      the degree of U where U stands at 0, for its inverse as a power series
//
//   highest_of          the highest coefficient that is not nilpotent
//   divide_copy         a copy of f divided by H
//   divide_round        the same, and the zeros of the remainder counted
//   unit_times_monic    f = U H, U a unit polynomial, H monic
//   series_word         one word of s U_0 / U as a power series
//   series_inverse_by   all of them: the inverse of U where s is that of U_0
//   series_inverse      the same, by n
#![tactic(auto)]

ghost use Rattle.std.specs.Prelude.{◌≡◌, ◌+◌, ◌*◌, ◌%◌, ◌<◌, ◌≤◌, length};
ghost use Rattle.definitions.specs.Polynomials.{coef};
ghost use Rattle.windows.specs.Window.{piece};
ghost use Rattle.modulus.specs.Values.{Known};
ghost use Rattle.window_factor.specs.Factors.{HighestOf, RoundAsked, Round, RoundLeft, Given, Factored, SeriesAsked, next_word};
ghost use Rattle.window_factor.specs.Factors.{Series};

use modulus::Modulus;
use reduction::Reciprocal;
use residue::Kind;

// A unit with its place and its inverse; a coefficient that splits n into two factors; or neither.
#[derive(Clone, Copy)]
pub enum Highest<W> {
    UnitAt(usize, W),
    Splits(W, W),
    AllNilpotent,
}

// The highest coefficient of s that is not nilpotent.
pub fn highest_of(s: &[u32], n: u32) -> Highest<u32>
    requires { 2 ≤ n }
    ensures { HighestOf n s.now result }
{
    for t in (0..s.len()).rev() {
        match residue::kind_of(n, s[t]) {
            Kind::Unit(i) => {
                return Highest::UnitAt(t, i);
            }
            Kind::Splits(p, q) => {
                return Highest::Splits(p, q);
            }
            Kind::Nilpotent => {}
        }
    }
    Highest::AllNilpotent
}

// A copy of f divided by H: f of d + 1 words at 0, H of t + 1 words after it, and then d + 1 words for remainder and quotient.
fn divide_copy(w: &mut [u32], m: Modulus, d: usize, t: usize)
    requires { (Known m) × (RoundAsked m.n d t w.old) }
    ensures { Round m.n d t w.old w.new }
{
    let h = d + 1;
    let v = h + (t + 1);
    windows::copy(w, 0, v, h);
    if t == 0 {
        return;
    }
    window_division::divide_keeping(w, m, h, t, v, d, 1);
}

// A round: a copy of f divided by H, as in `divide_copy`. Answers the number of zeros that the t words of the remainder begin with.
fn divide_round(w: &mut [u32], m: Modulus, d: usize, t: usize) -> usize
    requires { (Known m) × (RoundAsked m.n d t w.old) }
    ensures { RoundLeft m.n d t result w.old w.new }
{
    let v = d + 1 + (t + 1);
    divide_copy(w, m, d, t);
    windows::zeros(&w[v..v + t])
}

// f = U H, where coefficient t of f has the inverse i and those above it are nilpotent: f at 0, H after it, U in the upper words of
// the room after H. H is f_t^-1 (f_0 .. f_t) at first, and gains f_t^-1 times the remainder of f by H until that is 0.
pub fn unit_times_monic(w: &mut [u32], m: Modulus, d: usize, t: usize, i: u32)
    requires known { (Known m) × ((2 ≤ m.n) × ((t ≤ d) × (d + 1 + (t + 1 + (d + 1)) ≤ length w.old))) }
    requires given { Given m.n d t i w.old }
    ensures { Factored m.n d t w.old w.new }
{
    let h = d + 1;
    let v = h + (t + 1);
    modulus_windows::set_scaled(w, m, i, 0, h, t + 1);
    for _ in 0..m.n {
        if divide_round(w, m, d, t) == t {
            return;
        }
        modulus_windows::add_scaled(w, m, i, v, h, t);
    }
}

// Word j of Y, where Y U = s U_0 and i is the inverse of U_0: U stands at 0, and the words of Y before j stand after it.
fn series_word(w: &[u32], m: Modulus, k: usize, i: u32, s: u32, j: usize) -> u32
    requires { (Known m) × (SeriesAsked m.n k i j w.now) }
    ensures { result ≡ next_word m.n i s (coef (piece w.now 0 (k + 1))) (coef (piece w.now (k + 1) j)) j }
{
    if j == 0 {
        return s;
    }
    let r = Reciprocal {
        n: m.n,
        v: m.v,
        c: m.c as u64,
    };
    let x = convolution::product_word_by(r, &w[1..k + 1], &w[k + 1..k + 1 + j], j - 1);
    modulus::multiply(m, m.n - i, x)
}

// Y with Y U = s U_0: U, the inverse of whose constant is i, at 0; then the len words of Y.
pub fn series_inverse_by(w: &mut [u32], m: Modulus, k: usize, i: u32, s: u32, len: usize)
    requires known { (Known m) × ((s < m.n) × ((i ≤ m.n) × (k + 1 + len ≤ length w.old))) }
    requires n_value { (i * coef (piece w.old 0 (k + 1)) 0) % m.n ≡ 1 % m.n }
    ensures { Series m.n k s len w.old w.new }
{
    for j in 0..len {
        w[k + 1 + j] = series_word(w, m, k, i, s, j);
    }
}

// The same, where the modulus comes without its record.
pub fn series_inverse(w: &mut [u32], n: u32, k: usize, i: u32, s: u32, len: usize)
    requires s_lt_n { (s < n) × ((i ≤ n) × (k + 1 + len ≤ length w.old)) }
    requires n_value { (i * coef (piece w.old 0 (k + 1)) 0) % n ≡ 1 % n }
    ensures { Series n k s len w.old w.new }
{
    let m = modulus::modulus_of(n);
    series_inverse_by(w, m, k, i, s, len);
}
