// Unit times monic, in windows of one buffer of 64-bit words, and what it stands on. The 32-bit twin `window_factor` has the laws.
//
//   w, n   the buffer and the modulus; m its record
//   d      the degree of f, which stands at 0
//   t, i   the place of the highest coefficient of f that is no nilpotent, a unit, and its inverse; H, monic of degree t, stands at h,
//          the unit polynomial U in the upper words of the room at v
//   k      the degree of U where U stands at 0, for its inverse as a power series
//
//   highest_of          the highest coefficient that is not nilpotent
//   divide_copy         a copy of f divided by H
//   divide_round        the same, and the zeros of the remainder counted
//   unit_times_monic    f = U H, U a unit polynomial, H monic
//   series_word         one word of s U_0 / U as a power series
//   series_inverse_by   all of them: the inverse of U where s is that of U_0
//   series_inverse      the same, by n
#![tactic(auto)]

ghost use Rattle.std.specs.Prelude.{◌≡◌, ◌+◌, ◌*◌, ◌%◌, ◌<◌, ◌≤◌, length};
ghost use Rattle.definitions.specs.Polynomials.{coef};
ghost use Rattle.windows.specs.Window.{piece};
ghost use Rattle.reduction64.specs.Moduli.{Ready};
ghost use Rattle.window_factor.specs.Factors.{HighestOf, RoundAsked, Round, RoundLeft, Given, Factored, SeriesAsked, next_word};
ghost use Rattle.window_factor.specs.Factors.{Series};

use reduction64::Reciprocal;
use residue::Kind;
use window_factor::Highest;

// The highest coefficient of s that is not nilpotent.
pub fn highest_of(s: &[u64], m: Reciprocal) -> Highest<u64>
    requires { (2 ≤ m.n) × Ready m }
    ensures { HighestOf m.n s.now result }
{
    for t in (0..s.len()).rev() {
        match residue64::kind_of(m, s[t]) {
            Kind::Unit(i) => {
                return Highest::UnitAt(t, i);
            }
            Kind::Splits(p, q) => {
                return Highest::Splits(p, q);
            }
            Kind::Nilpotent => {}
        }
    }
    Highest::AllNilpotent
}

// A copy of f divided by H: f of d + 1 words at 0, H of t + 1 words after it, and then d + 1 words for remainder and quotient.
fn divide_copy(w: &mut [u64], m: Reciprocal, d: usize, t: usize)
    requires { (Ready m) × (RoundAsked m.n d t w.old) }
    ensures { Round m.n d t w.old w.new }
{
    let h = d + 1;
    let v = h + (t + 1);
    windows64::copy(w, 0, v, h);
    if t == 0 {
        return;
    }
    window_division64::divide_keeping(w, m, h, t, v, d, 1);
}

// A round: a copy of f divided by H, as in `divide_copy`. Answers the number of zeros that the t words of the remainder begin with.
fn divide_round(w: &mut [u64], m: Reciprocal, d: usize, t: usize) -> usize
    requires { (Ready m) × (RoundAsked m.n d t w.old) }
    ensures { RoundLeft m.n d t result w.old w.new }
{
    let v = d + 1 + (t + 1);
    divide_copy(w, m, d, t);
    windows64::zeros(&w[v..v + t])
}

// f = U H, where coefficient t of f has the inverse i and those above it are nilpotent: f at 0, H after it, U in the upper words of
// the room after H. H is f_t^-1 (f_0 .. f_t) at first, and gains f_t^-1 times the remainder of f by H until that is 0.
pub fn unit_times_monic(w: &mut [u64], m: Reciprocal, d: usize, t: usize, i: u64)
    requires ready { (Ready m) × ((2 ≤ m.n) × ((t ≤ d) × (d + 1 + (t + 1 + (d + 1)) ≤ length w.old))) }
    requires given { Given m.n d t i w.old }
    ensures { Factored m.n d t w.old w.new }
{
    let h = d + 1;
    let v = h + (t + 1);
    modulus_windows64::set_scaled(w, m, i, 0, h, t + 1);
    for _ in 0..m.n {
        if divide_round(w, m, d, t) == t {
            return;
        }
        modulus_windows64::add_scaled(w, m, i, v, h, t);
    }
}

// Word j of Y, where Y U = s U_0 and i is the inverse of U_0: U stands at 0, and the words of Y before j stand after it.
fn series_word(w: &[u64], m: Reciprocal, k: usize, i: u64, s: u64, j: usize) -> u64
    requires { (Ready m) × (SeriesAsked m.n k i j w.now) }
    ensures { result ≡ next_word m.n i s (coef (piece w.now 0 (k + 1))) (coef (piece w.now (k + 1) j)) j }
{
    if j == 0 {
        return s;
    }
    let x = convolution64::product_word_by(m, &w[1..k + 1], &w[k + 1..k + 1 + j], j - 1);
    reduction64::product(m, m.n - i, x)
}

// Y with Y U = s U_0: U, the inverse of whose constant is i, at 0; then the len words of Y.
pub fn series_inverse_by(w: &mut [u64], m: Reciprocal, k: usize, i: u64, s: u64, len: usize)
    requires ready { (Ready m) × ((s < m.n) × ((i ≤ m.n) × (k + 1 + len ≤ length w.old))) }
    requires n_value { (i * coef (piece w.old 0 (k + 1)) 0) % m.n ≡ 1 % m.n }
    ensures { Series m.n k s len w.old w.new }
{
    for j in 0..len {
        w[k + 1 + j] = series_word(w, m, k, i, s, j);
    }
}

// The same, where the modulus comes without its reciprocal.
pub fn series_inverse(w: &mut [u64], n: u64, k: usize, i: u64, s: u64, len: usize)
    requires s_lt_n { (s < n) × ((i ≤ n) × (k + 1 + len ≤ length w.old)) }
    requires n_value { (i * coef (piece w.old 0 (k + 1)) 0) % n ≡ 1 % n }
    ensures { Series n k s len w.old w.new }
{
    let m = reduction64::modulus_of(n);
    series_inverse_by(w, m, k, i, s, len);
}
