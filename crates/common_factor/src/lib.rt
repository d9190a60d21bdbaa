// What two polynomials have in common modulo n, where they combine to no constant but 0. The modulus may shrink to any divisor above 1:
// a leading word that is no unit has a common divisor with n, and vanishes modulo it.
//
//   w, m   the buffer and the record of the modulus n, which is made again where n shrinks
//   a, d   the place and the degree of f; b, e those of g
//   x, y   the words of f and of g
//
//   unit_lead leading words that are no units vanish modulo a divisor of n
//   narrowed  the record of that divisor
//   strip     both
//   step      one division, of what `residues` leaves
//   euclid    the last divisor
//   start     both are zero, or have a divisor of degree 1 or more
//   search    the same for lent polynomials, which `load_both` puts side by side
//   monic     a polynomial with its leading word made 1, of what `write_out` leaves
#![tactic(auto)]

ghost use Rattle.std.specs.Prelude.{◌≡◌, ◌+◌, ◌≤◌, length};
ghost use Rattle.modulus.specs.Values.{Known};
ghost use Rattle.windows.specs.Window.{piece, Scratch};
ghost use Rattle.common_factor.specs.Searches.{Stripped, StepAsked, ResiduesAt, Stepped, EuclidAsked, CommonIn};
ghost use Rattle.common_factor.specs.Searches.{StartAsked, SearchAsked, BothLoaded, GroundIn, MonicAsked, WrittenOut, MonicOf};

use modulus::Modulus;

// The words left of a polynomial, and the modulus.
#[derive(Clone, Copy)]
struct Cut {
    n: u32,
    len: usize,
}

// The same with the record of the modulus.
#[derive(Clone, Copy)]
struct Lead {
    m: Modulus,
    len: usize,
}

// A divisor modulo the n of m: its place and its degree.
#[derive(Clone, Copy)]
pub struct Found {
    pub m: Modulus,
    pub at: usize,
    pub degree: usize,
}

// "both polynomials are zero modulo m, or a monic w of degree at least 1 divides both modulo m"
#[derive(Clone, Copy)]
pub enum Ground {
    Zero(u32),
    Common(Found),
}

// The words of the polynomial of len words at a, up to one that is a unit modulo a divisor of n for which those above it vanish.
fn unit_lead(w: &[u32], n: u32, a: usize, len: usize) -> Cut
    requires { (2 ≤ n) × (a + len ≤ length w.now) }
    ensures { Stripped n (piece w.now a len) result.n result.len }
{
    let mut c = n;
    for l in (0..len).rev() {
        let g = bezout::gcd(w[a + l], c);
        let is_unit = g == 1;
        if is_unit {
            return Cut { n: c, len: l + 1 };
        }
        c = g;
    }
    Cut { n: c, len: 0 }
}

// The record of c: that of n is used again where they are the same.
fn narrowed(m: Modulus, c: u32) -> Modulus
    requires { (Known m) × (1 ≤ c) }
    ensures { (Known result) × (result.n ≡ c) }
{
    if m.n == c {
        return m;
    }
    modulus::modulus_of(c)
}

// The words that are left, with the record of the modulus.
fn strip(w: &[u32], m: Modulus, a: usize, len: usize) -> Lead
    requires { (Known m) × ((2 ≤ m.n) × (a + len ≤ length w.now)) }
    ensures { (Known result.m) × Stripped m.n (piece w.now a len) result.m.n result.len }
{
    let s = unit_lead(w, m.n, a, len);
    Lead {
        m: narrowed(m, s.n),
        len: s.len,
    }
}

// f and g modulo n, where they stand.
fn residues(w: &mut [u32], m: Modulus, a: usize, d: usize, b: usize, e: usize)
    requires { (Known m) × StepAsked m.n a d b e w.old }
    ensures { ResiduesAt m.n a d b e w.old w.new }
{
    modulus_windows::reduce_words(w, m, a, d + 1);
    modulus_windows::reduce_words(w, m, b, e + 1);
}

// The remainder of f by g stands at the place of f.
fn step(w: &mut [u32], m: Modulus, a: usize, d: usize, b: usize, e: usize)
    requires { (Known m) × StepAsked m.n a d b e w.old }
    ensures { Stepped m.n a d b e w.old w.new }
{
    residues(w, m, a, d, b, e);
    let i = bezout::cofactor(m.n, w[b + e]);
    window_division::divide(w, m, b, e, a, d, i.s);
}

// Euclid's algorithm for f of degree d at a and g of l words at b. Where nothing is left of g, f divides both; it is no constant, because
// only zero is reached.
fn euclid(w: &mut [u32], m: Modulus, a: usize, d: usize, b: usize, l: usize) -> Found
    requires { (Known m) × EuclidAsked m.n a d b l w.old }
    ensures common_in { CommonIn m.n d (piece w.old a (d + 1)) (piece w.old b l) w.new result }
    ensures scratch { Scratch w.old w.new }
{
    let s = strip(w, m, b, l);
    let c = s.m;
    let k = s.len;
    if k == 0 {
        return Found {
            m: c,
            at: a,
            degree: d,
        };
    }
    step(w, c, a, d, b, k - 1);
    euclid(w, c, b, k - 1, a, k - 1)
}

// The ground for f of x words at 0 and g of y words after it. The one with more words left is divided by the other.
fn start(w: &mut [u32], m: Modulus, x: usize, y: usize) -> Ground
    requires { (Known m) × StartAsked m.n x y w.old }
    ensures ground_in { GroundIn m.n (piece w.old 0 x) (piece w.old x y) w.new result }
    ensures scratch { Scratch w.old w.new }
{
    let s = strip(w, m, 0, x);
    let k = s.len;
    let t = strip(w, s.m, x, y);
    let c = t.m;
    let l = t.len;
    if k < l {
        return Ground::Common(euclid(w, c, x, l - 1, 0, k));
    }
    if k == 0 {
        return Ground::Zero(c.n);
    }
    Ground::Common(euclid(w, c, 0, k - 1, x, l))
}

// f and then g, modulo n, from the start of w on.
fn load_both(w: &mut [u32], n: u32, f: &[u32], g: &[u32])
    requires { SearchAsked n f.now g.now w.old }
    ensures { BothLoaded n f.now g.now w.old w.new }
{
    windows::load(w, 0, f, n);
    windows::load(w, f.len(), g, n);
}

// The ground for f and g, worked in w. A divisor that is found stands there.
pub fn search(w: &mut [u32], n: u32, f: &[u32], g: &[u32]) -> Ground
    requires { SearchAsked n f.now g.now w.old }
    ensures ground_in { GroundIn n f.now g.now w.new result }
    ensures scratch { Scratch w.old w.new }
{
    load_both(w, n, f, g);
    let m = modulus::modulus_of(n);
    start(w, m, f.len(), g.len())
}

// The polynomial of degree t at a modulo n, with zeros above it.
fn write_out(out: &mut [u32], w: &[u32], n: u32, a: usize, t: usize)
    requires { MonicAsked n a t out.old w.now }
    ensures { WrittenOut n a t w.now out.old out.new }
{
    windows::wipe(out);
    windows::load(out, 0, &w[a..a + (t + 1)], n);
}

// The polynomial of degree t at a, times the inverse of its leading word: "a monic w … written out … zeros above it".
pub fn monic(out: &mut [u32], w: &[u32], m: Modulus, a: usize, t: usize)
    requires { (Known m) × MonicAsked m.n a t out.old w.now }
    ensures { MonicOf m.n a t w.now out.old out.new }
{
    write_out(out, w, m.n, a, t);
    let i = bezout::cofactor(m.n, w[a + t]);
    modulus_windows::set_scaled(out, m, i.s, 0, 0, t + 1);
}
