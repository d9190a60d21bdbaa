// The unit factor of a polynomial in a stage's window of 64-bit words, taken out of it and of its multiplier. The 32-bit twin
// `reduced_units` has the description, the laws, `Places` and `Sizes`, which both share.
//
//   negate_inverse    -1 over a unit polynomial
//   take_unit         the unit factor of B
#![tactic(auto)]

ghost use Rattle.std.specs.Prelude.{◌+◌, ◌*◌, ◌<◌, ◌≤◌, length};
ghost use Rattle.definitions.specs.Residues.{K};
ghost use Rattle.definitions.specs.Polynomials.{UnitPolynomial};
ghost use Rattle.reduction64.specs.Moduli.{Ready};
ghost use Rattle.windows.specs.Window.{piece};
ghost use Rattle.window_factor.specs.Factors.{LeadingUnit};
ghost use Rattle.reduced_units.specs.States.{StageAt};
ghost use Rattle.reduced_units.specs.Factorings.{SplitAsked, UnitSplit, Negated, OverAsked, OverUnit, UnitTaken};

use reduced_products::Span;
use reduced_units::{Places, Sizes, UnitAt};
use reduction64::Reciprocal;

// B of a words at pb, whose highest coefficient that is not nilpotent is that at s, with the inverse i: the monic factor of degree s
// takes its place.
fn split_unit(w: &mut [u64], v: Reciprocal, t: usize, pb: usize, a: usize, s: usize, i: u64)
    requires { (Ready v) × (SplitAsked v.n t pb a s i w.old) }
    ensures { UnitSplit v.n t pb a s w.old w.new }
{
    let b = 8 * (t + 1);
    windows64::copy(w, pb, b, a);
    window_factor64::unit_times_monic(&mut w[b..b + 3 * (t + 1)], v, a - 1, s, i);
    windows64::copy(w, b + a, pb, s + 1);
}

// -1 over the unit polynomial of k + 1 words at x, after it. Answers the number of its words.
pub fn negate_inverse(w: &mut [u64], v: Reciprocal, x: usize, k: usize) -> usize
    requires ready { (Ready v) × (2 ≤ v.n) }
    requires k_in_bounds { (x + (k + 1) + (K v.n * k + 1) ≤ length w.old) × (UnitPolynomial v.n (piece w.old x (k + 1))) }
    ensures { Negated v.n x k result w.old w.new }
{
    let n = v.n;
    let len = ((residue64::modulus_of(n).k - 1) as usize) * k + 1;
    let e = bezout64::cofactor(n, w[x]);
    window_factor64::series_inverse_by(&mut w[x..x + (k + 1) + len], v, k, e.s, n - e.s, len);
    len
}

// The multiplier at g over the unit polynomial whose negated inverse stands at f; y is room. Answers the number of its words.
fn over_unit(w: &mut [u64], m: Reciprocal, t: usize, f: Span, g: Span, y: usize) -> usize
    requires { (Ready m) × (OverAsked m.n t f.at f.len g.at g.len y w.old) }
    ensures { OverUnit m.n t f.at f.len g.at g.len y result w.old w.new }
{
    windows64::clear(w, y, f.len + t);
    let r = reduced_products64::take_product(w, m, t, f, g, y);
    windows64::copy(w, y, g.at, t);
    r
}

// The unit factor of B is taken out of it and of its multiplier. The highest coefficient of B that is not nilpotent is u. Answers the
// number of words of the multiplier.
pub fn take_unit(
    w: &mut [u64],
    m: Reciprocal,
    v: Reciprocal,
    p: Places,
    z: Sizes,
    u: UnitAt<u64>,
) -> usize
    requires ready { (Ready m) × (Ready v) }
    requires stage_at { (StageAt m.n v.n p z.a z.a z.l w.old) × (u.s < z.a) }
    requires leading_unit { LeadingUnit v.n u.s u.i (piece w.old p.pb z.a) }
    ensures { UnitTaken m.n v.n p.t p.pb z.a p.be u.s z.l result w.old w.new }
{
    let t = p.t;
    let a = z.a;
    let s = u.s;
    split_unit(w, v, t, p.pb, a, s, u.i);
    let x = 8 * (t + 1) + (a + (s + 1) + s);
    let k = a - 1 - s;
    let len = negate_inverse(w, v, x, k);
    let at = x + (k + 1);
    let inverse = Span { at, len };
    let multiplier = Span { at: p.be, len: z.l };
    over_unit(w, m, t, inverse, multiplier, at + len)
}
