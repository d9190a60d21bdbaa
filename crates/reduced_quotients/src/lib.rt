// Exact quotients, and the window of the stages made ready: the parts of the core of an attempt that divide.
//
//   place             words, and zeros above
//   over_first        a polynomial over a unit polynomial
//   remainder         G modulo H
//   prepare           H and G modulo H, with the multipliers 0 and 1, for the content stage
//   exact_quotient    a constant less a product, by H
//
//   m    the record of the modulus n
#![tactic(auto)]

ghost use Rattle.std.specs.Prelude.{◌≡◌, ◌+◌, ◌≤◌, length, get_or, replicate};
ghost use Rattle.definitions.specs.Polynomials.{UnitPolynomial};
ghost use Rattle.modulus.specs.Values.{Known};
ghost use Rattle.windows.specs.Window.{piece, Below, Loaded, Scratch};
ghost use Rattle.reduced_quotients.specs.Quotients.{OverUnitAsked, OverFirst};
ghost use Rattle.reduced_quotients.specs.Quotients.{PrepareAsked, RestAt, Prepared, ExactQuotientAsked, ExactQuotient};

use modulus::Modulus;

// x becomes the words of s modulo n, and zeros above.
pub fn place(x: &mut [u32], s: &[u32], n: u32)
    requires { (1 ≤ n) × (length s.now ≤ length x.old) }
    ensures { Loaded n 0 s.now (replicate (length x.old) 0) x.new }
{
    windows::wipe(x);
    windows::load(x, 0, s, n);
}

// x becomes the lz words at zp over the unit polynomial of k + 1 words at up; what lies above that is room.
pub fn over_first(
    x: &mut [u32],
    w: &mut [u32],
    m: Modulus,
    up: usize,
    k: usize,
    zp: usize,
    lz: usize,
)
    requires known { (Known m) × (OverUnitAsked m.n up k zp lz w.old x.old) }
    requires unit_polynomial { UnitPolynomial m.n (piece w.old up (k + 1)) }
    ensures over_first { OverFirst m.n up k zp lz w.old x.new }
    ensures scratch { Scratch w.old w.new }
{
    let len = reduced_units::negate_inverse(w, m, up, k);
    let a = up + (k + 1);
    let b = a + len;
    let l = len + lz - 1;
    windows::clear(w, b, l);
    reduced_products::sub_product(w, m, a, len, zp, lz, b);
    place(x, &w[b..b + l], m.n);
}

// G at 0 modulo H at q.
fn remainder(w: &mut [u32], m: Modulus, e: usize, q: usize, t: usize)
    requires known { (Known m) × (PrepareAsked m.n e q t w.old) }
    requires below { (Below m.n 0 (e + 1) w.old) × ((Below m.n q (t + 1) w.old) × (get_or w.old (q + t) 0 ≡ 1)) }
    ensures { RestAt m.n e q t w.old w.new }
{
    let b = q + 8 * (t + 1);
    windows::clear(w, b, e + 1 + t);
    windows::copy(w, 0, b, e + 1);
    if e + 1 < t {
        return;
    }
    window_division::divide(w, m, q, t, b, e, 1);
}

// The window from q on is made ready for the content stage.
pub fn prepare(w: &mut [u32], m: Modulus, e: usize, q: usize, t: usize)
    requires known { (Known m) × (PrepareAsked m.n e q t w.old) }
    requires below { (Below m.n 0 (e + 1) w.old) × ((Below m.n q (t + 1) w.old) × (get_or w.old (q + t) 0 ≡ 1)) }
    ensures { Prepared m.n e q t w.old w.new }
{
    remainder(w, m, e, q, t);
    windows::copy(w, q, q + 2 * (t + 1), t + 1);
    windows::copy(w, q + 8 * (t + 1), q + 3 * (t + 1), t);
    windows::clear(w, q + 4 * (t + 1), 4 * (t + 1));
    w[q + 6 * (t + 1)] = 1;
}

// c less the product of G at 0 and the multiplier at q + (t + 1), divided by H at q.
pub fn exact_quotient(w: &mut [u32], m: Modulus, e: usize, q: usize, t: usize, c: u32)
    requires known { (Known m) × (ExactQuotientAsked m.n e q t w.old) }
    requires below { (Below m.n q (t + 1) w.old) × ((get_or w.old (q + t) 0 ≡ 1) × (Below m.n (q + (t + 1)) t w.old)) }
    ensures { ExactQuotient m.n e q t c w.old w.new }
{
    let z = q + 2 * (t + 1);
    windows::clear(w, z, t + e + 1);
    w[z] = windows::residue(c, m.n);
    reduced_products::sub_product(w, m, q + (t + 1), t, 0, e + 1, z);
    window_division::divide_keeping(w, m, q, t, z, t + e, 1);
}
