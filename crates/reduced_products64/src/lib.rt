// Products of two windows of one buffer of 64-bit words, taken from a third. The 32-bit twin `reduced_products` has the description and
// the laws.
//
//   sub_product     a product is taken away
//   take_product    a product is taken away, modulo a monic polynomial
//
//   m        the modulus n with its reciprocal
#![tactic(auto)]

ghost use Rattle.reduction64.specs.Moduli.{Ready};
ghost use Rattle.reduced_products.specs.Products.{ProductAsked, Factors, Subtracted, FactorsModulo, TakenFrom};

use reduced_products::Span;
use reduction64::Reciprocal;

// The lp + lq - 1 words at dst lose the product of the lp words at p and the lq words at q. Two words of the first share one
// reduction.
pub fn sub_product(
    w: &mut [u64],
    m: Reciprocal,
    p: usize,
    lp: usize,
    q: usize,
    lq: usize,
    dst: usize,
)
    requires ready { (Ready m) × (ProductAsked m.n p lp q lq dst w.old) }
    requires factors { Factors m.n p lp q lq dst w.old }
    ensures { Subtracted m.n p lp q lq dst w.old w.new }
{
    let n = m.n;
    for i in 0..lp / 2 {
        let j = 2 * i;
        let b = w[p + j];
        let c = w[p + (j + 1)];
        modulus_windows64::add_pair(w, m, n - c, n - b, q, dst + j, lq);
        let top = reduction64::add_product(m, w[dst + (j + lq)], n - c, w[q + (lq - 1)]);
        w[dst + (j + lq)] = top;
    }
    if lp % 2 == 0 {
        return;
    }
    let j = lp - 1;
    let b = w[p + j];
    modulus_windows64::add_scaled(w, m, n - b, q, dst + j, lq);
}

// As `sub_product`, modulo the monic polynomial of degree t at 0 where t words do not hold what is left. Answers the number of
// words left.
pub fn take_product(w: &mut [u64], m: Reciprocal, t: usize, f: Span, g: Span, dst: usize) -> usize
    requires ready { (Ready m) × (ProductAsked m.n f.at f.len g.at g.len dst w.old) }
    requires factors_modulo { FactorsModulo m.n t f.at f.len g.at g.len dst w.old }
    ensures { TakenFrom m.n t f.at f.len g.at g.len dst result w.old w.new }
{
    let n = m.n;
    sub_product(w, m, f.at, f.len, g.at, g.len, dst);
    let l = f.len + g.len - 1;
    if l <= t {
        return l;
    }
    window_division64::divide(w, m, 0, t, dst, l - 1, 1);
    windows64::clear(w, dst + t, l - t);
    t
}
