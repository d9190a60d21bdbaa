// Products of two windows of one buffer, taken from a third.
//
//   sub_product     a product is taken away
//   take_product    a product is taken away, modulo a monic polynomial
//
//   p, lp    the place and the number of words of the first factor
//   q, lq    those of the second
//   dst      the place of the words that lose the product
//   m        the record of the modulus n
//   Span     a place and a number of words: f and g are the factors in that form
#![tactic(auto)]

ghost use Rattle.modulus.specs.Values.{Known};
ghost use Rattle.reduced_products.specs.Products.{ProductAsked, Factors, Subtracted, FactorsModulo, TakenFrom};

use modulus::Modulus;

// The len words at `at`.
#[derive(Clone, Copy)]
pub struct Span {
    pub at: usize,
    pub len: usize,
}

// The lp + lq - 1 words at dst lose the product of the lp words at p and the lq words at q. Two words of the first share one
// reduction.
pub fn sub_product(w: &mut [u32], m: Modulus, p: usize, lp: usize, q: usize, lq: usize, dst: usize)
    requires known { (Known m) × (ProductAsked m.n p lp q lq dst w.old) }
    requires factors { Factors m.n p lp q lq dst w.old }
    ensures { Subtracted m.n p lp q lq dst w.old w.new }
{
    let n = m.n;
    for i in 0..lp / 2 {
        let j = 2 * i;
        let b = w[p + j];
        let c = w[p + (j + 1)];
        modulus_windows::add_pair(w, m, n - c, n - b, q, dst + j, lq);
        let top = modulus::multiply_add(m, w[dst + (j + lq)], n - c, w[q + (lq - 1)]);
        w[dst + (j + lq)] = top;
    }
    if lp % 2 == 0 {
        return;
    }
    let j = lp - 1;
    let b = w[p + j];
    modulus_windows::add_scaled(w, m, n - b, q, dst + j, lq);
}

// As `sub_product`, modulo the monic polynomial of degree t at 0 where t words do not hold what is left. Answers the number of
// words left.
pub fn take_product(w: &mut [u32], m: Modulus, t: usize, f: Span, g: Span, dst: usize) -> usize
    requires known { (Known m) × (ProductAsked m.n f.at f.len g.at g.len dst w.old) }
    requires factors_modulo { FactorsModulo m.n t f.at f.len g.at g.len dst w.old }
    ensures { TakenFrom m.n t f.at f.len g.at g.len dst result w.old w.new }
{
    sub_product(w, m, f.at, f.len, g.at, g.len, dst);
    let l = f.len + g.len - 1;
    if l <= t {
        return l;
    }
    window_division::divide(w, m, 0, t, dst, l - 1, 1);
    windows::clear(w, dst + t, l - t);
    t
}
