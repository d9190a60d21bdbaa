// Division of polynomials in one buffer by a divisor whose leading word is a unit.
//
//   a, d   the divisor: d + 1 words from a on
//   b, e   the dividend: e + 1 words from b on, where remainder and quotient are left
//   i      the inverse of the divisor's leading word
//   s      how many words of the quotient are still to come; c and k, or c and q, are the next two of them
//
//   m      the modulus n with its reciprocal
//
//   divide            the remainder alone
//   divide_keeping    the remainder and the quotient
#![tactic(auto)]

ghost use Rattle.std.specs.Prelude.{◌≡◌, ◌+◌, ◌*◌, ◌%◌, get_or};
ghost use Rattle.reduction64.specs.Moduli.{Ready};
ghost use Rattle.window_division.specs.Remainders.{DivisionLengthsAsked, Pair, Remainder, Quotient};

use reduction64::Reciprocal;

// The remainder, d words, stands at b; the words after it, where the quotient would stand, are residues of no further meaning.
// Two quotient words are worked in one pass.
pub fn divide(w: &mut [u64], m: Reciprocal, a: usize, d: usize, b: usize, e: usize, i: u64)
    requires ready { (Ready m) × (DivisionLengthsAsked m.n a d b e w.old) }
    requires pair { (Pair m.n a d b e w.old) × ((i * get_or w.old (a + d) 0) % m.n ≡ 1 % m.n) }
    ensures { Remainder m.n a d b e w.old w.new }
{
    let n = m.n;
    let mut s = e + 1 - d;
    // Kept: two words of the quotient a round, the highest first; (s % 2..s).step_by(2).rev() is no plainer.
    while 1 < s {
        s -= 2;
        let c = multipliers64::product(n, m, i, w[b + (d + s + 1)]);
        let t = multipliers64::add_product(n, m, w[b + (d + s)], n - c, w[a + (d - 1)]);
        let k = multipliers64::product(n, m, i, t);
        windows64::add_pair(w, n, m, n - c, n - k, a, b + s, d);
    }
    if s == 0 {
        return;
    }
    let c = multipliers64::product(n, m, i, w[b + (d + 0)]);
    windows64::add_scaled(w, n, m, n - c, a, b + 0, d);
}

// As `divide`, with the quotient kept: the remainder, d words, at b, and the e + 1 - d words of the quotient after it.
pub fn divide_keeping(w: &mut [u64], m: Reciprocal, a: usize, d: usize, b: usize, e: usize, i: u64)
    requires ready { (Ready m) × (DivisionLengthsAsked m.n a d b e w.old) }
    requires pair { (Pair m.n a d b e w.old) × ((i * get_or w.old (a + d) 0) % m.n ≡ 1 % m.n) }
    ensures { Quotient m.n a d b e w.old w.new }
{
    let n = m.n;
    let mut s = e + 1 - d;
    // Kept: two words of the quotient a round, the highest first; (s % 2..s).step_by(2).rev() is no plainer.
    while 1 < s {
        s -= 2;
        let c = multipliers64::product(n, m, i, w[b + (d + s + 1)]);
        let t = multipliers64::add_product(n, m, w[b + (d + s)], n - c, w[a + (d - 1)]);
        let q = multipliers64::product(n, m, i, t);
        windows64::add_pair(w, n, m, n - c, n - q, a, b + s, d);
        w[b + (d + s + 1)] = c;
        w[b + (d + s)] = q;
    }
    if s == 0 {
        return;
    }
    let c = multipliers64::product(n, m, i, w[b + (d + 0)]);
    windows64::add_scaled(w, n, m, n - c, a, b + 0, d);
    w[b + (d + 0)] = c;
}
