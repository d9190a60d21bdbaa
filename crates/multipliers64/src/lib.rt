// Products modulo n, words of 64 bits, with a multiplier that is used often: it comes with its fraction of n, so that a product costs three
// multiplications of words and no division. Where n is 2^63 or more there is no fraction, and `reduction64` makes the product.
//
//   Multiplier, multiplier_of    a number modulo n, with its fraction where n is below 2^63
//   times                        a word times a multiplier
//   add_times                    a number and a word times a multiplier
//   sum_of                       three words, each times a multiplier
//   product, add_product         as those of `reduction64`, for a caller that knows n
//
//   m       the modulus with its reciprocal
#![tactic(auto)]

ghost use Rattle.std.specs.Prelude.{◌≡◌, ◌+◌, ◌*◌, ◌%◌, ◌<◌, ◌≤◌};
ghost use Rattle.reduction64.specs.Moduli.{Ready};
ghost use Rattle.multipliers64.specs.Multipliers.{IsMultiplier, HasFraction};

use reduction64::Reciprocal;

// A multiplier c below n, and w, what it is of n as a fraction of 2^64.
#[derive(Clone, Copy)]
pub struct Multiplier {
    pub c: u64,
    pub w: u64,
}

// x modulo n, with its fraction where there is one.
pub fn multiplier_of(m: Reciprocal, x: u64) -> Multiplier
    requires { Ready m }
    ensures { IsMultiplier m.n x result.c result.w }
{
    let n = m.n;
    let c = reduction64::residue(n, x);
    if n >= 9223372036854775808 {
        return Multiplier { c, w: 0 };
    }
    Multiplier {
        c,
        w: reduction64::multiplier(m, c),
    }
}

// A word y times a multiplier.
pub fn times(m: Reciprocal, f: Multiplier, y: u64) -> u64
    requires { (Ready m) × (HasFraction m.n f.c f.w) }
    ensures { result ≡ (f.c * y) % m.n }
{
    let n = m.n;
    let c = f.c;
    let w = f.w;
    if n >= 9223372036854775808 {
        return reduction64::product(m, c, y);
    }
    reduction64::scaled(m, c, w, y)
}

// x and a word y times a multiplier.
pub fn add_times(m: Reciprocal, x: u64, f: Multiplier, y: u64) -> u64
    requires { (Ready m) × (HasFraction m.n f.c f.w) }
    ensures { result ≡ (x + f.c * y) % m.n }
{
    let n = m.n;
    let z = reduction64::residue(n, x);
    let p = times(m, f, y);
    reduction64::sum(n, z, p)
}

// x, y and z, each times its multiplier.
pub fn sum_of(
    m: Reciprocal,
    l: Multiplier,
    x: u64,
    c: Multiplier,
    y: u64,
    e: Multiplier,
    z: u64,
) -> u64
    requires ready { Ready m }
    requires has_fraction { (HasFraction m.n l.c l.w) × ((HasFraction m.n c.c c.w) × (HasFraction m.n e.c e.w)) }
    ensures { result ≡ (l.c * x + c.c * y + e.c * z) % m.n }
{
    let n = m.n;
    let p = times(m, l, x);
    let q = times(m, c, y);
    let r = times(m, e, z);
    let s = reduction64::sum(n, p, q);
    reduction64::sum(n, s, r)
}

// a b modulo n.
pub fn product(n: u64, m: Reciprocal, a: u64, b: u64) -> u64
    requires { (Ready m) × (m.n ≡ n) }
    ensures { result ≡ (a * b) % n }
{
    reduction64::product(m, a, b)
}

// x + a b modulo n.
pub fn add_product(n: u64, m: Reciprocal, x: u64, a: u64, b: u64) -> u64
    requires { (Ready m) × (m.n ≡ n) }
    ensures { result ≡ (x + a * b) % n }
{
    reduction64::add_product(m, x, a, b)
}
