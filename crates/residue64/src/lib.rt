// Kinds of residues, greatest common divisors with cofactors, joining residues of coprime moduli, and the modulus with its K, in words
// of 64 bits. The 32-bit twin `residue` has the laws. The functions here ask for what they need; the services that refuse stand in
// `residue_services64`.
//
//   kind_of       what a residue is: a unit, nilpotent, or splitting
//   idempotent    the residue modulo n1 n2 that is 1 modulo n1 and 0 modulo n2
//   join          the residue modulo n1 n2 that is x modulo n1 and y modulo n2
//   gcd_with_cofactors    gcd(a, b, n) as s a + t b modulo n, with the least s and then the least t
//   modulus_of    n with K n, in the record that the words of 32 bits have too
//
//   m       the modulus with its reciprocal
#![tactic(auto)]

ghost use Rattle.std.specs.Prelude.{◌≡◌, ℕ, ◌+◌, ◌-◌, ◌*◌, ◌/◌, ◌%◌, ◌<◌, ◌≤◌};
ghost use Rattle.definitions.specs.Residues.{K, GcdWithCofactors, LeastCofactors};
ghost use Rattle.residue.specs.Kinds.{KindOf};
ghost use Rattle.residue.specs.Moduli.{CoprimeModuli};
ghost use Rattle.reduction64.specs.Moduli.{Ready};

use reduction64::Reciprocal;
use residue::{Cofactors, Kind, Modulus};

// What a is modulo n. A nilpotent residue shows by a high power at once. Otherwise what n has in common with a is divided out of it
// until nothing is left in common; the rest, q, is the factor modulo which a is a unit.
pub fn kind_of(m: Reciprocal, a: u64) -> Kind<u64>
    requires { (2 ≤ m.n) × Ready m }
    ensures { KindOf m.n a result }
{
    let e = bezout64::cofactor(m.n, a);
    if e.g == 1 {
        return Kind::Unit(e.s);
    }
    if reduction64::power(m, a, 64) == 0 {
        return Kind::Nilpotent;
    }
    let mut q = m.n / e.g;
    let mut h = bezout64::gcd(q, a);
    while h > 1 {
        q = q / h;
        h = bezout64::gcd(q, a);
    }
    if q == 1 {
        Kind::Nilpotent
    } else {
        Kind::Splits(m.n / q, q)
    }
}

// 1 modulo n1 and 0 modulo n2.
pub fn idempotent(n1: u64, n2: u64) -> u64
    requires { CoprimeModuli 18446744073709551616 n1 n2 }
    ensures { (result < n1 * n2) × ((result % n1 ≡ 1 % n1) × (result % n2 ≡ 0)) }
{
    let e = bezout64::cofactor(n1, n2);
    (e.s * n2) % (n1 * n2)
}

// x modulo n1 and y modulo n2, modulo n = n1 n2.
pub fn join(m: Reciprocal, n1: u64, n2: u64, x: u64, y: u64) -> u64
    requires ready { (Ready m) × (m.n ≡ n1 * n2) }
    requires coprime_moduli { CoprimeModuli 18446744073709551616 n1 n2 }
    requires x_lt_n1 { (x < n1) × (y < n2) }
    ensures { (result < n1 * n2) × ((result % n1 ≡ x) × (result % n2 ≡ y)) }
{
    let e = idempotent(n1, n2);
    reduction64::add_product(m, y, e, reduction64::difference(m, x, y))
}

// The least number that differs from s by a multiple of m / g.
fn least(m: u64, g: u64, s: u64) -> u64
    requires { (1 ≤ g) × (1 ≤ m / g) }
    ensures { result ≡ s % (m / g) }
{
    let p = m / g;
    s % p
}

// S14: "g = gcd(a, b, n) from 1 to n, with residues s and t so that s times a plus t times b is g modulo n." "s is the least number from
// 0 upward for which some t fits, and t is then the least that fits." The divisor h of n and b is t1 b modulo n, and g, that of h
// and a, is s a modulo h: g - s a is a multiple of h, and so of b. What differs from s by a multiple of h / g serves as well, and what
// differs from t by one of n / h. No product passes n.
pub fn gcd_with_cofactors(n: u64, a: u64, b: u64) -> Cofactors<u64>
    requires { 1 ≤ n }
    ensures { GcdWithCofactors n a b result.g result.s result.t × LeastCofactors n a b result.g result.s result.t }
{
    let e = bezout64::cofactor(n, b);
    let f = bezout64::cofactor(e.g, a);
    let s = least(e.g, f.g, f.s);
    let m = reduction64::modulus_of(n);
    let p = reduction64::product(m, s, a);
    let r = reduction64::difference(m, f.g, p);
    let t = reduction64::product(m, e.s, r / e.g);
    Cofactors {
        g: f.g,
        s,
        t: least(n, e.g, t),
    }
}

// S4, S75: "K is the largest whole number with 2^K <= n."
pub fn modulus_of(n: u64) -> Modulus
    ensures { (result.n ≡ n) × (result.k ≡ K n) }
{
    if n == 0 {
        return Modulus { n: 0, k: 0 };
    }
    let k = 63 - u64::leading_zeros(n);
    Modulus { n, k }
}
