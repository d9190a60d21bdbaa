// Kinds of residues, greatest common divisors with cofactors, joining residues of coprime moduli, and the modulus with its K. The
// functions here ask for what they need; the services that refuse stand in `residue_service`.
//
//   Split         two coprime factors; an attempt comes to Ok of a value, or to Err of a split
//   kind_of       what a residue is: a unit, nilpotent, or splitting
//   idempotent    the residue modulo n1 n2 that is 1 modulo n1 and 0 modulo n2
//   join          the residue modulo n1 n2 that is x modulo n1 and y modulo n2
//   gcd_with_cofactors    gcd(a, b, n) as s a + t b modulo n, with the least s and then the least t
//   modulus_of    n with K n
#![tactic(auto)]

ghost use Rattle.std.specs.Prelude.{◌≡◌, ℕ, ◌+◌, ◌-◌, ◌*◌, ◌/◌, ◌%◌, ◌<◌, ◌≤◌};
ghost use Rattle.definitions.specs.Residues.{K, GcdWithCofactors, LeastCofactors};
ghost use Rattle.residue.specs.Kinds.{KindOf};
ghost use Rattle.residue.specs.Moduli.{CoprimeModuli};

// S13, S79: "unit with its inverse, nilpotent, or splitting with two factors"
#[derive(Clone, Copy)]
pub enum Kind<W> {
    Unit(W),
    Nilpotent,
    Splits(W, W),
}

// Two coprime factors above 1, of n or of a divisor of n: what an attempt modulo n comes to where it finds no value.
#[derive(Clone, Copy)]
pub struct Split<W> {
    pub p: W,
    pub q: W,
}

// What a is modulo n. A nilpotent residue shows by a high power at once. Otherwise what n has in common with a is divided out of it
// until nothing is left in common; the rest, m, is the factor modulo which a is a unit.
pub fn kind_of(n: u32, a: u32) -> Kind<u32>
    requires { 2 ≤ n }
    ensures { KindOf n a result }
{
    let e = bezout::cofactor(n, a);
    if e.g == 1 {
        return Kind::Unit(e.s);
    }
    if arithmetic::power(n, a, 32) == 0 {
        return Kind::Nilpotent;
    }
    let mut m = n / e.g;
    let mut h = bezout::gcd(m, a);
    while h > 1 {
        m = m / h;
        h = bezout::gcd(m, a);
    }
    if m == 1 {
        Kind::Nilpotent
    } else {
        Kind::Splits(n / m, m)
    }
}

// 1 modulo n1 and 0 modulo n2.
pub fn idempotent(n1: u32, n2: u32) -> u32
    requires { CoprimeModuli 4294967296 n1 n2 }
    ensures { (result < n1 * n2) × ((result % n1 ≡ 1 % n1) × (result % n2 ≡ 0)) }
{
    let e = bezout::cofactor(n1, n2);
    (e.s * n2) % (n1 * n2)
}

// x modulo n1 and y modulo n2.
pub fn join(n1: u32, n2: u32, x: u32, y: u32) -> u32
    requires coprime_moduli { CoprimeModuli 4294967296 n1 n2 }
    requires x_lt_n1 { (x < n1) × (y < n2) }
    ensures { (result < n1 * n2) × ((result % n1 ≡ x) × (result % n2 ≡ y)) }
{
    let e = idempotent(n1, n2);
    let n = n1 * n2;
    arithmetic::mul_add_mod(n, y, e, arithmetic::sub_mod(n, x, y))
}

// A greatest common divisor g with the cofactors s and t.
#[derive(Clone, Copy)]
pub struct Cofactors<W> {
    pub g: W,
    pub s: W,
    pub t: W,
}

// (s a + (h - g)) / h, in 64 bits.
fn multiple(h: u32, g: u32, s: u32, a: u32) -> u64
    requires { (1 ≤ h) × (g ≤ h) }
    ensures { result ≡ (s * a + (h - g)) / h }
{
    let p = (s as u64) * (a as u64);
    let q = (h - g) as u64;
    (p + q) / (h as u64)
}

// The least number that differs from s by a multiple of m / g.
fn least(m: u32, g: u32, s: u32) -> u32
    requires { (1 ≤ g) × (1 ≤ m / g) }
    ensures { result ≡ s % (m / g) }
{
    let p = m / g;
    s % p
}

// S14: "g = gcd(a, b, n) from 1 to n, with residues s and t so that s times a plus t times b is g modulo n." "s is the least number from
// 0 upward for which some t fits, and t is then the least that fits." The divisor h of n and b is t1 b modulo n, and g, that of h
// and a, is s a + (1 - c) h. What differs from s by a multiple of h / g serves as well, and what differs from t by one of n / h.
pub fn gcd_with_cofactors(n: u32, a: u32, b: u32) -> Cofactors<u32>
    requires { 1 ≤ n }
    ensures { GcdWithCofactors n a b result.g result.s result.t × LeastCofactors n a b result.g result.s result.t }
{
    let e = bezout::cofactor(n, b);
    let f = bezout::cofactor(e.g, a);
    let s = least(e.g, f.g, f.s);
    let c = arithmetic::reduce(n, multiple(e.g, f.g, s, a));
    let t = arithmetic::mul_mod(n, e.s, arithmetic::sub_mod(n, 1, c));
    Cofactors {
        g: f.g,
        s,
        t: least(n, e.g, t),
    }
}

// A modulus and its K. n has 64 bits, so that the record serves wider words too.
#[derive(Clone, Copy)]
pub struct Modulus {
    pub n: u64,
    pub k: u32,
}

// S4, S75: "K is the largest whole number with 2^K <= n."
pub fn modulus_of(n: u32) -> Modulus
    ensures { (result.n ≡ n) × (result.k ≡ K n) }
{
    if n == 0 {
        return Modulus { n: 0, k: 0 };
    }
    let k = 31 - u32::leading_zeros(n);
    Modulus { n: n as u64, k }
}
