// Reduction modulo n, n of 64 bits, without division: a modulus comes with its reciprocal, found once, two digits in the base 2^64. The
// services answer for n below 2^63 alone, and only there the reciprocal is used; for larger n a product is divided digit by digit, so that
// no function above this crate has to ask how large n is.
//
//   Reciprocal, modulus_of     n, and for n below 2^63 the two digits v1, v0 of 2^128 / n and r, which is 2^64 less v1 n; for odd n what
//                           `montgomery64` needs of it as well
//   residue, sum            x modulo n; a + b modulo n, of residues
//   multiplier              what a factor c that is used often comes with: its fraction of n
//   scaled                  c y modulo n, with c's fraction
//   product, add_product    a b and x + a b modulo n
//   difference              a - b modulo n, b at most n
//   sum_two                 x + c a + e b modulo n
//   sum_three               l x + c y + e z modulo n
//   power                   x to the power k modulo n
//
//   m       the modulus with its reciprocal
#![tactic(auto)]

ghost use Rattle.std.specs.Prelude.{◌≡◌, ◌+◌, ◌-◌, ◌*◌, ◌/◌, ◌%◌, ◌^◌, ◌<◌, ◌≤◌};
ghost use Rattle.law_words.specs.Fractions.{Fraction};
ghost use Rattle.arithmetic.specs.Powers.{TimesDigit};
ghost use Rattle.law_words64.specs.Reciprocals.{Digit, Less};
ghost use Rattle.reduction64.specs.Moduli.{Ready};

// What is found once for a modulus n: `Ready` says that v1, v0 and r belong to it, and that k is 0, or n is odd and below 2^63, k its
// inverse modulo 2^64 and s 2^128 modulo n.
#[derive(Clone, Copy)]
pub struct Reciprocal {
    pub n: u64,
    pub r: u64,
    pub v1: u64,
    pub v0: u64,
    pub k: u64,
    pub s: u64,
}

// A quotient and what is left.
#[derive(Clone, Copy)]
struct Parts {
    q: u64,
    x: u64,
}

// a + c, less n where something stays left.
fn less(n: u64, q: u64, a: u64, c: u64) -> Parts
    requires { (q < 2 ^ 63) × ((c ≤ n) × (a + c ≤ n + n)) }
    ensures { Less n q (a + c) result.q result.x }
{
    let b = n - c;
    if a <= b {
        return Parts { q, x: a + c };
    }
    Parts { q: q + 1, x: a - b }
}

// One digit of a quotient by n in the base 2^32, by the upper half of n and one more: q is at most two too small, and a + c is left.
fn digit(n: u64, x: u64) -> Parts
    requires { (2 ^ 63 ≤ n) × ((1 ≤ x) × (x ≤ n)) }
    ensures { Digit 4294967296 n x result.q result.x }
{
    let h = n / 4294967296 + 1;
    let q = x / h;
    let a = x % h * 4294967296;
    let c = q * (4294967296 - n % 4294967296);
    let p = less(n, q, c, 0);
    less(n, p.q, a, p.x)
}

// x 2^64 / n, rounded so that something is left, for n of 2^63 and more: two digits in the base 2^32.
fn fraction(n: u64, x: u64) -> u64
    requires { (2 ^ 63 ≤ n) × ((1 ≤ x) × (x ≤ n)) }
    ensures { (result * n < x * 2 ^ 64) × (x * 2 ^ 64 ≤ result * n + n) }
{
    let p = digit(n, x);
    let r = digit(n, p.x);
    p.q * 4294967296 + r.q
}

// n with its reciprocal. The fraction of n is that of v1 n, which is 2^63 or more. What the second digit leaves is 2^128 modulo n.
pub fn modulus_of(n: u64) -> Reciprocal
    requires { 1 ≤ n }
    ensures { (Ready result) × (result.n ≡ n) }
{
    if n >= 9223372036854775808 {
        return Reciprocal {
            n,
            r: 0,
            v1: 0,
            v0: 0,
            k: 0,
            s: 0,
        };
    }
    let v1 = 18446744073709551615 / n;
    let r = 18446744073709551615 % n + 1;
    let v0 = fraction(v1 * n, v1 * r);
    let k = montgomery64::inverse_of(n);
    Reciprocal {
        n,
        r,
        v1,
        v0,
        k,
        s: std::num::wrapping_sub_u64(0, montgomery64::low(v0, n)),
    }
}

// What c, at most n, is of n, as a fraction of 2^64.
pub fn multiplier(m: Reciprocal, c: u64) -> u64
    requires { (Ready m) × ((m.n < 2 ^ 63) × (c ≤ m.n)) }
    ensures { Fraction (2 ^ 64) m.n c result }
{
    let w = c * m.v1 + reduction::high(c, m.v0);
    let p = std::num::wrapping_sub_u64(0, montgomery64::low(w, m.n));
    if p <= m.n {
        return w;
    }
    w + 1
}

// s modulo n, for s below 2 n.
fn fold(n: u64, s: u64) -> u64
    requires { (n < 2 ^ 63) × (s < n + n) }
    ensures { result ≡ s % n }
{
    montgomery64::minus(n, s, n)
}

// c y, where w is c's fraction of n.
pub fn scaled(m: Reciprocal, c: u64, w: u64, y: u64) -> u64
    requires { (Ready m) × ((m.n < 2 ^ 63) × Fraction (2 ^ 64) m.n c w) }
    ensures { result ≡ (c * y) % m.n }
{
    let q = reduction::high(w, y);
    fold(
        m.n,
        std::num::wrapping_sub_u64(montgomery64::low(c, y), montgomery64::low(q, m.n)),
    )
}

// x modulo n; a residue costs no division.
pub fn residue(n: u64, x: u64) -> u64
    requires { 1 ≤ n }
    ensures { result ≡ x % n }
{
    if x < n {
        return x;
    }
    x % n
}

// a + b modulo n, of two residues, with no number above n on the way.
pub fn sum(n: u64, a: u64, b: u64) -> u64
    requires { (a < n) × (b < n) }
    ensures { result ≡ (a + b) % n }
{
    let c = n - b;
    if a < c {
        return a + b;
    }
    a - c
}

// h 2^64 + t modulo n.
fn reduce_wide(m: Reciprocal, h: u64, t: u64) -> u64
    requires { (Ready m) × (m.n < 2 ^ 63) }
    ensures { result ≡ (h * 2 ^ 64 + t) % m.n }
{
    fold(m.n, scaled(m, m.r, m.v0, h) + scaled(m, 1, m.v1, t))
}

// h 2^64 + t modulo n, for n of 2^63 and more: what is left of -h 2^64 without a multiple of n is from 1 to n.
fn reduce_large(n: u64, h: u64, t: u64) -> u64
    requires { 2 ^ 63 ≤ n }
    ensures { result ≡ (h * 2 ^ 64 + t) % n }
{
    let x = n - residue(n, h);
    let q = fraction(n, x);
    let p = std::num::wrapping_sub_u64(0, montgomery64::low(q, n));
    let y = residue(n, t);
    sum(n, n - p, y)
}

// a b modulo n.
pub fn product(m: Reciprocal, a: u64, b: u64) -> u64
    requires { Ready m }
    ensures { result ≡ (a * b) % m.n }
{
    let h = reduction::high(a, b);
    let t = montgomery64::low(a, b);
    if m.n >= 9223372036854775808 {
        return reduce_large(m.n, h, t);
    }
    reduce_wide(m, h, t)
}

// x + a b modulo n.
pub fn add_product(m: Reciprocal, x: u64, a: u64, b: u64) -> u64
    requires { Ready m }
    ensures { result ≡ (x + a * b) % m.n }
{
    let y = residue(m.n, x);
    let p = product(m, a, b);
    sum(m.n, y, p)
}

// a - b modulo n, as a + (n - b), for b at most n.
pub fn difference(m: Reciprocal, a: u64, b: u64) -> u64
    requires { (Ready m) × (b ≤ m.n) }
    ensures { result ≡ (a + (m.n - b)) % m.n }
{
    let n = m.n;
    let x = residue(n, a);
    let y = residue(n, n - b);
    sum(n, x, y)
}

// x + c a + e b modulo n.
pub fn sum_two(m: Reciprocal, x: u64, c: u64, a: u64, e: u64, b: u64) -> u64
    requires { (Ready m) × ((x ≤ m.n) × (e ≤ m.n)) }
    ensures { result ≡ (x + c * a + e * b) % m.n }
{
    add_product(m, add_product(m, x, c, a), e, b)
}

// l x + c y + e z modulo n.
pub fn sum_three(m: Reciprocal, l: u64, x: u64, c: u64, y: u64, e: u64, z: u64) -> u64
    requires { Ready m }
    ensures { result ≡ (l * x + c * y + e * z) % m.n }
{
    add_product(m, add_product(m, product(m, l, x), c, y), e, z)
}

// r y where the last binary digit of j is 1, else r.
fn times_digit(m: Reciprocal, r: u64, y: u64, j: usize) -> u64
    requires { Ready m }
    ensures { TimesDigit m.n r y j result }
{
    if j % 2 == 1 {
        return product(m, r, y);
    }
    r
}

// x to the power k, by squaring; a square, which the engine asks for most, at once.
pub fn power(m: Reciprocal, x: u64, k: usize) -> u64
    requires { Ready m }
    ensures { result ≡ (x ^ k) % m.n }
{
    if k == 2 {
        return product(m, x, x);
    }
    let mut r = residue(m.n, 1);
    let mut y = x;
    let mut j = k;
    while 0 < j {
        r = times_digit(m, r, y, j);
        y = product(m, y, y);
        j = j / 2;
    }
    r
}
