// Greatest common divisors by Euclid's algorithm, with a cofactor modulo n; modulo powers of two by an inverse modulo 2^64.
//
//   gcd         the greatest common divisor
//   cofactor    that of n and a, with s such that s a is it modulo n
#![tactic(auto)]

ghost use Rattle.std.specs.Prelude.{◌≡◌, ℕ, ◌+◌, ◌-◌, ◌*◌, ◌%◌, ◌<◌, ◌≤◌};
ghost use Rattle.law_numbers.specs.Divisors.{IsGcd, GcdCofactor};

// A greatest common divisor g, with the cofactor s.
#[derive(Clone, Copy)]
pub struct Bezout {
    pub g: u64,
    pub s: u64,
}

pub fn gcd(a: u64, b: u64) -> u64
    ensures { IsGcd a b result }
{
    let mut x = a;
    let mut y = b;
    while y != 0 {
        let t = x % y;
        x = y;
        y = t;
    }
    x
}

// gcd(n, a), with s such that s a is it modulo n. The cofactors' signs alternate and none passes n, so nothing is reduced.
fn euclid(n: u64, a: u64) -> Bezout
    requires { 1 ≤ n }
    ensures { GcdCofactor n a result.g result.s }
{
    let mut x = n;
    let mut y = a;
    let mut s: u64 = 0;
    let mut t: u64 = 1;
    let mut k: u64 = 0;
    while y != 0 {
        let q = x / y;
        let z = x % y;
        let u = s + q * t;
        x = y;
        y = z;
        s = t;
        t = u;
        k = 1 - k;
    }
    if k == 0 {
        return Bezout { g: x, s: n - s };
    }
    Bezout { g: x, s }
}

// gcd(n, a), with s such that s a is it modulo n: for odd a and a power n of two the low bits of the inverse modulo 2^64.
pub fn cofactor(n: u64, a: u64) -> Bezout
    requires { 1 ≤ n }
    ensures { GcdCofactor n a result.g result.s }
{
    if n & (n - 1) == 0 {
        let k = montgomery64::inverse_of(a);
        if k != 0 {
            return Bezout {
                g: 1,
                s: k & (n - 1),
            };
        }
    }
    euclid(n, a)
}
