// Residues modulo n, n at most 32 bits: single operations, one division a call. Loops over words reduce by `reduction`.
//
//   reduce          x modulo n, x of 64 bits
//   add_mod, sub_mod, mul_mod, mul_add_mod
//   negate          -a, with no division
//   power           x to the power k
#![tactic(auto)]

ghost use Rattle.std.specs.Prelude.{◌≡◌, ℕ, ◌+◌, ◌-◌, ◌*◌, ◌%◌, ◌^◌, ◌<◌, ◌≤◌};
ghost use Rattle.arithmetic.specs.Powers.{TimesDigit};

// x modulo n.
pub fn reduce(n: u32, x: u64) -> u32
    requires { 1 ≤ n }
    ensures { result ≡ x % n }
{
    let p = x % (n as u64);
    p as u32
}

pub fn mul_mod(n: u32, a: u32, b: u32) -> u32
    requires { 1 ≤ n }
    ensures { result ≡ (a * b) % n }
{
    reduce(n, (a as u64) * (b as u64))
}

pub fn add_mod(n: u32, a: u32, b: u32) -> u32
    requires { 1 ≤ n }
    ensures { result ≡ (a + b) % n }
{
    reduce(n, (a as u64) + (b as u64))
}

// a - b, as a + (n - b), for b at most n.
pub fn sub_mod(n: u32, a: u32, b: u32) -> u32
    requires { (1 ≤ n) × (b ≤ n) }
    ensures { result ≡ (a + (n - b)) % n }
{
    reduce(n, (a as u64) + ((n - b) as u64))
}

// -a, for a at most n. No division.
pub fn negate(n: u32, a: u32) -> u32
    requires { (1 ≤ n) × (a ≤ n) }
    ensures { result ≡ (n - a) % n }
{
    if a == 0 {
        return 0;
    }
    n - a
}

// a + m b. A product is taken away by m = n - c.
pub fn mul_add_mod(n: u32, a: u32, m: u32, b: u32) -> u32
    requires { 1 ≤ n }
    ensures { result ≡ (a + m * b) % n }
{
    reduce(n, (a as u64) + (m as u64) * (b as u64))
}

// r y where the last binary digit of j is 1, else r.
fn times_digit(n: u32, r: u32, y: u32, j: usize) -> u32
    requires { 1 ≤ n }
    ensures { TimesDigit n r y j result }
{
    if j % 2 == 1 {
        return mul_mod(n, r, y);
    }
    r
}

// x to the power k, by squaring; a square, which the engine asks for most, at once.
pub fn power(n: u32, x: u32, k: usize) -> u32
    requires { 1 ≤ n }
    ensures { result ≡ (x ^ k) % n }
{
    if k == 2 {
        return mul_mod(n, x, x);
    }
    let mut r = reduce(n, 1);
    let mut y = x;
    let mut j = k;
    while 0 < j {
        r = times_digit(n, r, y, j);
        y = mul_mod(n, y, y);
        j = j / 2;
    }
    r
}
