// Residues modulo n, n of 64 bits: single operations. Loops over words reduce by `reduction64`.
//
//   reduce          x modulo n
//   add_mod, sub_mod, mul_mod, mul_add_mod
//   negate          -a, with no division
//   power           x to the power k
#![tactic(auto)]

ghost use Rattle.std.specs.Prelude.{◌≡◌, ℕ, ◌+◌, ◌-◌, ◌*◌, ◌%◌, ◌^◌, ◌<◌, ◌≤◌};

pub fn mul_mod(n: u64, a: u64, b: u64) -> u64
    requires { 1 ≤ n }
    ensures { result ≡ (a * b) % n }
{
    let m = reduction64::modulus_of(n);
    reduction64::product(m, a, b)
}

pub fn add_mod(n: u64, a: u64, b: u64) -> u64
    requires { 1 ≤ n }
    ensures { result ≡ (a + b) % n }
{
    let x = reduction64::residue(n, a);
    let y = reduction64::residue(n, b);
    reduction64::sum(n, x, y)
}

// a - b, as a + (n - b), for b at most n.
pub fn sub_mod(n: u64, a: u64, b: u64) -> u64
    requires { (1 ≤ n) × (b ≤ n) }
    ensures { result ≡ (a + (n - b)) % n }
{
    add_mod(n, a, n - b)
}

// -a, for a at most n. No division.
pub fn negate(n: u64, a: u64) -> u64
    requires { (1 ≤ n) × (a ≤ n) }
    ensures { result ≡ (n - a) % n }
{
    if a == 0 {
        return 0;
    }
    n - a
}

// a + c b. A product is taken away by c = n - d.
pub fn mul_add_mod(n: u64, a: u64, c: u64, b: u64) -> u64
    requires { 1 ≤ n }
    ensures { result ≡ (a + c * b) % n }
{
    let m = reduction64::modulus_of(n);
    reduction64::add_product(m, a, c, b)
}

// x to the power k.
pub fn power(n: u64, x: u64, k: usize) -> u64
    requires { 1 ≤ n }
    ensures { result ≡ (x ^ k) % n }
{
    let m = reduction64::modulus_of(n);
    reduction64::power(m, x, k)
}
