// Montgomery's reduction, words of 64 bits, for odd n below 2^63. The words stay what they are: only the multipliers of a loop are held,
// times 2^64 modulo n, and each sum of products with them costs one reduction.
//
//   low                   the lower half of a product of 64 bits by 64 bits
//   minus                 a - b modulo n
//   inverse_of            the inverse of n modulo 2^64, or 0
//   enter                 a multiplier, held
//   sum_two               x + c y + e z modulo n, the multipliers c and e held
//   sum_three             l x + c y + e z modulo n, the multipliers l, c and e held
//
//   k       the inverse of n modulo 2^64
//   s       2^128 modulo n, at most n
//   t, u, v sums of products, of two words
#![tactic(auto)]

ghost use Rattle.std.specs.Prelude.{◌≡◌, ◌+◌, ◌-◌, ◌*◌, ◌/◌, ◌%◌, ◌^◌, ◌<◌, ◌≤◌};
ghost use Rattle.reduction.specs.Newton.{Refined};
ghost use Rattle.montgomery64.specs.Forms.{Formed, Squared, Held, Reduced, Inverse, Carried, Factors};

// hi 2^64 + lo.
#[derive(Clone, Copy)]
struct Wide {
    hi: u64,
    lo: u64,
}

// The lower half of a b, a function of its own as `reduction::high` is: the back end makes one multiplication of it.
pub fn low(a: u64, b: u64) -> u64
    ensures { result ≡ (a * b) % 2 ^ 64 }
{
    let a0 = a % 4294967296;
    let a1 = a / 4294967296;
    let b0 = b % 4294967296;
    let b1 = b / 4294967296;
    let s = (a1 * b0) % 4294967296 + (a0 * b1) % 4294967296;
    std::num::wrapping_add_u64(a0 * b0, s % 4294967296 * 4294967296)
}

// a - b modulo n, for a - b below n: n is added by the sign of a - b, since a comparison would become a branch.
pub fn minus(n: u64, a: u64, b: u64) -> u64
    requires { (n < 2 ^ 63) × ((b ≤ n) × (a < n + b)) }
    ensures { result ≡ (a + (n - b)) % n }
{
    let y = std::num::wrapping_sub_u64(a, b);
    std::num::wrapping_add_u64(y, y / 9223372036854775808 * n)
}

// Newton's step: m (2 - n m) is the inverse of n modulo the square of what m is one for, as far as 2^64.
fn refine(n: u64, m: u64) -> u64
    ensures { Refined (2 ^ 64) n m result }
{
    low(m, std::num::wrapping_sub_u64(2, low(n, m)))
}

// The inverse of n modulo 2^64, 0 if there is none: n is its own modulo 8, and then come 2^6, 2^12, 2^24, 2^48 and 2^64.
pub fn inverse_of(n: u64) -> u64
    ensures { Inverse n result }
{
    if n % 2 == 0 {
        return 0;
    }
    refine(n, refine(n, refine(n, refine(n, refine(n, n)))))
}

// 1, where the sum s of p and another number wrapped.
fn carry(s: u64, p: u64) -> u64
    ensures { Carried s p result }
{
    if s < p {
        return 1;
    }
    0
}

fn product(a: u64, b: u64) -> Wide
    ensures { result.hi * 2 ^ 64 + result.lo ≡ a * b }
{
    Wide {
        hi: reduction::high(a, b),
        lo: low(a, b),
    }
}

// t + a b.
fn add_product(t: Wide, a: u64, b: u64) -> Wide
    requires { t.hi + a * b / 2 ^ 64 + 1 < 2 ^ 64 }
    ensures { result.hi * 2 ^ 64 + result.lo ≡ t.hi * 2 ^ 64 + t.lo + a * b }
{
    let p = low(a, b);
    let s = std::num::wrapping_add_u64(t.lo, p);
    let k = carry(s, p);
    Wide {
        hi: t.hi + reduction::high(a, b) + k,
        lo: s,
    }
}

// (hi 2^64 + lo) / 2^64 modulo n: less the multiple of n whose low word is lo.
fn redc(n: u64, k: u64, hi: u64, lo: u64) -> u64
    requires { (Formed n k) × (hi < n + n) }
    ensures { Reduced n (hi * 2 ^ 64 + lo) result }
{
    let h = minus(n, hi, n);
    let q = low(lo, k);
    minus(n, h, reduction::high(q, n))
}

// a times 2^64 modulo n.
pub fn enter(n: u64, k: u64, s: u64, a: u64) -> u64
    requires { (Formed n k) × (Squared n s) }
    ensures { (Held n a result) × (result < n) }
{
    let t = product(a, s);
    redc(n, k, t.hi, t.lo)
}

// x + c y + e z, with c and e held; y and z are any words.
pub fn sum_two(n: u64, k: u64, x: u64, c: u64, y: u64, e: u64, z: u64) -> u64
    requires { (Formed n k) × ((x ≤ n) × ((c < n) × (e < n))) }
    ensures { Reduced n (x * 2 ^ 64 + c * y + e * z) result }
{
    let t = product(c, y);
    let u = add_product(t, e, z);
    let p = redc(n, k, u.hi, u.lo);
    minus(n, x, n - p)
}

// l x + c y + e z, with l, c and e held; x is any word.
pub fn sum_three(n: u64, k: u64, l: u64, x: u64, c: u64, y: u64, e: u64, z: u64) -> u64
    requires { (Formed n k) × ((l ≤ n) × (Factors n c y e z)) }
    ensures { Reduced n (l * x + c * y + e * z) result }
{
    let t = product(l, x);
    let u = add_product(t, c, y);
    let v = add_product(u, e, z);
    redc(n, k, v.hi, v.lo)
}
