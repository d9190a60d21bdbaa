// One word of a product of polynomials.
//
//   times, carries     a b, and whether a sum of two numbers of 64 bits passes 64 bits
//   first, end         the range of places whose words meet in word k
//   product_word_by    word k of f g, where the modulus comes with its reciprocal: for loops over k
//   product_word       word k of f g
#![tactic(auto)]

ghost use Rattle.std.specs.Prelude.{◌≡◌, ◌+◌, ◌-◌, ◌*◌, ◌%◌, ◌≤◌, min};
ghost use Rattle.definitions.specs.Polynomials.{coef, convolve};
ghost use Rattle.reduction.specs.Moduli.{Ready};
ghost use Rattle.convolution.specs.Carries.{Carry};

use reduction::Reciprocal;

// a b, of 64 bits.
fn times(a: u32, b: u32) -> u64
    ensures { result ≡ a * b }
{
    (a as u64) * (b as u64)
}

// 1 where x + p passes 64 bits, else 0.
fn carries(x: u64, p: u64) -> u64
    ensures { Carry x p result }
{
    let s = std::num::wrapping_add_u64(x, p);
    if s < p {
        return 1;
    }
    0
}

// The first place of f whose word meets one of g, of len words, in word k.
pub fn first(k: usize, len: usize) -> usize
    requires { 1 ≤ len }
    ensures { result ≡ k + 1 - len }
{
    if k < len {
        return 0;
    }
    k - (len - 1)
}

// The place after the last word of f, of len words, that meets one of g in word k.
pub fn end(k: usize, len: usize) -> usize
    ensures { result ≡ min (k + 1) len }
{
    if k < len {
        return k + 1;
    }
    len
}

// Word k of the product of f and g. The sum is h 2^64 + x, reduced once.
pub fn product_word_by(m: Reciprocal, f: &[u32], g: &[u32], k: usize) -> u32
    requires { Ready m }
    ensures { result ≡ convolve (coef f.now) (coef g.now) k % m.n }
{
    if g.len() == 0 {
        return 0;
    }
    let last = end(k, f.len());
    let start = first(k, g.len());
    if start >= last {
        return 0;
    }
    let mut x: u64 = 0;
    let mut h: u64 = 0;
    for i in start..last {
        let p = times(f[i], g[k - i]);
        h += carries(x, p);
        x = std::num::wrapping_add_u64(x, p);
    }
    reduction::reduce_wide(m, h, x)
}

// Word k of the product of f and g.
pub fn product_word(n: u32, f: &[u32], g: &[u32], k: usize) -> u32
    requires { 1 ≤ n }
    ensures { result ≡ convolve (coef f.now) (coef g.now) k % n }
{
    product_word_by(reduction::modulus_of(n), f, g, k)
}
