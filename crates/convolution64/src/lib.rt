// One word of a product of polynomials, words of 64 bits. Each term is reduced as it comes.
//
//   product_word_by    word k of f g, where the modulus comes with its reciprocal: for loops over k
//   product_word       word k of f g
#![tactic(auto)]

ghost use Rattle.std.specs.Prelude.{◌≡◌, ◌%◌, ◌≤◌};
ghost use Rattle.definitions.specs.Polynomials.{coef, convolve};
ghost use Rattle.reduction64.specs.Moduli.{Ready};

use reduction64::Reciprocal;

// Word k of the product of f and g.
pub fn product_word_by(m: Reciprocal, f: &[u64], g: &[u64], k: usize) -> u64
    requires { Ready m }
    ensures { result ≡ convolve (coef f.now) (coef g.now) k % m.n }
{
    if g.len() == 0 {
        return 0;
    }
    let last = convolution::end(k, f.len());
    let start = convolution::first(k, g.len());
    if start >= last {
        return 0;
    }
    let mut x: u64 = 0;
    for i in start..last {
        x = reduction64::add_product(m, x, f[i], g[k - i]);
    }
    x
}

// Word k of the product of f and g.
pub fn product_word(n: u64, f: &[u64], g: &[u64], k: usize) -> u64
    requires { 1 ≤ n }
    ensures { result ≡ convolve (coef f.now) (coef g.now) k % n }
{
    product_word_by(reduction64::modulus_of(n), f, g, k)
}
