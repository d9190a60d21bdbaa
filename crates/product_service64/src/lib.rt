// The product of two polynomials as a service (S34, S71), words of 64 bits: `product_service` has the description.
//
//   product             the product, coefficient by coefficient, the constant first
//   refusal_product     the first refusal of a product
#![tactic(auto)]

ghost use Rattle.std.specs.Prelude.{◌≡◌, ℕ, ◌%◌, ◌≤◌, length};
ghost use Rattle.definitions.specs.Polynomials.{coef, convolve, tabulate};
ghost use Rattle.refusals.specs.Refusal.{status_of};
ghost use Rattle.refusals64.specs.Wide.{wide};
ghost use Rattle.product_service.specs.ProductService.{product_status, ProductAnswer};

use refusals::Refusal;
use refusals64::Answer;

// Refusals 1, 2, 3 and 6 of a product, l the length of the result buffer.
fn refusal_product(n: u64, f: &[u64], g: &[u64], l: usize) -> Result<(), Refusal>
    ensures { status_of result ≡ product_status wide n f.now g.now l }
{
    if refusals64::bad_modulus(n) {
        return Err(Refusal::BadModulus);
    }
    refusals::refusal_lengths(f, g)?;
    let sum = (f.len() - 1) + (g.len() - 1);
    if refusals::MAX_DEGREE < sum {
        return Err(Refusal::BadLength);
    }
    if !refusals64::all_below(n, f) {
        return Err(Refusal::BadWord);
    }
    if !refusals64::all_below(n, g) {
        return Err(Refusal::BadWord);
    }
    refusals::room(l, sum + 1, Refusal::ShortResult)
}

// The words of the product of f and g, into as many words of out as there are: each is finished before the next is begun (S85).
fn product_words(n: u64, f: &[u64], g: &[u64], out: &mut [u64])
    requires { 1 ≤ n }
    ensures { out.new ≡ tabulate (length out.old)
        (λ (k : ℕ). convolve (coef f.now) (coef g.now) k % n) }
{
    let m = reduction64::modulus_of(n);
    for k in 0..out.len() {
        out[k] = convolution64::product_word_by(m, f, g, k);
    }
}

// S9: "Product of f and g, of sent degrees d and e: … Its sent degree is d + e, also when its top word comes out zero."
pub fn product(n: u64, f: &[u64], g: &[u64], out: &mut [u64]) -> Answer
    ensures { ProductAnswer wide n f.now g.now out.old out.new
        result.value result.status }
{
    if let Err(refusal) = refusal_product(n, f, g, out.len()) {
        return Answer::from(refusal);
    }
    let m = (f.len() - 1) + (g.len() - 1) + 1;
    product_words(n, f, g, &mut out[0..m]);
    Answer {
        value: 0,
        status: 0,
    }
}
