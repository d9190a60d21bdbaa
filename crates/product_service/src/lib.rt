// The product of two polynomials as a service (S34): from any words and lengths an answer, or a numbered refusal. Polynomials are lent
// words, the constant first.
//
//   product             the product, coefficient by coefficient, the constant first
//   refusal_product     the first refusal of a product, which the service of one word has too
#![tactic(auto)]

ghost use Rattle.std.specs.Prelude.{◌≡◌, ℕ, ◌%◌, ◌≤◌, length};
ghost use Rattle.definitions.specs.Polynomials.{coef, convolve, tabulate};
ghost use Rattle.refusals.specs.Refusal.{status_of};
ghost use Rattle.refusals.specs.Refusals.{narrow};
ghost use Rattle.product_service.specs.ProductService.{product_status, ProductAnswer};

use refusals::{Answer, Refusal};

// Refusals 1, 2, 3 and 6 of a product, l the length of the result buffer.
pub fn refusal_product(n: u32, f: &[u32], g: &[u32], l: usize) -> Result<(), Refusal>
    ensures { status_of result ≡ product_status narrow n f.now g.now l }
{
    if refusals::bad_modulus(n) {
        return Err(Refusal::BadModulus);
    }
    refusals::refusal_lengths(f, g)?;
    let sum = (f.len() - 1) + (g.len() - 1);
    if refusals::MAX_DEGREE < sum {
        return Err(Refusal::BadLength);
    }
    if !refusals::all_below(n, f) {
        return Err(Refusal::BadWord);
    }
    if !refusals::all_below(n, g) {
        return Err(Refusal::BadWord);
    }
    refusals::room(l, sum + 1, Refusal::ShortResult)
}

// The words of the product of f and g, into as many words of out as there are: each is finished before the next is begun (S85).
fn product_words(n: u32, f: &[u32], g: &[u32], out: &mut [u32])
    requires { 1 ≤ n }
    ensures { out.new ≡ tabulate (length out.old)
        (λ (k : ℕ). convolve (coef f.now) (coef g.now) k % n) }
{
    let m = reduction::modulus_of(n);
    for k in 0..out.len() {
        out[k] = convolution::product_word_by(m, f, g, k);
    }
}

// S9: "Product of f and g, of sent degrees d and e: … Its sent degree is d + e, also when its top word comes out zero."
pub fn product(n: u32, f: &[u32], g: &[u32], out: &mut [u32]) -> Answer
    ensures { ProductAnswer narrow n f.now g.now out.old out.new
        result.value result.status }
{
    if let Err(refusal) = refusal_product(n, f, g, out.len()) {
        return Answer::from(refusal);
    }
    let m = (f.len() - 1) + (g.len() - 1) + 1;
    product_words(n, f, g, &mut out[0..m]);
    Answer {
        value: 0,
        status: 0,
    }
}
