// One word of the product of two polynomials as a service (S35): from any words and lengths an answer, or a numbered refusal, those of the
// product. Polynomials are lent words, the constant first. A host that calls it with k from 0 to d + e has the product written word by
// word, and may read each word before the next is made.
//
//   product_word    word k of the product, alone
#![tactic(auto)]

ghost use Rattle.refusals.specs.Refusals.{narrow};
ghost use Rattle.product_word_service.specs.ProductWord.{ProductWordAnswer};

use refusals::Answer;

// S35: "writes word k of the product alone; every other word stays as found, and a k above d + e writes nothing"
pub fn product_word(n: u32, f: &[u32], g: &[u32], out: &mut [u32], k: usize) -> Answer
    ensures { ProductWordAnswer narrow n f.now g.now k out.old out.new
        result.value result.status }
{
    let l = out.len();
    if let Err(refusal) = product_service::refusal_product(n, f, g, l) {
        return Answer::from(refusal);
    }
    let m = (f.len() - 1) + (g.len() - 1) + 1;
    if m <= k {
        return Answer {
            value: 0,
            status: 0,
        };
    }
    out[k] = convolution::product_word(n, f, g, k);
    Answer {
        value: 0,
        status: 0,
    }
}
