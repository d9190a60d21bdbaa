// The boundary to C: one exported function for each service that C programs call (include/jingcobu.h). Each calls its service and
// promises the same record; nothing is decided here.
//
//   jingcobu_resultant            resultant_service::resultant
//   jingcobu_reduced_resultant    reduced_service::reduced_resultant
//   jingcobu_divisor              divisor_service::divisor
//   jingcobu_why                  why_service::why
//   jingcobu_resultant_two        bivariate_service::bivariate_resultant
//   jingcobu_resultant_cofactors  cofactor_service::resultant_cofactors
//   jingcobu_product              product_service::product
//   jingcobu_product_word         product_word_service::product_word
//   jingcobu_true_degree          degree_service::true_degree_words
//   jingcobu_read_text            text_reader_service::read_text
//   jingcobu_write_text           text_writer_service::write_text
//   jingcobu_gcd                  residue_service::gcd_with_cofactors
//   jingcobu_factors_start, _arrive, _leave, _read    factors_service::start, arrive, leave, read
//   jingcobu_shares               shares_service::shares
//   jingcobu_check_claim          claim_service::check_claim_words
//   jingcobu64_resultant          resultant_service64::resultant: words of 64 bits
//   jingcobu64_reduced_resultant  reduced_service64::reduced_resultant
//   jingcobu64_product            product_service64::product
//   jingcobu_resultants           resultants_service::resultants: many pairs
//   jingcobu_divisors             divisors_service::divisors
//   jingcobu64_resultants         resultants_service64::resultants
//   jingcobu64_divisors           divisors_service64::divisors
//   jingcobu64_divisor            divisor_service64::divisor
//   jingcobu64_gcd                residue_service64::gcd_with_cofactors
//   jingcobu64_true_degree        degree_service64::true_degree_words
#![tactic(auto)]

ghost use Rattle.std.specs.Prelude.{◌≡◌, [], ◌∷◌};
ghost use Rattle.refusals.specs.Refusals.{narrow};
ghost use Rattle.refusals64.specs.Wide.{wide};
ghost use Rattle.resultant_service.specs.ResultantService.{ResultantAnswer};
ghost use Rattle.reduced_service.specs.ReducedService.{ReducedAnswer};
ghost use Rattle.divisor_service.specs.DivisorService.{DivisorAnswer};
ghost use Rattle.why_service.specs.WhyService.{WhyAnswer};
ghost use Rattle.cofactor_service.specs.CofactorService.{CofactorAnswer};
ghost use Rattle.product_service.specs.ProductService.{ProductAnswer};
ghost use Rattle.degree_service.specs.DegreeService.{DegreeWordsAnswer};
ghost use Rattle.product_word_service.specs.ProductWord.{ProductWordAnswer};
ghost use Rattle.text_reader_service.specs.TextReader.{ReadAnswer};
ghost use Rattle.text_writer_service.specs.TextWriter.{WriteAnswer};
ghost use Rattle.residue_service.specs.Services.{GcdAnswers};
ghost use Rattle.factors_service.specs.FactorsService.{StartAnswer, ArriveAnswer, LeaveAnswer, ReadingAnswer};
ghost use Rattle.shares_service.specs.SharesService.{SharesAnswer};
ghost use Rattle.claim_service.specs.ClaimService.{ClaimAnswer};
ghost use Rattle.bivariate_service.specs.BivariateService.{BivariateAnswer};
ghost use Rattle.resultants_service.specs.ResultantsService.{ResultantsAnswer};
ghost use Rattle.divisors_service.specs.DivisorsService.{DivisorsAnswer};

use degree_service::DegreeAnswer;
use factors_service::{Factors, FactorsAnswer};
use refusals::Answer;
use residue_service::GcdAnswer;
use shares_service::Plan;
use why_service::Reason;

// The resultant of f and g modulo n, in the sent degrees.
#[unsafe(no_mangle)]
pub extern "C" fn jingcobu_resultant(n: u32, f: &[u32], g: &[u32], work: &mut [u32]) -> Answer
    ensures { ResultantAnswer narrow n f.now g.now work.old work.new
        result.value result.status }
{
    resultant_service::resultant(n, f, g, work)
}

// The reduced resultant D of f and g modulo n, with cofactors in the first L words of u and of v.
#[unsafe(no_mangle)]
pub extern "C" fn jingcobu_reduced_resultant(
    n: u32,
    f: &[u32],
    g: &[u32],
    u: &mut [u32],
    v: &mut [u32],
    work: &mut [u32],
) -> Answer
    ensures { ReducedAnswer narrow n f.now g.now u.old u.new v.old
        v.new work.old work.new result.value result.status }
{
    reduced_service::reduced_resultant(n, f, g, u, v, work)
}

// The reduced resultant D of f and g modulo n, without cofactors.
#[unsafe(no_mangle)]
pub extern "C" fn jingcobu_divisor(n: u32, f: &[u32], g: &[u32], work: &mut [u32]) -> Answer
    ensures { DivisorAnswer narrow n f.now g.now work.old work.new
        result.value result.status }
{
    divisor_service::divisor(n, f, g, work)
}

// Why f and g are not coprime: a divisor m of n, and both are zero modulo m, or a monic polynomial in the first 49 words of w divides
// both modulo m.
#[unsafe(no_mangle)]
pub extern "C" fn jingcobu_why(
    n: u32,
    f: &[u32],
    g: &[u32],
    w: &mut [u32],
    work: &mut [u32],
) -> Reason
    ensures { WhyAnswer narrow n f.now g.now w.old w.new work.old
        work.new result.ground result.m result.degree result.status }
{
    why_service::why(n, f, g, w, work)
}

// The resultant in y of f of degrees d in y and a in z and g of e and b, in the first e a + d b + 1 words of out.
#[unsafe(no_mangle)]
pub extern "C" fn jingcobu_resultant_two(
    n: u32,
    f: &[u32],
    d: usize,
    a: usize,
    g: &[u32],
    e: usize,
    b: usize,
    out: &mut [u32],
    work: &mut [u32],
) -> Answer
    ensures { BivariateAnswer narrow n f.now d a g.now e b out.old out.new
        work.old work.new result.value result.status }
{
    bivariate_service::bivariate_resultant(n, f, d, a, g, e, b, out, work)
}

// The resultant of f and g modulo n, with u in the first e words of one buffer and v in the first d words of the other: u f + v g is it.
#[unsafe(no_mangle)]
pub extern "C" fn jingcobu_resultant_cofactors(
    n: u32,
    f: &[u32],
    g: &[u32],
    u: &mut [u32],
    v: &mut [u32],
    work: &mut [u32],
) -> Answer
    ensures { CofactorAnswer narrow n f.now g.now u.old u.new v.old
        v.new work.old work.new result.value result.status }
{
    cofactor_service::resultant_cofactors(n, f, g, u, v, work)
}

// The product of f and g modulo n, in the first d + e + 1 words of out.
#[unsafe(no_mangle)]
pub extern "C" fn jingcobu_product(n: u32, f: &[u32], g: &[u32], out: &mut [u32]) -> Answer
    ensures { ProductAnswer narrow n f.now g.now out.old out.new
        result.value result.status }
{
    product_service::product(n, f, g, out)
}

// Word k of the product of f and g modulo n, alone, in its place in out.
#[unsafe(no_mangle)]
pub extern "C" fn jingcobu_product_word(
    n: u32,
    f: &[u32],
    g: &[u32],
    out: &mut [u32],
    k: usize,
) -> Answer
    ensures { ProductWordAnswer narrow n f.now g.now k out.old out.new
        result.value result.status }
{
    product_word_service::product_word(n, f, g, out, k)
}

// The true degree of f: none for the zero polynomial.
#[unsafe(no_mangle)]
pub extern "C" fn jingcobu_true_degree(n: u32, f: &[u32]) -> DegreeAnswer
    ensures { DegreeWordsAnswer narrow n f.now result.some result.degree result.status }
{
    degree_service::true_degree_words(n, f)
}

// The polynomial that a text of the notation spells, in the first words of words.
#[unsafe(no_mangle)]
pub extern "C" fn jingcobu_read_text(n: u32, text: &[u8], words: &mut [u32]) -> Answer
    ensures { ReadAnswer narrow n text.now words.old words.new result.value result.status }
{
    text_reader_service::read_text(n, text, words)
}

// The text of f, in the first characters of text.
#[unsafe(no_mangle)]
pub extern "C" fn jingcobu_write_text(n: u32, f: &[u32], text: &mut [u8]) -> Answer
    ensures { WriteAnswer narrow n f.now text.old text.new result.value result.status }
{
    text_writer_service::write_text(n, f, text)
}

// The greatest common divisor of a, b and n, with its least cofactors.
#[unsafe(no_mangle)]
pub extern "C" fn jingcobu_gcd(n: u32, a: u32, b: u32) -> GcdAnswer
    ensures { GcdAnswers narrow n a b result.g result.s result.t result.status }
{
    residue_service::gcd_with_cofactors(n, a, b)
}

// A product whose factors come and go: the state with h and no factor.
#[unsafe(no_mangle)]
pub extern "C" fn jingcobu_factors_start(n: u32, h: &[u32]) -> FactorsAnswer
    ensures { StartAnswer narrow n h.now result.factors result.status }
{
    factors_service::start(n, h)
}

// The state with one factor more, f under its number.
#[unsafe(no_mangle)]
pub extern "C" fn jingcobu_factors_arrive(
    state: Factors,
    number: u16,
    f: &[u32],
    work: &mut [u32],
) -> FactorsAnswer
    ensures { ArriveAnswer narrow state number f.now work.old work.new result.factors result.status }
{
    factors_service::arrive(state, number, f, work)
}

// The state without the factor under a number.
#[unsafe(no_mangle)]
pub extern "C" fn jingcobu_factors_leave(state: Factors, number: u16) -> FactorsAnswer
    ensures { LeaveAnswer narrow state number result.factors result.status }
{
    factors_service::leave(state, number)
}

// The resultant of the product of the factors held with h.
#[unsafe(no_mangle)]
pub extern "C" fn jingcobu_factors_read(state: Factors) -> Answer
    ensures { ReadingAnswer narrow state result.value result.status }
{
    factors_service::read(state)
}

// How many jobs of each of four groups go into a run of frames.
#[unsafe(no_mangle)]
pub extern "C" fn jingcobu_shares(
    frames: u32,
    waiting1: u32,
    waiting2: u32,
    waiting3: u32,
    waiting4: u32,
) -> Plan
    ensures { SharesAnswer frames (waiting1 ∷ waiting2 ∷ waiting3 ∷ waiting4 ∷ []) result.share result.status }
{
    shares_service::shares(frames, waiting1, waiting2, waiting3, waiting4)
}

// Whether d is the reduced resultant of f and g modulo n, with u f + v g = d: 0 accepted, else 1, 2 or 3, what fails first.
#[unsafe(no_mangle)]
pub extern "C" fn jingcobu_check_claim(
    n: u32,
    f: &[u32],
    g: &[u32],
    d: u32,
    u: &[u32],
    v: &[u32],
    work: &mut [u32],
) -> Answer
    ensures { ClaimAnswer narrow n f.now g.now d u.now v.now
        work.old work.new result.value result.status }
{
    claim_service::check_claim_words(n, f, g, d, u, v, work)
}

// The resultant of f and g modulo n, in the sent degrees, words of 64 bits.
#[unsafe(no_mangle)]
pub extern "C" fn jingcobu64_resultant(
    n: u64,
    f: &[u64],
    g: &[u64],
    work: &mut [u64],
) -> refusals64::Answer
    ensures { ResultantAnswer wide n f.now g.now work.old work.new
        result.value result.status }
{
    resultant_service64::resultant(n, f, g, work)
}

// The reduced resultant D of f and g modulo n, with cofactors in the first L words of u and of v, words of 64 bits.
#[unsafe(no_mangle)]
pub extern "C" fn jingcobu64_reduced_resultant(
    n: u64,
    f: &[u64],
    g: &[u64],
    u: &mut [u64],
    v: &mut [u64],
    work: &mut [u64],
) -> refusals64::Answer
    ensures { ReducedAnswer wide n f.now g.now u.old u.new v.old
        v.new work.old work.new result.value result.status }
{
    reduced_service64::reduced_resultant(n, f, g, u, v, work)
}

// The product of f and g modulo n, in the first d + e + 1 words of out, words of 64 bits.
#[unsafe(no_mangle)]
pub extern "C" fn jingcobu64_product(
    n: u64,
    f: &[u64],
    g: &[u64],
    out: &mut [u64],
) -> refusals64::Answer
    ensures { ProductAnswer wide n f.now g.now out.old out.new
        result.value result.status }
{
    product_service64::product(n, f, g, out)
}

// The resultants of count pairs modulo n, of sent degrees d and e, in the first count words of out.
#[unsafe(no_mangle)]
pub extern "C" fn jingcobu_resultants(
    n: u32,
    f: &[u32],
    d: usize,
    g: &[u32],
    e: usize,
    count: usize,
    out: &mut [u32],
    work: &mut [u32],
) -> Answer
    ensures { ResultantsAnswer narrow n f.now d g.now e count out.old out.new
        work.old work.new result.value result.status }
{
    resultants_service::resultants(n, f, d, g, e, count, out, work)
}

// The reduced resultants D of count pairs modulo n, without cofactors, in the first count words of out.
#[unsafe(no_mangle)]
pub extern "C" fn jingcobu_divisors(
    n: u32,
    f: &[u32],
    d: usize,
    g: &[u32],
    e: usize,
    count: usize,
    out: &mut [u32],
    work: &mut [u32],
) -> Answer
    ensures { DivisorsAnswer narrow n f.now d g.now e count out.old out.new
        work.old work.new result.value result.status }
{
    divisors_service::divisors(n, f, d, g, e, count, out, work)
}

// The resultants of count pairs modulo n, of sent degrees d and e, in the first count words of out, words of 64 bits.
#[unsafe(no_mangle)]
pub extern "C" fn jingcobu64_resultants(
    n: u64,
    f: &[u64],
    d: usize,
    g: &[u64],
    e: usize,
    count: usize,
    out: &mut [u64],
    work: &mut [u64],
) -> refusals64::Answer
    ensures { ResultantsAnswer wide n f.now d g.now e count out.old out.new
        work.old work.new result.value result.status }
{
    resultants_service64::resultants(n, f, d, g, e, count, out, work)
}

// The reduced resultants D of count pairs modulo n, without cofactors, in the first count words of out, words of 64 bits.
#[unsafe(no_mangle)]
pub extern "C" fn jingcobu64_divisors(
    n: u64,
    f: &[u64],
    d: usize,
    g: &[u64],
    e: usize,
    count: usize,
    out: &mut [u64],
    work: &mut [u64],
) -> refusals64::Answer
    ensures { DivisorsAnswer wide n f.now d g.now e count out.old out.new
        work.old work.new result.value result.status }
{
    divisors_service64::divisors(n, f, d, g, e, count, out, work)
}

// The reduced resultant D of f and g modulo n, without cofactors, words of 64 bits.
#[unsafe(no_mangle)]
pub extern "C" fn jingcobu64_divisor(
    n: u64,
    f: &[u64],
    g: &[u64],
    work: &mut [u64],
) -> refusals64::Answer
    ensures { DivisorAnswer wide n f.now g.now work.old work.new
        result.value result.status }
{
    divisor_service64::divisor(n, f, g, work)
}

// The greatest common divisor of a, b and n, with its least cofactors, words of 64 bits.
#[unsafe(no_mangle)]
pub extern "C" fn jingcobu64_gcd(n: u64, a: u64, b: u64) -> residue_service64::GcdAnswer
    ensures { GcdAnswers wide n a b result.g result.s result.t result.status }
{
    residue_service64::gcd_with_cofactors(n, a, b)
}

// The true degree of f: none for the zero polynomial; words of 64 bits.
#[unsafe(no_mangle)]
pub extern "C" fn jingcobu64_true_degree(n: u64, f: &[u64]) -> DegreeAnswer
    ensures { DegreeWordsAnswer wide n f.now result.some result.degree result.status }
{
    degree_service64::true_degree_words(n, f)
}
