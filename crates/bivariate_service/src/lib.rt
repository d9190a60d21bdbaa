// The resultant of two polynomials in y and z as a service: from any words, degrees and lengths an answer, or a numbered refusal.
//
//   f, g          the sent words: d + 1 groups of a + 1 words, e + 1 groups of b + 1 words, constant first in y and in z
//   last          B, the degree in z of the resultant
//
//   bad_shape, sent_refusal         the refusals 1, 2 and 3
//   prime, prime_divides, room_refusal     the refusals 12, 11, 6 and 7
//   degree_in_z, served, bivariate_resultant     B, the answer, and the service
#![tactic(auto)]

ghost use Rattle.std.specs.Prelude.{◌≡◌, ◌+◌, ◌<◌, ◌≤◌, length, get_or, replicate};
ghost use Rattle.definitions.specs.Bivariate.{bivariate_resultant_of, bivariate_degree};
ghost use Rattle.law_numbers.specs.PrimeTable.{table};
ghost use Rattle.refusals.specs.Refusal.{status_of};
ghost use Rattle.refusals.specs.Refusals.{narrow};
ghost use Rattle.windows.specs.Window.{Written};
ghost use Rattle.bivariate.specs.PairLengthsAsked.{Prepared};
ghost use Rattle.bivariate_service.specs.BivariateService.{bad_shape_of, small_factor, SentTold, RoomTold, BivariateAnswer};

use bivariate::Degrees;
use refusals::{Answer, Refusal};

// The largest B.
const LAST: usize = 60;

// How many primes there are up to 59.
const COUNT: usize = 17;

// "The primes up to 59 stand in a fixed table."
const PRIMES: [u32; COUNT] = [
    2, 3, 5, 7, 11, 13, 17, 19, 23, 29, 31, 37, 41, 43, 47, 53, 59,
];

// Whether a degree is above 48, or f is not d + 1 groups of a + 1 words.
fn bad_shape(f: &[u32], d: usize, a: usize) -> bool
    ensures { result ≡ bad_shape_of d a f.now }
{
    if refusals::MAX_DEGREE < d {
        return true;
    }
    if refusals::MAX_DEGREE < a {
        return true;
    }
    f.len() != (d + 1) * (a + 1)
}

// Refusals 1, 2 and 3.
fn sent_refusal(
    n: u32,
    f: &[u32],
    d: usize,
    a: usize,
    g: &[u32],
    e: usize,
    b: usize,
) -> Result<(), Refusal>
    ensures { SentTold narrow n f.now d a g.now e b (status_of result) }
{
    if refusals::bad_modulus(n) {
        return Err(Refusal::BadModulus);
    }
    if bad_shape(f, d, a) {
        return Err(Refusal::BadLength);
    }
    if bad_shape(g, e, b) {
        return Err(Refusal::BadLength);
    }
    if !refusals::all_below(n, f) {
        return Err(Refusal::BadWord);
    }
    if !refusals::all_below(n, g) {
        return Err(Refusal::BadWord);
    }
    Ok(())
}

// Prime i of the table.
fn prime(i: usize) -> u32
    requires { i < 17 }
    ensures { result ≡ get_or table i 0 }
{
    PRIMES[i]
}

// Whether some prime up to last divides n: the table's primes that are not above last are tested.
fn prime_divides(n: u32, last: usize) -> bool
    requires { last ≤ 60 }
    ensures { result ≡ small_factor n last }
{
    for i in 0..COUNT {
        let p = prime(i);
        if last < p as usize {
            return false;
        }
        if n % p == 0 {
            return true;
        }
    }
    false
}

// Refusals 12, 11, 6 and 7. l and m are the lengths of the result buffer and of the working buffer.
fn room_refusal(n: u32, last: usize, l: usize, m: usize) -> Result<(), Refusal>
    ensures { RoomTold narrow n last l m (status_of result) }
{
    refusals::room(LAST, last, Refusal::TooManyPoints)?;
    if prime_divides(n, last) {
        return Err(Refusal::PrimeDivides);
    }
    refusals::room(l, last + 1, Refusal::ShortResult)?;
    refusals::room(m, refusals::WORKING_WORDS, Refusal::ShortWork)
}

// B, the degree in z of the resultant.
fn degree_in_z(d: usize, a: usize, e: usize, b: usize) -> usize
    requires { (d ≤ 48) × ((a ≤ 48) × ((e ≤ 48) × (b ≤ 48))) }
    ensures { result ≡ bivariate_degree d a e b }
{
    e * a + d * b
}

// The answer in out, and zeros in the working buffer; last is B.
fn served(out: &mut [u32], work: &mut [u32], n: u32, f: &[u32], g: &[u32], s: Degrees, last: usize)
    requires { Prepared n last f.now s.d s.a g.now s.e s.b out.old work.old }
    ensures written { Written (bivariate_resultant_of n s.d s.a s.e s.b f.now g.now) 0 (last + 1)
        out.old out.new }
    ensures work_after { work.new ≡ replicate (length work.old) 0 }
{
    bivariate::resultant_in_y(out, work, n, f, g, s, last);
    windows::wipe(work);
}

// "The answer is the resultant in y, a polynomial in z of B + 1 words with B = e times a plus d times b."
pub fn bivariate_resultant(
    n: u32,
    f: &[u32],
    d: usize,
    a: usize,
    g: &[u32],
    e: usize,
    b: usize,
    out: &mut [u32],
    work: &mut [u32],
) -> Answer
    ensures { BivariateAnswer narrow n f.now d a g.now e b out.old out.new
        work.old work.new result.value result.status }
{
    if let Err(refusal) = sent_refusal(n, f, d, a, g, e, b) {
        return Answer::from(refusal);
    }
    let last = degree_in_z(d, a, e, b);
    if let Err(refusal) = room_refusal(n, last, out.len(), work.len()) {
        return Answer::from(refusal);
    }
    served(out, work, n, f, g, Degrees { d, a, e, b }, last);
    Answer {
        value: 0,
        status: 0,
    }
}
