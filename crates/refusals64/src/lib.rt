// The refusals that every service shares, and the answer of a service, words of 64 bits (S71, S72): the definitions are those of
// `refusals`, at another width.
//
//   Answer                         what a service answers
//   bad_modulus, all_below         the tests of the refusals 1 and 3
//   refusal_one, refusal_of_pair   the first of the refusals 1, 2 and 3 that applies to one polynomial, or to two
//   refusal_words                  3 of two polynomials
#![tactic(auto)]

ghost use Rattle.std.specs.Prelude.{◌≡◌, not, [], ◌∷◌};
ghost use Rattle.refusals.specs.Refusal.{status_of};
ghost use Rattle.refusals.specs.Refusals.{bad_modulus_of, all_below_of};
ghost use Rattle.refusals64.specs.Wide.{wide};
ghost use Rattle.refusals.specs.Refusals.{first_refusal, refusals_one, refusals_of_pair};
ghost use Rattle.refusals.specs.Conditions.{ServedLength};

use refusals::Refusal;

// The working words that a service is lent (S73).
pub const WORKING_WORDS: usize = 16384;

// What a service answers: the number, and 0 or the number of the refusal.
// Kept: a struct of its own beside that of `refusals`, since no exported function can answer a struct with a type parameter (C interface).
#[repr(C)]
#[derive(Clone, Copy)]
pub struct Answer {
    pub value: u64,
    pub status: u32,
}

// S23: "Each returns its number and value 0".
impl From<Refusal> for Answer {
    ghost use Rattle.refusals.specs.Refusal.{number_of};

    ghost from_gives = { λ refusal answer. (answer.value ≡ 0) × (answer.status ≡ number_of refusal) };

    fn from(refusal: Refusal) -> Self {
        Answer {
            value: 0,
            status: refusal.number(),
        }
    }
}

// Whether n is 0 or 1, or 2^63 or more.
pub fn bad_modulus(n: u64) -> bool
    ensures { result ≡ bad_modulus_of wide n }
{
    if n < 2 {
        return true;
    }
    !(n < 9223372036854775808)
}

// Whether every word of f is a residue.
pub fn all_below(n: u64, f: &[u64]) -> bool
    ensures { result ≡ all_below_of n f.now }
{
    f.iter().all(|&x| x < n)
}

// Refusals 1, 2 and 3 of one polynomial.
pub fn refusal_one(n: u64, f: &[u64]) -> Result<(), Refusal>
    ensures { status_of result ≡ first_refusal (refusals_one wide n f.now) }
{
    if bad_modulus(n) {
        return Err(Refusal::BadModulus);
    }
    if refusals::bad_length(f) {
        return Err(Refusal::BadLength);
    }
    if !all_below(n, f) {
        return Err(Refusal::BadWord);
    }
    Ok(())
}

// Refusal 3 of two polynomials. A word is read only where both lengths are served (S93).
fn refusal_words(n: u64, f: &[u64], g: &[u64]) -> Result<(), Refusal>
    requires { ServedLength f.now × ServedLength g.now }
    ensures { status_of result ≡ first_refusal ((3, not (all_below_of n f.now)) ∷ (3, not (all_below_of n g.now)) ∷ []) }
{
    if !all_below(n, f) {
        return Err(Refusal::BadWord);
    }
    if !all_below(n, g) {
        return Err(Refusal::BadWord);
    }
    Ok(())
}

// Refusals 1, 2 and 3 of two polynomials.
pub fn refusal_of_pair(n: u64, f: &[u64], g: &[u64]) -> Result<(), Refusal>
    ensures { status_of result ≡ first_refusal (refusals_of_pair wide n f.now g.now) }
{
    if bad_modulus(n) {
        return Err(Refusal::BadModulus);
    }
    refusals::refusal_lengths(f, g)?;
    refusal_words(n, f, g)
}
