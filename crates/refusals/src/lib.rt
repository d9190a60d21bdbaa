// The refusals (S29), those that every service shares (S22), and the answer of a service (S21).
//
//   Refusal, number                       a refusal, and its number
//   Answer                                what a service answers
//   bad_modulus, bad_length, all_below    the tests of the refusals 1, 2 and 3
//   refusal_one, refusal_of_pair          the first of them that applies to one polynomial, or to two
//   refusal_lengths, refusal_words        2 of two polynomials, and 3
//   room                                  the refusal where a buffer is too short
#![tactic(auto)]

ghost use Rattle.std.specs.Prelude.{◌≡◌, not, [], ◌∷◌, ℕ, length};
ghost use Rattle.refusals.specs.Refusal.{number_of, status_of};
ghost use Rattle.refusals.specs.Refusals.{narrow, bad_modulus_of, bad_length_of, all_below_of, short};
ghost use Rattle.refusals.specs.Refusals.{first_refusal, refusals_one, refusals_of_pair};
ghost use Rattle.refusals.specs.Conditions.{ServedLength};

// The largest sent degree, and the words of a polynomial of that degree (S5).
pub const MAX_DEGREE: usize = 48;

pub const MAX_LENGTH: usize = 49;

// The working words that a service is lent (S27).
pub const WORKING_WORDS: usize = 8192;

// Why a call is refused: the refusals of S29, under their numbers.
#[derive(Clone, Copy, Debug, PartialEq, Eq)]
pub enum Refusal {
    BadModulus = 1,
    BadLength = 2,
    BadWord = 3,
    LeadNoUnit = 4,
    NoUnitFactor = 5,
    ShortResult = 6,
    ShortWork = 7,
    NoFrame = 8,
    NoCofactors = 9,
    EmptyTop = 10,
    PrimeDivides = 11,
    TooManyPoints = 12,
    FactorsFull = 13,
    BadNumber = 14,
    BadFrames = 15,
    BadMultiplier = 16,
    NoText = 17,
}

impl Refusal {
    ghost use Rattle.refusals.specs.Refusal.{number_of};

    // Its number in the table, which a status holds.
    pub fn number(self) -> u32
        ensures { result ≡ number_of self }
    {
        self as u32
    }
}

// What a service answers: the number, and 0 or the number of the refusal.
#[repr(C)]
#[derive(Clone, Copy)]
pub struct Answer {
    pub value: u32,
    pub status: u32,
}

// S23: "Each returns its number and value 0".
impl From<Refusal> for Answer {
    ghost use Rattle.refusals.specs.Refusal.{number_of};

    ghost from_gives = { λ refusal answer. (answer.value ≡ 0) × (answer.status ≡ number_of refusal) };

    fn from(refusal: Refusal) -> Self {
        Answer {
            value: 0,
            status: refusal.number(),
        }
    }
}

// Whether n is 0 or 1. No word of 32 bits is at the bound.
pub fn bad_modulus(n: u32) -> bool
    ensures { result ≡ bad_modulus_of narrow n }
{
    n < 2
}

// Whether every word of f is a residue.
pub fn all_below(n: u32, f: &[u32]) -> bool
    ensures { result ≡ all_below_of n f.now }
{
    f.iter().all(|&x| x < n)
}

// Whether f has no word, or more than 49; for words of any width.
pub fn bad_length<W>(f: &[W]) -> bool
    ensures { result ≡ bad_length_of f.now }
{
    f.is_empty() || MAX_LENGTH < f.len()
}

// A buffer of `have` words that needs `need`: the refusal where it is too short.
pub fn room(have: usize, need: usize, refusal: Refusal) -> Result<(), Refusal>
    ensures { status_of result ≡ first_refusal ((number_of refusal, short have need) ∷ []) }
{
    if have < need {
        return Err(refusal);
    }
    Ok(())
}

// Refusals 1, 2 and 3 of one polynomial.
pub fn refusal_one(n: u32, f: &[u32]) -> Result<(), Refusal>
    ensures { status_of result ≡ first_refusal (refusals_one narrow n f.now) }
{
    if bad_modulus(n) {
        return Err(Refusal::BadModulus);
    }
    if bad_length(f) {
        return Err(Refusal::BadLength);
    }
    if !all_below(n, f) {
        return Err(Refusal::BadWord);
    }
    Ok(())
}

// Refusal 2 of two polynomials, for words of any width.
pub fn refusal_lengths<W>(f: &[W], g: &[W]) -> Result<(), Refusal>
    ensures { status_of result ≡ first_refusal ((2, bad_length_of f.now) ∷ (2, bad_length_of g.now) ∷ []) }
{
    if bad_length(f) {
        return Err(Refusal::BadLength);
    }
    if bad_length(g) {
        return Err(Refusal::BadLength);
    }
    Ok(())
}

// Refusal 3 of two polynomials. A word is read only where both lengths are served (S93).
fn refusal_words(n: u32, f: &[u32], g: &[u32]) -> Result<(), Refusal>
    requires { ServedLength f.now × ServedLength g.now }
    ensures { status_of result ≡ first_refusal ((3, not (all_below_of n f.now)) ∷ (3, not (all_below_of n g.now)) ∷ []) }
{
    if !all_below(n, f) {
        return Err(Refusal::BadWord);
    }
    if !all_below(n, g) {
        return Err(Refusal::BadWord);
    }
    Ok(())
}

// Refusals 1, 2 and 3 of two polynomials.
pub fn refusal_of_pair(n: u32, f: &[u32], g: &[u32]) -> Result<(), Refusal>
    ensures { status_of result ≡ first_refusal (refusals_of_pair narrow n f.now g.now) }
{
    if bad_modulus(n) {
        return Err(Refusal::BadModulus);
    }
    refusal_lengths(f, g)?;
    refusal_words(n, f, g)
}
