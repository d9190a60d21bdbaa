// The refusals of the checking of claims (02, W12), in their order.
//
//   bad_multiplier                    the test of refusal 16
//   refusal_sizes, refusal_words      1, 2 and 16; 3
//   refusal_claim                     the first refusal that applies
#![tactic(auto)]

ghost use Rattle.std.specs.Prelude.{◌≡◌};
ghost use Rattle.refusals.specs.Refusal.{status_of};
ghost use Rattle.refusals.specs.Refusals.{narrow, first_refusal};
ghost use Rattle.claim_refusals.specs.ClaimRefusals.{bad_multiplier_of, size_refusals, word_refusals, claim_status, ServedLengthsAsked};

use refusals::Refusal;

// The most words of a multiplier.
const MAX_MULTIPLIER: usize = 4096;

// Whether u has no word, or too many.
fn bad_multiplier(u: &[u32]) -> bool
    ensures { result ≡ bad_multiplier_of u.now }
{
    u.is_empty() || MAX_MULTIPLIER < u.len()
}

// Refusals 1, 2 and 16.
fn refusal_sizes(n: u32, f: &[u32], g: &[u32], u: &[u32], v: &[u32]) -> Result<(), Refusal>
    ensures { status_of result ≡ first_refusal (size_refusals narrow n f.now g.now u.now v.now) }
{
    if refusals::bad_modulus(n) {
        return Err(Refusal::BadModulus);
    }
    refusals::refusal_lengths(f, g)?;
    if bad_multiplier(u) || bad_multiplier(v) {
        return Err(Refusal::BadMultiplier);
    }
    Ok(())
}

// Refusal 3. A word is read only where the four lengths are served.
fn refusal_words(n: u32, f: &[u32], g: &[u32], u: &[u32], v: &[u32]) -> Result<(), Refusal>
    requires { ServedLengthsAsked f.now g.now u.now v.now }
    ensures { status_of result ≡ first_refusal (word_refusals n f.now g.now u.now v.now) }
{
    if !refusals::all_below(n, f) {
        return Err(Refusal::BadWord);
    }
    if !refusals::all_below(n, g) {
        return Err(Refusal::BadWord);
    }
    if !refusals::all_below(n, u) {
        return Err(Refusal::BadWord);
    }
    if !refusals::all_below(n, v) {
        return Err(Refusal::BadWord);
    }
    Ok(())
}

// The first refusal that applies, for l working words.
pub fn refusal_claim(
    n: u32,
    f: &[u32],
    g: &[u32],
    u: &[u32],
    v: &[u32],
    l: usize,
) -> Result<(), Refusal>
    ensures { status_of result ≡ claim_status narrow n f.now g.now u.now v.now l }
{
    refusal_sizes(n, f, g, u, v)?;
    refusal_words(n, f, g, u, v)?;
    refusals::room(l, refusals::WORKING_WORDS, Refusal::ShortWork)
}
