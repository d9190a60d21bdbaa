// The inverse of a unit polynomial as a service (S38): from any words and lengths an answer, or a numbered refusal. Polynomials are lent
// words, the constant first; after an answer the whole working buffer is zero.
//
//   inverse             the inverse of a unit polynomial
#![tactic(auto)]

ghost use Rattle.std.specs.Prelude.{◌≡◌, not, cond, false, [], ◌∷◌, eqb, length, replicate};
ghost use Rattle.definitions.specs.Polynomials.{InverseOf};
ghost use Rattle.refusals.specs.Refusal.{status_of};
ghost use Rattle.refusals.specs.Refusals.{narrow, short, first_refusal};
ghost use Rattle.inverse_service.specs.InverseStages.{InverseAsked};
ghost use Rattle.inverse_service.specs.InverseService.{InverseAnswer};

use refusals::{Answer, Refusal};

// The inverse of the unit polynomial f, the inverse of whose constant is i, in the K d + 1 words of out.
fn inverse_words(n: u32, f: &[u32], i: u32, out: &mut [u32], work: &mut [u32])
    requires { InverseAsked n i f.now out.old work.old }
    ensures work_after { work.new ≡ replicate (length work.old) 0 }
    ensures inverse_of { InverseOf n f.now out.new }
{
    let d = f.len() - 1;
    let m = out.len();
    windows::load(work, 0, f, n);
    window_factor::series_inverse(work, n, d, i, i, m);
    unit_monic_service::hand_out(out, work, d + 1, m);
    windows::wipe(work);
}

// The refusals 5, 6 and 7 of an inverse: g is what the leading coefficient, at t, has in common with n; the buffers have lo and l
// words, and the result needs m.
fn refusal_inverse(g: u32, t: usize, lo: usize, m: usize, l: usize) -> Result<(), Refusal>
    ensures { status_of result ≡ first_refusal ((5, not (cond (eqb g 1) (eqb t 0) false)) ∷ (6, short lo m) ∷ (7, short l 8192) ∷ []) }
{
    if g != 1 {
        return Err(Refusal::NoUnitFactor);
    }
    if t != 0 {
        return Err(Refusal::NoUnitFactor);
    }
    refusals::room(lo, m, Refusal::ShortResult)?;
    refusals::room(l, refusals::WORKING_WORDS, Refusal::ShortWork)
}

// S16: "Unit polynomial: constant a unit, all other coefficients nilpotent. Its inverse fits in K times d, plus 1, words."
pub fn inverse(n: u32, f: &[u32], out: &mut [u32], work: &mut [u32]) -> Answer
    ensures { InverseAnswer narrow n f.now out.old out.new work.old work.new
        result.value result.status }
{
    if let Err(refusal) = refusals::refusal_one(n, f) {
        return Answer::from(refusal);
    }
    let t = unit_monic_service::leading_place(n, f);
    let e = bezout::cofactor(n, f[t]);
    let m = residue::modulus_of(n);
    let l = (m.k as usize) * (f.len() - 1) + 1;
    if let Err(refusal) = refusal_inverse(e.g, t, out.len(), l, work.len()) {
        return Answer::from(refusal);
    }
    inverse_words(n, f, e.s, &mut out[0..l], work);
    Answer {
        value: 0,
        status: 0,
    }
}
