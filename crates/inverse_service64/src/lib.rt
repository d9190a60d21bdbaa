// The inverse of a unit polynomial as a service, words of 64 bits: `inverse_service` has the description.
//
//   inverse             the inverse of a unit polynomial
#![tactic(auto)]

ghost use Rattle.std.specs.Prelude.{◌≡◌, not, cond, false, [], ◌∷◌, eqb, length, replicate};
ghost use Rattle.definitions.specs.Polynomials.{InverseOf};
ghost use Rattle.refusals.specs.Refusal.{status_of};
ghost use Rattle.refusals.specs.Refusals.{short, first_refusal};
ghost use Rattle.refusals64.specs.Wide.{wide};
ghost use Rattle.inverse_service.specs.InverseStages.{InverseAsked};
ghost use Rattle.inverse_service.specs.InverseService.{InverseAnswer};

use refusals::Refusal;
use refusals64::Answer;

// The inverse of the unit polynomial f, the inverse of whose constant is i, in the K d + 1 words of out.
fn inverse_words(n: u64, f: &[u64], i: u64, out: &mut [u64], work: &mut [u64])
    requires { InverseAsked n i f.now out.old work.old }
    ensures work_after { work.new ≡ replicate (length work.old) 0 }
    ensures inverse_of { InverseOf n f.now out.new }
{
    let d = f.len() - 1;
    let m = out.len();
    windows64::load(work, 0, f, n);
    window_factor64::series_inverse(work, n, d, i, i, m);
    unit_monic_service64::hand_out(out, work, d + 1, m);
    windows64::wipe(work);
}

// The refusals 5, 6 and 7 of an inverse: g is what the leading coefficient, at t, has in common with n; the buffers have lo and l
// words, and the result needs m.
fn refusal_inverse(g: u64, t: usize, lo: usize, m: usize, l: usize) -> Result<(), Refusal>
    ensures { status_of result ≡ first_refusal ((5, not (cond (eqb g 1) (eqb t 0) false)) ∷ (6, short lo m) ∷ (7, short l 16384) ∷ []) }
{
    if g != 1 {
        return Err(Refusal::NoUnitFactor);
    }
    if t != 0 {
        return Err(Refusal::NoUnitFactor);
    }
    refusals::room(lo, m, Refusal::ShortResult)?;
    refusals::room(l, refusals64::WORKING_WORDS, Refusal::ShortWork)
}

// S16: "Unit polynomial: constant a unit, all other coefficients nilpotent. Its inverse fits in K times d, plus 1, words."
pub fn inverse(n: u64, f: &[u64], out: &mut [u64], work: &mut [u64]) -> Answer
    ensures { InverseAnswer wide n f.now out.old out.new work.old work.new
        result.value result.status }
{
    if let Err(refusal) = refusals64::refusal_one(n, f) {
        return Answer::from(refusal);
    }
    let t = unit_monic_service64::leading_place(n, f);
    let e = bezout64::cofactor(n, f[t]);
    let m = residue64::modulus_of(n);
    let l = (m.k as usize) * (f.len() - 1) + 1;
    if let Err(refusal) = refusal_inverse(e.g, t, out.len(), l, work.len()) {
        return Answer::from(refusal);
    }
    inverse_words(n, f, e.s, &mut out[0..l], work);
    Answer {
        value: 0,
        status: 0,
    }
}
