// Unit times monic as a service: from any words and lengths an answer, or a numbered refusal. Polynomials are lent words, the constant
// first; after an answer the whole working buffer is zero.
//
//   leading_place       the place of the highest coefficient that is not nilpotent
//   hand_out            a result out of the working buffer, zeros above it
//   unit_times_monic    f = u h, u a unit polynomial, h monic; the value is the degree of h
#![tactic(auto)]

ghost use Rattle.std.specs.Prelude.{◌≡◌, not, [], ◌∷◌, ◌+◌, ◌≤◌, eqb, length, replicate};
ghost use Rattle.definitions.specs.Polynomials.{coef, tabulate, UnitTimesMonic};
ghost use Rattle.refusals.specs.Refusal.{status_of};
ghost use Rattle.refusals.specs.Refusals.{narrow, short, first_refusal};
ghost use Rattle.windows.specs.Window.{piece};
ghost use Rattle.window_factor.specs.Factors.{Given, Factored};
ghost use Rattle.law_polynomial_tests.specs.UnitTests.{is_nilpotent, lead_place};
ghost use Rattle.unit_monic_service.specs.UnitMonicStages.{FactorsAsked};
ghost use Rattle.unit_monic_service.specs.FactorsService.{UnitTimesMonicAnswer};

use refusals::{Answer, Refusal};
use residue::Kind;

// ---- the leading coefficient

// Whether a is nilpotent modulo n.
fn nilpotent(n: u32, a: u32) -> bool
    requires { 2 ≤ n }
    ensures { result ≡ is_nilpotent n a }
{
    match residue::kind_of(n, a) {
        Kind::Unit(i) => false,
        Kind::Nilpotent => true,
        Kind::Splits(p, q) => false,
    }
}

// The place of the highest coefficient of f that is not nilpotent, 0 where there is none.
pub fn leading_place(n: u32, f: &[u32]) -> usize
    requires { 2 ≤ n }
    ensures { result ≡ lead_place n f.now }
{
    for t in (0..f.len()).rev() {
        if !nilpotent(n, f[t]) {
            return t;
        }
    }
    0
}

// ---- results out of the working buffer

// Coefficient k of the len words of w from a on.
fn coefficient_at(w: &[u32], a: usize, len: usize, k: usize) -> u32
    requires { a + len ≤ length w.now }
    ensures { result ≡ coef (piece w.now a len) k }
{
    if k < len {
        return w[a + k];
    }
    0
}

// The len words of w from a on, zeros above them.
pub fn hand_out(out: &mut [u32], w: &[u32], a: usize, len: usize)
    requires { a + len ≤ length w.now }
    ensures { out.new ≡ tabulate (length out.old) (coef (piece w.now a len)) }
{
    for k in 0..out.len() {
        out[k] = coefficient_at(w, a, len, k);
    }
}

// ---- unit times monic

// f of degree d at 0 is a unit polynomial times a monic one of degree t, as `window_factor` has it. The record of n is found here, once.
fn factor_loaded(work: &mut [u32], n: u32, d: usize, t: usize, i: u32)
    requires le_n { (2 ≤ n) × ((t ≤ d) × (d + 1 + (t + 1 + (d + 1)) ≤ length work.old)) }
    requires given { Given n d t i work.old }
    ensures { Factored n d t work.old work.new }
{
    let m = modulus::modulus_of(n);
    window_factor::unit_times_monic(work, m, d, t, i);
}

// f = u h, where coefficient t has the inverse i and those above it are nilpotent; u and h have as many words as f.
fn factor_words(n: u32, f: &[u32], t: usize, i: u32, u: &mut [u32], h: &mut [u32], work: &mut [u32])
    requires { FactorsAsked n t i f.now u.old h.old work.old }
    ensures work_after { work.new ≡ replicate (length work.old) 0 }
    ensures unit_times_monic { UnitTimesMonic n f.now t u.new h.new }
{
    let d = f.len() - 1;
    windows::load(work, 0, f, n);
    factor_loaded(work, n, d, t, i);
    hand_out(u, work, d + 1 + (t + 1) + t, d + 1 - t);
    hand_out(h, work, d + 1, t + 1);
    windows::wipe(work);
}

// The refusals 5, 6 and 7 of unit times monic: g is what the leading coefficient has in common with n; the buffers have lu, lh and l
// words, and the results need len each.
fn refusal_factors(g: u32, lu: usize, lh: usize, len: usize, l: usize) -> Result<(), Refusal>
    ensures { status_of result ≡ first_refusal ((5, not (eqb g 1)) ∷ (6, short lu len) ∷ (6, short lh len) ∷ (7, short l 8192) ∷ []) }
{
    if g != 1 {
        return Err(Refusal::NoUnitFactor);
    }
    refusals::room(lu, len, Refusal::ShortResult)?;
    refusals::room(lh, len, Refusal::ShortResult)?;
    refusals::room(l, refusals::WORKING_WORDS, Refusal::ShortWork)
}

// "Unit times monic: if some coefficient t is a unit and all above it are nilpotent, the polynomial is u times h, h monic of degree t,
// u a unit polynomial."
pub fn unit_times_monic(n: u32, f: &[u32], u: &mut [u32], h: &mut [u32], work: &mut [u32]) -> Answer
    ensures { UnitTimesMonicAnswer narrow n f.now u.old u.new h.old h.new
        work.old work.new result.value result.status }
{
    if let Err(refusal) = refusals::refusal_one(n, f) {
        return Answer::from(refusal);
    }
    let t = leading_place(n, f);
    let e = bezout::cofactor(n, f[t]);
    let l = f.len();
    if let Err(refusal) = refusal_factors(e.g, u.len(), h.len(), l, work.len()) {
        return Answer::from(refusal);
    }
    factor_words(n, f, t, e.s, &mut u[0..l], &mut h[0..l], work);
    Answer {
        value: t as u32,
        status: 0,
    }
}
