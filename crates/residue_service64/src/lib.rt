// The residue services (S30 to S33, S71) in words of 64 bits: single residues modulo n, from any words. Each refuses with 1 where n is 0,
// 1, or 2^63 or more, then with 3 where a residue is n or more, and answers 0 then. The 32-bit twin `residue_service` has the laws.
//
//   sum, difference, product, power
//   gcd_with_cofactors    gcd(a, b, n) as s a + t b modulo n, with the least s and then the least t
//   classify              the kind of a residue
#![tactic(auto)]

ghost use Rattle.std.specs.Prelude.{◌≡◌};
ghost use Rattle.refusals.specs.Refusal.{status_of};
ghost use Rattle.refusals.specs.Refusals.{first_refusal};
ghost use Rattle.refusals64.specs.Wide.{wide};
ghost use Rattle.residue_service.specs.Services.{refusals_residue, refusals_residues};
ghost use Rattle.residue_service.specs.Services.{SumAnswer, DifferenceAnswer, ResidueProductAnswer, PowerAnswer};
ghost use Rattle.residue_service.specs.Services.{GcdAnswers, KindAnswers};

use refusals::Refusal;
use refusals64::Answer;
use residue::Kind;

// A greatest common divisor with its cofactors, and 0 or the number of the refusal.
#[repr(C)]
#[derive(Clone, Copy)]
pub struct GcdAnswer {
    pub g: u64,
    pub s: u64,
    pub t: u64,
    pub status: u32,
}

// Refusals 1 and 3 of one residue.
fn refusal_residue(n: u64, a: u64) -> Result<(), Refusal>
    ensures { status_of result ≡ first_refusal (refusals_residue wide n a) }
{
    if refusals64::bad_modulus(n) {
        return Err(Refusal::BadModulus);
    }
    if a >= n {
        return Err(Refusal::BadWord);
    }
    Ok(())
}

// Refusals 1 and 3 of two residues.
fn refusal_residues(n: u64, a: u64, b: u64) -> Result<(), Refusal>
    ensures { status_of result ≡ first_refusal (refusals_residues wide n a b) }
{
    refusal_residue(n, a)?;
    refusal_residue(n, b)
}

// a + b modulo n.
pub fn sum(n: u64, a: u64, b: u64) -> Answer
    ensures { SumAnswer wide n a b result.value result.status }
{
    if let Err(refusal) = refusal_residues(n, a, b) {
        return Answer::from(refusal);
    }
    Answer {
        value: arithmetic64::add_mod(n, a, b),
        status: 0,
    }
}

// a - b modulo n: the residue that with b makes a.
pub fn difference(n: u64, a: u64, b: u64) -> Answer
    ensures { DifferenceAnswer wide n a b result.value result.status }
{
    if let Err(refusal) = refusal_residues(n, a, b) {
        return Answer::from(refusal);
    }
    Answer {
        value: arithmetic64::sub_mod(n, a, b),
        status: 0,
    }
}

// a b modulo n.
pub fn product(n: u64, a: u64, b: u64) -> Answer
    ensures { ResidueProductAnswer wide n a b result.value result.status }
{
    if let Err(refusal) = refusal_residues(n, a, b) {
        return Answer::from(refusal);
    }
    Answer {
        value: arithmetic64::mul_mod(n, a, b),
        status: 0,
    }
}

// a to the power k modulo n; the 0-th power is 1.
pub fn power(n: u64, a: u64, k: usize) -> Answer
    ensures { PowerAnswer wide n a k result.value result.status }
{
    if let Err(refusal) = refusal_residue(n, a) {
        return Answer::from(refusal);
    }
    Answer {
        value: arithmetic64::power(n, a, k),
        status: 0,
    }
}

// S14: "g = gcd(a, b, n) from 1 to n, with residues s and t so that s times a plus t times b is g modulo n." "s is the least number from
// 0 upward for which some t fits, and t is then the least that fits."
pub fn gcd_with_cofactors(n: u64, a: u64, b: u64) -> GcdAnswer
    ensures { GcdAnswers wide n a b result.g result.s result.t result.status }
{
    if let Err(refusal) = refusal_residues(n, a, b) {
        return GcdAnswer {
            g: 0,
            s: 0,
            t: 0,
            status: refusal.number(),
        };
    }
    let c = residue64::gcd_with_cofactors(n, a, b);
    GcdAnswer {
        g: c.g,
        s: c.s,
        t: c.t,
        status: 0,
    }
}

// S13: "unit with its inverse, nilpotent, or splitting with two factors"
pub fn classify(n: u64, a: u64) -> Result<Kind<u64>, Refusal>
    ensures { KindAnswers wide n a result }
{
    match refusal_residue(n, a) {
        Ok(()) => {
            let m = reduction64::modulus_of(n);
            Ok(residue64::kind_of(m, a))
        }
        Err(refusal) => Err(refusal),
    }
}
