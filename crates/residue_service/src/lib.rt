// The residue services (S30 to S33): single residues modulo n, from any words. Each refuses with 1 where n is 0 or 1, then with 3 where a
// residue is n or more, and answers 0 then.
//
//   sum, difference, product, power
//   gcd_with_cofactors    gcd(a, b, n) as s a + t b modulo n, with the least s and then the least t
//   classify              the kind of a residue
#![tactic(auto)]

ghost use Rattle.std.specs.Prelude.{◌≡◌};
ghost use Rattle.refusals.specs.Refusal.{status_of};
ghost use Rattle.refusals.specs.Refusals.{narrow, first_refusal};
ghost use Rattle.residue_service.specs.Services.{refusals_residue, refusals_residues};
ghost use Rattle.residue_service.specs.Services.{SumAnswer, DifferenceAnswer, ResidueProductAnswer, PowerAnswer};
ghost use Rattle.residue_service.specs.Services.{GcdAnswers, KindAnswers};

use refusals::{Answer, Refusal};
use residue::Kind;

// A greatest common divisor with its cofactors, and 0 or the number of the refusal.
#[repr(C)]
#[derive(Clone, Copy)]
pub struct GcdAnswer {
    pub g: u32,
    pub s: u32,
    pub t: u32,
    pub status: u32,
}

// Refusals 1 and 3 of one residue.
fn refusal_residue(n: u32, a: u32) -> Result<(), Refusal>
    ensures { status_of result ≡ first_refusal (refusals_residue narrow n a) }
{
    if refusals::bad_modulus(n) {
        return Err(Refusal::BadModulus);
    }
    if a >= n {
        return Err(Refusal::BadWord);
    }
    Ok(())
}

// Refusals 1 and 3 of two residues.
fn refusal_residues(n: u32, a: u32, b: u32) -> Result<(), Refusal>
    ensures { status_of result ≡ first_refusal (refusals_residues narrow n a b) }
{
    refusal_residue(n, a)?;
    refusal_residue(n, b)
}

// a + b modulo n.
pub fn sum(n: u32, a: u32, b: u32) -> Answer
    ensures { SumAnswer narrow n a b result.value result.status }
{
    if let Err(refusal) = refusal_residues(n, a, b) {
        return Answer::from(refusal);
    }
    Answer {
        value: arithmetic::add_mod(n, a, b),
        status: 0,
    }
}

// a - b modulo n: the residue that with b makes a.
pub fn difference(n: u32, a: u32, b: u32) -> Answer
    ensures { DifferenceAnswer narrow n a b result.value result.status }
{
    if let Err(refusal) = refusal_residues(n, a, b) {
        return Answer::from(refusal);
    }
    Answer {
        value: arithmetic::sub_mod(n, a, b),
        status: 0,
    }
}

// a b modulo n.
pub fn product(n: u32, a: u32, b: u32) -> Answer
    ensures { ResidueProductAnswer narrow n a b result.value result.status }
{
    if let Err(refusal) = refusal_residues(n, a, b) {
        return Answer::from(refusal);
    }
    Answer {
        value: arithmetic::mul_mod(n, a, b),
        status: 0,
    }
}

// a to the power k modulo n; the 0-th power is 1.
pub fn power(n: u32, a: u32, k: usize) -> Answer
    ensures { PowerAnswer narrow n a k result.value result.status }
{
    if let Err(refusal) = refusal_residue(n, a) {
        return Answer::from(refusal);
    }
    Answer {
        value: arithmetic::power(n, a, k),
        status: 0,
    }
}

// S14: "g = gcd(a, b, n) from 1 to n, with residues s and t so that s times a plus t times b is g modulo n." "s is the least number from
// 0 upward for which some t fits, and t is then the least that fits."
pub fn gcd_with_cofactors(n: u32, a: u32, b: u32) -> GcdAnswer
    ensures { GcdAnswers narrow n a b result.g result.s result.t result.status }
{
    if let Err(refusal) = refusal_residues(n, a, b) {
        return GcdAnswer {
            g: 0,
            s: 0,
            t: 0,
            status: refusal.number(),
        };
    }
    let c = residue::gcd_with_cofactors(n, a, b);
    GcdAnswer {
        g: c.g,
        s: c.s,
        t: c.t,
        status: 0,
    }
}

// S13: "unit with its inverse, nilpotent, or splitting with two factors"
pub fn classify(n: u32, a: u32) -> Result<Kind<u32>, Refusal>
    ensures { KindAnswers narrow n a result }
{
    match refusal_residue(n, a) {
        Ok(()) => Ok(residue::kind_of(n, a)),
        Err(refusal) => Err(refusal),
    }
}
