// The checking of claims from elsewhere as a service (02, W12): from any words and lengths an answer, or a numbered refusal.
//
//   Claim                                           what a call answers
//   check_claim                                     the service; its refusals are in `claim_refusals`
//   check_claim_words                               the same in two words
#![tactic(auto)]

ghost use Rattle.refusals.specs.Refusals.{narrow};
ghost use Rattle.claim_service.specs.ClaimService.{ClaimAnswer, ClaimCase};

use claims::Failure;
use refusals::{Answer, Refusal};

// Accepted; the first of the three that fails; or the refusal.
#[derive(Clone, Copy, Debug, PartialEq, Eq)]
pub enum Claim {
    Accepted,
    Fails(Failure),
    Refused(Refusal),
}

// Whether d is the reduced resultant of f and g modulo n and u and v combine them to it, and else what fails first.
pub fn check_claim(
    n: u32,
    f: &[u32],
    g: &[u32],
    d: u32,
    u: &[u32],
    v: &[u32],
    work: &mut [u32],
) -> Claim
    ensures { ClaimCase narrow n f.now g.now d u.now v.now
        work.old work.new result }
{
    if let Err(refusal) = claim_refusals::refusal_claim(n, f, g, u, v, work.len()) {
        return Claim::Refused(refusal);
    }
    let judged = claims::judge(work, n, f, g, d, u, v);
    answers::answered(0, work);
    match judged {
        Ok(()) => Claim::Accepted,
        Err(failure) => Claim::Fails(failure),
    }
}

// The case in words: an enum cannot be handed to a host.
pub fn check_claim_words(
    n: u32,
    f: &[u32],
    g: &[u32],
    d: u32,
    u: &[u32],
    v: &[u32],
    work: &mut [u32],
) -> Answer
    ensures { ClaimAnswer narrow n f.now g.now d u.now v.now
        work.old work.new result.value result.status }
{
    match check_claim(n, f, g, d, u, v, work) {
        Claim::Accepted => Answer {
            value: 0,
            status: 0,
        },
        Claim::Fails(failure) => Answer {
            value: failure.number(),
            status: 0,
        },
        Claim::Refused(refusal) => Answer::from(refusal),
    }
}
