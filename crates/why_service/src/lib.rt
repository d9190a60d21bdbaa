// Why two polynomials are not coprime, as a service (02, W4): from any words and lengths an answer, or a numbered refusal.
//
//   named      the ground where f and g are not coprime
//   ground     what is said of f and g, whose reduced resultant is d
//   refusal    the first refusal that applies
//   served     the answer
//   why        the service
#![tactic(auto)]

ghost use Rattle.std.specs.Prelude.{◌≡◌, ◌≤◌, length, replicate};
ghost use Rattle.windows.specs.Window.{Scratch};
ghost use Rattle.refusals.specs.Refusal.{status_of};
ghost use Rattle.refusals.specs.Refusals.{narrow};
ghost use Rattle.why_service.specs.WhyService.{GroundHolds, HoldsReason, why_status, WhyAnswer};
ghost use Rattle.why_service.specs.Asked.{GroundAsked, WhyAsked};

use common_factor::Ground;
use refusals::Refusal;

// The words of the common divisor.
const DIVISOR: usize = 49;

// The ground's number: 0 coprime, 1 both are zero modulo m, 2 a polynomial of that degree divides both modulo m. What says nothing is 0.
#[repr(C)]
#[derive(Clone, Copy)]
pub struct Reason {
    pub ground: u32,
    pub m: u32,
    pub degree: u32,
    pub status: u32,
}

// S23: after a refusal nothing is said.
impl From<Refusal> for Reason {
    ghost use Rattle.refusals.specs.Refusal.{number_of};

    ghost from_gives = { λ refusal reason. (reason.ground ≡ 0) × ((reason.m ≡ 0)
        × ((reason.degree ≡ 0) × (reason.status ≡ number_of refusal))) };

    fn from(refusal: Refusal) -> Self {
        Reason {
            ground: 0,
            m: 0,
            degree: 0,
            status: refusal.number(),
        }
    }
}

// One of the two grounds, modulo d above 1. The 49 words of w, zeros before, are the divisor, or stay.
fn named(w: &mut [u32], work: &mut [u32], d: u32, f: &[u32], g: &[u32]) -> Reason
    requires { (2 ≤ d) × ((GroundAsked d f.now g.now w.old work.old) × (w.old ≡ replicate 49 0)) }
    ensures ground_holds { GroundHolds result.ground d d f.now g.now w.new result.m result.degree }
    ensures status_value { (result.status ≡ 0) × Scratch work.old work.new }
{
    match common_factor::search(work, d, f, g) {
        Ground::Zero(m) => Reason {
            ground: 1,
            m,
            degree: 0,
            status: 0,
        },
        Ground::Common(h) => {
            let t = h.degree;
            let degree = t as u32;
            let m = h.m;
            common_factor::monic(w, work, m, h.at, t);
            Reason {
                ground: 2,
                m: m.n,
                degree,
                status: 0,
            }
        }
    }
}

// Coprime, or one of the two grounds, modulo d. The 49 words of w are the divisor, or zeros.
fn ground(w: &mut [u32], work: &mut [u32], d: u32, f: &[u32], g: &[u32]) -> Reason
    requires { GroundAsked d f.now g.now w.old work.old }
    ensures ground_holds { GroundHolds result.ground d d f.now g.now w.new result.m result.degree }
    ensures status_value { (result.status ≡ 0) × Scratch work.old work.new }
{
    windows::wipe(w);
    if d == 1 {
        return Reason {
            ground: 0,
            m: 0,
            degree: 0,
            status: 0,
        };
    }
    named(w, work, d, f, g)
}

// The refusals 1, 2, 3, 6 and 7. The last two are the lengths of the buffers.
fn refusal(n: u32, f: &[u32], g: &[u32], words: usize, working: usize) -> Result<(), Refusal>
    ensures { status_of result ≡ why_status narrow n f.now g.now words working }
{
    refusals::refusal_of_pair(n, f, g)?;
    refusals::room(words, DIVISOR, Refusal::ShortResult)?;
    refusals::room(working, refusals::WORKING_WORDS, Refusal::ShortWork)
}

// The ground modulo the reduced resultant, and zeros in the working buffer.
fn served(n: u32, f: &[u32], g: &[u32], w: &mut [u32], work: &mut [u32]) -> Reason
    requires { WhyAsked n f.now g.now w.old work.old }
    ensures holds_reason { HoldsReason n f.now g.now w.old w.new result.ground result.m result.degree }
    ensures status_value { (result.status ≡ 0) × (work.new ≡ replicate (length work.old) 0) }
{
    let d = divisor::run(work, n, f, g);
    let r = ground(&mut w[0..DIVISOR], work, d, f, g);
    windows::wipe(work);
    r
}

// "A user who sees D above 1 wants the cause."
pub fn why(n: u32, f: &[u32], g: &[u32], w: &mut [u32], work: &mut [u32]) -> Reason
    ensures { WhyAnswer narrow n f.now g.now w.old w.new work.old
        work.new result.ground result.m result.degree result.status }
{
    if let Err(refusal) = refusal(n, f, g, w.len(), work.len()) {
        return Reason::from(refusal);
    }
    served(n, f, g, w, work)
}
