// The cofactors of the resultant as a service: from any words and lengths an answer, or a numbered refusal.
//
//   room_refusal, refusal  the first refusal that applies
//   resultant_cofactors    the service
#![tactic(auto)]

ghost use Rattle.std.specs.Prelude.{◌≡◌, ◌≤◌};
ghost use Rattle.refusals.specs.Refusal.{status_of};
ghost use Rattle.refusals.specs.Refusals.{narrow, first_refusal};
ghost use Rattle.cofactor_service.specs.CofactorService.{room_refusals, CofactorTold, CofactorAnswer};

use refusals::{Answer, Refusal};

// "It refuses with 9 the pair d = e = 0, tested after 3 and before 6, and 7 comes last." The last three are the lengths of the buffers.
fn room_refusal(
    d: usize,
    e: usize,
    first: usize,
    second: usize,
    working: usize,
) -> Result<(), Refusal>
    requires { (d ≤ 48) × (e ≤ 48) }
    ensures { status_of result ≡ first_refusal (room_refusals narrow d e first second working) }
{
    refusals::room(d + e, 1, Refusal::NoCofactors)?;
    refusals::room(first, e, Refusal::ShortResult)?;
    refusals::room(second, d, Refusal::ShortResult)?;
    refusals::room(working, refusals::WORKING_WORDS, Refusal::ShortWork)
}

// The refusals 1, 2 and 3, and then these.
fn refusal(
    n: u32,
    f: &[u32],
    g: &[u32],
    first: usize,
    second: usize,
    working: usize,
) -> Result<(), Refusal>
    ensures { CofactorTold narrow n f.now g.now first second working (status_of result) }
{
    refusals::refusal_of_pair(n, f, g)?;
    room_refusal(f.len() - 1, g.len() - 1, first, second, working)
}

// The resultant of f and g modulo n, with u in the first e words of one buffer and v in the first d words of the other: u f + v g is it.
pub fn resultant_cofactors(
    n: u32,
    f: &[u32],
    g: &[u32],
    u: &mut [u32],
    v: &mut [u32],
    work: &mut [u32],
) -> Answer
    ensures { CofactorAnswer narrow n f.now g.now u.old u.new v.old
        v.new work.old work.new result.value result.status }
{
    if let Err(refusal) = refusal(n, f, g, u.len(), v.len(), work.len()) {
        return Answer::from(refusal);
    }
    let d = f.len() - 1;
    let e = g.len() - 1;
    let value = cofactor_quick::cofactors(&mut u[0..e], &mut v[0..d], work, n, f, g);
    answers::answered(value, work)
}
