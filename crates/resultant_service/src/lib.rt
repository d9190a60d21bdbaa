// The resultant as a service (S42): from any words and lengths an answer, or a numbered refusal.
#![tactic(auto)]

ghost use Rattle.std.specs.Prelude.{◌≡◌};
ghost use Rattle.refusals.specs.Refusal.{status_of};
ghost use Rattle.refusals.specs.Refusals.{narrow};
ghost use Rattle.resultant_service.specs.ResultantService.{resultant_status, ResultantAnswer};

use refusals::{Answer, Refusal};

// Refusals 1, 2, 3 and 7; the working buffer has l words.
fn refusal(n: u32, f: &[u32], g: &[u32], l: usize) -> Result<(), Refusal>
    ensures { status_of result ≡ resultant_status narrow n f.now g.now l }
{
    refusals::refusal_of_pair(n, f, g)?;
    refusals::room(l, refusals::WORKING_WORDS, Refusal::ShortWork)
}

// The resultant of f and g modulo n, in the sent degrees.
pub fn resultant(n: u32, f: &[u32], g: &[u32], work: &mut [u32]) -> Answer
    ensures { ResultantAnswer narrow n f.now g.now work.old work.new
        result.value result.status }
{
    if let Err(refusal) = refusal(n, f, g, work.len()) {
        return Answer::from(refusal);
    }
    let value = resultant::run(work, n, f, g);
    answers::answered(value, work)
}
