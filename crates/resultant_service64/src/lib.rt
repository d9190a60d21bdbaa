// The resultant as a service (S42, S71), words of 64 bits: from any words and lengths an answer, or a numbered refusal. The promise is that
// of `resultant_service`, at another width.
#![tactic(auto)]

ghost use Rattle.std.specs.Prelude.{◌≡◌};
ghost use Rattle.refusals.specs.Refusal.{status_of};
ghost use Rattle.refusals64.specs.Wide.{wide};
ghost use Rattle.resultant_service.specs.ResultantService.{resultant_status, ResultantAnswer};

use refusals::Refusal;
use refusals64::Answer;

// Refusals 1, 2, 3 and 7; the working buffer has l words.
fn refusal(n: u64, f: &[u64], g: &[u64], l: usize) -> Result<(), Refusal>
    ensures { status_of result ≡ resultant_status wide n f.now g.now l }
{
    refusals64::refusal_of_pair(n, f, g)?;
    refusals::room(l, refusals64::WORKING_WORDS, Refusal::ShortWork)
}

// The resultant of f and g modulo n, in the sent degrees.
pub fn resultant(n: u64, f: &[u64], g: &[u64], work: &mut [u64]) -> Answer
    ensures { ResultantAnswer wide n f.now g.now work.old work.new
        result.value result.status }
{
    if let Err(refusal) = refusal(n, f, g, work.len()) {
        return Answer::from(refusal);
    }
    let value = resultant64::run(work, n, f, g);
    answers64::answered(value, work)
}
