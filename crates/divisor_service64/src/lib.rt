// The reduced resultant D alone as a service, words of 64 bits: from any words and lengths an answer, or a numbered refusal. The promise is
// that of `divisor_service`, at another width.
#![tactic(auto)]

ghost use Rattle.std.specs.Prelude.{◌≡◌};
ghost use Rattle.refusals.specs.Refusal.{status_of};
ghost use Rattle.refusals64.specs.Wide.{wide};
ghost use Rattle.divisor_service.specs.DivisorService.{divisor_status, DivisorAnswer};

use refusals::Refusal;
use refusals64::Answer;

// Refusals 1, 2, 3 and 7; the working buffer has l words.
fn refusal(n: u64, f: &[u64], g: &[u64], l: usize) -> Result<(), Refusal>
    ensures { status_of result ≡ divisor_status wide n f.now g.now l }
{
    refusals64::refusal_of_pair(n, f, g)?;
    refusals::room(l, refusals64::WORKING_WORDS, Refusal::ShortWork)
}

// The reduced resultant D of f and g modulo n, without cofactors.
pub fn divisor(n: u64, f: &[u64], g: &[u64], work: &mut [u64]) -> Answer
    ensures { DivisorAnswer wide n f.now g.now work.old work.new
        result.value result.status }
{
    if let Err(refusal) = refusal(n, f, g, work.len()) {
        return Answer::from(refusal);
    }
    let value = divisor64::run(work, n, f, g);
    answers64::answered(value, work)
}
