// The plain evaluator and the resultant of the same polynomials, one beside the other.
#![tactic(auto)]

ghost use Rattle.refusals.specs.Refusals.{narrow};
ghost use Rattle.agreement.specs.Agreement.{BothAnswers};

// What each of the two answered.
#[derive(Clone, Copy)]
pub struct Agreement {
    pub evaluator: refusals::Answer,
    pub resultant: refusals::Answer,
}

// Both answers for f and g modulo n. Where neither is refused, the values are equal.
pub fn both(n: u32, f: &[u32], g: &[u32], work: &mut [u32]) -> Agreement
    ensures { BothAnswers narrow n f.now g.now work.old work.new
        result.evaluator.value result.evaluator.status result.resultant.value result.resultant.status }
{
    let evaluator = evaluator_service::evaluate(n, f, g);
    let resultant = resultant_service::resultant(n, f, g, work);
    Agreement {
        evaluator,
        resultant,
    }
}
