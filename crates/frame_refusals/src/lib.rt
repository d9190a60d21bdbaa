// Whether the job of a frame is refused: refusals 1, 2 and 3 as the services have them, and refusal 10 (S68, S69).
//
//   zero_top, top_refusal     whether the top word is 0; refusal 10
//   job_refusal               the first refusal that applies
#![tactic(auto)]

ghost use Rattle.std.specs.Prelude.{◌≡◌};
ghost use Rattle.refusals.specs.Refusal.{status_of};
ghost use Rattle.refusals.specs.Refusals.{first_refusal};
ghost use Rattle.frame_refusals.specs.FrameRefusals.{zero_top_of, top_refusals, job_refusals};

use refusals::Refusal;

// Whether the top word of f is 0. Where there is none, refusal 2 has come before.
fn zero_top(f: &[u32]) -> bool
    ensures { result ≡ zero_top_of f.now }
{
    if f.is_empty() {
        return true;
    }
    f[f.len() - 1] == 0
}

// Refusal 10 of two polynomials.
fn top_refusal(f: &[u32], g: &[u32]) -> Result<(), Refusal>
    ensures { status_of result ≡ first_refusal (top_refusals f.now g.now) }
{
    if zero_top(f) || zero_top(g) {
        return Err(Refusal::EmptyTop);
    }
    Ok(())
}

// Refusals 1, 2, 3 and 10 of a job, in this order.
pub fn job_refusal(n: u32, f: &[u32], g: &[u32]) -> Result<(), Refusal>
    ensures { status_of result ≡ first_refusal (job_refusals n f.now g.now) }
{
    refusals::refusal_of_pair(n, f, g)?;
    top_refusal(f, g)
}
