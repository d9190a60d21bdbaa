// The reduced resultant with its cofactors as a service: from any words and lengths an answer, or a numbered refusal.
//
//   put_constant, constants    two polynomials of sent degree 0: D with the least cofactors
//   by_run, worked             D with its cofactors, by the run; of constants or by the run
//   served, reduced_resultant  the answer once none of the refusals applies; the service
#![tactic(auto)]

ghost use Rattle.std.specs.Prelude.{◌≡◌, [], ◌∷◌, ◌-◌, ◌≤◌, length};
ghost use Rattle.definitions.specs.Polynomials.{L};
ghost use Rattle.windows.specs.Window.{Scratch};
ghost use Rattle.refusals.specs.Refusal.{status_of};
ghost use Rattle.refusals.specs.Refusals.{narrow, short, first_refusal};
ghost use Rattle.reduced_cofactors.specs.Cofactors.{Certified};
ghost use Rattle.reduced.specs.Runs.{RunAsked};
ghost use Rattle.reduced_service.specs.ReducedService.{LeastConstants, ReducedAnswer};
ghost use Rattle.reduced_service.specs.Asked.{ReducedAsked};
ghost use Rattle.reduced_service.specs.Constants.{HoldsConstant, ConstantsAsked, ConstantCofactors};

use refusals::{Answer, Refusal};

// The constant x, zeros above.
fn put_constant(u: &mut [u32], x: u32)
    requires { 1 ≤ length u.old }
    ensures { HoldsConstant x u.new }
{
    windows::wipe(u);
    u[0] = x;
}

// D of the constants a and b, with the least cofactors: "first cofactor first."
fn constants(n: u32, a: u32, b: u32, u: &mut [u32], v: &mut [u32]) -> u32
    requires { ConstantsAsked n u.old v.old }
    ensures { ConstantCofactors n a b u.new v.new result }
{
    let c = residue::gcd_with_cofactors(n, a, b);
    put_constant(u, c.s);
    put_constant(v, c.t);
    c.g
}

// D, with the cofactors that the run finds.
fn by_run(n: u32, f: &[u32], g: &[u32], u: &mut [u32], v: &mut [u32], w: &mut [u32]) -> u32
    requires { RunAsked n f.now g.now u.old v.old w.old }
    ensures certified { Certified n (L n (length f.now - 1) (length g.now - 1)) f.now g.now
        u.new v.new result }
    ensures scratch { Scratch w.old w.new }
{
    reduced::run(u, v, w, n, f, g)
}

// D, with cofactors in u and v: "For two polynomials of sent degree 0 the cofactors of D follow the same rule" (02, W7); those of every
// other pair are the run's.
fn worked(n: u32, f: &[u32], g: &[u32], u: &mut [u32], v: &mut [u32], w: &mut [u32]) -> u32
    requires { RunAsked n f.now g.now u.old v.old w.old }
    ensures certified { Certified n (L n (length f.now - 1) (length g.now - 1)) f.now g.now
        u.new v.new result }
    ensures scratch { Scratch w.old w.new }
    ensures least_constants { LeastConstants n f.now g.now u.new v.new result }
{
    let f_is_constant = f.len() == 1;
    let g_is_constant = g.len() == 1;
    if f_is_constant {
        if g_is_constant {
            return constants(n, f[0], g[0], u, v);
        }
        return by_run(n, f, g, u, v, w);
    }
    by_run(n, f, g, u, v, w)
}

// None of the refusals applies, and a cofactor has l words: D, with cofactors in the first l words of u and of v.
fn served(
    n: u32,
    f: &[u32],
    g: &[u32],
    l: usize,
    u: &mut [u32],
    v: &mut [u32],
    work: &mut [u32],
) -> Answer
    requires { ReducedAsked narrow n f.now g.now l u.old v.old work.old }
    ensures { ReducedAnswer narrow n f.now g.now u.old u.new v.old
        v.new work.old work.new result.value result.status }
{
    let found = worked(n, f, g, &mut u[0..l], &mut v[0..l], work);
    answers::answered(found, work)
}

// Refusals 6 and 7: a cofactor has l words, and the buffers first, second and working.
fn room_refusal(l: usize, first: usize, second: usize, working: usize) -> Result<(), Refusal>
    ensures { status_of result ≡ first_refusal ((6, short first l) ∷ (6, short second l) ∷ (7, short working 8192) ∷ []) }
{
    refusals::room(first, l, Refusal::ShortResult)?;
    refusals::room(second, l, Refusal::ShortResult)?;
    refusals::room(working, refusals::WORKING_WORDS, Refusal::ShortWork)
}

// The reduced resultant D of f and g modulo n, with cofactors in the first L words of u and of v.
pub fn reduced_resultant(
    n: u32,
    f: &[u32],
    g: &[u32],
    u: &mut [u32],
    v: &mut [u32],
    work: &mut [u32],
) -> Answer
    ensures { ReducedAnswer narrow n f.now g.now u.old u.new v.old
        v.new work.old work.new result.value result.status }
{
    if let Err(refusal) = refusals::refusal_of_pair(n, f, g) {
        return Answer::from(refusal);
    }
    let l = reduced::cofactor_length(n, f.len(), g.len());
    if let Err(refusal) = room_refusal(l, u.len(), v.len(), work.len()) {
        return Answer::from(refusal);
    }
    served(n, f, g, l, u, v, work)
}
