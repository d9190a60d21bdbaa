// The quick attempt at the reduced resultant in words of 64 bits. The 32-bit twin `reduced_quick` has the description, the laws and the
// rules of the proofs; here every word stands for itself.
//
//   m          the modulus, found once by the run
//
//   settle     the cofactors of 1, if the constant is a unit
//   ordered    the quick attempt where f is not the longer of the two
//   quick      the quick attempt
//   attempt    both attempts, the quick one first
#![tactic(auto)]

ghost use Rattle.std.specs.Prelude.{◌≤◌, length};
ghost use Rattle.windows.specs.Window.{Scratch};
ghost use Rattle.reduction64.specs.Moduli.{Ready};
ghost use Rattle.modulus64.specs.Plain.{plain};
ghost use Rattle.multiplier_words64.specs.Words.{HandAsked};
ghost use Rattle.reduced_attempt.specs.ReducedAttempts.{AttemptAsked, Attempted};
ghost use Rattle.reduced_quick.specs.Quick.{QuickAsked, Settled, QuickAttempted};

use euclid_steps::Ending;
use reduction64::Reciprocal;
use residue::Split;

// A last constant that is a unit gives the cofactors of 1 by one inverse: true, and they are in u and v. Otherwise false, and u and v are
// as found. r is where Euclid ended, h the number of words of a multiplier.
fn settle(u: &mut [u64], v: &mut [u64], w: &[u64], m: Reciprocal, r: Ending<u64>, h: usize) -> bool
    requires { HandAsked m r h h w.now u.old v.old }
    ensures { Settled (plain m) r h w.now u.old v.old u.new
        v.new result }
{
    let c = modulus64::leave(m, r.c);
    let i = bezout64::cofactor(m.n, c);
    if i.g != 1 {
        return false;
    }
    multiplier_words64::hand_out(u, v, w, m, r, i.s, h, h);
    true
}

// D = 1 with its cofactors, or false, where f is not the longer.
fn ordered(u: &mut [u64], v: &mut [u64], w: &mut [u64], m: Reciprocal, f: &[u64], g: &[u64]) -> bool
    requires { (Ready m) × ((QuickAsked m.n f.now g.now u.old v.old w.old) × (length f.now ≤ length g.now)) }
    ensures quick_attempted { QuickAttempted m.n f.now g.now u.old v.old
        u.new v.new result }
    ensures scratch { Scratch w.old w.new }
{
    let r = euclid_multipliers64::multipliers(w, m, f, g);
    settle(u, v, w, m, r, g.len())
}

// The same for polynomials in any order.
fn quick(u: &mut [u64], v: &mut [u64], w: &mut [u64], m: Reciprocal, f: &[u64], g: &[u64]) -> bool
    requires { (Ready m) × (QuickAsked m.n f.now g.now u.old v.old w.old) }
    ensures quick_attempted { QuickAttempted m.n f.now g.now u.old v.old
        u.new v.new result }
    ensures scratch { Scratch w.old w.new }
{
    if f.len() <= g.len() {
        return ordered(u, v, w, m, f, g);
    }
    ordered(v, u, w, m, g, f)
}

// The reduced resultant of f and g with its cofactors, or n as a product of two coprime factors: quick, otherwise by the general attempt.
pub fn attempt(
    u: &mut [u64],
    v: &mut [u64],
    w: &mut [u64],
    m: Reciprocal,
    f: &[u64],
    g: &[u64],
) -> Result<u64, Split<u64>>
    requires { (Ready m) × (AttemptAsked m.n f.now g.now u.old v.old w.old) }
    ensures attempted { Attempted m.n f.now g.now u.old v.old
        u.new v.new result }
    ensures scratch { Scratch w.old w.new }
{
    if quick(u, v, w, m, f, g) {
        return Ok(1);
    }
    reduced_attempt64::attempt(u, v, w, m, f, g)
}
