// The quick attempt at the reduced resultant: Euclid without inverses comes to a constant, and a constant that is a unit gives D = 1, with
// its multipliers times one inverse as cofactors. No leading word is tested. Where the constant is no unit, the general attempt has to try,
// from the sent words. The constant leaves before its inverse is found, and so do the multipliers as they are multiplied by it.
//
//   m          the modulus, found once by the run
//
//   settle     the cofactors of 1, if the constant is a unit
//   ordered    the quick attempt where f is not the longer of the two
//   quick      the quick attempt
//   attempt    both attempts, the quick one first
#![tactic(auto)]

ghost use Rattle.std.specs.Prelude.{◌≤◌, length};
ghost use Rattle.windows.specs.Window.{Scratch};
ghost use Rattle.modulus.specs.Values.{Known};
ghost use Rattle.multiplier_words.specs.Words.{HandAsked};
ghost use Rattle.reduced_attempt.specs.ReducedAttempts.{AttemptAsked, Attempted};
ghost use Rattle.reduced_quick.specs.Quick.{QuickAsked, Settled, QuickAttempted};

use euclid_steps::Ending;
use modulus::Modulus;
use residue::Split;

// A last constant that is a unit gives the cofactors of 1 by one inverse: true, and they are in u and v. Otherwise false, and u and v are
// as found. r is where Euclid ended, h the number of words of a multiplier.
fn settle(u: &mut [u32], v: &mut [u32], w: &[u32], m: Modulus, r: Ending<u32>, h: usize) -> bool
    requires { HandAsked m r h h w.now u.old v.old }
    ensures { Settled m r h w.now u.old v.old u.new v.new result }
{
    let c = modulus::leave(m, r.c);
    let i = bezout::cofactor(m.n, c);
    if i.g != 1 {
        return false;
    }
    multiplier_words::hand_out(u, v, w, m, r, i.s, h, h);
    true
}

// D = 1 with its cofactors, or false, where f is not the longer.
fn ordered(u: &mut [u32], v: &mut [u32], w: &mut [u32], m: Modulus, f: &[u32], g: &[u32]) -> bool
    requires { (Known m) × ((QuickAsked m.n f.now g.now u.old v.old w.old) × (length f.now ≤ length g.now)) }
    ensures quick_attempted { QuickAttempted m.n f.now g.now u.old v.old
        u.new v.new result }
    ensures scratch { Scratch w.old w.new }
{
    let r = euclid_multipliers::multipliers(w, m, f, g);
    settle(u, v, w, m, r, g.len())
}

// The same for polynomials in any order.
fn quick(u: &mut [u32], v: &mut [u32], w: &mut [u32], m: Modulus, f: &[u32], g: &[u32]) -> bool
    requires { (Known m) × (QuickAsked m.n f.now g.now u.old v.old w.old) }
    ensures quick_attempted { QuickAttempted m.n f.now g.now u.old v.old
        u.new v.new result }
    ensures scratch { Scratch w.old w.new }
{
    if f.len() <= g.len() {
        return ordered(u, v, w, m, f, g);
    }
    ordered(v, u, w, m, g, f)
}

// The reduced resultant of f and g with its cofactors, or n as a product of two coprime factors: quick, otherwise by the general attempt.
pub fn attempt(
    u: &mut [u32],
    v: &mut [u32],
    w: &mut [u32],
    m: Modulus,
    f: &[u32],
    g: &[u32],
) -> Result<u32, Split<u32>>
    requires { (Known m) × (AttemptAsked m.n f.now g.now u.old v.old w.old) }
    ensures attempted { Attempted m.n f.now g.now u.old v.old
        u.new v.new result }
    ensures scratch { Scratch w.old w.new }
{
    if quick(u, v, w, m, f, g) {
        return Ok(1);
    }
    reduced_attempt::attempt(u, v, w, m, f, g)
}
