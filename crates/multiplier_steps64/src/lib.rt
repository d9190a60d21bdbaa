// The multipliers of Euclid without inverses, a step backwards, words of 64 bits. The 32-bit twin `multiplier_steps` has the description,
// the laws and the rules of the proofs; here every word stands for itself.
//
//   w, m         the buffer, and the modulus
//   h            the sent degree of g and 1: the length of a window
//   x            a step: the degrees before it, and the words that it took
//   r            the multipliers after the step
//
//   bottom            the end of the steps
//   exchange, raise   a step backwards: over a division's end, over an elimination before it
//   lift              the one of the two that the step asks for
#![tactic(auto)]

ghost use Rattle.std.specs.Prelude.{◌≡◌, true, false, ◌+◌, ◌<◌, ◌≤◌, length};
ghost use Rattle.reduction64.specs.Moduli.{Ready};
ghost use Rattle.euclid_steps.specs.Backs.{Ended, LiftAsked, Lifted};
ghost use Rattle.modulus64.specs.Plain.{plain};

use euclid_steps::{Found, Logged};
use reduction64::Reciprocal;

// The constant of degree 0 is 1 times itself.
pub fn bottom(w: &mut [u64], m: Reciprocal, h: usize, e: usize) -> Found<u64>
    requires ready { (Ready m) × (2 ≤ m.n) }
    requires e_lt_h { (e < h) × (h + h ≤ length w.old) }
    ensures { Ended (plain m) h e w.old result w.new }
{
    let one = modulus64::enter(m, 1);
    windows64::clear(w, 0, h + h);
    w[0] = one;
    Found {
        u: 0,
        v: h,
        k: 0,
        d: 0,
        e,
    }
}

// beta goes to the place of gamma: f times it, and g times beta as it was.
fn exchange(w: &mut [u64], m: Reciprocal, h: usize, x: Logged<u64>, r: Found<u64>) -> Found<u64>
    requires ready { (Ready m) × (2 ≤ m.n) }
    requires lift_asked { (LiftAsked (plain m) h x r w.old) × (x.swap ≡ true) }
    ensures { Lifted (plain m) h x r w.old result w.new }
{
    let u = r.u;
    let v = r.v;
    let d = x.d;
    let e = x.e;
    modulus_windows64::combine_pair(w, m, r.k, x.c, x.k, u, v, e);
    Found {
        u: v,
        v: u,
        k: x.y,
        d,
        e,
    }
}

// beta loses k times gamma, e - d places higher.
fn raise(w: &mut [u64], m: Reciprocal, h: usize, x: Logged<u64>, r: Found<u64>) -> Found<u64>
    requires ready { (Ready m) × (2 ≤ m.n) }
    requires lift_asked { (LiftAsked (plain m) h x r w.old) × (x.swap ≡ false) }
    ensures { Lifted (plain m) h x r w.old result w.new }
{
    let u = r.u;
    let v = r.v;
    let d = x.d;
    let e = x.e;
    let q = modulus64::product(m, x.k, r.k);
    let k = modulus64::product(m, x.y, r.k);
    let one = modulus64::enter(m, 1);
    modulus_windows64::combine(w, m, one, q, v, u + (e - d), d);
    Found { u, v, k, d, e }
}

// A step backwards.
pub fn lift(w: &mut [u64], m: Reciprocal, h: usize, x: Logged<u64>, r: Found<u64>) -> Found<u64>
    requires ready { (Ready m) × (2 ≤ m.n) }
    requires lift_asked { LiftAsked (plain m) h x r w.old }
    ensures { Lifted (plain m) h x r w.old result w.new }
{
    if x.swap {
        return exchange(w, m, h, x, r);
    }
    raise(w, m, h, x, r)
}
