// The resultant of two polynomials modulo n, in their sent degrees, words of 64 bits. The 32-bit twin `resultant` has the laws.
//
//   f, g   the sent words; l and k are their numbers
//   m      the record of the modulus n
//   w      the working window: f from 0 on, g after it, and the attempt's room from l + k on
//
//   run        the resultant; the record of n is found, once; a split of n is worked on each factor and joined
//   once       one attempt
//   ordered    one attempt where f has no more words than g: without inverses first
//   attempted  the attempt without inverses
//   settled    what is left where some leading word is no unit: a split, or the general attempt
//   general    the general attempt
//   swapped    one attempt where g has no more words than f
#![tactic(auto)]

ghost use Rattle.std.specs.Prelude.{◌≡◌, ◌≤◌, length};
ghost use Rattle.definitions.specs.Resultants.{resultant};
ghost use Rattle.windows.specs.Window.{Scratch};
ghost use Rattle.reduction64.specs.Moduli.{Ready};
ghost use Rattle.resultant_pseudo.specs.StandingRuns.{EuclidAttempted};
ghost use Rattle.resultant_steps.specs.AttemptAnswers.{ValueOrSplit};
ghost use Rattle.resultant.specs.Sizes.{RunLengthsAsked};

use reduction64::Reciprocal;
use residue::{Kind, Split};
use resultant_pseudo::NotUnit;

// f and g are loaded modulo n, f first.
fn general(w: &mut [u64], m: Reciprocal, f: &[u64], g: &[u64]) -> Result<u64, Split<u64>>
    requires { ((Ready m) × (2 ≤ m.n)) × (RunLengthsAsked f.now g.now w.old × (length f.now ≤ length g.now)) }
    ensures { ValueOrSplit m.n (resultant m.n f.now g.now) result }
{
    let l = f.len();
    let k = g.len();
    windows64::load(w, 0, f, m.n);
    windows64::load(w, l, g, m.n);
    resultant_attempt64::euclid(w, m, 0, l - 1, l, k - 1, l + k)
}

// The same by Euclid without inverses.
fn attempted(w: &mut [u64], m: Reciprocal, f: &[u64], g: &[u64]) -> Result<u64, NotUnit<u64>>
    requires { ((Ready m) × (2 ≤ m.n)) × (RunLengthsAsked f.now g.now w.old × (length f.now ≤ length g.now)) }
    ensures { EuclidAttempted m.n (resultant m.n f.now g.now) result }
{
    let l = f.len();
    let k = g.len();
    modulus_windows64::load(w, 0, f, m);
    modulus_windows64::load(w, l, g, m);
    resultant_euclid64::attempt(w, m, 0, l - 1, l, k - 1)
}

// Some leading word is no unit, and x is their product: it splits n, or the general attempt goes on from the sent words.
fn settled(w: &mut [u64], m: Reciprocal, f: &[u64], g: &[u64], x: u64) -> Result<u64, Split<u64>>
    requires { ((Ready m) × (2 ≤ m.n)) × (RunLengthsAsked f.now g.now w.old × (length f.now ≤ length g.now)) }
    ensures { ValueOrSplit m.n (resultant m.n f.now g.now) result }
{
    match residue64::kind_of(m, x) {
        Kind::Splits(p, q) => Err(Split { p, q }),
        Kind::Unit(_) => general(w, m, f, g),
        Kind::Nilpotent => general(w, m, f, g),
    }
}

// Euclid without inverses first.
fn ordered(w: &mut [u64], m: Reciprocal, f: &[u64], g: &[u64]) -> Result<u64, Split<u64>>
    requires { ((Ready m) × (2 ≤ m.n)) × (RunLengthsAsked f.now g.now w.old × (length f.now ≤ length g.now)) }
    ensures { ValueOrSplit m.n (resultant m.n f.now g.now) result }
{
    match attempted(w, m, f, g) {
        Ok(v) => Ok(v),
        Err(x) => settled(w, m, f, g, x.product),
    }
}

// A swap costs the sign (-1)^(d e).
fn swapped(w: &mut [u64], m: Reciprocal, f: &[u64], g: &[u64]) -> Result<u64, Split<u64>>
    requires { ((Ready m) × (2 ≤ m.n)) × (RunLengthsAsked f.now g.now w.old × (length g.now ≤ length f.now)) }
    ensures { ValueOrSplit m.n (resultant m.n f.now g.now) result }
{
    let l = f.len();
    let k = g.len();
    let r = ordered(w, m, g, f);
    resultant_steps64::times_sign(m.n, l - 1, k - 1, r)
}

// The polynomial with fewer words goes first.
fn once(w: &mut [u64], m: Reciprocal, f: &[u64], g: &[u64]) -> Result<u64, Split<u64>>
    requires { ((Ready m) × (2 ≤ m.n)) × RunLengthsAsked f.now g.now w.old }
    ensures { ValueOrSplit m.n (resultant m.n f.now g.now) result }
{
    if f.len() <= g.len() {
        return ordered(w, m, f, g);
    }
    swapped(w, m, f, g)
}

// "At a splitting coefficient, each of the two factors is worked as a modulus of its own, and the answers are joined by the
// Chinese remainder." The words of f and g may be any; they count modulo n.
pub fn run(w: &mut [u64], n: u64, f: &[u64], g: &[u64]) -> u64
    requires { (2 ≤ n) × RunLengthsAsked f.now g.now w.old }
    ensures value { result ≡ resultant n f.now g.now }
    ensures scratch { Scratch w.old w.new }
{
    let m = reduction64::modulus_of(n);
    match once(w, m, f, g) {
        Ok(v) => v,
        Err(s) => {
            let x = run(w, s.p, f, g);
            let y = run(w, s.q, f, g);
            residue64::join(m, s.p, s.q, x, y)
        }
    }
}
