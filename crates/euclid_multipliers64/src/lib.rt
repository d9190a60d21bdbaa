// Euclid without inverses with both multipliers, words of 64 bits: f and g come to a constant c = beta f + k gamma g, whatever the leading
// words are. The 32-bit twin `euclid_multipliers` has the description, the laws and the rules of the proofs; here every word stands for
// itself.
//
//   w, m           the buffer, and the modulus
//   h              the length of g; f stands from 0 on and g from h on, later beta and gamma, and the log from 2 h on
//
//   Descent        where the steps down ended, and their number
//
//   bit_of         what the log keeps of the degrees
//   write, read    a step in the log
//   descend        the steps down
//   ascend         the steps back
//   start          the polynomials in the buffer
//   multipliers    the whole run
#![tactic(auto)]

ghost use Rattle.std.specs.Prelude.{◌≡◌, ◌+◌, ◌≤◌, length};
ghost use Rattle.windows.specs.Window.{Around, Scratch};
ghost use Rattle.reduction64.specs.Moduli.{Ready};
ghost use Rattle.modulus64.specs.Plain.{plain};
ghost use Rattle.euclid_steps.specs.Trails.{bit, LoggedAt};
ghost use Rattle.euclid_steps.specs.Multiplied.{Asked, Multiplied};
ghost use Rattle.euclid_multipliers64.specs.StepsInBuffer.{Reads, DescentAsked, Descended, Rises, Raised, Started};

use euclid_steps::{Ending, Found, Logged, Stage};
use reduction64::Reciprocal;

// f of degree d at a and g of degree e at b, after so many steps; s, p and t as in a `Stage`.
#[derive(Clone, Copy)]
pub struct Descent {
    a: usize,
    d: usize,
    b: usize,
    e: usize,
    s: u64,
    p: u64,
    t: u64,
    steps: usize,
}

fn bit_of(step: Logged<u64>, e: usize) -> u64
    requires { bit step.d step.e e step.swap ≤ 1 }
    ensures { result ≡ bit step.d step.e e step.swap }
{
    let least = if step.swap { step.d } else { e };
    u64::from(least < step.e)
}

// A step in the log; e is the degree of g after it.
fn write(w: &mut [u64], at: usize, step: Logged<u64>, e: usize)
    requires { (at + 5 ≤ length w.old) × (bit step.d step.e e step.swap ≤ 1) }
    ensures around { Around at 5 w.old w.new }
    ensures logged_at { LoggedAt at e step w.new }
{
    w[at] = u64::from(step.swap);
    w[at + 1] = bit_of(step, e);
    w[at + 2] = step.y;
    w[at + 3] = step.c;
    w[at + 4] = step.k;
}

// The step in the log that led to the degrees d and e.
fn read(w: &[u64], at: usize, d: usize, e: usize) -> Logged<u64>
    requires { (at + 5 ≤ length w.now) × ((d + 2 ≤ length w.now) × (e + 1 ≤ length w.now)) }
    ensures { Reads at d e w.now result }
{
    let y = w[at + 2];
    let c = w[at + 3];
    let k = w[at + 4];
    let b = w[at + 1];
    if w[at] != 0 {
        if b != 0 {
            return Logged {
                d: d + 1,
                e: d + 2,
                y,
                c,
                k,
                swap: true,
            };
        }
        return Logged {
            d: d + 1,
            e: d + 1,
            y,
            c,
            k,
            swap: true,
        };
    }
    if b != 0 {
        return Logged {
            d,
            e: e + 1,
            y,
            c,
            k,
            swap: false,
        };
    }
    Logged {
        d: d + 1,
        e,
        y,
        c,
        k,
        swap: false,
    }
}

// Steps down to degree 0, each in the log.
fn descend(w: &mut [u64], m: Reciprocal, h: usize, x: Stage<u64>) -> Descent
    requires ready { (Ready m) × (2 ≤ m.n) }
    requires descent_asked { DescentAsked m h x w.old }
    ensures { Descended m h x w.old result w.new }
{
    let mut y = x;
    // Kept: the degree ends the loop, and j is the place in the log and part of the answer: a `for` would have no end of its own.
    let mut j: usize = 0;
    while 0 < y.d {
        let d = y.d;
        let e = y.e;
        y = resultant_euclid64::step(w, m, y);
        write(
            w,
            h + h + 5 * j,
            Logged {
                d,
                e,
                y: y.y,
                c: y.c,
                k: y.k,
                swap: y.swap,
            },
            y.e,
        );
        j += 1;
    }
    Descent {
        a: y.a,
        d: y.d,
        b: y.b,
        e: y.e,
        s: y.s,
        p: y.p,
        t: y.t,
        steps: j,
    }
}

// The j steps of the log backwards: of the multipliers of the last pair, those of the first.
fn ascend(w: &mut [u64], m: Reciprocal, h: usize, j: usize, r: Found<u64>) -> Found<u64>
    requires ready { (Ready m) × (2 ≤ m.n) }
    requires rises { Rises m h j r w.old }
    ensures { Raised m h j r w.old result w.new }
{
    let mut o = r;
    for i in (0..j).rev() {
        let x = read(w, h + h + 5 * i, o.d, o.e);
        o = multiplier_steps64::lift(w, m, h, x, o);
    }
    o
}

// f and g in the buffer.
fn start(w: &mut [u64], m: Reciprocal, f: &[u64], g: &[u64]) -> Stage<u64>
    requires ready { (Ready m) × (2 ≤ m.n) }
    requires asked { Asked f.now g.now w.old }
    ensures { Started m f.now g.now w.old result w.new }
{
    let l = f.len();
    let h = g.len();
    modulus_windows64::load(w, 0, f, m);
    modulus_windows64::load(w, h, g, m);
    let one = modulus64::enter(m, 1);
    Stage {
        a: 0,
        d: l - 1,
        b: h,
        e: h - 1,
        s: one,
        p: one,
        t: one,
        y: 0,
        c: 0,
        k: 0,
        swap: false,
    }
}

// The constant that f and g come to, its multipliers, and the resultant's equation; f is not the longer.
pub fn multipliers(w: &mut [u64], m: Reciprocal, f: &[u64], g: &[u64]) -> Ending<u64>
    requires ready { (Ready m) × (2 ≤ m.n) }
    requires asked { Asked f.now g.now w.old }
    ensures multiplied { Multiplied (plain m) f.now g.now result w.new }
    ensures scratch { Scratch w.old w.new }
{
    let h = g.len();
    let x = start(w, m, f, g);
    let y = descend(w, m, h, x);
    let a = y.a;
    let c = w[a];
    let z = multiplier_steps64::bottom(w, m, h, y.e);
    let r = ascend(w, m, h, y.steps, z);
    Ending {
        u: r.u,
        v: r.v,
        k: r.k,
        c,
        s: y.s,
        p: y.p,
        t: y.t,
        e: y.e,
    }
}
