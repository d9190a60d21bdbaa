// The multipliers of Euclid without inverses, a step backwards: of those of the pair after a step, those of the pair before it. At the end
// of the steps the constant is 1 times itself. One window loop a step: beta stands at u, gamma at v, and a factor k is held back, so that
// the constant is beta f + k gamma g.
//
//   w, m         the buffer, and the modulus
//   h            the sent degree of g and 1: the length of a window
//   x            a step: the degrees before it, and the words that it took
//   r            the multipliers after the step
//
//   combine_back      the word loop of a step backwards, in either form
//   bottom            the end of the steps
//   exchange, raise   a step backwards: over a division's end, over an elimination before it
//   lift              the one of the two that the step asks for
#![tactic(auto)]

ghost use Rattle.std.specs.Prelude.{◌≡◌, true, false, ◌+◌, ◌-◌, ◌<◌, ◌≤◌, length};
ghost use Rattle.windows.specs.Window.{Apart, Below};
ghost use Rattle.window_combining.specs.Combined.{combination};
ghost use Rattle.modulus.specs.Values.{Known, value, values};
ghost use Rattle.modulus_windows.specs.LoopPromises.{Wrote};
ghost use Rattle.euclid_steps.specs.Backs.{Ended, LiftAsked, Lifted};

use euclid_steps::{Found, Logged};
use modulus::Modulus;
use montgomery::Form;
use reduction::Reciprocal;

// The constant of degree 0 is 1 times itself.
pub fn bottom(w: &mut [u32], m: Modulus, h: usize, e: usize) -> Found<u32>
    requires known { (Known m) × (2 ≤ m.n) }
    requires e_lt_h { (e < h) × (h + h ≤ length w.old) }
    ensures { Ended m h e w.old result w.new }
{
    let one = modulus::enter(m, 1);
    windows::clear(w, 0, h + h);
    w[0] = one;
    Found {
        u: 0,
        v: h,
        k: 0,
        d: 0,
        e,
    }
}

// w[dst + j] = l * w[dst + j] - c * w[src + j - 1] - e * w[src + j], for j < len: what `modulus_windows::combine_pair` does. That function
// keeps one caller, the resultant's usual step, so that its loop becomes part of the step.
fn combine_back(
    w: &mut [u32],
    m: Modulus,
    l: u32,
    c: u32,
    e: u32,
    src: usize,
    dst: usize,
    len: usize,
)
    requires known { Known m }
    requires l_lt_n { (l < m.n) × ((c < m.n) × ((e < m.n) × ((src + len ≤ length w.old) × (dst + len ≤ length w.old)))) }
    requires apart { (Apart src len dst len) × ((Below m.n src len w.old) × (Below m.n dst len w.old)) }
    ensures { Wrote m (combination m.n (value m l) (m.n - value m c) (m.n - value m e) src dst (values m w.old))
        dst len w.old w.new }
{
    let n = m.n;
    if m.held != 0 {
        modulus_windows::combine_pair_held(
            w,
            Form {
                n,
                k: m.negative,
                m: m.inverse,
                r2: m.c,
            },
            l,
            n - c,
            n - e,
            src,
            dst,
            len,
        );
        return;
    }
    window_combining::combine_pair(
        w,
        Reciprocal {
            n,
            v: m.v,
            c: m.c as u64,
        },
        l,
        n - c,
        n - e,
        src,
        dst,
        len,
    );
}

// beta goes to the place of gamma: f times it, and g times beta as it was.
fn exchange(w: &mut [u32], m: Modulus, h: usize, x: Logged<u32>, r: Found<u32>) -> Found<u32>
    requires known { (Known m) × (2 ≤ m.n) }
    requires lift_asked { (LiftAsked m h x r w.old) × (x.swap ≡ true) }
    ensures { Lifted m h x r w.old result w.new }
{
    let u = r.u;
    let v = r.v;
    let d = x.d;
    let e = x.e;
    combine_back(w, m, r.k, x.c, x.k, u, v, e);
    Found {
        u: v,
        v: u,
        k: x.y,
        d,
        e,
    }
}

// beta loses k times gamma, e - d places higher.
fn raise(w: &mut [u32], m: Modulus, h: usize, x: Logged<u32>, r: Found<u32>) -> Found<u32>
    requires known { (Known m) × (2 ≤ m.n) }
    requires lift_asked { (LiftAsked m h x r w.old) × (x.swap ≡ false) }
    ensures { Lifted m h x r w.old result w.new }
{
    let u = r.u;
    let v = r.v;
    let d = x.d;
    let e = x.e;
    let q = modulus::product(m, x.k, r.k);
    let k = modulus::product(m, x.y, r.k);
    let one = modulus::enter(m, 1);
    modulus_windows::combine(w, m, one, q, v, u + (e - d), d);
    Found { u, v, k, d, e }
}

// A step backwards.
pub fn lift(w: &mut [u32], m: Modulus, h: usize, x: Logged<u32>, r: Found<u32>) -> Found<u32>
    requires known { (Known m) × (2 ≤ m.n) }
    requires lift_asked { LiftAsked m h x r w.old }
    ensures { Lifted m h x r w.old result w.new }
{
    if x.swap {
        return exchange(w, m, h, x, r);
    }
    raise(w, m, h, x, r)
}
