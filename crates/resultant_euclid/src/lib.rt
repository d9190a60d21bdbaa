// The resultant modulo n by Euclid without inverses: pseudo-division, and one greatest common divisor at the end. Written once, over what
// the words stand for: they are held multiplied by 2^32 modulo n where the modulus says so. The value leaves in the old form.
//
//   w, m         the buffer, and the modulus
//   x, y         stages: the places and degrees of f and g, what is known of the resultant by them, and the step that led there
//   l, c         the leading words of f and g
//
//   attempt             the value, or nothing where some leading word is no unit
//   descend             all steps, whatever the leading words are: the resultant's equation, and the constant that is reached
//   rest                all steps from a stage on, and the value
//   finish              steps down to degree 0
//   two_steps           two steps, or fewer where degree 0 is reached
//   value_of            the value from the state at the end
//   step                one step: a zero leading word dropped, or one or two eliminations of a division
//   pair_step           two eliminations at once, where e = d + 1: the normal case
//   last_step           the last elimination, where e = d
//   elimination_step    an elimination before the last
#![tactic(auto)]

ghost use Rattle.std.specs.Prelude.{◌≡◌, ◌+◌, ◌<◌, ◌≤◌};
ghost use Rattle.definitions.specs.Resultants.{resultant};
ghost use Rattle.law_polynomials.specs.ResultantLaws.{signed};
ghost use Rattle.windows.specs.Window.{piece, Scratch};
ghost use Rattle.modulus.specs.Values.{Known, value, values};
ghost use Rattle.resultant_pseudo.specs.StandingRuns.{Placed, EuclidAttempted};
ghost use Rattle.euclid_steps.specs.EuclidStages.{Standing, Reaches, Stepped, Finished, Told};
ghost use Rattle.resultant_euclid.specs.Running.{Descends, Answering};

use euclid_steps::Stage;
use modulus::Modulus;
use resultant_pseudo::NotUnit;

// x with the sign (-1)^e.
fn with_sign(m: Modulus, e: usize, y: u32) -> u32
    requires { (Known m) × (y < m.n) }
    ensures { (result < m.n) × (value m result ≡ signed m.n e (value m y)) }
{
    if e % 2 == 0 {
        return y;
    }
    modulus::difference(m, 0, y)
}

fn pair_step(w: &mut [u32], m: Modulus, x: Stage<u32>) -> Stage<u32>
    requires known { Known m }
    requires standing { (Standing m x w.old) × ((1 ≤ x.d) × (x.e ≡ x.d + 1)) }
    ensures stepped { Stepped m x w.old result w.new }
    ensures told { Told m x w.old result w.new }
{
    let a = x.a;
    let d = x.d;
    let b = x.b;
    let l = w[a + d];
    let c = w[b + (d + 1)];
    let y = modulus::product(m, l, l);
    let p = modulus::product(m, l, c);
    let q = modulus::difference_of(m, l, w[b + d], c, w[a + (d - 1)]);
    modulus_windows::combine_pair(w, m, y, p, q, a, b, d);
    let k = modulus::product(m, x.p, y);
    let s = modulus::product(m, x.s, k);
    Stage {
        a: b,
        d: d - 1,
        b: a,
        e: d,
        s,
        p: k,
        t: x.t,
        y,
        c: p,
        k: q,
        swap: true,
    }
}

fn last_step(w: &mut [u32], m: Modulus, x: Stage<u32>) -> Stage<u32>
    requires known { Known m }
    requires standing { (Standing m x w.old) × ((1 ≤ x.d) × (x.e ≡ x.d)) }
    ensures stepped { Stepped m x w.old result w.new }
    ensures told { Told m x w.old result w.new }
{
    let a = x.a;
    let d = x.d;
    let b = x.b;
    let l = w[a + d];
    let c = w[b + d];
    modulus_windows::combine(w, m, l, c, a, b, d);
    let k = modulus::product(m, x.p, l);
    let s = modulus::product(m, x.s, k);
    Stage {
        a: b,
        d: d - 1,
        b: a,
        e: d,
        s,
        p: k,
        t: x.t,
        y: l,
        c: 0,
        k: c,
        swap: true, // what is left of g is shorter than f
    }
}

fn elimination_step(w: &mut [u32], m: Modulus, x: Stage<u32>) -> Stage<u32>
    requires known { Known m }
    requires standing { (Standing m x w.old) × ((1 ≤ x.d) × (x.d < x.e)) }
    ensures stepped { Stepped m x w.old result w.new }
    ensures told { Told m x w.old result w.new }
{
    let a = x.a;
    let d = x.d;
    let b = x.b;
    let e = x.e;
    let i = e - d;
    let l = w[a + d];
    let c = w[b + e];
    modulus_windows::scale(w, m, l, b, b, i);
    modulus_windows::combine(w, m, l, c, a, b + i, d);
    let k = modulus::product(m, x.p, l);
    Stage {
        a,
        d,
        b,
        e: e - 1,
        s: x.s,
        p: k,
        t: x.t,
        y: l,
        c: 0,
        k: c,
        swap: false, // what is left of g is not
    }
}

pub fn step(w: &mut [u32], m: Modulus, x: Stage<u32>) -> Stage<u32>
    requires known { (Known m) × (2 ≤ m.n) }
    requires standing { (Standing m x w.old) × (1 ≤ x.d) }
    ensures stepped { Stepped m x w.old result w.new }
    ensures told { Told m x w.old result w.new }
{
    let a = x.a;
    let d = x.d;
    let b = x.b;
    let e = x.e;
    if w[a + d] == 0 {
        let y = with_sign(m, e, w[b + e]);
        let t = modulus::product(m, x.t, y);
        let s = modulus::product(m, x.s, x.p);
        return Stage {
            a,
            d: d - 1,
            b,
            e,
            s,
            p: x.p,
            t,
            y: modulus::enter(m, 1),
            c: 0,
            k: 0,
            swap: false,
        };
    }
    if e == d + 1 {
        return pair_step(w, m, x);
    }
    if e == d {
        return last_step(w, m, x);
    }
    elimination_step(w, m, x)
}

// Steps down to degree 0.
fn finish(w: &mut [u32], m: Modulus, x: Stage<u32>) -> Stage<u32>
    requires known { (Known m) × (2 ≤ m.n) }
    requires standing { Standing m x w.old }
    ensures { Finished m x w.old result w.new }
{
    let mut y = x;
    while 0 < y.d {
        y = step(w, m, y);
    }
    y
}

// Two steps, where there are so many.
fn two_steps(w: &mut [u32], m: Modulus, x: Stage<u32>) -> Stage<u32>
    requires known { (Known m) × (2 ≤ m.n) }
    requires standing { Standing m x w.old }
    ensures { Reaches m x w.old result w.new }
{
    if x.d == 0 {
        return x;
    }
    let y = step(w, m, x);
    if y.d == 0 {
        return y;
    }
    step(w, m, y)
}

// All steps from f of degree d at a and g of degree e at b; both are lost.
pub fn descend(w: &mut [u32], m: Modulus, a: usize, d: usize, b: usize, e: usize) -> Stage<u32>
    requires known { (Known m) × (2 ≤ m.n) }
    requires placed { Placed m.n a d b e w.old }
    ensures { Descends m a d b e w.old result w.new }
{
    let one = modulus::enter(m, 1);
    finish(
        w,
        m,
        Stage {
            a,
            d,
            b,
            e,
            s: one,
            p: one,
            t: one,
            y: 0,
            c: 0,
            k: 0,
            swap: false,
        },
    )
}

// The value, from a state of degree 0: s times the resultant is p t times the power of the constant, and s is a unit.
fn value_of(w: &[u32], m: Modulus, y: Stage<u32>) -> Result<u32, NotUnit<u32>>
    requires known { Known m }
    requires standing { (Standing m y w.now) × (y.d ≡ 0) }
    ensures { Answering m y w.now result }
{
    let n = m.n;
    let s = modulus::leave(m, y.s);
    let i = bezout::cofactor(n, s);
    if i.g != 1 {
        return Err(NotUnit { product: s });
    }
    let k = y.a;
    let c = arithmetic::power(n, modulus::leave(m, w[k]), y.e);
    let z = modulus::product(m, y.p, y.t);
    let u = modulus::times(m, z, c);
    Ok(modulus::multiply(m, i.s, u))
}

// All other steps, and the value.
fn rest(w: &mut [u32], m: Modulus, x: Stage<u32>) -> Result<u32, NotUnit<u32>>
    requires known { (Known m) × (2 ≤ m.n) }
    requires standing { Standing m x w.old }
    ensures answering { Answering m x w.old result }
    ensures scratch { Scratch w.old w.new }
{
    let y = finish(w, m, x);
    value_of(w, m, y)
}

// The resultant of what the words stand for: f of degree d at a and g of degree e at b; both are lost. Where a test after the second
// step already shows a zero divisor, nothing more is tried; where few steps are left the test costs more than they do.
pub fn attempt(
    w: &mut [u32],
    m: Modulus,
    a: usize,
    d: usize,
    b: usize,
    e: usize,
) -> Result<u32, NotUnit<u32>>
    requires known { (Known m) × (2 ≤ m.n) }
    requires placed { Placed m.n a d b e w.old }
    ensures euclid_attempted { EuclidAttempted m.n (resultant m.n (piece (values m w.old) a (d + 1))
        (piece (values m w.old) b (e + 1))) result }
    ensures scratch { Scratch w.old w.new }
{
    let one = modulus::enter(m, 1);
    let x = two_steps(
        w,
        m,
        Stage {
            a,
            d,
            b,
            e,
            s: one,
            p: one,
            t: one,
            y: 0,
            c: 0,
            k: 0,
            swap: false,
        },
    );
    if 16 <= x.d {
        if bezout::gcd(m.n, x.s) != 1 {
            return Err(NotUnit { product: x.s });
        }
    }
    rest(w, m, x)
}
