// An attempt at the reduced resultant of two polynomials modulo n. It finishes, or it meets a coefficient that splits n into two coprime
// factors.
//
// The words of f and g are entered, and what is worked on is r f and r g, where r is the word for 1: D is the same, and cofactors leave
// times r.
//
//   common_content   the content of both polynomials, which divides D
//   load_pair        both polynomials, entered
//   arrange          the same, over a content
//   leave            a cofactor times what the polynomials were multiplied by; leave_both does both
//   half             the attempt where the first polynomial is the one that is factored
//   scaled_half      the same, where the words stand over the content c
//   over_content     the words modulo n / c, whose record is found there; attempt_over has it, core_over is the core of the attempt
//   split            two coprime divisors of n, made two coprime factors
//   attempt          both_halves in turn, other_half the second
//
//   m                the record of the modulus, found once; `over_content` finds that of n / c
#![tactic(auto)]

ghost use Rattle.std.specs.Prelude.{◌+◌, ◌≤◌, length};
ghost use Rattle.windows.specs.Window.{Scratch};
ghost use Rattle.modulus.specs.Values.{Known};
ghost use Rattle.reduced_units.specs.States.{Splitter};
ghost use Rattle.reduced_cofactors.specs.Cofactors.{CoreAsked};
ghost use Rattle.reduced_attempt.specs.ReducedAttempts.{CommonContent, PairLoaded, Arranged, LeaveAsked, BothLeave, Left, HalfAsked};
ghost use Rattle.reduced_attempt.specs.ReducedAttempts.{HalvesAsked, OtherAsked, ScaledAsked, HalfAttempted, OverAsked};
ghost use Rattle.reduced_attempt.specs.ReducedAttempts.{OverAttempted, Parted, AttemptAsked, Attempted};

use modulus::Modulus;
use reduced_cofactors::Factored;
use residue::Split;

// What the half of an attempt comes to that factors the first polynomial: D; two coprime divisors of n; or all coefficients of that
// polynomial, over the common content, are nilpotent.
#[derive(Clone, Copy)]
pub enum HalfAttempt<W> {
    Found(W),
    Divisors(W, W),
    Nilpotent,
}

// The content that was taken out of the words, and the unit that they were multiplied by.
#[derive(Clone, Copy)]
pub struct Scale<W> {
    pub c: W,
    pub r: W,
}

// The content of f and g together.
pub fn common_content(w: &mut [u32], n: u32, f: &[u32], g: &[u32]) -> u32
    requires { (1 ≤ n) × (length f.now + length g.now ≤ length w.old) }
    ensures common_content { CommonContent n f.now g.now result }
    ensures scratch { Scratch w.old w.new }
{
    let l = f.len();
    let m = l + g.len();
    windows::load(w, 0, f, n);
    windows::load(w, l, g, n);
    windows::content(&w[0..m], n)
}

// The words of f from 0 on and those of g from j on, entered: times the unit that is answered.
pub fn load_pair(w: &mut [u32], m: Modulus, f: &[u32], j: usize, g: &[u32]) -> u32
    requires { (Known m) × ((length f.now ≤ j) × (j + length g.now ≤ length w.old)) }
    ensures { PairLoaded m.n result j f.now g.now w.old w.new }
{
    modulus_windows::load(w, 0, f, m);
    modulus_windows::load(w, j, g, m);
    modulus::enter(m, 1)
}

// The words of b over c, and then those of a, times the unit that is answered.
fn arrange(w: &mut [u32], m: Modulus, c: u32, a: &[u32], b: &[u32]) -> u32
    requires { (Known m) × ((1 ≤ c) × (length b.now + length a.now ≤ length w.old)) }
    ensures { Arranged m.n c result a.now b.now w.old w.new }
{
    let l = b.len();
    let k = l + a.len();
    let r = load_pair(w, m, b, l, a);
    windows::divide_words(w, c, 0, k);
    r
}

// The words of x times r modulo n. Times 1 there is nothing to do.
fn leave(x: &mut [u32], m: Modulus, r: u32)
    requires { (Known m) × (LeaveAsked m.n x.old) }
    ensures { Left m.n r x.old x.new }
{
    if r == 1 {
        return;
    }
    let z = x.len();
    modulus_windows::set_scaled(x, m, r, 0, 0, z);
}

// Both cofactors so.
fn leave_both(x: &mut [u32], y: &mut [u32], m: Modulus, r: u32)
    requires { (Known m) × (BothLeave m.n x.old y.old) }
    ensures { (Left m.n r x.old x.new) × (Left m.n r y.old y.new) }
{
    leave(x, m, r);
    leave(y, m, r);
}

// The reduced resultant of a and b, c their common content, with the cofactors x of a and y of b, if a can be factored.
fn half(
    x: &mut [u32],
    y: &mut [u32],
    w: &mut [u32],
    m: Modulus,
    c: u32,
    a: &[u32],
    b: &[u32],
) -> HalfAttempt<u32>
    requires { (Known m) × (HalfAsked m.n c a.now b.now x.old y.old w.old) }
    ensures half_attempted { HalfAttempted m.n c a.now b.now x.old y.old
        x.new y.new result }
    ensures scratch { Scratch w.old w.new }
{
    let r = arrange(w, m, c, a, b);
    scaled_half(x, y, w, m, Scale { c, r }, a, b)
}

// The same, where the words of r b and r a over c stand in w.
fn scaled_half(
    x: &mut [u32],
    y: &mut [u32],
    w: &mut [u32],
    m: Modulus,
    s: Scale<u32>,
    a: &[u32],
    b: &[u32],
) -> HalfAttempt<u32>
    requires { (Known m) × (ScaledAsked m.n s.c s.r a.now b.now x.old y.old w.old) }
    ensures half_attempted { HalfAttempted m.n s.c a.now b.now x.old y.old
        x.new y.new result }
    ensures scratch { Scratch w.old w.new }
{
    match over_content(x, y, w, m.n / s.c, a.len() - 1, b.len() - 1) {
        HalfAttempt::Found(d) => {
            let r = s.c * d;
            leave_both(x, y, m, s.r);
            HalfAttempt::Found(r)
        }
        HalfAttempt::Divisors(p, q) => HalfAttempt::Divisors(p, q),
        HalfAttempt::Nilpotent => HalfAttempt::Nilpotent,
    }
}

// What the words in w come to modulo n, whose record is found here: those of degree e at 0, and those of degree d after them, which are
// the ones that are factored.
fn over_content(
    x: &mut [u32],
    y: &mut [u32],
    w: &mut [u32],
    n: u32,
    d: usize,
    e: usize,
) -> HalfAttempt<u32>
    requires { OverAsked n d e x.old y.old w.old }
    ensures over_attempted { OverAttempted n d e w.old x.old y.old x.new y.new result }
    ensures scratch { Scratch w.old w.new }
{
    let m = modulus::modulus_of(n);
    attempt_over(x, y, w, m, d, e)
}

// The same with the record.
fn attempt_over(
    x: &mut [u32],
    y: &mut [u32],
    w: &mut [u32],
    m: Modulus,
    d: usize,
    e: usize,
) -> HalfAttempt<u32>
    requires { (Known m) × (OverAsked m.n d e x.old y.old w.old) }
    ensures over_attempted { OverAttempted m.n d e w.old x.old y.old x.new y.new result }
    ensures scratch { Scratch w.old w.new }
{
    let b = e + 1;
    match window_factor::highest_of(&w[b..b + (d + 1)], m.n) {
        window_factor::Highest::UnitAt(t, i) => core_over(x, y, w, m, Factored { d, e, t, i }),
        window_factor::Highest::Splits(p, q) => HalfAttempt::Divisors(p, q),
        window_factor::Highest::AllNilpotent => HalfAttempt::Nilpotent,
    }
}

// What the core comes to there; coefficient t of the words of degree d has the inverse i, and those above are nilpotent.
fn core_over(
    x: &mut [u32],
    y: &mut [u32],
    w: &mut [u32],
    m: Modulus,
    s: Factored<u32>,
) -> HalfAttempt<u32>
    requires { (Known m) × (CoreAsked m.n s.d s.e s.t s.i w.old x.old y.old) }
    ensures over_attempted { OverAttempted m.n s.d s.e w.old x.old y.old x.new
        y.new result }
    ensures scratch { Scratch w.old w.new }
{
    match reduced_cofactors::core(x, y, w, m, s) {
        Ok(c) => HalfAttempt::Found(c),
        Err(s) => HalfAttempt::Divisors(s.p, s.q),
    }
}

// n as a product of two coprime factors, from two coprime divisors: what n has in common with p, and the rest. The first two cases are
// never met: p is above 1 and divides n, so it is no unit; q is above 1, divides n and is coprime to p, so p is not nilpotent.
pub fn split(n: u32, p: u32, q: u32) -> Result<u32, Split<u32>>
    requires { (2 ≤ n) × (Splitter n p q) }
    ensures { Parted n result }
{
    match residue::kind_of(n, p) {
        residue::Kind::Unit(i) => Ok(i),
        residue::Kind::Nilpotent => Ok(q),
        residue::Kind::Splits(a, b) => Err(Split { p: a, q: b }),
    }
}

// The reduced resultant of f and g with its cofactors, or n as a product of two coprime factors.
pub fn attempt(
    u: &mut [u32],
    v: &mut [u32],
    w: &mut [u32],
    m: Modulus,
    f: &[u32],
    g: &[u32],
) -> Result<u32, Split<u32>>
    requires { (Known m) × (AttemptAsked m.n f.now g.now u.old v.old w.old) }
    ensures attempted { Attempted m.n f.now g.now u.old v.old
        u.new v.new result }
    ensures scratch { Scratch w.old w.new }
{
    let c = common_content(w, m.n, f, g);
    if c == m.n {
        windows::wipe(u);
        windows::wipe(v);
        return Ok(m.n);
    }
    both_halves(u, v, w, m, c, f, g)
}

// The same, where the common content c is not all of n.
fn both_halves(
    u: &mut [u32],
    v: &mut [u32],
    w: &mut [u32],
    m: Modulus,
    c: u32,
    f: &[u32],
    g: &[u32],
) -> Result<u32, Split<u32>>
    requires { (Known m) × (HalvesAsked m.n c f.now g.now u.old v.old w.old) }
    ensures attempted { Attempted m.n f.now g.now u.old v.old
        u.new v.new result }
    ensures scratch { Scratch w.old w.new }
{
    match half(u, v, w, m, c, f, g) {
        HalfAttempt::Found(d) => Ok(d),
        HalfAttempt::Divisors(p, q) => split(m.n, p, q),
        HalfAttempt::Nilpotent => other_half(u, v, w, m, c, f, g),
    }
}

// The same, where no coefficient of f over c is more than nilpotent: g is the one that is factored.
fn other_half(
    u: &mut [u32],
    v: &mut [u32],
    w: &mut [u32],
    m: Modulus,
    c: u32,
    f: &[u32],
    g: &[u32],
) -> Result<u32, Split<u32>>
    requires { (Known m) × (OtherAsked m.n c f.now g.now u.old v.old w.old) }
    ensures attempted { Attempted m.n f.now g.now u.old v.old
        u.new v.new result }
    ensures scratch { Scratch w.old w.new }
{
    match half(v, u, w, m, c, g, f) {
        HalfAttempt::Found(d) => Ok(d),
        HalfAttempt::Divisors(p, q) => split(m.n, p, q),
        HalfAttempt::Nilpotent => Ok(m.n),
    }
}
