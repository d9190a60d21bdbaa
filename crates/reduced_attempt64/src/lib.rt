// An attempt at the reduced resultant of two polynomials in words of 64 bits. The 32-bit twin `reduced_attempt` has the laws.
//
//   common_content    the content of both polynomials, which divides D
//   split             two coprime divisors of n, made two coprime factors
//   attempt           D, or a coefficient that splits n into two coprime factors
//
//   m                 the record of the modulus, found once; `over_content` finds that of n / c
#![tactic(auto)]

ghost use Rattle.std.specs.Prelude.{◌+◌, ◌≤◌, length};
ghost use Rattle.windows.specs.Window.{Scratch};
ghost use Rattle.reduction64.specs.Moduli.{Ready};
ghost use Rattle.reduced_units.specs.States.{Splitter};
ghost use Rattle.reduced_cofactors.specs.Cofactors.{CoreAsked};
ghost use Rattle.reduced_attempt.specs.ReducedAttempts.{CommonContent, Arranged, HalfAsked, HalvesAsked, OtherAsked, ScaledAsked};
ghost use Rattle.reduced_attempt.specs.ReducedAttempts.{HalfAttempted, OverAsked, OverAttempted, Parted, AttemptAsked, Attempted};

use reduced_attempt::HalfAttempt;
use reduced_cofactors::Factored;
use reduction64::Reciprocal;
use residue::Split;

// The content of f and g together.
pub fn common_content(w: &mut [u64], n: u64, f: &[u64], g: &[u64]) -> u64
    requires { (1 ≤ n) × (length f.now + length g.now ≤ length w.old) }
    ensures common_content { CommonContent n f.now g.now result }
    ensures scratch { Scratch w.old w.new }
{
    let l = f.len();
    let m = l + g.len();
    windows64::load(w, 0, f, n);
    windows64::load(w, l, g, n);
    windows64::content(&w[0..m], n)
}

// The words of b over c, and then those of a.
fn arrange(w: &mut [u64], n: u64, c: u64, a: &[u64], b: &[u64])
    requires { (1 ≤ n) × ((1 ≤ c) × (length b.now + length a.now ≤ length w.old)) }
    ensures { Arranged n c 1 a.now b.now w.old w.new }
{
    let l = b.len();
    let m = l + a.len();
    windows64::load(w, 0, b, n);
    windows64::load(w, l, a, n);
    windows64::divide_words(w, c, 0, m);
}

// The reduced resultant of a and b, c their common content, with the cofactors x of a and y of b, if a can be factored.
fn half(
    x: &mut [u64],
    y: &mut [u64],
    w: &mut [u64],
    n: u64,
    c: u64,
    a: &[u64],
    b: &[u64],
) -> HalfAttempt<u64>
    requires { HalfAsked n c a.now b.now x.old y.old w.old }
    ensures half_attempted { HalfAttempted n c a.now b.now x.old y.old
        x.new y.new result }
    ensures scratch { Scratch w.old w.new }
{
    arrange(w, n, c, a, b);
    scaled_half(x, y, w, n, c, a, b)
}

// The same, where the words of b and a over c stand in w.
fn scaled_half(
    x: &mut [u64],
    y: &mut [u64],
    w: &mut [u64],
    n: u64,
    c: u64,
    a: &[u64],
    b: &[u64],
) -> HalfAttempt<u64>
    requires { ScaledAsked n c 1 a.now b.now x.old y.old w.old }
    ensures half_attempted { HalfAttempted n c a.now b.now x.old y.old
        x.new y.new result }
    ensures scratch { Scratch w.old w.new }
{
    match over_content(x, y, w, n / c, a.len() - 1, b.len() - 1) {
        HalfAttempt::Found(d) => HalfAttempt::Found(c * d),
        HalfAttempt::Divisors(p, q) => HalfAttempt::Divisors(p, q),
        HalfAttempt::Nilpotent => HalfAttempt::Nilpotent,
    }
}

// What the words in w come to modulo n, whose record is found here: those of degree e at 0, and those of degree d after them, which are
// the ones that are factored.
fn over_content(
    x: &mut [u64],
    y: &mut [u64],
    w: &mut [u64],
    n: u64,
    d: usize,
    e: usize,
) -> HalfAttempt<u64>
    requires { OverAsked n d e x.old y.old w.old }
    ensures over_attempted { OverAttempted n d e w.old x.old y.old x.new y.new result }
    ensures scratch { Scratch w.old w.new }
{
    let m = reduction64::modulus_of(n);
    attempt_over(x, y, w, m, d, e)
}

// The same with the record.
fn attempt_over(
    x: &mut [u64],
    y: &mut [u64],
    w: &mut [u64],
    m: Reciprocal,
    d: usize,
    e: usize,
) -> HalfAttempt<u64>
    requires { (Ready m) × (OverAsked m.n d e x.old y.old w.old) }
    ensures over_attempted { OverAttempted m.n d e w.old x.old y.old x.new y.new result }
    ensures scratch { Scratch w.old w.new }
{
    let b = e + 1;
    match window_factor64::highest_of(&w[b..b + (d + 1)], m) {
        window_factor::Highest::UnitAt(t, i) => core_over(x, y, w, m, Factored { d, e, t, i }),
        window_factor::Highest::Splits(p, q) => HalfAttempt::Divisors(p, q),
        window_factor::Highest::AllNilpotent => HalfAttempt::Nilpotent,
    }
}

// What the core comes to there; coefficient t of the words of degree d has the inverse i, and those above are nilpotent.
fn core_over(
    x: &mut [u64],
    y: &mut [u64],
    w: &mut [u64],
    m: Reciprocal,
    s: Factored<u64>,
) -> HalfAttempt<u64>
    requires { (Ready m) × (CoreAsked m.n s.d s.e s.t s.i w.old x.old y.old) }
    ensures over_attempted { OverAttempted m.n s.d s.e w.old x.old y.old x.new
        y.new result }
    ensures scratch { Scratch w.old w.new }
{
    match reduced_cofactors64::core(x, y, w, m, s) {
        Ok(c) => HalfAttempt::Found(c),
        Err(s) => HalfAttempt::Divisors(s.p, s.q),
    }
}

// n as a product of two coprime factors, from two coprime divisors: what n has in common with p, and the rest. The first two cases are
// never met: p is above 1 and divides n, so it is no unit; q is above 1, divides n and is coprime to p, so p is not nilpotent.
pub fn split(m: Reciprocal, p: u64, q: u64) -> Result<u64, Split<u64>>
    requires { (2 ≤ m.n) × ((Ready m) × (Splitter m.n p q)) }
    ensures { Parted m.n result }
{
    match residue64::kind_of(m, p) {
        residue::Kind::Unit(i) => Ok(i),
        residue::Kind::Nilpotent => Ok(q),
        residue::Kind::Splits(a, b) => Err(Split { p: a, q: b }),
    }
}

// The reduced resultant of f and g with its cofactors, or n as a product of two coprime factors.
pub fn attempt(
    u: &mut [u64],
    v: &mut [u64],
    w: &mut [u64],
    m: Reciprocal,
    f: &[u64],
    g: &[u64],
) -> Result<u64, Split<u64>>
    requires { (Ready m) × (AttemptAsked m.n f.now g.now u.old v.old w.old) }
    ensures attempted { Attempted m.n f.now g.now u.old v.old
        u.new v.new result }
    ensures scratch { Scratch w.old w.new }
{
    let c = common_content(w, m.n, f, g);
    if c == m.n {
        windows64::wipe(u);
        windows64::wipe(v);
        return Ok(m.n);
    }
    both_halves(u, v, w, m, c, f, g)
}

// The same, where the common content c is not all of n.
fn both_halves(
    u: &mut [u64],
    v: &mut [u64],
    w: &mut [u64],
    m: Reciprocal,
    c: u64,
    f: &[u64],
    g: &[u64],
) -> Result<u64, Split<u64>>
    requires { (Ready m) × (HalvesAsked m.n c f.now g.now u.old v.old w.old) }
    ensures attempted { Attempted m.n f.now g.now u.old v.old
        u.new v.new result }
    ensures scratch { Scratch w.old w.new }
{
    match half(u, v, w, m.n, c, f, g) {
        HalfAttempt::Found(d) => Ok(d),
        HalfAttempt::Divisors(p, q) => split(m, p, q),
        HalfAttempt::Nilpotent => other_half(u, v, w, m, c, f, g),
    }
}

// The same, where no coefficient of f over c is more than nilpotent: g is the one that is factored.
fn other_half(
    u: &mut [u64],
    v: &mut [u64],
    w: &mut [u64],
    m: Reciprocal,
    c: u64,
    f: &[u64],
    g: &[u64],
) -> Result<u64, Split<u64>>
    requires { (Ready m) × (OtherAsked m.n c f.now g.now u.old v.old w.old) }
    ensures attempted { Attempted m.n f.now g.now u.old v.old
        u.new v.new result }
    ensures scratch { Scratch w.old w.new }
{
    match half(v, u, w, m.n, c, g, f) {
        HalfAttempt::Found(d) => Ok(d),
        HalfAttempt::Divisors(p, q) => split(m, p, q),
        HalfAttempt::Nilpotent => Ok(m.n),
    }
}
