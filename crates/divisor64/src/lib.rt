// The reduced resultant D of two polynomials modulo n, without cofactors, in words of 64 bits. Where the resultant is a unit D is 1, since
// the resultant is reached; otherwise D comes by contents, leading units and divisions, in windows of the lent buffer. The 32-bit twin
// `divisor` has the laws.
//
//   f, g   the sent words; c is the content of both together
//   m, v   the record of the modulus n, and that of n / c
//   w      the working window: g over c from 0 on, f over c from l on, l words each, zeros above; room from 2 l on
//
//   shows_coprime         whether the resultant shows that D is 1
//   longer                the larger of two numbers of words
//   over                  words over a content
//   load_pair             two polynomials in the window
//   arrange               both polynomials over their common content
//   divided               D of the words in the window, where the polynomial at l gets a leading unit
//   half                  the attempt where the first polynomial gets a leading unit
//   swapped               the attempt where the second one does
//   both_halves           both halves in turn
//   general               the common content, and both halves over it
//   attempt               D = 1 where the resultant shows it; else the general way
//   attempt_by            the same by n, whose record it finds
//   joined                D modulo a product of two coprime factors
//   run                   D; a split of n is worked on each factor, and the answers are multiplied
#![tactic(auto)]

ghost use Rattle.std.specs.Prelude.{◌≡◌, max, ◌+◌, ◌*◌, ◌<◌, ◌≤◌, length};
ghost use Rattle.definitions.specs.Resultants.{Reduced};
ghost use Rattle.windows.specs.Window.{Moved, quotient_by, Scratch};
ghost use Rattle.reduced_attempt.specs.ReducedAttempts.{PairLoaded, NilpotentOver};
ghost use Rattle.reduction64.specs.Moduli.{Ready};
ghost use Rattle.divisor64.specs.CoprimeAttempted.{DivisorAsked, CoprimeAttempted};
ghost use Rattle.divisor.specs.DivisorAttempts.{ArrangeAsked, Padded, WindowsAsked, WindowsAnswer, HalfAsked, HalfAttempted};
ghost use Rattle.divisor.specs.DivisorAttempts.{Attempted};

use divisor_stages::Windows;
use reduced_attempt::HalfAttempt;
use reduction64::Reciprocal;
use residue::Split;

// Whether it is shown that D of f and g modulo n is 1: two constants show nothing, their resultant is always 1.
fn shows_coprime(w: &mut [u64], n: u64, f: &[u64], g: &[u64]) -> bool
    requires { DivisorAsked n f.now g.now w.old }
    ensures coprime_attempted { CoprimeAttempted n f.now g.now result }
    ensures scratch { Scratch w.old w.new }
{
    if f.len() + g.len() < 3 {
        return false;
    }
    let r = resultant64::run(w, n, f, g);
    bezout64::gcd(n, r) == 1
}

// The larger of a and b.
fn longer(a: usize, b: usize) -> usize
    ensures { result ≡ max a b }
{
    if a < b {
        return b;
    }
    a
}

// The first len words over c. Over 1 there is nothing to do.
fn over(w: &mut [u64], c: u64, len: usize)
    requires { (1 ≤ c) × (len ≤ length w.old) }
    ensures { Moved (quotient_by c) 0 0 len w.old w.new }
{
    if c == 1 {
        return;
    }
    windows64::divide_words(w, c, 0, len);
}

// The words of f from 0 on and those of g from j on, modulo n.
fn load_pair(w: &mut [u64], n: u64, f: &[u64], j: usize, g: &[u64])
    requires { (2 ≤ n) × ((length f.now ≤ j) × (j + length g.now ≤ length w.old)) }
    ensures { PairLoaded n 1 j f.now g.now w.old w.new }
{
    windows64::load(w, 0, f, n);
    windows64::load(w, j, g, n);
}

// The words of g over c, and then those of f, each followed by zeros up to as many as the longer one has. Answers how many.
fn arrange(w: &mut [u64], n: u64, c: u64, f: &[u64], g: &[u64]) -> usize
    requires { ArrangeAsked n c f.now g.now w.old }
    ensures { Padded n c result f.now g.now w.old w.new }
{
    let l = longer(f.len(), g.len());
    windows64::clear(w, 0, 2 * l);
    load_pair(w, n, g, l, f);
    over(w, c, 2 * l);
    l
}

// D of the l words at l and the l words at 0, if the polynomial at l has a coefficient that is not nilpotent.
fn divided(w: &mut [u64], m: Reciprocal, l: usize) -> HalfAttempt<u64>
    requires { (Ready m) × (WindowsAsked m.n l w.old) }
    ensures windows_answer { WindowsAnswer m.n l w.old result }
    ensures scratch { Scratch w.old w.new }
{
    match divisor_stages64::unit_lead(w, m, l, l, 2 * l) {
        window_factor::Highest::UnitAt(t, i) => {
            let p = Windows {
                a: 0,
                d: l - 1,
                b: l,
                k: t,
            };
            match divisor_stages64::division_stage(w, m, p, i, 2 * l) {
                Ok(d) => HalfAttempt::Found(d),
                Err(s) => HalfAttempt::Divisors(s.p, s.q),
            }
        }
        window_factor::Highest::Splits(p, q) => HalfAttempt::Divisors(p, q),
        window_factor::Highest::AllNilpotent => HalfAttempt::Nilpotent,
    }
}

// D of f and g, c their common content, if f over c has a coefficient that is not nilpotent.
fn half(
    w: &mut [u64],
    m: Reciprocal,
    v: Reciprocal,
    c: u64,
    f: &[u64],
    g: &[u64],
) -> HalfAttempt<u64>
    requires { (Ready m) × ((Ready v) × (HalfAsked m.n v.n c f.now g.now w.old)) }
    ensures half_attempted { HalfAttempted m.n c f.now g.now result }
    ensures scratch { Scratch w.old w.new }
{
    let l = arrange(w, m.n, c, f, g);
    match divided(w, v, l) {
        HalfAttempt::Found(d) => HalfAttempt::Found(c * d),
        HalfAttempt::Divisors(p, q) => HalfAttempt::Divisors(p, q),
        HalfAttempt::Nilpotent => HalfAttempt::Nilpotent,
    }
}

// D of f and g, or n as a product of two coprime factors, where f over c has no coefficient that is more than nilpotent.
fn swapped(
    w: &mut [u64],
    m: Reciprocal,
    v: Reciprocal,
    c: u64,
    f: &[u64],
    g: &[u64],
) -> Result<u64, Split<u64>>
    requires { (Ready m) × ((Ready v) × ((HalfAsked m.n v.n c f.now g.now w.old) × (NilpotentOver m.n c f.now))) }
    ensures attempted { Attempted m.n f.now g.now result }
    ensures scratch { Scratch w.old w.new }
{
    match half(w, m, v, c, g, f) {
        HalfAttempt::Found(d) => Ok(d),
        HalfAttempt::Divisors(p, q) => reduced_attempt64::split(m, p, q),
        HalfAttempt::Nilpotent => Ok(m.n),
    }
}

// The same whatever f over c has: both halves in turn.
fn both_halves(
    w: &mut [u64],
    m: Reciprocal,
    v: Reciprocal,
    c: u64,
    f: &[u64],
    g: &[u64],
) -> Result<u64, Split<u64>>
    requires { (Ready m) × ((Ready v) × (HalfAsked m.n v.n c f.now g.now w.old)) }
    ensures attempted { Attempted m.n f.now g.now result }
    ensures scratch { Scratch w.old w.new }
{
    match half(w, m, v, c, f, g) {
        HalfAttempt::Found(d) => Ok(d),
        HalfAttempt::Divisors(p, q) => reduced_attempt64::split(m, p, q),
        HalfAttempt::Nilpotent => swapped(w, m, v, c, f, g),
    }
}

// D of f and g, or n as a product of two coprime factors, by contents, leading units and divisions.
fn general(w: &mut [u64], m: Reciprocal, f: &[u64], g: &[u64]) -> Result<u64, Split<u64>>
    requires { (Ready m) × (DivisorAsked m.n f.now g.now w.old) }
    ensures attempted { Attempted m.n f.now g.now result }
    ensures scratch { Scratch w.old w.new }
{
    let c = reduced_attempt64::common_content(w, m.n, f, g);
    if c == m.n {
        return Ok(c);
    }
    let v = divisor_stages64::modulus_over(m, c);
    both_halves(w, m, v, c, f, g)
}

// The same; where the resultant is a unit, D is 1 and nothing else is to know.
fn attempt(w: &mut [u64], m: Reciprocal, f: &[u64], g: &[u64]) -> Result<u64, Split<u64>>
    requires { (Ready m) × (DivisorAsked m.n f.now g.now w.old) }
    ensures attempted { Attempted m.n f.now g.now result }
    ensures scratch { Scratch w.old w.new }
{
    if shows_coprime(w, m.n, f, g) {
        return Ok(1);
    }
    general(w, m, f, g)
}

// The same by n, whose record is found here, once for the whole attempt.
fn attempt_by(w: &mut [u64], n: u64, f: &[u64], g: &[u64]) -> Result<u64, Split<u64>>
    requires { DivisorAsked n f.now g.now w.old }
    ensures attempted { Attempted n f.now g.now result }
    ensures scratch { Scratch w.old w.new }
{
    let m = reduction64::modulus_of(n);
    attempt(w, m, f, g)
}

// D modulo a product of two coprime factors, from D modulo each of them.
fn joined(a: u64, b: u64) -> u64
    requires { a * b < 18446744073709551616 }
    ensures { result ≡ a * b }
{
    a * b
}

// "each of the two factors is worked as a modulus of its own": D is the product of the two. The words of f and g may be any; they count
// modulo n.
pub fn run(w: &mut [u64], n: u64, f: &[u64], g: &[u64]) -> u64
    requires { DivisorAsked n f.now g.now w.old }
    ensures reduced { Reduced n f.now g.now result }
    ensures scratch { Scratch w.old w.new }
{
    match attempt_by(w, n, f, g) {
        Ok(d) => d,
        Err(s) => {
            let a = run(w, s.p, f, g);
            let b = run(w, s.q, f, g);
            joined(a, b)
        }
    }
}
