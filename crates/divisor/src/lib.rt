// The reduced resultant D of two polynomials modulo n, without cofactors. For odd n below 2^31 the words of f and g are loaded held: D of
// 2^32 f and 2^32 g is D of f and g.
//
//   f, g   the sent words; c is the content of both together
//   n, m   the modulus and its record; v that of n / c
//   w      the working window: g over c from 0 on, f over c from l on, both times a unit, l words each, zeros above; room from 2 l on
//
//   longer                the larger of two numbers of words
//   over                  words over a content
//   arrange               both polynomials over their common content
//   divided               D of the words in the window, where the polynomial at l gets a leading unit
//   half                  the attempt where the first polynomial gets a leading unit
//   swapped               the attempt where the second one does
//   both_halves           both halves in turn
//   general               the common content, and both halves over it
//   attempt               D = 1 where that shows at once; else the general way
//   attempt_by            the same by n, whose record it finds
//   joined                D modulo a product of two coprime factors
//   run                   D; a split of n is worked on each factor, and the answers are multiplied
#![tactic(auto)]

ghost use Rattle.std.specs.Prelude.{◌≡◌, max, ◌*◌, ◌<◌, ◌≤◌, length};
ghost use Rattle.definitions.specs.Resultants.{Reduced};
ghost use Rattle.windows.specs.Window.{Moved, quotient_by, Scratch};
ghost use Rattle.modulus.specs.Values.{Known};
ghost use Rattle.reduced_attempt.specs.ReducedAttempts.{NilpotentOver};
ghost use Rattle.divisor.specs.Sizes.{DivisorLengthsAsked};
ghost use Rattle.divisor.specs.DivisorAttempts.{ArrangeAsked, Padded, WindowsAsked, WindowsAnswer, HalfAsked, HalfAttempted};
ghost use Rattle.divisor.specs.DivisorAttempts.{Attempted};

use divisor_stages::Windows;
use modulus::Modulus;
use reduced_attempt::HalfAttempt;
use residue::Split;

// The larger of a and b.
fn longer(a: usize, b: usize) -> usize
    ensures { result ≡ max a b }
{
    if a < b {
        return b;
    }
    a
}

// The first len words over c. Over 1 there is nothing to do.
fn over(w: &mut [u32], c: u32, len: usize)
    requires { (1 ≤ c) × (len ≤ length w.old) }
    ensures { Moved (quotient_by c) 0 0 len w.old w.new }
{
    if c == 1 {
        return;
    }
    windows::divide_words(w, c, 0, len);
}

// The words of g over c, and then those of f, times a unit, each followed by zeros up to as many as the longer one has. Answers how
// many.
fn arrange(w: &mut [u32], m: Modulus, c: u32, f: &[u32], g: &[u32]) -> usize
    requires { (Known m) × (ArrangeAsked m.n c f.now g.now w.old) }
    ensures { Padded m.n c result f.now g.now w.old w.new }
{
    let l = longer(f.len(), g.len());
    windows::clear(w, 0, 2 * l);
    reduced_attempt::load_pair(w, m, g, l, f);
    over(w, c, 2 * l);
    l
}

// D of the l words at l and the l words at 0, if the polynomial at l has a coefficient that is not nilpotent.
fn divided(w: &mut [u32], m: Modulus, l: usize) -> HalfAttempt<u32>
    requires { (Known m) × (WindowsAsked m.n l w.old) }
    ensures windows_answer { WindowsAnswer m.n l w.old result }
    ensures scratch { Scratch w.old w.new }
{
    match divisor_stages::unit_lead(w, m, l, l, 2 * l) {
        window_factor::Highest::UnitAt(t, i) => {
            let p = Windows {
                a: 0,
                d: l - 1,
                b: l,
                k: t,
            };
            match divisor_stages::division_stage(w, m, p, i, 2 * l) {
                Ok(d) => HalfAttempt::Found(d),
                Err(s) => HalfAttempt::Divisors(s.p, s.q),
            }
        }
        window_factor::Highest::Splits(p, q) => HalfAttempt::Divisors(p, q),
        window_factor::Highest::AllNilpotent => HalfAttempt::Nilpotent,
    }
}

// D of f and g, c their common content, if f over c has a coefficient that is not nilpotent.
fn half(w: &mut [u32], m: Modulus, v: Modulus, c: u32, f: &[u32], g: &[u32]) -> HalfAttempt<u32>
    requires { (Known m) × ((Known v) × (HalfAsked m.n v.n c f.now g.now w.old)) }
    ensures half_attempted { HalfAttempted m.n c f.now g.now result }
    ensures scratch { Scratch w.old w.new }
{
    let l = arrange(w, m, c, f, g);
    match divided(w, v, l) {
        HalfAttempt::Found(d) => HalfAttempt::Found(c * d),
        HalfAttempt::Divisors(p, q) => HalfAttempt::Divisors(p, q),
        HalfAttempt::Nilpotent => HalfAttempt::Nilpotent,
    }
}

// D of f and g, or n as a product of two coprime factors, where f over c has no coefficient that is more than nilpotent.
fn swapped(
    w: &mut [u32],
    m: Modulus,
    v: Modulus,
    c: u32,
    f: &[u32],
    g: &[u32],
) -> Result<u32, Split<u32>>
    requires { (Known m) × ((Known v) × ((HalfAsked m.n v.n c f.now g.now w.old) × (NilpotentOver m.n c f.now))) }
    ensures attempted { Attempted m.n f.now g.now result }
    ensures scratch { Scratch w.old w.new }
{
    match half(w, m, v, c, g, f) {
        HalfAttempt::Found(d) => Ok(d),
        HalfAttempt::Divisors(p, q) => reduced_attempt::split(m.n, p, q),
        HalfAttempt::Nilpotent => Ok(m.n),
    }
}

// The same whatever f over c has: both halves in turn.
fn both_halves(
    w: &mut [u32],
    m: Modulus,
    v: Modulus,
    c: u32,
    f: &[u32],
    g: &[u32],
) -> Result<u32, Split<u32>>
    requires { (Known m) × ((Known v) × (HalfAsked m.n v.n c f.now g.now w.old)) }
    ensures attempted { Attempted m.n f.now g.now result }
    ensures scratch { Scratch w.old w.new }
{
    match half(w, m, v, c, f, g) {
        HalfAttempt::Found(d) => Ok(d),
        HalfAttempt::Divisors(p, q) => reduced_attempt::split(m.n, p, q),
        HalfAttempt::Nilpotent => swapped(w, m, v, c, f, g),
    }
}

// D of f and g, or n as a product of two coprime factors, by contents, leading units and divisions.
fn general(w: &mut [u32], m: Modulus, f: &[u32], g: &[u32]) -> Result<u32, Split<u32>>
    requires { (Known m) × ((2 ≤ m.n) × DivisorLengthsAsked f.now g.now w.old) }
    ensures attempted { Attempted m.n f.now g.now result }
    ensures scratch { Scratch w.old w.new }
{
    let c = reduced_attempt::common_content(w, m.n, f, g);
    if c == m.n {
        return Ok(c);
    }
    let v = divisor_stages::modulus_over(m, c);
    both_halves(w, m, v, c, f, g)
}

// The same; where Euclid without inverses ends in a unit, D is 1 and nothing else is to know.
fn attempt(w: &mut [u32], m: Modulus, f: &[u32], g: &[u32]) -> Result<u32, Split<u32>>
    requires { (Known m) × ((2 ≤ m.n) × DivisorLengthsAsked f.now g.now w.old) }
    ensures attempted { Attempted m.n f.now g.now result }
    ensures scratch { Scratch w.old w.new }
{
    if coprime_test::shows_coprime(w, m, f, g) {
        return Ok(1);
    }
    general(w, m, f, g)
}

// The same by n, whose record is found here, once for the whole attempt.
fn attempt_by(w: &mut [u32], n: u32, f: &[u32], g: &[u32]) -> Result<u32, Split<u32>>
    requires { (2 ≤ n) × DivisorLengthsAsked f.now g.now w.old }
    ensures attempted { Attempted n f.now g.now result }
    ensures scratch { Scratch w.old w.new }
{
    let m = modulus::modulus_of(n);
    attempt(w, m, f, g)
}

// D modulo a product of two coprime factors, from D modulo each of them.
fn joined(a: u32, b: u32) -> u32
    requires { a * b < 4294967296 }
    ensures { result ≡ a * b }
{
    a * b
}

// S80: "each of the two factors is worked as a modulus of its own": D is the product of the two. The words of f and g may be any; they
// count modulo n.
pub fn run(w: &mut [u32], n: u32, f: &[u32], g: &[u32]) -> u32
    requires { (2 ≤ n) × DivisorLengthsAsked f.now g.now w.old }
    ensures reduced { Reduced n f.now g.now result }
    ensures scratch { Scratch w.old w.new }
{
    match attempt_by(w, n, f, g) {
        Ok(d) => d,
        Err(s) => {
            let a = run(w, s.p, f, g);
            let b = run(w, s.q, f, g);
            joined(a, b)
        }
    }
}
