// Euclid's algorithm for the reduced resultant D alone, without multipliers, in words of 64 bits. The 32-bit twin `divisor_stages` has the
// description and the laws.
//
//   w, n   the buffer and the modulus; m the record of n, and v that of n / c, c a content
//   a, d   the place and the degree of A
//   b, k   the place and the degree of B, where its leading word is a unit, with the inverse i; l the words of B before
//   t      the place of the highest coefficient of B that is no nilpotent
//   s      from this place on the buffer is room
//
//   monic_factor       a polynomial that is a unit polynomial times a monic one: the monic one takes its place
//   unit_lead          a polynomial with a leading unit in the place of one with the same constants
//   modulus_over       the record of n / c
//   take_content       the content of B is taken out of it and of the modulus
//   clear_contents     the content of B, then the unit factor
//   times              D over a content, times the content
//   content_stage, division_stage    the stages that call each other
#![tactic(auto)]

ghost use Rattle.std.specs.Prelude.{◌≡◌, ◌+◌, ◌*◌, ◌/◌, ◌≤◌};
ghost use Rattle.windows.specs.Window.{piece, Scratch};
ghost use Rattle.reduction64.specs.Moduli.{Ready};
ghost use Rattle.divisor_stages.specs.LeadingUnits.{LeadAsked, FactorAsked, Leading, LeadAnswer};
ghost use Rattle.divisor_stages.specs.DivisorStages.{TakeAsked, ContentTaken, ContentAsked, DivisionAsked, DivisorOrSplit};
ghost use Rattle.divisor_stages64.specs.DivisorStages.{Clears};

use divisor_stages::{Clearing, Windows};
use reduction64::Reciprocal;
use residue::Split;
use window_factor::Highest;

// B of l words, whose coefficient t, below the leading one, has the inverse i and those above it are nilpotent: its monic factor.
fn monic_factor(w: &mut [u64], m: Reciprocal, b: usize, l: usize, t: usize, i: u64, s: usize)
    requires { (Ready m) × (FactorAsked m.n b l t i s w.old) }
    ensures { Leading m.n b l t 1 s w.old w.new }
{
    windows64::copy(w, b, s, l);
    window_factor64::unit_times_monic(&mut w[s..s + 3 * l], m, l - 1, t, i);
    windows64::copy(w, s + l, b, t + 1);
}

// B of l words, with a leading unit in place of the highest coefficient that is no nilpotent: its degree then, and the inverse.
pub fn unit_lead(w: &mut [u64], m: Reciprocal, b: usize, l: usize, s: usize) -> Highest<u64>
    requires { (Ready m) × (LeadAsked m.n b l s w.old) }
    ensures lead_answer { LeadAnswer m.n b l s w.old w.new result }
    ensures scratch { Scratch w.old w.new }
{
    match window_factor64::highest_of(&w[b..b + l], m) {
        Highest::UnitAt(t, i) => {
            if t + 1 == l {
                return Highest::UnitAt(t, i);
            }
            monic_factor(w, m, b, l, t, i, s);
            Highest::UnitAt(t, 1)
        }
        Highest::Splits(p, q) => Highest::Splits(p, q),
        Highest::AllNilpotent => Highest::AllNilpotent,
    }
}

// The record of n / c. That of n is at hand.
pub fn modulus_over(m: Reciprocal, c: u64) -> Reciprocal
    requires { (Ready m) × ((1 ≤ c) × (1 ≤ m.n / c)) }
    ensures { (Ready result) × (result.n ≡ m.n / c) }
{
    if c == 1 {
        return m;
    }
    reduction64::modulus_of(m.n / c)
}

// B over its content c, and A modulo n / c. For the content 1 there is nothing to do.
fn take_content(w: &mut [u64], v: Reciprocal, c: u64, a: usize, d: usize, b: usize)
    requires { (Ready v) × (TakeAsked v.n c a d b w.old) }
    ensures { ContentTaken v.n c a d b w.old w.new }
{
    if c == 1 {
        return;
    }
    windows64::divide_words(w, c, b, d);
    windows64::reduce_words(w, v.n, v, a, d + 1);
}

// The content of B is taken out of it and of the modulus, then the unit factor of B.
fn clear_contents(
    w: &mut [u64],
    m: Reciprocal,
    a: usize,
    d: usize,
    b: usize,
    s: usize,
) -> Clearing<u64, Reciprocal>
    requires { (Ready m) × (ContentAsked m.n a d b s w.old) }
    ensures clears { Clears m.n a d b s w.old w.new result }
    ensures scratch { Scratch w.old w.new }
{
    let n = m.n;
    let c = windows64::content(&w[b..b + d], n);
    if c == n {
        return Clearing::Done(n);
    }
    let v = modulus_over(m, c);
    take_content(w, v, c, a, d, b);
    match unit_lead(w, v, b, d, s) {
        Highest::UnitAt(k, i) => Clearing::Next(c, v, k, i),
        Highest::Splits(p, q) => Clearing::Parts(p, q),
        Highest::AllNilpotent => Clearing::Done(n),
    }
}

// c y, which is at most n and so a word.
fn times(n: u64, c: u64, y: u64) -> u64
    requires { c * y ≤ n }
    ensures { result ≡ c * y }
{
    c * y
}

// D of A, of degree d with a leading unit, and B, of d words.
#[cycle(content_stage_division_stage)]
fn content_stage(
    w: &mut [u64],
    m: Reciprocal,
    a: usize,
    d: usize,
    b: usize,
    s: usize,
) -> Result<u64, Split<u64>>
    requires { (Ready m) × (ContentAsked m.n a d b s w.old) }
    ensures divisor_or_split { DivisorOrSplit m.n (piece w.old a (d + 1)) (piece w.old b d) result }
    ensures scratch { Scratch w.old w.new }
{
    let x = bezout64::cofactor(m.n, w[b + (d - 1)]);
    if x.g == 1 {
        let p = Windows { a, d, b, k: d - 1 };
        return division_stage(w, m, p, x.s, s);
    }
    match clear_contents(w, m, a, d, b, s) {
        Clearing::Done(y) => Ok(y),
        Clearing::Parts(p, q) => Err(Split { p, q }),
        Clearing::Next(c, v, k, i) => {
            let y = division_stage(w, v, Windows { a, d, b, k }, i, s)?;
            Ok(times(m.n, c, y))
        }
    }
}

// D of A, of degree d, and B, of degree k at most d, whose leading word has the inverse i.
#[cycle(content_stage_division_stage)]
pub fn division_stage(
    w: &mut [u64],
    m: Reciprocal,
    p: Windows,
    i: u64,
    s: usize,
) -> Result<u64, Split<u64>>
    requires { (Ready m) × (DivisionAsked m.n p.a p.d p.b p.k i s w.old) }
    ensures divisor_or_split { DivisorOrSplit m.n (piece w.old p.a (p.d + 1)) (piece w.old p.b (p.k + 1)) result }
    ensures scratch { Scratch w.old w.new }
{
    if p.k == 0 {
        return Ok(1);
    }
    window_division64::divide(w, m, p.b, p.k, p.a, p.d, i);
    content_stage(w, m, p.b, p.k, p.a, s)
}
