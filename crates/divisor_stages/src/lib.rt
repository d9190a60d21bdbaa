// Euclid's algorithm for the reduced resultant D alone, without multipliers. A has a leading unit; the content of B comes out as a
// factor of D and of the modulus, a unit factor of B does not matter, and A may be replaced by what it leaves on division by B.
//
//   w, n   the buffer and the modulus; m the record of n, and v that of n / c, c a content
//   a, d   the place and the degree of A
//   b, k   the place and the degree of B, where its leading word is a unit, with the inverse i; l the words of B before; `Windows` holds
//          both places and degrees
//   t      the place of the highest coefficient of B that is no nilpotent
//   s      from this place on the buffer is room
//
//   monic_factor       a polynomial that is a unit polynomial times a monic one: the monic one takes its place
//   unit_lead          a polynomial with a leading unit in the place of one with the same constants
//   modulus_over       the record of n / c
//   take_content       the content of B is taken out of it and of the modulus
//   clear_contents     the content of B, then the unit factor
//   times              D over a content, times the content
//   content_stage, division_stage    the stages that call each other
#![tactic(auto)]

ghost use Rattle.std.specs.Prelude.{◌≡◌, ◌+◌, ◌*◌, ◌/◌, ◌≤◌};
ghost use Rattle.windows.specs.Window.{piece, Scratch};
ghost use Rattle.modulus.specs.Values.{Known};
ghost use Rattle.divisor_stages.specs.LeadingUnits.{LeadAsked, FactorAsked, Leading, LeadAnswer};
ghost use Rattle.divisor_stages.specs.DivisorStages.{TakeAsked, ContentTaken, ContentAsked, DivisionAsked, DivisorOrSplit, Clears};

use modulus::Modulus;
use residue::Split;
use window_factor::Highest;

// The places and the degrees of A and B.
#[derive(Clone, Copy)]
pub struct Windows {
    pub a: usize,
    pub d: usize,
    pub b: usize,
    pub k: usize,
}

// What the clearing of a content comes to: D; two coprime divisors of the modulus; or the content c, the record of n / c, the degree of B,
// whose leading word is a unit now, and the inverse of that word.
#[derive(Clone, Copy)]
pub enum Clearing<W, M> {
    Done(W),
    Parts(W, W),
    Next(W, M, usize, W),
}

// B of l words, whose coefficient t, below the leading one, has the inverse i and those above it are nilpotent: its monic factor.
fn monic_factor(w: &mut [u32], m: Modulus, b: usize, l: usize, t: usize, i: u32, s: usize)
    requires { (Known m) × (FactorAsked m.n b l t i s w.old) }
    ensures { Leading m.n b l t 1 s w.old w.new }
{
    windows::copy(w, b, s, l);
    window_factor::unit_times_monic(&mut w[s..s + 3 * l], m, l - 1, t, i);
    windows::copy(w, s + l, b, t + 1);
}

// B of l words, with a leading unit in place of the highest coefficient that is no nilpotent: its degree then, and the inverse.
pub fn unit_lead(w: &mut [u32], m: Modulus, b: usize, l: usize, s: usize) -> Highest<u32>
    requires { (Known m) × (LeadAsked m.n b l s w.old) }
    ensures lead_answer { LeadAnswer m.n b l s w.old w.new result }
    ensures scratch { Scratch w.old w.new }
{
    match window_factor::highest_of(&w[b..b + l], m.n) {
        Highest::UnitAt(t, i) => {
            if t + 1 == l {
                return Highest::UnitAt(t, i);
            }
            monic_factor(w, m, b, l, t, i, s);
            Highest::UnitAt(t, 1)
        }
        Highest::Splits(p, q) => Highest::Splits(p, q),
        Highest::AllNilpotent => Highest::AllNilpotent,
    }
}

// The record of n / c. That of n is at hand.
pub fn modulus_over(m: Modulus, c: u32) -> Modulus
    requires { (Known m) × ((1 ≤ c) × (1 ≤ m.n / c)) }
    ensures { (Known result) × (result.n ≡ m.n / c) }
{
    if c == 1 {
        return m;
    }
    modulus::modulus_of(m.n / c)
}

// B over its content c, and A modulo n / c. For the content 1 there is nothing to do.
fn take_content(w: &mut [u32], v: Modulus, c: u32, a: usize, d: usize, b: usize)
    requires { (Known v) × (TakeAsked v.n c a d b w.old) }
    ensures { ContentTaken v.n c a d b w.old w.new }
{
    if c == 1 {
        return;
    }
    windows::divide_words(w, c, b, d);
    modulus_windows::reduce_words(w, v, a, d + 1);
}

// The content of B is taken out of it and of the modulus, then the unit factor of B.
fn clear_contents(
    w: &mut [u32],
    m: Modulus,
    a: usize,
    d: usize,
    b: usize,
    s: usize,
) -> Clearing<u32, Modulus>
    requires { (Known m) × (ContentAsked m.n a d b s w.old) }
    ensures clears { Clears m.n a d b s w.old w.new result }
    ensures scratch { Scratch w.old w.new }
{
    let n = m.n;
    let c = windows::content(&w[b..b + d], n);
    if c == n {
        return Clearing::Done(n);
    }
    let v = modulus_over(m, c);
    take_content(w, v, c, a, d, b);
    match unit_lead(w, v, b, d, s) {
        Highest::UnitAt(k, i) => Clearing::Next(c, v, k, i),
        Highest::Splits(p, q) => Clearing::Parts(p, q),
        Highest::AllNilpotent => Clearing::Done(n),
    }
}

// c y, which is at most n and so a word.
fn times(n: u32, c: u32, y: u32) -> u32
    requires { c * y ≤ n }
    ensures { result ≡ c * y }
{
    c * y
}

// D of A, of degree d with a leading unit, and B, of d words.
#[cycle(content_stage_division_stage)]
fn content_stage(
    w: &mut [u32],
    m: Modulus,
    a: usize,
    d: usize,
    b: usize,
    s: usize,
) -> Result<u32, Split<u32>>
    requires { (Known m) × (ContentAsked m.n a d b s w.old) }
    ensures divisor_or_split { DivisorOrSplit m.n (piece w.old a (d + 1)) (piece w.old b d) result }
    ensures scratch { Scratch w.old w.new }
{
    let x = bezout::cofactor(m.n, w[b + (d - 1)]);
    if x.g == 1 {
        let p = Windows { a, d, b, k: d - 1 };
        return division_stage(w, m, p, x.s, s);
    }
    match clear_contents(w, m, a, d, b, s) {
        Clearing::Done(y) => Ok(y),
        Clearing::Parts(p, q) => Err(Split { p, q }),
        Clearing::Next(c, v, k, i) => {
            let y = division_stage(w, v, Windows { a, d, b, k }, i, s)?;
            Ok(times(m.n, c, y))
        }
    }
}

// D of A, of degree d, and B, of degree k at most d, whose leading word has the inverse i.
#[cycle(content_stage_division_stage)]
pub fn division_stage(
    w: &mut [u32],
    m: Modulus,
    p: Windows,
    i: u32,
    s: usize,
) -> Result<u32, Split<u32>>
    requires { (Known m) × (DivisionAsked m.n p.a p.d p.b p.k i s w.old) }
    ensures divisor_or_split { DivisorOrSplit m.n (piece w.old p.a (p.d + 1)) (piece w.old p.b (p.k + 1)) result }
    ensures scratch { Scratch w.old w.new }
{
    if p.k == 0 {
        return Ok(1);
    }
    window_division::divide(w, m, p.b, p.k, p.a, p.d, i);
    content_stage(w, m, p.b, p.k, p.a, s)
}
