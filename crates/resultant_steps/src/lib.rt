// The steps of an attempt at a resultant that are no divisions.
//
//   w, n   the buffer and the modulus; m the record of n
//   d, e   the degrees of f and g
//   a, b   the places of two polynomials of l and k words, and s the place that takes their copies
//   r      the answer of an attempt: a value, or two coprime factors of the modulus
//
//   exchanged                      a residue with the sign of an exchange or of a reversal
//   copy_pair, copy_pair_reversed  two polynomials laid side by side
//   clear_content                  the content c of f taken out; v is the record of n / c
//   lift_split                     a split of the modulus from one of a divisor of it
//   times, times_sign, lifted      an answer turned into another
#![tactic(auto)]

ghost use Rattle.std.specs.Prelude.{◌≡◌, ◌+◌, ◌-◌, ◌*◌, ◌/◌, ◌%◌, ◌<◌, ◌≤◌, length};
ghost use Rattle.std.specs.Int.{◌∣◌};
ghost use Rattle.law_polynomials.specs.ResultantLaws.{signed};
ghost use Rattle.windows.specs.Window.{Below};
ghost use Rattle.modulus.specs.Values.{Known};
ghost use Rattle.window_factor.specs.Factors.{SplitOf};
ghost use Rattle.resultant_steps.specs.AttemptAnswers.{IsAnswer, Partial, Follows, Lifted};
ghost use Rattle.resultant_steps.specs.Layouts.{ContentCleared, Beside, words_at, words_back};

use modulus::Modulus;
use residue::{Kind, Split};

// A content, and the record of the modulus that is left.
#[derive(Clone, Copy)]
pub struct Cleared {
    pub c: u32,
    pub v: Modulus,
}

// x with the sign (-1)^(d e).
fn exchanged(n: u32, d: usize, e: usize, x: u32) -> u32
    requires { x < n }
    ensures { result ≡ signed n (d * e) x }
{
    if d % 2 == 0 {
        return x;
    }
    resultant_signs::with_sign(n, e, x)
}

// The l words at a and the k words at b, copied side by side to s.
pub fn copy_pair(w: &mut [u32], a: usize, l: usize, b: usize, k: usize, s: usize)
    requires { (a + l ≤ s) × ((b + k ≤ s) × (s + (l + k) ≤ length w.old)) }
    ensures { Beside (words_at w.old a) (words_at w.old b) l k s w.old w.new }
{
    windows::copy(w, a, s, l);
    windows::copy(w, b, s + l, k);
}

// The same, each with its last word first.
pub fn copy_pair_reversed(w: &mut [u32], a: usize, l: usize, b: usize, k: usize, s: usize)
    requires { (a + l ≤ s) × ((b + k ≤ s) × (s + (l + k) ≤ length w.old)) }
    ensures { Beside (words_back w.old a l) (words_back w.old b k) l k s
        w.old w.new }
{
    windows::copy_reversed(w, a, s, l);
    windows::copy_reversed(w, b, s + l, k);
}

// The content c of f and n. f of degree d at e + 1 is divided by it, g of degree e at 0 is reduced modulo n / c, whose record is found
// once; the content 1 leaves the words and the record.
pub fn clear_content(w: &mut [u32], m: Modulus, d: usize, e: usize) -> Cleared
    requires { (Known m) × ((e + 1 + (d + 1) ≤ length w.old) × (Below m.n 0 (e + 1) w.old)) }
    ensures content_cleared { ContentCleared m.n d e result.c w.old w.new }
    ensures known { (Known result.v) × (result.v.n ≡ m.n / result.c) }
{
    let n = m.n;
    let c = windows::content(&w[e + 1..e + 1 + (d + 1)], n);
    if c == 1 {
        return Cleared { c, v: m };
    }
    let v = modulus::modulus_of(n / c);
    windows::divide_words(w, c, e + 1, d + 1);
    modulus_windows::reduce_words(w, v, 0, e + 1);
    Cleared { c, v }
}

// The first factor p of a split s of a divisor of n splits n as well. The last two cases are never met: p is above 1 and divides n, so it
// is no unit; the other factor is above 1, divides n and is coprime to p, so no power of p is 0 modulo n.
fn lift_split(n: u32, s: Split<u32>) -> Split<u32>
    requires { (2 ≤ n) × (SplitOf (s.p * s.q) s.p s.q × (s.p * s.q ∣ n)) }
    ensures { SplitOf n result.p result.q }
{
    match residue::kind_of(n, s.p) {
        Kind::Splits(x, y) => Split { p: x, q: y },
        Kind::Unit(_) => s,
        Kind::Nilpotent => s,
    }
}

// The answer times c.
pub fn times(m: Modulus, c: u32, r: Result<u32, Split<u32>>) -> Result<u32, Split<u32>>
    requires { Known m }
    ensures { Follows m.n (λ x. (c * x) % m.n) r result }
{
    let v = r?;
    Ok(modulus::multiply(m, c, v))
}

// The answer with the sign (-1)^(d e).
pub fn times_sign(n: u32, d: usize, e: usize, r: Result<u32, Split<u32>>) -> Result<u32, Split<u32>>
    requires { IsAnswer n r }
    ensures { Follows n (signed n (d * e)) r result }
{
    let v = r?;
    Ok(exchanged(n, d, e, v))
}

// The answer modulo a divisor of n, as one modulo n.
pub fn lifted(n: u32, r: Result<u32, Split<u32>>) -> Result<u32, Split<u32>>
    requires { (2 ≤ n) × Partial n r }
    ensures { Lifted n r result }
{
    match r {
        Ok(v) => Ok(v),
        Err(s) => Err(lift_split(n, s)),
    }
}
