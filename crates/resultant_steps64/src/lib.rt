// The steps of an attempt at a resultant that are no divisions, words of 64 bits. The 32-bit twin `resultant_steps` has the laws.
//
//   w, n   the buffer and the modulus; m the record of n
//   d, e   the degrees of f and g
//   a, b   the places of two polynomials of l and k words, and s the place that takes their copies
//   r      the answer of an attempt: a value, or two coprime factors of the modulus
//
//   exchanged                      a residue with the sign of an exchange or of a reversal
//   copy_pair, copy_pair_reversed  two polynomials laid side by side
//   clear_content                  the content c of f taken out; v is the record of n / c
//   lift_split                     a split of the modulus from one of a divisor of it
//   times, times_sign, lifted      an answer turned into another
#![tactic(auto)]

ghost use Rattle.std.specs.Prelude.{◌≡◌, ◌+◌, ◌-◌, ◌*◌, ◌/◌, ◌%◌, ◌<◌, ◌≤◌, length};
ghost use Rattle.std.specs.Int.{◌∣◌};
ghost use Rattle.law_polynomials.specs.ResultantLaws.{signed};
ghost use Rattle.windows.specs.Window.{Below};
ghost use Rattle.reduction64.specs.Moduli.{Ready};
ghost use Rattle.window_factor.specs.Factors.{SplitOf};
ghost use Rattle.resultant_steps.specs.AttemptAnswers.{IsAnswer, Partial, Follows, Lifted};
ghost use Rattle.resultant_steps.specs.Layouts.{ContentCleared, Beside, words_at, words_back};

use reduction64::Reciprocal;
use residue::{Kind, Split};

// A content, and the record of the modulus that is left.
#[derive(Clone, Copy)]
pub struct Cleared {
    pub c: u64,
    pub v: Reciprocal,
}

// x with the sign (-1)^(d e).
fn exchanged(n: u64, d: usize, e: usize, x: u64) -> u64
    requires { x < n }
    ensures { result ≡ signed n (d * e) x }
{
    if d % 2 == 0 {
        return x;
    }
    resultant_signs64::with_sign(n, e, x)
}

// The l words at a and the k words at b, copied side by side to s.
pub fn copy_pair(w: &mut [u64], a: usize, l: usize, b: usize, k: usize, s: usize)
    requires { (a + l ≤ s) × ((b + k ≤ s) × (s + (l + k) ≤ length w.old)) }
    ensures { Beside (words_at w.old a) (words_at w.old b) l k s w.old w.new }
{
    windows64::copy(w, a, s, l);
    windows64::copy(w, b, s + l, k);
}

// The same, each with its last word first.
pub fn copy_pair_reversed(w: &mut [u64], a: usize, l: usize, b: usize, k: usize, s: usize)
    requires { (a + l ≤ s) × ((b + k ≤ s) × (s + (l + k) ≤ length w.old)) }
    ensures { Beside (words_back w.old a l) (words_back w.old b k) l k s
        w.old w.new }
{
    windows64::copy_reversed(w, a, s, l);
    windows64::copy_reversed(w, b, s + l, k);
}

// The content c of f and n. f of degree d at e + 1 is divided by it, g of degree e at 0 is reduced modulo n / c, whose record is found
// once; the content 1 leaves the words and the record.
pub fn clear_content(w: &mut [u64], m: Reciprocal, d: usize, e: usize) -> Cleared
    requires { (Ready m) × ((e + 1 + (d + 1) ≤ length w.old) × (Below m.n 0 (e + 1) w.old)) }
    ensures content_cleared { ContentCleared m.n d e result.c w.old w.new }
    ensures ready { (Ready result.v) × (result.v.n ≡ m.n / result.c) }
{
    let n = m.n;
    let c = windows64::content(&w[e + 1..e + 1 + (d + 1)], n);
    if c == 1 {
        return Cleared { c, v: m };
    }
    let v = reduction64::modulus_of(n / c);
    windows64::divide_words(w, c, e + 1, d + 1);
    windows64::reduce_words(w, v.n, v, 0, e + 1);
    Cleared { c, v }
}

// The first factor p of a split s of a divisor of n splits n as well. The last two cases are never met: p is above 1 and divides n, so it
// is no unit; the other factor is above 1, divides n and is coprime to p, so no power of p is 0 modulo n.
fn lift_split(m: Reciprocal, s: Split<u64>) -> Split<u64>
    requires { ((2 ≤ m.n) × Ready m) × (SplitOf (s.p * s.q) s.p s.q × (s.p * s.q ∣ m.n)) }
    ensures { SplitOf m.n result.p result.q }
{
    match residue64::kind_of(m, s.p) {
        Kind::Splits(x, y) => Split { p: x, q: y },
        Kind::Unit(_) => s,
        Kind::Nilpotent => s,
    }
}

// The answer times c.
pub fn times(m: Reciprocal, c: u64, r: Result<u64, Split<u64>>) -> Result<u64, Split<u64>>
    requires { Ready m }
    ensures { Follows m.n (λ x. (c * x) % m.n) r result }
{
    let v = r?;
    Ok(modulus64::multiply(m, c, v))
}

// The answer with the sign (-1)^(d e).
pub fn times_sign(n: u64, d: usize, e: usize, r: Result<u64, Split<u64>>) -> Result<u64, Split<u64>>
    requires { IsAnswer n r }
    ensures { Follows n (signed n (d * e)) r result }
{
    let v = r?;
    Ok(exchanged(n, d, e, v))
}

// The answer modulo a divisor of n, as one modulo n.
pub fn lifted(m: Reciprocal, r: Result<u64, Split<u64>>) -> Result<u64, Split<u64>>
    requires { ((2 ≤ m.n) × Ready m) × Partial m.n r }
    ensures { Lifted m.n r result }
{
    match r {
        Ok(v) => Ok(v),
        Err(s) => Err(lift_split(m, s)),
    }
}
