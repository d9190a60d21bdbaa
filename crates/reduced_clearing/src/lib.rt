// The clearing of contents and unit factors in the reduced run, in a stage's window (reduced_units/specs/States has the layout).
//
//   take_content      the content of B is taken out of it and of the modulus
//   take_monic        a monic polynomial in the place of B
//   clear_unit        the same, where not all is nilpotent
//   modulus_over      the modulus over a content
//   clear_contents    the content, then the unit factor
//
//   m, v    the records of the modulus of the multipliers, and of that of the polynomials A, of degree a, and B, of a words
//   r       the record of v over a content c
//   p       the places of A, of B and of their multipliers, of l words each; z holds a and l
//   u       a unit among the coefficients of B
#![tactic(auto)]

ghost use Rattle.std.specs.Prelude.{◌≡◌, ◌+◌, ◌/◌, ◌≤◌};
ghost use Rattle.modulus.specs.Values.{Known};
ghost use Rattle.windows.specs.Window.{Kept};
ghost use Rattle.reduced_units.specs.States.{StageAt};
ghost use Rattle.reduced_clearing.specs.Clearings.{ContentAsked, ContentTaken, MonicAsked, UnitAsked, UnitClears, Clears};

use modulus::Modulus;
use reduced_units::{Places, Sizes, UnitAt};

// What the clearing of contents and unit factors comes to: the reduced resultant; two coprime divisors of the modulus; or the content,
// the degree of the second polynomial, monic now, and the words of the multipliers, for the division stage.
#[derive(Clone, Copy)]
pub enum Clearing<W> {
    Done(W),
    Parts(W, W),
    Next(W, usize, usize),
}

// B over its content c, the multiplier of A times c, and A modulo r, the modulus over c.
fn take_content(w: &mut [u32], m: Modulus, r: Modulus, c: u32, p: Places, a: usize)
    requires { (Known m) × ((Known r) × (ContentAsked m.n r.n c p a w.old)) }
    ensures { ContentTaken m.n r.n c p.t p.pa a p.pb p.al w.old w.new }
{
    modulus_windows::set_scaled(w, m, c, p.al, p.al, 2 * (p.t + 1));
    windows::divide_words(w, c, p.pb, a);
    modulus_windows::reduce_words(w, r, p.pa, a + 1);
}

// The unit factor of B is taken out of it: u is a unit, and the coefficients above it are nilpotent. c is the content that was taken
// out before.
fn take_monic(
    w: &mut [u32],
    m: Modulus,
    v: Modulus,
    c: u32,
    p: Places,
    z: Sizes,
    u: UnitAt<u32>,
) -> Clearing<u32>
    requires { (Known m) × ((Known v) × (MonicAsked m.n v.n p z.a z.l u.s u.i w.old)) }
    ensures unit_clears { UnitClears m.n v.n c p z.a z.l w.old w.new result }
    ensures kept { Kept (p.t + 1) w.old w.new }
{
    let s = u.s;
    let k = reduced_units::take_unit(w, m, v, p, z, u);
    if s == 0 {
        windows::copy(w, p.be, p.t + 1, p.t);
        return Clearing::Done(c);
    }
    Clearing::Next(c, s, k)
}

// The same where the coefficients of B are not all nilpotent.
fn clear_unit(
    w: &mut [u32],
    m: Modulus,
    v: Modulus,
    c: u32,
    p: Places,
    a: usize,
    l: usize,
) -> Clearing<u32>
    requires { (Known m) × ((Known v) × (UnitAsked m.n v.n p a l w.old)) }
    ensures unit_clears { UnitClears m.n v.n c p a l w.old w.new result }
    ensures kept { Kept (p.t + 1) w.old w.new }
{
    let pb = p.pb;
    match window_factor::highest_of(&w[pb..pb + a], v.n) {
        window_factor::Highest::UnitAt(s, i) => {
            take_monic(w, m, v, c, p, Sizes { a, l }, UnitAt { s, i })
        }
        window_factor::Highest::Splits(f, g) => Clearing::Parts(f, g),
        window_factor::Highest::AllNilpotent => Clearing::Done(v.n),
    }
}

// The modulus over a content c of it: the record where it changes, and v itself where it does not.
pub fn modulus_over(v: Modulus, c: u32) -> Modulus
    requires { (Known v) × ((1 ≤ c) × (1 ≤ v.n / c)) }
    ensures { (Known result) × (result.n ≡ v.n / c) }
{
    if c == 1 {
        return v;
    }
    modulus::modulus_of(v.n / c)
}

// The content of B is taken out of it and of the modulus, then the unit factor of B.
pub fn clear_contents(
    w: &mut [u32],
    m: Modulus,
    v: Modulus,
    p: Places,
    a: usize,
    l: usize,
) -> Clearing<u32>
    requires { (Known m) × ((Known v) × (StageAt m.n v.n p a a l w.old)) }
    ensures clears { Clears m.n v.n p a w.old w.new result }
    ensures kept { Kept (p.t + 1) w.old w.new }
{
    let pb = p.pb;
    let c = windows::content(&w[pb..pb + a], v.n);
    if c == v.n {
        windows::clear(w, p.t + 1, p.t);
        return Clearing::Done(v.n);
    }
    let r = modulus_over(v, c);
    take_content(w, m, r, c, p, a);
    clear_unit(w, m, r, c, p, a, l)
}
