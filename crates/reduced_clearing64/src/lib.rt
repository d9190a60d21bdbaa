// The clearing of contents and unit factors in the reduced run, in words of 64 bits. The 32-bit twin `reduced_clearing` has the
// description and the laws, and `Clearing`.
//
//   modulus_over      the modulus over a content
//   clear_contents    the content, then the unit factor
#![tactic(auto)]

ghost use Rattle.std.specs.Prelude.{◌≡◌, ◌+◌, ◌/◌, ◌≤◌};
ghost use Rattle.reduction64.specs.Moduli.{Ready};
ghost use Rattle.windows.specs.Window.{Kept};
ghost use Rattle.reduced_units.specs.States.{StageAt};
ghost use Rattle.reduced_clearing.specs.Clearings.{ContentAsked, ContentTaken, MonicAsked, UnitAsked, UnitClears, Clears};

use reduced_clearing::Clearing;
use reduced_units::{Places, Sizes, UnitAt};
use reduction64::Reciprocal;

// B over its content c, the multiplier of A times c, and A modulo r, the modulus over c.
fn take_content(w: &mut [u64], m: Reciprocal, r: Reciprocal, c: u64, p: Places, a: usize)
    requires { (Ready m) × ((Ready r) × (ContentAsked m.n r.n c p a w.old)) }
    ensures { ContentTaken m.n r.n c p.t p.pa a p.pb p.al w.old w.new }
{
    modulus_windows64::set_scaled(w, m, c, p.al, p.al, 2 * (p.t + 1));
    windows64::divide_words(w, c, p.pb, a);
    windows64::reduce_words(w, r.n, r, p.pa, a + 1);
}

// The unit factor of B is taken out of it: u is a unit, and the coefficients above it are nilpotent. c is the content that was taken
// out before.
fn take_monic(
    w: &mut [u64],
    m: Reciprocal,
    v: Reciprocal,
    c: u64,
    p: Places,
    z: Sizes,
    u: UnitAt<u64>,
) -> Clearing<u64>
    requires { (Ready m) × ((Ready v) × (MonicAsked m.n v.n p z.a z.l u.s u.i w.old)) }
    ensures unit_clears { UnitClears m.n v.n c p z.a z.l w.old w.new result }
    ensures kept { Kept (p.t + 1) w.old w.new }
{
    let s = u.s;
    let k = reduced_units64::take_unit(w, m, v, p, z, u);
    if s == 0 {
        windows64::copy(w, p.be, p.t + 1, p.t);
        return Clearing::Done(c);
    }
    Clearing::Next(c, s, k)
}

// The same where the coefficients of B are not all nilpotent.
fn clear_unit(
    w: &mut [u64],
    m: Reciprocal,
    v: Reciprocal,
    c: u64,
    p: Places,
    a: usize,
    l: usize,
) -> Clearing<u64>
    requires { (Ready m) × ((Ready v) × (UnitAsked m.n v.n p a l w.old)) }
    ensures unit_clears { UnitClears m.n v.n c p a l w.old w.new result }
    ensures kept { Kept (p.t + 1) w.old w.new }
{
    let pb = p.pb;
    match window_factor64::highest_of(&w[pb..pb + a], v) {
        window_factor::Highest::UnitAt(s, i) => {
            take_monic(w, m, v, c, p, Sizes { a, l }, UnitAt { s, i })
        }
        window_factor::Highest::Splits(f, g) => Clearing::Parts(f, g),
        window_factor::Highest::AllNilpotent => Clearing::Done(v.n),
    }
}

// The modulus over a content c of it: the record where it changes, and v itself where it does not.
pub fn modulus_over(v: Reciprocal, c: u64) -> Reciprocal
    requires { (Ready v) × ((1 ≤ c) × (1 ≤ v.n / c)) }
    ensures { (Ready result) × (result.n ≡ v.n / c) }
{
    if c == 1 {
        return v;
    }
    reduction64::modulus_of(v.n / c)
}

// The content of B is taken out of it and of the modulus, then the unit factor of B.
pub fn clear_contents(
    w: &mut [u64],
    m: Reciprocal,
    v: Reciprocal,
    p: Places,
    a: usize,
    l: usize,
) -> Clearing<u64>
    requires { (Ready m) × ((Ready v) × (StageAt m.n v.n p a a l w.old)) }
    ensures clears { Clears m.n v.n p a w.old w.new result }
    ensures kept { Kept (p.t + 1) w.old w.new }
{
    let pb = p.pb;
    let c = windows64::content(&w[pb..pb + a], v.n);
    if c == v.n {
        windows64::clear(w, p.t + 1, p.t);
        return Clearing::Done(v.n);
    }
    let r = modulus_over(v, c);
    take_content(w, m, r, c, p, a);
    clear_unit(w, m, r, c, p, a, l)
}
