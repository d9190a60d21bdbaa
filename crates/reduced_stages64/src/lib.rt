// The two stages of the reduced run in words of 64 bits. The 32-bit twin `reduced_stages` has the description and the laws.
//
//   content_stage     content and unit factor are cleared
//   division_stage    A is divided by B
#![tactic(auto)]

ghost use Rattle.std.specs.Prelude.{◌≡◌, ◌+◌, ◌/◌, ◌≤◌};
ghost use Rattle.reduction64.specs.Moduli.{Ready};
ghost use Rattle.windows.specs.Window.{Kept};
ghost use Rattle.reduced_units.specs.States.{StageAt};
ghost use Rattle.reduced_stages.specs.StageAnswers.{ContentFits, times_content, DivisionAsked, StageAnswer};

use reduced_clearing::Clearing;
use reduced_products::Span;
use reduced_stages::Cleared;
use reduced_units::{Places, UnitAt};
use reduction64::Reciprocal;
use residue::Split;

// The answer r modulo n / c, with the content c that was taken out.
fn with_content(n: u64, c: u64, r: Result<u64, Split<u64>>) -> Result<u64, Split<u64>>
    requires { ContentFits n c r }
    ensures { result ≡ times_content c r }
{
    Ok(c * r?)
}

// The content and the unit factor of B are cleared, unless the leading word of B is a unit; the division stage goes on.
#[cycle(cleared_stage_clearing_stage_content_stage_division_stage)]
pub fn content_stage(
    w: &mut [u64],
    m: Reciprocal,
    v: Reciprocal,
    p: Places,
    a: usize,
    l: usize,
) -> Result<u64, Split<u64>>
    requires { (Ready m) × ((Ready v) × (StageAt m.n v.n p a a l w.old)) }
    ensures stage_answer { StageAnswer m.n v.n p a a w.old w.new result }
    ensures kept { Kept (p.t + 1) w.old w.new }
{
    let t = p.t;
    let pb = p.pb;
    let x = bezout64::cofactor(v.n, w[pb + (a - 1)]);
    if x.g == 1 {
        if a == 1 {
            modulus_windows64::set_scaled(w, m, x.s, p.be, t + 1, t);
            return Ok(1);
        }
        let u = UnitAt { s: a - 1, i: x.s };
        return division_stage(w, m, v, p, a, u, l);
    }
    clearing_stage(w, m, v, p, a, l)
}

// The content and the unit factor of B are cleared, and the division stage goes on.
#[cycle(cleared_stage_clearing_stage_content_stage_division_stage)]
fn clearing_stage(
    w: &mut [u64],
    m: Reciprocal,
    v: Reciprocal,
    p: Places,
    a: usize,
    l: usize,
) -> Result<u64, Split<u64>>
    requires { (Ready m) × ((Ready v) × (StageAt m.n v.n p a a l w.old)) }
    ensures stage_answer { StageAnswer m.n v.n p a a w.old w.new result }
    ensures kept { Kept (p.t + 1) w.old w.new }
{
    match reduced_clearing64::clear_contents(w, m, v, p, a, l) {
        Clearing::Done(d) => Ok(d),
        Clearing::Parts(f, g) => Err(Split { p: f, q: g }),
        Clearing::Next(c, s, k) => {
            let r = cleared_stage(w, m, v, p, Cleared { c, b: s, l: k }, a);
            with_content(v.n, c, r)
        }
    }
}

// The division stage modulo v / c, after the clearing.
#[cycle(cleared_stage_clearing_stage_content_stage_division_stage)]
fn cleared_stage(
    w: &mut [u64],
    m: Reciprocal,
    v: Reciprocal,
    p: Places,
    x: Cleared<u64>,
    a: usize,
) -> Result<u64, Split<u64>>
    requires ready { (Ready m) × ((Ready v) × (1 ≤ x.c)) }
    requires division_asked { DivisionAsked m.n (v.n / x.c) p a x.b 1 x.l w.old }
    ensures stage_answer { StageAnswer m.n (v.n / x.c) p a (x.b + 1) w.old w.new result }
    ensures kept { Kept (p.t + 1) w.old w.new }
{
    let r = reduced_clearing64::modulus_over(v, x.c);
    let u = UnitAt { s: x.b, i: 1 };
    division_stage(w, m, r, p, a, u, x.l)
}

// A is divided by B, whose leading word is the unit u modulo v; the content stage goes on with B and the remainder, which change
// places with A and B.
#[cycle(cleared_stage_clearing_stage_content_stage_division_stage)]
pub fn division_stage(
    w: &mut [u64],
    m: Reciprocal,
    v: Reciprocal,
    p: Places,
    a: usize,
    u: UnitAt<u64>,
    l: usize,
) -> Result<u64, Split<u64>>
    requires { (Ready m) × ((Ready v) × (DivisionAsked m.n v.n p a u.s u.i l w.old)) }
    ensures stage_answer { StageAnswer m.n v.n p a (u.s + 1) w.old w.new result }
    ensures kept { Kept (p.t + 1) w.old w.new }
{
    let b = u.s;
    window_division64::divide_keeping(w, v, p.pb, b, p.pa, a, u.i);
    let quotient = Span {
        at: p.pa + b,
        len: a + 1 - b,
    };
    let multiplier = Span { at: p.be, len: l };
    let k = reduced_products64::take_product(w, m, p.t, quotient, multiplier, p.al);
    let exchanged = Places {
        t: p.t,
        pa: p.pb,
        pb: p.pa,
        al: p.be,
        be: p.al,
    };
    content_stage(w, m, v, exchanged, b, k)
}
