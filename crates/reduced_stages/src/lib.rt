// S81: "The reduced run passes between two stages, each calling the other: one divides by a monic polynomial, one clears content and unit
// factors." Each calls the other on a falling number built of the degree and the modulus.
//
// A stage's window w (reduced_units/specs/States has the whole layout):
//
//   p.t       the degree of H, monic, at 0: its t + 1 words, then the t words of the multiplier found
//   p.pa      A, of degree a, with a leading unit
//   p.pb      B, of a words for the content stage and of degree b for the division stage
//   p.al      the multiplier of A
//   p.be      the multiplier of B
//   u         the leading word of B where it is a unit: its place s, the degree, and its inverse i
//
// m and v are the records of two moduli: the multipliers have l words, modulo that of m; A and B are polynomials modulo that of v, a
// divisor of the former. A stage keeps H and leaves the multiplier found; the other words of the window are room, of which nothing is
// promised afterwards.
#![tactic(auto)]

ghost use Rattle.std.specs.Prelude.{◌≡◌, ◌+◌, ◌/◌, ◌≤◌};
ghost use Rattle.modulus.specs.Values.{Known};
ghost use Rattle.windows.specs.Window.{Kept};
ghost use Rattle.reduced_units.specs.States.{StageAt};
ghost use Rattle.reduced_stages.specs.StageAnswers.{ContentFits, times_content, DivisionAsked, StageAnswer};

use modulus::Modulus;
use reduced_products::Span;
use reduced_units::{Places, UnitAt};
use residue::Split;

// The answer r modulo n / c, with the content c that was taken out.
fn with_content(n: u32, c: u32, r: Result<u32, Split<u32>>) -> Result<u32, Split<u32>>
    requires { ContentFits n c r }
    ensures { result ≡ times_content c r }
{
    Ok(c * r?)
}

// The content and the unit factor of B are cleared, unless the leading word of B is a unit; the division stage goes on.
#[cycle(cleared_stage_clearing_stage_content_stage_division_stage)]
pub fn content_stage(
    w: &mut [u32],
    m: Modulus,
    v: Modulus,
    p: Places,
    a: usize,
    l: usize,
) -> Result<u32, Split<u32>>
    requires { (Known m) × ((Known v) × (StageAt m.n v.n p a a l w.old)) }
    ensures stage_answer { StageAnswer m.n v.n p a a w.old w.new result }
    ensures kept { Kept (p.t + 1) w.old w.new }
{
    let t = p.t;
    let pb = p.pb;
    let x = bezout::cofactor(v.n, w[pb + (a - 1)]);
    if x.g == 1 {
        if a == 1 {
            modulus_windows::set_scaled(w, m, x.s, p.be, t + 1, t);
            return Ok(1);
        }
        let u = UnitAt { s: a - 1, i: x.s };
        return division_stage(w, m, v, p, a, u, l);
    }
    clearing_stage(w, m, v, p, a, l)
}

// The content and the unit factor of B are cleared, and the division stage goes on.
#[cycle(cleared_stage_clearing_stage_content_stage_division_stage)]
fn clearing_stage(
    w: &mut [u32],
    m: Modulus,
    v: Modulus,
    p: Places,
    a: usize,
    l: usize,
) -> Result<u32, Split<u32>>
    requires { (Known m) × ((Known v) × (StageAt m.n v.n p a a l w.old)) }
    ensures stage_answer { StageAnswer m.n v.n p a a w.old w.new result }
    ensures kept { Kept (p.t + 1) w.old w.new }
{
    match reduced_clearing::clear_contents(w, m, v, p, a, l) {
        reduced_clearing::Clearing::Done(d) => Ok(d),
        reduced_clearing::Clearing::Parts(f, g) => Err(Split { p: f, q: g }),
        reduced_clearing::Clearing::Next(c, s, k) => {
            let r = cleared_stage(w, m, v, p, Cleared { c, b: s, l: k }, a);
            with_content(v.n, c, r)
        }
    }
}

// What the clearing left: B is monic of degree b once its content c was taken out, and the multipliers have l words.
#[derive(Clone, Copy)]
pub struct Cleared<W> {
    pub c: W,
    pub b: usize,
    pub l: usize,
}

// The division stage modulo v / c, after the clearing.
#[cycle(cleared_stage_clearing_stage_content_stage_division_stage)]
fn cleared_stage(
    w: &mut [u32],
    m: Modulus,
    v: Modulus,
    p: Places,
    x: Cleared<u32>,
    a: usize,
) -> Result<u32, Split<u32>>
    requires known { (Known m) × ((Known v) × (1 ≤ x.c)) }
    requires division_asked { DivisionAsked m.n (v.n / x.c) p a x.b 1 x.l w.old }
    ensures stage_answer { StageAnswer m.n (v.n / x.c) p a (x.b + 1) w.old w.new result }
    ensures kept { Kept (p.t + 1) w.old w.new }
{
    let r = reduced_clearing::modulus_over(v, x.c);
    let u = UnitAt { s: x.b, i: 1 };
    division_stage(w, m, r, p, a, u, x.l)
}

// A is divided by B, whose leading word is the unit u modulo v; the content stage goes on with B and the remainder, which change
// places with A and B.
#[cycle(cleared_stage_clearing_stage_content_stage_division_stage)]
pub fn division_stage(
    w: &mut [u32],
    m: Modulus,
    v: Modulus,
    p: Places,
    a: usize,
    u: UnitAt<u32>,
    l: usize,
) -> Result<u32, Split<u32>>
    requires { (Known m) × ((Known v) × (DivisionAsked m.n v.n p a u.s u.i l w.old)) }
    ensures stage_answer { StageAnswer m.n v.n p a (u.s + 1) w.old w.new result }
    ensures kept { Kept (p.t + 1) w.old w.new }
{
    let b = u.s;
    window_division::divide_keeping(w, v, p.pb, b, p.pa, a, u.i);
    let quotient = Span {
        at: p.pa + b,
        len: a + 1 - b,
    };
    let multiplier = Span { at: p.be, len: l };
    let k = reduced_products::take_product(w, m, p.t, quotient, multiplier, p.al);
    let exchanged = Places {
        t: p.t,
        pa: p.pb,
        pb: p.pa,
        al: p.be,
        be: p.al,
    };
    content_stage(w, m, v, exchanged, b, k)
}
