// The core of an attempt at the reduced resultant in words of 64 bits. The 32-bit twin `reduced_cofactors` has the description and the
// laws.
//
//   core    F is factored, the stages find D with the multiplier of G, and the cofactor of F is had by division
#![tactic(auto)]

ghost use Rattle.std.specs.Prelude.{◌-◌, ◌≤◌};
ghost use Rattle.reduction64.specs.Moduli.{Ready};
ghost use Rattle.windows.specs.Window.{Scratch};
ghost use Rattle.reduced_cofactors.specs.Cofactors.{CoreLengthsAsked, CoreAsked, CoreCertified, CoreAnswer};
ghost use Rattle.reduced_cofactors.specs.Cofactors.{FactoredAt, FindAsked, Found, monic_place};
ghost use Rattle.reduced_cofactors.specs.Cofactors.{FinishAsked, Finished, DivideAsked, DividedBy};

use reduced_cofactors::Factored;
use reduced_units::Places;
use reduction64::Reciprocal;
use residue::Split;

// c less the product of G and the multiplier at q + (t + 1), over H, and behind it a copy of the unit polynomial of k + 1 words at e + 1.
fn divide(w: &mut [u64], m: Reciprocal, d: usize, e: usize, t: usize, c: u64)
    requires { (Ready m) × ((t ≤ d) × (DivideAsked m.n e (monic_place d e) t (d - t) w.old)) }
    ensures { DividedBy m.n e (monic_place d e) t (d - t) c w.old w.new }
{
    let q = e + 1 + (d + 1);
    let k = d - t;
    reduced_quotients64::exact_quotient(w, m, e, q, t, c);
    let up = q + 2 * (t + 1) + (t + e + 1);
    windows64::copy(w, e + 1, up, k + 1);
}

// The cofactors of c, from the multiplier at q + (t + 1): y is that multiplier, and x is the exact quotient over the unit polynomial of
// k + 1 words at e + 1.
fn finish(x: &mut [u64], y: &mut [u64], w: &mut [u64], m: Reciprocal, s: Factored<u64>, c: u64)
    requires ready { (Ready m) × (s.t ≤ s.d) }
    requires finish_asked { FinishAsked m.n s.e (monic_place s.d s.e) s.t (s.d - s.t) w.old x.old y.old }
    ensures finished { Finished m.n s.e (monic_place s.d s.e) s.t (s.d - s.t) c w.old x.new
        y.new }
    ensures scratch { Scratch w.old w.new }
{
    let d = s.d;
    let e = s.e;
    let t = s.t;
    divide(w, m, d, e, t, c);
    let q = e + 1 + (d + 1);
    let a = q + (t + 1);
    reduced_quotients64::place(y, &w[a..a + t], m.n);
    let up = q + 2 * (t + 1) + (t + e + 1);
    reduced_quotients64::over_first(x, w, m, up, d - t, q + 2 * (t + 1) + t, e + 1);
}

// F is a unit polynomial: its inverse and 0.
fn constant(x: &mut [u64], y: &mut [u64], w: &mut [u64], m: Reciprocal, d: usize, e: usize)
    requires { (Ready m) × ((CoreLengthsAsked m.n d e w.old x.old y.old) × (FactoredAt m.n d e 0 w.old)) }
    ensures core_certified { CoreCertified m.n d e w.old x.new y.new 1 }
    ensures scratch { Scratch w.old w.new }
{
    w[0] = 1;
    windows64::wipe(y);
    reduced_quotients64::over_first(x, w, m, e + 1 + (d + 1) + (0 + 1) + 0, d, 0, 1);
}

// H has degree t above 0: the stages find D and the multiplier of G, which is left behind H; U is moved to the place of F.
fn find(w: &mut [u64], m: Reciprocal, d: usize, e: usize, t: usize) -> Result<u64, Split<u64>>
    requires { (Ready m) × (FindAsked m.n d e t w.old) }
    ensures found { Found m.n d e t w.old w.new result }
    ensures scratch { Scratch w.old w.new }
{
    let q = e + 1 + (d + 1);
    windows64::copy(w, q + (t + 1) + t, e + 1, d - t + 1);
    reduced_quotients64::prepare(w, m, e, q, t);
    let z = w.len();
    let p = Places {
        t,
        pa: 2 * (t + 1),
        pb: 3 * (t + 1),
        al: 4 * (t + 1),
        be: 6 * (t + 1),
    };
    reduced_stages64::content_stage(&mut w[q..z], m, m, p, t, 1)
}

// H has degree t above 0: D is found, and the cofactors from the multiplier of G.
fn solve(
    x: &mut [u64],
    y: &mut [u64],
    w: &mut [u64],
    m: Reciprocal,
    s: Factored<u64>,
) -> Result<u64, Split<u64>>
    requires ready { (Ready m) × (CoreLengthsAsked m.n s.d s.e w.old x.old y.old) }
    requires le_t { (1 ≤ s.t) × ((s.t ≤ s.d) × (FactoredAt m.n s.d s.e s.t w.old)) }
    ensures core_answer { CoreAnswer m.n s.d s.e w.old x.old y.old x.new
        y.new result }
    ensures scratch { Scratch w.old w.new }
{
    let c = find(w, m, s.d, s.e, s.t)?;
    finish(x, y, w, m, s, c);
    Ok(c)
}

// The reduced resultant of F, of degree d at e + 1, and of G, of degree e at 0, with the cofactors x of F and y of G. The coefficient of F
// at t has the inverse i, and those above it are nilpotent.
pub fn core(
    x: &mut [u64],
    y: &mut [u64],
    w: &mut [u64],
    m: Reciprocal,
    s: Factored<u64>,
) -> Result<u64, Split<u64>>
    requires { (Ready m) × (CoreAsked m.n s.d s.e s.t s.i w.old x.old y.old) }
    ensures core_answer { CoreAnswer m.n s.d s.e w.old x.old y.old x.new
        y.new result }
    ensures scratch { Scratch w.old w.new }
{
    let d = s.d;
    let e = s.e;
    let t = s.t;
    let b = e + 1;
    window_factor64::unit_times_monic(&mut w[b..b + (d + 1 + (t + 1 + (d + 1)))], m, d, t, s.i);
    if t == 0 {
        constant(x, y, w, m, d, e);
        return Ok(1);
    }
    solve(x, y, w, m, s)
}
