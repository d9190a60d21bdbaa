// The resultant with its cofactors, the quick way first: Euclid without inverses comes to a constant c, a combination of f and g, and knows
// that s times the resultant is p t c^e. Where s is a unit, the resultant is z c with z = p t c^(e - 1) / s, and z times the multipliers of
// c are its cofactors. Otherwise, the rows of Sylvester's matrix, from the sent words.
//
//   m                      the modulus, found once
//   x                      where Euclid ended
//
//   factor                 z
//   scale                  z times the multipliers, and the resultant
//   settle                 the same where s is a unit
//   ordered, try_quick     the quick way where f is not the longer of the two, and in any order
//   cofactors              both ways, the quick one first
#![tactic(auto)]

ghost use Rattle.std.specs.Prelude.{◌≡◌, ◌-◌, ◌*◌, ◌%◌, ◌^◌, ◌≤◌, length};
ghost use Rattle.windows.specs.Window.{Scratch};
ghost use Rattle.modulus.specs.Values.{Known, value};
ghost use Rattle.cofactor_band.specs.Bands.{CofactorsAsked, ResultantCofactors};
ghost use Rattle.cofactor_quick.specs.Quick.{FactorAsked, ScaleAsked, Scales, Settles, CofactorsAttempted, Quick};

use euclid_steps::Ending;
use modulus::Modulus;

// i p t c^(e - 1); p and t leave as they are multiplied.
fn factor(m: Modulus, x: Ending<u32>, i: u32, c: u32) -> u32
    requires { FactorAsked m x }
    ensures { result ≡ (i * value m x.p * value m x.t * c ^ (x.e - 1)) % m.n }
{
    let y = modulus::times(m, x.p, i);
    let z = modulus::times(m, x.t, y);
    let b = arithmetic::power(m.n, c, x.e - 1);
    modulus::multiply(m, z, b)
}

// The resultant with the sign (-1)^k, and its cofactors with that sign; i is the inverse of s.
fn scale(
    u: &mut [u32],
    v: &mut [u32],
    w: &[u32],
    m: Modulus,
    x: Ending<u32>,
    i: u32,
    k: usize,
) -> u32
    requires { ScaleAsked m x w.now u.old v.old }
    ensures { Scales m x i k w.now u.old v.old u.new v.new result }
{
    let a = u.len();
    let b = v.len();
    let c = modulus::leave(m, x.c);
    let y = factor(m, x, i, c);
    let z = resultant_signs::with_sign(m.n, k, y);
    multiplier_words::hand_out(u, v, w, m, x, z, a, b);
    modulus::multiply(m, z, c)
}

// Where s is no unit nothing is known, and the answer is n: every resultant is below n, so n can stand for no.
fn settle(u: &mut [u32], v: &mut [u32], w: &[u32], m: Modulus, x: Ending<u32>, k: usize) -> u32
    requires { ScaleAsked m x w.now u.old v.old }
    ensures { Settles m x k w.now u.old v.old u.new v.new result }
{
    let s = modulus::leave(m, x.s);
    let i = bezout::cofactor(m.n, s);
    if i.g != 1 {
        return m.n;
    }
    scale(u, v, w, m, x, i.s, k)
}

// The quick way with the sign (-1)^k, where f is not the longer.
fn ordered(
    u: &mut [u32],
    v: &mut [u32],
    w: &mut [u32],
    m: Modulus,
    f: &[u32],
    g: &[u32],
    k: usize,
) -> u32
    requires known { (Known m) × (CofactorsAsked m.n f.now g.now u.old v.old w.old) }
    requires f_in_bounds { length f.now ≤ length g.now }
    ensures cofactors_attempted { CofactorsAttempted m.n k f.now g.now u.new v.new result }
    ensures scratch { Scratch w.old w.new }
{
    let x = euclid_multipliers::multipliers(w, m, f, g);
    settle(u, v, w, m, x, k)
}

// The quick way, or n for no; f and g exchanged where f is the longer, which costs the sign (-1)^(d e).
fn try_quick(u: &mut [u32], v: &mut [u32], w: &mut [u32], n: u32, f: &[u32], g: &[u32]) -> u32
    requires { CofactorsAsked n f.now g.now u.old v.old w.old }
    ensures quick { Quick n f.now g.now u.new v.new result }
    ensures scratch { Scratch w.old w.new }
{
    let m = modulus::modulus_of(n);
    if f.len() <= g.len() {
        return ordered(u, v, w, m, f, g, 0);
    }
    let d = f.len() - 1;
    let e = g.len() - 1;
    ordered(v, u, w, m, g, f, d * e)
}

// The resultant of f and g, with its cofactors in u and v. What is not below n is n, the quick way's no.
pub fn cofactors(u: &mut [u32], v: &mut [u32], w: &mut [u32], n: u32, f: &[u32], g: &[u32]) -> u32
    requires { CofactorsAsked n f.now g.now u.old v.old w.old }
    ensures resultant_cofactors { ResultantCofactors n f.now g.now u.new v.new result }
    ensures scratch { Scratch w.old w.new }
{
    let x = try_quick(u, v, w, n, f, g);
    if x < n {
        return x;
    }
    cofactor_band::cofactors(u, v, w, n, f, g)
}
