// The reduced resultant D of two polynomials modulo n, with cofactors u and v: u f + v g = D. The run makes an attempt modulo n; where n
// splits, it calls itself on each of the two coprime factors and joins the answers by the Chinese remainder.
//
//   cofactor_length    L, the words of a cofactor
//   save, merge, mix   the cofactors of the first factor are saved, and joined with those of the second
//   run                D and the cofactors; by_factors and second_factor are the run on the two factors of n
//
//   m                  the record of the modulus: `run` finds that of n once, and `merge` that of p q
#![tactic(auto)]

ghost use Rattle.std.specs.Prelude.{◌≡◌, ◌+◌, ◌-◌, ◌*◌, ◌<◌, ◌≤◌, length};
ghost use Rattle.definitions.specs.Polynomials.{L};
ghost use Rattle.windows.specs.Window.{Scratch};
ghost use Rattle.modulus.specs.Values.{Known};
ghost use Rattle.reduced_cofactors.specs.Cofactors.{Certified};
ghost use Rattle.reduced.specs.Runs.{MixedWords, SaveAsked, Saved, MergeAsked, Merged, RunAsked, FactorsAsked, SecondAsked};

use modulus::Modulus;

// u[j] = a * s[j] + b * u[j]; s ends before u does, or with it. The test of a residue against n fails always: it keeps the back end
// from vector code, which has no upper half of a product.
fn mix(u: &mut [u32], s: &[u32], m: Modulus, a: u32, b: u32)
    requires { (Known m) × (length s.now ≤ length u.old) }
    ensures { MixedWords m.n a b s.now u.old u.new }
{
    let z = u.len();
    modulus_windows::set_scaled(u, m, b, 0, 0, z);
    for j in 0..s.len() {
        let r = modulus::multiply_add(m, u[j], a, s[j]);
        if r >= m.n {
            return;
        }
        u[j] = r;
    }
}

// The words of a cofactor modulo p, for polynomials of a and b words.
pub fn cofactor_length(p: u32, a: usize, b: usize) -> usize
    requires { (1 ≤ a) × ((1 ≤ b) × (L p (a - 1) (b - 1) < 18446744073709551616)) }
    ensures { result ≡ L p (a - 1) (b - 1) }
{
    let k = residue::modulus_of(p).k as usize;
    if a < b {
        return k * (b - 1) + 1;
    }
    k * (a - 1) + 1
}

// The cofactors modulo n in u and v, for polynomials of a and b words, are saved in front of w. Answers their length.
fn save(w: &mut [u32], u: &[u32], v: &[u32], n: u32, a: usize, b: usize) -> usize
    requires { SaveAsked n a b u.now v.now w.old }
    ensures value { result ≡ L n (a - 1) (b - 1) }
    ensures saved { Saved n result u.now v.now w.old w.new }
{
    let l = cofactor_length(n, a, b);
    windows::load(w, 0, &u[0..l], n);
    windows::load(w, l, &v[0..l], n);
    l
}

// The saved cofactors modulo p, of a, are joined with those modulo q, of b.
fn merge(u: &mut [u32], v: &mut [u32], w: &[u32], p: u32, q: u32, l: usize, a: u32, b: u32)
    requires { MergeAsked 4294967296 p q l u.old v.old w.now }
    ensures { Merged p q l a b w.now u.old u.new v.old v.new }
{
    let m = modulus::modulus_of(p * q);
    let x = modulus::multiply(m, residue::idempotent(p, q), b);
    let y = modulus::multiply(m, residue::idempotent(q, p), a);
    mix(u, &w[0..l], m, x, y);
    mix(v, &w[l..l + l], m, x, y);
}

// "each of the two factors is worked as a modulus of its own, and the answers are joined by the Chinese remainder." D, with cofactors in u
// and v: every word of these is below n, and those from place L on are 0.
#[cycle(by_factors_run_second_factor)]
pub fn run(u: &mut [u32], v: &mut [u32], w: &mut [u32], n: u32, f: &[u32], g: &[u32]) -> u32
    requires { RunAsked n f.now g.now u.old v.old w.old }
    ensures certified { Certified n (L n (length f.now - 1) (length g.now - 1)) f.now g.now
        u.new v.new result }
    ensures scratch { Scratch w.old w.new }
{
    let m = modulus::modulus_of(n);
    match reduced_quick::attempt(u, v, w, m, f, g) {
        Ok(d) => d,
        Err(s) => by_factors(u, v, w, s.p, s.q, f, g),
    }
}

// The same modulo p q, the factors coprime: the run on p, whose cofactors are saved, and then on q.
#[cycle(by_factors_run_second_factor)]
fn by_factors(
    u: &mut [u32],
    v: &mut [u32],
    w: &mut [u32],
    p: u32,
    q: u32,
    f: &[u32],
    g: &[u32],
) -> u32
    requires { FactorsAsked 4294967296 p q f.now g.now u.old v.old w.old }
    ensures certified { Certified (p * q) (L (p * q) (length f.now - 1) (length g.now - 1)) f.now
        g.now u.new v.new result }
    ensures scratch { Scratch w.old w.new }
{
    let a = run(u, v, w, p, f, g);
    let l = save(w, u, v, p, f.len(), g.len());
    second_factor(u, v, w, p, q, l, a, f, g)
}

// The same, where a is D modulo p and l words of each of its cofactors are saved in front of w: the run on q in the rest of w.
#[cycle(by_factors_run_second_factor)]
fn second_factor(
    u: &mut [u32],
    v: &mut [u32],
    w: &mut [u32],
    p: u32,
    q: u32,
    l: usize,
    a: u32,
    f: &[u32],
    g: &[u32],
) -> u32
    requires { SecondAsked 4294967296 p q l a f.now g.now u.old v.old w.old }
    ensures certified { Certified (p * q) (L (p * q) (length f.now - 1) (length g.now - 1)) f.now
        g.now u.new v.new result }
    ensures scratch { Scratch w.old w.new }
{
    let b = run(u, v, &mut w[2 * l..], q, f, g);
    merge(u, v, w, p, q, l, a, b);
    a * b
}
