// The resultant in y of two polynomials in y and z modulo n (S20, S86): the resultants of the pair at the points 0 to B, then the
// polynomial in z with these values.
//
//   f, g       the sent words: d + 1 groups of a + 1 words, e + 1 groups of b + 1 words
//   m          the record of the modulus n, found once a call
//   s          these four degrees
//   z, last    a point, and the last one, B
//   t          the degrees with a point
//   out        the values, then the words of the resultant
//   w          the working window of the resultant's run
//   p, q       the words of the pair at a point, which the run is given as sent words
//
//   group_value   one group at a point
//   evaluate      a polynomial in y and z at a point, a polynomial in y
//   first_words, in_buffers, at_point    the resultant of the pair at a point
//   values        the resultants at the points 0 to B
//   resultant_in_y    the words of the resultant
#![tactic(auto)]

ghost use Rattle.std.specs.Prelude.{◌≡◌, ◌+◌, ◌*◌, ◌^◌, ◌%◌, ◌<◌, ◌≤◌, length, get_or};
ghost use Rattle.definitions.specs.Polynomials.{total};
ghost use Rattle.definitions.specs.Resultants.{resultant};
ghost use Rattle.definitions.specs.Bivariate.{bivariate_resultant_of};
ghost use Rattle.law_polynomials.specs.BivariateLaws.{evaluated};
ghost use Rattle.modulus.specs.Values.{Known};
ghost use Rattle.windows.specs.Window.{piece, Written, Loaded, Scratch};
ghost use Rattle.bivariate.specs.PairLengthsAsked.{PairLengthsAsked, InWords, Prepared, value_at};

use modulus::Modulus;

// The words of a polynomial in y: degrees are at most 48.
const WORDS: usize = 49;

// The degrees of f in y and in z, and those of g.
#[derive(Clone, Copy)]
pub struct Degrees {
    pub d: usize,
    pub a: usize,
    pub e: usize,
    pub b: usize,
}

// The same with a point.
#[derive(Clone, Copy)]
struct Point {
    d: usize,
    a: usize,
    e: usize,
    b: usize,
    z: u32,
}

// c 0 + c 1 z + c 2 z^2 + …, by Horner's rule.
fn group_value(m: Modulus, c: &[u32], z: u32) -> u32
    requires { Known m }
    ensures { result ≡ total (length c.now) (λ j. get_or c.now j 0 * z ^ j) % m.n }
{
    let mut x: u32 = 0;
    for j in (0..c.len()).rev() {
        x = modulus::multiply_add(m, c[j], z, x);
    }
    x
}

// w[at + i] is group i of f at z.
fn evaluate(w: &mut [u32], at: usize, m: Modulus, f: &[u32], d: usize, a: usize, z: u32)
    requires { (Known m) × ((length f.now ≡ (d + 1) * (a + 1)) × (at + (d + 1) ≤ length w.old)) }
    ensures { Loaded m.n at (evaluated d a f.now z) w.old w.new }
{
    for i in 0..d + 1 {
        let s = i * (a + 1);
        w[at + i] = group_value(m, &f[s..s + (a + 1)], z);
    }
}

// The resultant of the first d + 1 words of p and the first e + 1 words of q.
fn first_words(w: &mut [u32], n: u32, p: &[u32], d: usize, q: &[u32], e: usize) -> u32
    requires { (2 ≤ n) × InWords p.now d q.now e w.old }
    ensures value { result ≡ resultant n (piece p.now 0 (d + 1)) (piece q.now 0 (e + 1)) }
    ensures scratch { Scratch w.old w.new }
{
    resultant::run(w, n, &p[0..d + 1], &q[0..e + 1])
}

// The resultant of the pair at z: p and q, of 49 words each, hold the two polynomials in y.
fn in_buffers(
    w: &mut [u32],
    p: &mut [u32],
    q: &mut [u32],
    m: Modulus,
    f: &[u32],
    g: &[u32],
    t: Point,
) -> u32
    requires { ((Known m) × (2 ≤ m.n)) × (PairLengthsAsked f.now t.d t.a g.now t.e t.b w.old
        × ((length p.old ≡ 49) × (length q.old ≡ 49))) }
    ensures value { result ≡ value_at m.n f.now t.d t.a g.now t.e t.b t.z }
    ensures scratch { Scratch w.old w.new }
{
    evaluate(p, 0, m, f, t.d, t.a, t.z);
    evaluate(q, 0, m, g, t.e, t.b, t.z);
    first_words(w, m.n, p, t.d, q, t.e)
}

// The resultant of the pair at z. The two polynomials are arguments of the run, so they stand beside its working window.
fn at_point(w: &mut [u32], m: Modulus, f: &[u32], g: &[u32], t: Point) -> u32
    requires { ((Known m) × (2 ≤ m.n)) × PairLengthsAsked f.now t.d t.a g.now t.e t.b w.old }
    ensures value { result ≡ value_at m.n f.now t.d t.a g.now t.e t.b t.z }
    ensures scratch { Scratch w.old w.new }
{
    let mut p = [0u32; WORDS];
    let mut q = [0u32; WORDS];
    in_buffers(w, &mut p, &mut q, m, f, g, t)
}

// S86: "evaluate at 0 to B": word z of out is the resultant of the pair at z.
fn values(out: &mut [u32], w: &mut [u32], m: Modulus, f: &[u32], g: &[u32], s: Degrees, last: usize)
    requires { (Known m) × Prepared m.n last f.now s.d s.a g.now s.e s.b out.old w.old }
    ensures written { Written (value_at m.n f.now s.d s.a g.now s.e s.b) 0 (last + 1) out.old
        out.new }
    ensures scratch { Scratch w.old w.new }
{
    for z in 0..last + 1 {
        out[z] = at_point(
            w,
            m,
            f,
            g,
            Point {
                d: s.d,
                a: s.a,
                e: s.e,
                b: s.b,
                z: z as u32,
            },
        );
    }
}

// S86: "then interpolate": the first last + 1 words of out are the resultant in y.
pub fn resultant_in_y(
    out: &mut [u32],
    w: &mut [u32],
    n: u32,
    f: &[u32],
    g: &[u32],
    s: Degrees,
    last: usize,
)
    requires { Prepared n last f.now s.d s.a g.now s.e s.b out.old w.old }
    ensures written { Written (bivariate_resultant_of n s.d s.a s.e s.b f.now g.now) 0 (last + 1)
        out.old out.new }
    ensures scratch { Scratch w.old w.new }
{
    let m = modulus::modulus_of(n);
    values(out, w, m, f, g, s, last);
    interpolation::interpolate(out, m, last);
}
