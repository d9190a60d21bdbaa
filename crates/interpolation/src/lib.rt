// A polynomial from its values at the points 0 to b modulo n, in place, by Newton's divided differences (S86). Words 0 to b of w are the
// values, then the differences, then the polynomial, the constant first.
//
//   w, m, b       the words, the record of the modulus n, the last point
//   k, i          the pass, and the inverse of k + 1
//
//   pass          one pass of differences
//   differences   all passes
//   expand        from Newton's form to powers, by Horner's rule
//   interpolate   both
#![tactic(auto)]

ghost use Rattle.std.specs.Prelude.{◌≤◌, ◌<◌};
ghost use Rattle.modulus.specs.Values.{Known};
ghost use Rattle.interpolation.specs.Interpolated.{Valued, Interpolated, Differenced};
ghost use Rattle.interpolation.specs.NewtonWords.{Row, Passes, Grown};

use modulus::Modulus;
use reduction::Reciprocal;

// Each word above k becomes its difference with the word before it, times i; from the top down, in place.
fn pass(w: &mut [u32], m: Modulus, k: usize, b: usize, i: u32)
    requires { (Known m) × ((Row m.n b w.old) × (k ≤ b)) }
    ensures { Differenced m.n i k b w.old w.new }
{
    let n = m.n;
    for s in (k..b).rev() {
        let x = modulus::multiply_add(m, w[s + 1], n - w[s], 1);
        w[s + 1] = modulus::multiply(m, i, x);
    }
}

// The differences of the values: word k is the k-th at the points 0 to k.
fn differences(w: &mut [u32], m: Modulus, b: usize)
    requires { (Known m) × Valued m.n b w.old }
    ensures { Passes m.n b b w.old w.new }
{
    for k in 0..b {
        let x = bezout::cofactor(m.n, (k + 1) as u32);
        pass(w, m, k, b, x.s);
    }
}

// c 0 + (z - 0) (c 1 + (z - 1) (c 2 + …)) in powers of z: from the last term on, the words above are multiplied by z - j. The windows
// overlap, so the words are reduced by the reciprocal whatever n is.
fn expand(w: &mut [u32], m: Modulus, b: usize)
    requires { (Known m) × ((Row m.n b w.old) × (b < m.n)) }
    ensures { Grown m.n b 0 w.old w.new }
{
    let n = m.n;
    let r = Reciprocal {
        n,
        v: m.v,
        c: m.c as u64,
    };
    for j in (0..b).rev() {
        windows::add_scaled(w, n, r, n - (j as u32), j + 1, j, b - j);
    }
}

// The polynomial of degree at most b whose values at 0 to b the words are.
pub fn interpolate(w: &mut [u32], m: Modulus, b: usize)
    requires { (Known m) × Valued m.n b w.old }
    ensures { Interpolated m.n b w.old w.new }
{
    differences(w, m, b);
    expand(w, m, b);
}
