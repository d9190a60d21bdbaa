// The word loop of a pseudo-division, words of 64 bits: a window loses two shifted multiples of another and is scaled itself.
//
//   combine_pair        the words at dst, times l, with c and m times the words at src
//   combine_plain, combine_held    for any n, and for odd n by Montgomery's reduction
//
//   l       what the words at dst are multiplied by: the leading word of the divisor, or its square
//   c, m    the multipliers of the word before and of the word itself: two quotient words
#![tactic(auto)]

ghost use Rattle.std.specs.Prelude.{◌+◌, ◌≤◌, length};
ghost use Rattle.windows.specs.Window.{Written, Apart, Below};
ghost use Rattle.montgomery64.specs.Forms.{Formed, Squared};
ghost use Rattle.reduction64.specs.Moduli.{Ready};
ghost use Rattle.window_combining.specs.Combined.{combination};

use reduction64::Reciprocal;

// w[dst + j] = l * w[dst + j] + c * w[src + j - 1] + m * w[src + j], for j < len; the word before the first counts as 0. By the
// fractions of l, c and m: any n.
fn combine_plain(
    w: &mut [u64],
    modulus: Reciprocal,
    l: u64,
    c: u64,
    m: u64,
    src: usize,
    dst: usize,
    len: usize,
)
    requires ready { Ready modulus }
    requires len_in_bounds { (src + len ≤ length w.old) × (dst + len ≤ length w.old) }
    requires apart { (Apart src len dst len) × (Below modulus.n src len w.old) }
    ensures { Written (combination modulus.n l c m src dst w.old) dst len w.old w.new }
{
    let fl = multipliers64::multiplier_of(modulus, l);
    let fc = multipliers64::multiplier_of(modulus, c);
    let fm = multipliers64::multiplier_of(modulus, m);
    let mut y: u64 = 0;
    for j in 0..len {
        let z = w[src + j];
        w[dst + j] = multipliers64::sum_of(modulus, fl, w[dst + j], fc, y, fm, z);
        y = z;
    }
}

// The same with l, c and m held, by one reduction a word: odd n.
fn combine_held(
    w: &mut [u64],
    n: u64,
    k: u64,
    s: u64,
    l: u64,
    c: u64,
    m: u64,
    src: usize,
    dst: usize,
    len: usize,
)
    requires formed { (Formed n k) × ((Squared n s) × (1 ≤ n)) }
    requires len_in_bounds { (src + len ≤ length w.old) × (dst + len ≤ length w.old) }
    requires apart { (Apart src len dst len) × (Below n src len w.old) }
    ensures { Written (combination n l c m src dst w.old) dst len w.old w.new }
{
    let hl = montgomery64::enter(n, k, s, l);
    let hc = montgomery64::enter(n, k, s, c);
    let hm = montgomery64::enter(n, k, s, m);
    let mut y: u64 = 0;
    for j in 0..len {
        let x = w[src + j];
        w[dst + j] = montgomery64::sum_three(n, k, hl, w[dst + j], hc, y, hm, x);
        y = x;
    }
}

pub fn combine_pair(
    w: &mut [u64],
    modulus: Reciprocal,
    l: u64,
    c: u64,
    m: u64,
    src: usize,
    dst: usize,
    len: usize,
)
    requires ready { Ready modulus }
    requires len_in_bounds { (src + len ≤ length w.old) × (dst + len ≤ length w.old) }
    requires apart { (Apart src len dst len) × (Below modulus.n src len w.old) }
    ensures { Written (combination modulus.n l c m src dst w.old) dst len w.old w.new }
{
    let k = modulus.k;
    if k == 0 {
        combine_plain(w, modulus, l, c, m, src, dst, len);
        return;
    }
    combine_held(w, modulus.n, k, modulus.s, l, c, m, src, dst, len);
}
