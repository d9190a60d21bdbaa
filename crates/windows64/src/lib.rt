// Leaves over windows of one lent buffer: places src and dst of one slice, len words each.
//
//   add_scaled, add_pair                                words made of those of another window, times multipliers
//   copy, copy_reversed                                 words of another window
//   divide_words, reduce_words, clear, wipe             words made of themselves, or zeros
//   residue, load                                       words of a lent polynomial, as residues
//   zeros, content                                      what a polynomial's words have in front, and in common
//
// The loops that multiply find the fraction of a multiplier once and divide no more; the reciprocal of n is handed in. Two
// multipliers at a time are held where n is odd, and a word then costs one reduction.
#![tactic(auto)]

ghost use Rattle.std.specs.Prelude.{◌≡◌, ◌+◌, ◌-◌, ◌%◌, ◌<◌, ◌≤◌, length, replicate};
ghost use Rattle.montgomery64.specs.Forms.{Formed, Squared};
ghost use Rattle.reduction64.specs.Moduli.{Ready};
ghost use Rattle.windows.specs.Window.{Moved, Clear, addMul, mulBy, second, quotient_by, reduced_by};
ghost use Rattle.windows.specs.Window.{zeroed, PairAsked, Paired, Apart, Zeros, Content, Reversed, Loaded};

use reduction64::Reciprocal;

// w[dst + j] += c * w[src + j], for j < len, with the reciprocal of n.
pub fn add_scaled(w: &mut [u64], n: u64, m: Reciprocal, c: u64, src: usize, dst: usize, len: usize)
    requires ready { (Ready m) × (m.n ≡ n) }
    requires len_in_bounds { (src + len ≤ length w.old) × (dst + len ≤ length w.old) }
    requires clear { Clear src dst len }
    ensures { Moved (addMul n c) src dst len w.old w.new }
{
    let f = multipliers64::multiplier_of(m, c);
    for j in 0..len {
        w[dst + j] = multipliers64::add_times(m, w[dst + j], f, w[src + j]);
    }
}

// w[dst + j] = w[src + j], for j < len.
pub fn copy(w: &mut [u64], src: usize, dst: usize, len: usize)
    requires len_in_bounds { (src + len ≤ length w.old) × (dst + len ≤ length w.old) }
    requires clear { Clear src dst len }
    ensures { Moved second src dst len w.old w.new }
{
    w.copy_within(src..src + len, dst);
}

// The number of zeros at the front of s.
pub fn zeros(s: &[u64]) -> usize
    ensures { Zeros s.now result }
{
    s.iter().position(|&x| x != 0).unwrap_or(s.len())
}

// w[dst + j] += c * w[src + j - 1] + e * w[src + j], for j < len; the word before the first counts as 0. By fractions: any n.
fn add_pair_plain(
    w: &mut [u64],
    n: u64,
    m: Reciprocal,
    c: u64,
    e: u64,
    src: usize,
    dst: usize,
    len: usize,
)
    requires ready { (Ready m) × (m.n ≡ n) }
    requires pair_asked { PairAsked n e src dst len w.old }
    ensures { Paired n c e src dst len w.old w.new }
{
    let f = multipliers64::multiplier_of(m, c);
    let g = multipliers64::multiplier_of(m, e);
    let mut y: u64 = 0;
    for j in 0..len {
        let z = w[src + j];
        let x = multipliers64::add_times(m, w[dst + j], f, y);
        w[dst + j] = multipliers64::add_times(m, x, g, z);
        y = z;
    }
}

// The same with c and e held, by one reduction a word: odd n.
fn add_pair_held(
    w: &mut [u64],
    n: u64,
    k: u64,
    s: u64,
    c: u64,
    e: u64,
    src: usize,
    dst: usize,
    len: usize,
)
    requires formed { (Formed n k) × (Squared n s) }
    requires pair_asked { PairAsked n e src dst len w.old }
    ensures { Paired n c e src dst len w.old w.new }
{
    let f = montgomery64::enter(n, k, s, c);
    let g = montgomery64::enter(n, k, s, e);
    let mut y: u64 = 0;
    for j in 0..len {
        let z = w[src + j];
        w[dst + j] = montgomery64::sum_two(n, k, w[dst + j], f, y, g, z);
        y = z;
    }
}

// w[dst + j] += c * w[src + j - 1] + e * w[src + j], for j < len, with the reciprocal of n; the word before the first counts as 0.
pub fn add_pair(
    w: &mut [u64],
    n: u64,
    m: Reciprocal,
    c: u64,
    e: u64,
    src: usize,
    dst: usize,
    len: usize,
)
    requires ready { (Ready m) × (m.n ≡ n) }
    requires pair_asked { PairAsked n e src dst len w.old }
    ensures { Paired n c e src dst len w.old w.new }
{
    if m.k == 0 {
        add_pair_plain(w, n, m, c, e, src, dst, len);
        return;
    }
    add_pair_held(w, n, m.k, m.s, c, e, src, dst, len);
}

// The greatest common divisor of n and of every word of s.
pub fn content(s: &[u64], n: u64) -> u64
    requires { 1 ≤ n }
    ensures { Content n s.now result }
{
    let mut c = n;
    for &x in s {
        if c == 1 {
            return 1;
        }
        c = bezout64::gcd(x, c);
    }
    c
}

// w[at + j] = w[at + j] / c, the whole part, for j < len.
pub fn divide_words(w: &mut [u64], c: u64, at: usize, len: usize)
    requires { (1 ≤ c) × (at + len ≤ length w.old) }
    ensures { Moved (quotient_by c) at at len w.old w.new }
{
    for j in 0..len {
        w[at + j] = w[at + j] / c;
    }
}

// w[at + j] = w[at + j] % n, for j < len, with the reciprocal of n.
pub fn reduce_words(w: &mut [u64], n: u64, m: Reciprocal, at: usize, len: usize)
    requires le_n { (1 ≤ n) × ((Ready m) × (m.n ≡ n)) }
    requires len_in_bounds { at + len ≤ length w.old }
    ensures { Moved (reduced_by n) at at len w.old w.new }
{
    for j in 0..len {
        let r = reduction64::product(m, w[at + j], 1);
        if r >= n {
            return;
        }
        w[at + j] = r;
    }
}

// w[dst + j] = w[src + (len - 1 - j)], for j < len.
pub fn copy_reversed(w: &mut [u64], src: usize, dst: usize, len: usize)
    requires len_in_bounds { (src + len ≤ length w.old) × (dst + len ≤ length w.old) }
    requires apart { Apart src len dst len }
    ensures { Reversed src dst len w.old w.new }
{
    for j in 0..len {
        w[dst + j] = w[src + (len - 1 - j)];
    }
}

// w[at + j] = 0, for j < len.
pub fn clear(w: &mut [u64], at: usize, len: usize)
    requires { at + len ≤ length w.old }
    ensures { Moved zeroed at at len w.old w.new }
{
    w[at..at + len].fill(0);
}

// Zero in every word.
pub fn wipe(w: &mut [u64])
    ensures { w.new ≡ replicate (length w.old) 0 }
{
    w.fill(0);
}

// x modulo n; a residue costs no division.
pub fn residue(x: u64, n: u64) -> u64
    requires { 1 ≤ n }
    ensures { result ≡ x % n }
{
    if x < n {
        return x;
    }
    x % n
}

// w[at + j] = f[j] % n, for each word of f.
pub fn load(w: &mut [u64], at: usize, f: &[u64], n: u64)
    requires { (1 ≤ n) × (at + length f.now ≤ length w.old) }
    ensures { Loaded n at f.now w.old w.new }
{
    for (j, &x) in f.iter().enumerate() {
        w[at + j] = residue(x, n);
    }
}
