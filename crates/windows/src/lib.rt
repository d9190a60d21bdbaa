// Leaves over windows of one lent buffer: places src and dst of one slice, len words each.
//
//   add_scaled, add_pair, scale                         words made of those of another window, times multipliers
//   ..._masked                                          the same for a power of two
//   copy, copy_reversed                                 words of another window
//   divide_words, reduce_words, clear, wipe             words made of themselves, or zeros
//   residue, load                                       words of a lent polynomial, as residues
//   zeros, content                                      what a polynomial's words have in front, and in common
//
// The loops that reduce a word find the reciprocal of n once and divide no more. Where such a loop tests a residue against n, the
// test fails always: it keeps the back end from vector code, which has no upper half of a product. Modulo a power of two the low bits of
// a sum are enough: those loops become vector code.
#![tactic(auto)]

ghost use Rattle.std.specs.Prelude.{◌≡◌, ◌+◌, ◌-◌, ◌%◌, ◌<◌, ◌≤◌, length, replicate};
ghost use Rattle.reduction.specs.Moduli.{Ready};
ghost use Rattle.reduction.specs.Powers.{PowerOfTwo};
ghost use Rattle.windows.specs.Window.{Moved, Clear, addMul, mulBy, second, quotient_by, reduced_by};
ghost use Rattle.windows.specs.Window.{zeroed, PairAsked, Paired, Apart, Zeros, Content, Reversed, Loaded};

use reduction::Reciprocal;

// w[dst + j] += c * w[src + j], for j < len, with the reciprocal of n.
pub fn add_scaled(w: &mut [u32], n: u32, m: Reciprocal, c: u32, src: usize, dst: usize, len: usize)
    requires le_n { (1 ≤ n) × ((Ready m) × (m.n ≡ n)) }
    requires len_in_bounds { (src + len ≤ length w.old) × (dst + len ≤ length w.old) }
    requires clear { Clear src dst len }
    ensures { Moved (addMul n c) src dst len w.old w.new }
{
    for j in 0..len {
        let r = reduction::add_product(m, w[dst + j], c, w[src + j]);
        if r >= n {
            return;
        }
        w[dst + j] = r;
    }
}

// The same for a power n of two.
pub fn add_scaled_masked(w: &mut [u32], n: u32, c: u32, src: usize, dst: usize, len: usize)
    requires power_of_two { PowerOfTwo n }
    requires len_in_bounds { (src + len ≤ length w.old) × (dst + len ≤ length w.old) }
    requires clear { Clear src dst len }
    ensures { Moved (addMul n c) src dst len w.old w.new }
{
    for j in 0..len {
        w[dst + j] = reduction::sum_masked(n, w[dst + j], c, w[src + j], 0, 0);
    }
}

// w[dst + j] = c * w[src + j], for j < len, with the reciprocal of n.
pub fn scale(w: &mut [u32], n: u32, m: Reciprocal, c: u32, src: usize, dst: usize, len: usize)
    requires le_n { (1 ≤ n) × ((Ready m) × (m.n ≡ n)) }
    requires len_in_bounds { (src + len ≤ length w.old) × (dst + len ≤ length w.old) }
    requires clear { Clear src dst len }
    ensures { Moved (mulBy n c) src dst len w.old w.new }
{
    for j in 0..len {
        let r = reduction::product(m, c, w[src + j]);
        if r >= n {
            return;
        }
        w[dst + j] = r;
    }
}

// The same for a power n of two.
pub fn scale_masked(w: &mut [u32], n: u32, c: u32, src: usize, dst: usize, len: usize)
    requires power_of_two { PowerOfTwo n }
    requires len_in_bounds { (src + len ≤ length w.old) × (dst + len ≤ length w.old) }
    requires clear { Clear src dst len }
    ensures { Moved (mulBy n c) src dst len w.old w.new }
{
    for j in 0..len {
        w[dst + j] = reduction::sum_masked(n, 0, c, w[src + j], 0, 0);
    }
}

// w[dst + j] = w[src + j], for j < len.
pub fn copy(w: &mut [u32], src: usize, dst: usize, len: usize)
    requires len_in_bounds { (src + len ≤ length w.old) × (dst + len ≤ length w.old) }
    requires clear { Clear src dst len }
    ensures { Moved second src dst len w.old w.new }
{
    w.copy_within(src..src + len, dst);
}

// The number of zeros at the front of s.
pub fn zeros(s: &[u32]) -> usize
    ensures { Zeros s.now result }
{
    s.iter().position(|&x| x != 0).unwrap_or(s.len())
}

// w[dst + j] += c * w[src + j - 1] + e * w[src + j], for j < len, one reduction a word, with the reciprocal of n; the word before the first
// counts as 0.
pub fn add_pair(
    w: &mut [u32],
    n: u32,
    m: Reciprocal,
    c: u32,
    e: u32,
    src: usize,
    dst: usize,
    len: usize,
)
    requires ready { (Ready m) × (m.n ≡ n) }
    requires pair_asked { PairAsked n e src dst len w.old }
    ensures { Paired n c e src dst len w.old w.new }
{
    let mut y: u32 = 0;
    for j in 0..len {
        let z = w[src + j];
        let r = reduction::sum_two(m, w[dst + j], c, y, e, z);
        if r >= n {
            return;
        }
        w[dst + j] = r;
        y = z;
    }
}

// The same for a power n of two.
pub fn add_pair_masked(w: &mut [u32], n: u32, c: u32, e: u32, src: usize, dst: usize, len: usize)
    requires power_of_two { PowerOfTwo n }
    requires pair_asked { PairAsked n e src dst len w.old }
    ensures { Paired n c e src dst len w.old w.new }
{
    let mut y: u32 = 0;
    for j in 0..len {
        let z = w[src + j];
        w[dst + j] = reduction::sum_masked(n, w[dst + j], c, y, e, z);
        y = z;
    }
}

// The greatest common divisor of n and of every word of s.
pub fn content(s: &[u32], n: u32) -> u32
    requires { 1 ≤ n }
    ensures { Content n s.now result }
{
    let mut c = n;
    for &x in s {
        if c == 1 {
            return 1;
        }
        c = bezout::gcd(x, c);
    }
    c
}

// w[at + j] = w[at + j] / c, the whole part, for j < len.
pub fn divide_words(w: &mut [u32], c: u32, at: usize, len: usize)
    requires { (1 ≤ c) × (at + len ≤ length w.old) }
    ensures { Moved (quotient_by c) at at len w.old w.new }
{
    for j in 0..len {
        w[at + j] = w[at + j] / c;
    }
}

// w[at + j] = w[at + j] % n, for j < len, with the reciprocal of n.
pub fn reduce_words(w: &mut [u32], n: u32, m: Reciprocal, at: usize, len: usize)
    requires le_n { (1 ≤ n) × ((Ready m) × (m.n ≡ n)) }
    requires len_in_bounds { at + len ≤ length w.old }
    ensures { Moved (reduced_by n) at at len w.old w.new }
{
    for j in 0..len {
        let r = reduction::product(m, w[at + j], 1);
        if r >= n {
            return;
        }
        w[at + j] = r;
    }
}

// w[dst + j] = w[src + (len - 1 - j)], for j < len.
pub fn copy_reversed(w: &mut [u32], src: usize, dst: usize, len: usize)
    requires len_in_bounds { (src + len ≤ length w.old) × (dst + len ≤ length w.old) }
    requires apart { Apart src len dst len }
    ensures { Reversed src dst len w.old w.new }
{
    for j in 0..len {
        w[dst + j] = w[src + (len - 1 - j)];
    }
}

// w[at + j] = 0, for j < len.
pub fn clear(w: &mut [u32], at: usize, len: usize)
    requires { at + len ≤ length w.old }
    ensures { Moved zeroed at at len w.old w.new }
{
    w[at..at + len].fill(0);
}

// Zero in every word.
pub fn wipe(w: &mut [u32])
    ensures { w.new ≡ replicate (length w.old) 0 }
{
    w.fill(0);
}

// x modulo n; a residue costs no division.
pub fn residue(x: u32, n: u32) -> u32
    requires { 1 ≤ n }
    ensures { result ≡ x % n }
{
    if x < n {
        return x;
    }
    x % n
}

// w[at + j] = f[j] % n, for each word of f.
pub fn load(w: &mut [u32], at: usize, f: &[u32], n: u32)
    requires { (1 ≤ n) × (at + length f.now ≤ length w.old) }
    ensures { Loaded n at f.now w.old w.new }
{
    for (j, &x) in f.iter().enumerate() {
        w[at + j] = residue(x, n);
    }
}
