// The word loops of Euclid's steps over a modulus of 64 bits, as `modulus_windows` has them at 32 bits: the contracts are those, for words
// that stand for themselves.
//
//   combine_pair    the words at dst, times l, less c and e times the words at src
//   combine         the same with e alone
//   scale           words times c
//   load            the words of a lent polynomial, entered
//
//   add_pair, add_scaled, set_scaled    multiples of the words at src, added to the words at dst or in their place
//
//   m          the modulus with its reciprocal
//   l, c, e    words below n
#![tactic(auto)]

ghost use Rattle.std.specs.Prelude.{◌+◌, ◌-◌, ◌<◌, ◌≤◌, length};
ghost use Rattle.windows.specs.Window.{Clear, Apart, Below, PairAsked, Paired, Moved, addMul, mulBy};
ghost use Rattle.window_combining.specs.Combined.{combination};
ghost use Rattle.modulus.specs.Values.{value, values};
ghost use Rattle.modulus_windows.specs.LoopPromises.{Wrote, Scaled, Entered};
ghost use Rattle.reduction64.specs.Moduli.{Ready};
ghost use Rattle.modulus64.specs.Plain.{plain};

use reduction64::Reciprocal;

// w[dst + j] = l * w[dst + j] - c * w[src + j - 1] - e * w[src + j], for j < len; the word before the first counts as 0.
pub fn combine_pair(
    w: &mut [u64],
    m: Reciprocal,
    l: u64,
    c: u64,
    e: u64,
    src: usize,
    dst: usize,
    len: usize,
)
    requires ready { Ready m }
    requires l_lt_n { (l < m.n) × ((c < m.n) × ((e < m.n) × ((src + len ≤ length w.old) × (dst + len ≤ length w.old)))) }
    requires apart { (Apart src len dst len) × ((Below m.n src len w.old) × (Below m.n dst len w.old)) }
    ensures { Wrote (plain m) (combination m.n (value (plain m) l) (m.n - value (plain m) c) (m.n - value (plain m) e) src dst
        (values (plain m) w.old)) dst len w.old w.new }
{
    let n = m.n;
    window_combining64::combine_pair(w, m, l, n - c, n - e, src, dst, len);
}

// w[dst + j] = l * w[dst + j] - e * w[src + j], for j < len.
pub fn combine(w: &mut [u64], m: Reciprocal, l: u64, e: u64, src: usize, dst: usize, len: usize)
    requires ready { Ready m }
    requires l_lt_n { (l < m.n) × ((e < m.n) × ((src + len ≤ length w.old) × (dst + len ≤ length w.old))) }
    requires apart { (Apart src len dst len) × ((Below m.n src len w.old) × (Below m.n dst len w.old)) }
    ensures { Wrote (plain m) (combination m.n (value (plain m) l) 0 (m.n - value (plain m) e) src dst
        (values (plain m) w.old)) dst len w.old w.new }
{
    let n = m.n;
    window_combining64::combine_pair(w, m, l, 0, n - e, src, dst, len);
}

// w[dst + j] = c * w[src + j], for j < len.
pub fn scale(w: &mut [u64], m: Reciprocal, c: u64, src: usize, dst: usize, len: usize)
    requires ready { Ready m }
    requires c_lt_n { (c < m.n) × ((src + len ≤ length w.old) × (dst + len ≤ length w.old)) }
    requires clear { Clear src dst len }
    ensures { Scaled (plain m) c src dst len w.old w.new }
{
    set_scaled(w, m, c, src, dst, len);
}

// w[at + j] = f[j], for each word of f, whatever it is.
pub fn load(w: &mut [u64], at: usize, f: &[u64], m: Reciprocal)
    requires { (Ready m) × (at + length f.now ≤ length w.old) }
    ensures { Entered (plain m) at f.now w.old w.new }
{
    windows64::load(w, at, f, m.n);
}

// w[dst + j] += c * w[src + j - 1] + e * w[src + j], for j < len; the word before the first counts as 0.
pub fn add_pair(w: &mut [u64], m: Reciprocal, c: u64, e: u64, src: usize, dst: usize, len: usize)
    requires ready { Ready m }
    requires pair_asked { (PairAsked m.n e src dst len w.old) × (Below m.n src len w.old) }
    ensures { Paired m.n c e src dst len w.old w.new }
{
    windows64::add_pair(w, m.n, m, c, e, src, dst, len);
}

// w[dst + j] += c * w[src + j], for j < len.
pub fn add_scaled(w: &mut [u64], m: Reciprocal, c: u64, src: usize, dst: usize, len: usize)
    requires ready { Ready m }
    requires pair_asked { (PairAsked m.n c src dst len w.old) × (Below m.n src len w.old) }
    ensures { Moved (addMul m.n c) src dst len w.old w.new }
{
    windows64::add_scaled(w, m.n, m, c, src, dst, len);
}

// w[dst + j] = c * w[src + j], for j < len.
pub fn set_scaled(w: &mut [u64], m: Reciprocal, c: u64, src: usize, dst: usize, len: usize)
    requires ready { Ready m }
    requires len_in_bounds { (src + len ≤ length w.old) × (dst + len ≤ length w.old) }
    requires clear { Clear src dst len }
    ensures { Moved (mulBy m.n c) src dst len w.old w.new }
{
    let f = multipliers64::multiplier_of(m, c);
    for j in 0..len {
        w[dst + j] = multipliers64::times(m, f, w[src + j]);
    }
}
