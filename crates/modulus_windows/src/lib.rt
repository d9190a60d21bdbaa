// The word loops of Euclid's steps over the record of a modulus: one test of the form at the top, and a loop for each form behind it. The
// contracts are about what the words stand for, and say that the words stay residues.
//
//   combine_pair    the words at dst, times l, less c and e times the words at src
//   combine         the same with e alone
//   scale           words times c
//   load            the words of a lent polynomial, entered
//
//   add_pair, add_scaled    multiples of the words at src added to the words at dst, words and multipliers as they are: where words can be
//                           held, the multipliers are entered and the words are not
//   set_scaled              a multiple of the words at src, words and multiplier as they are
//
//   combine_pair_held, scale_held, load_held    the loops where words can be held (S87), with held multipliers: the contracts of
//                                               `window_combining` and `windows`, of the multipliers turned back. The words may be held or
//                                               not: what a loop makes of them, it makes of what they stand for
//   scale_plain                                 the loop where they cannot
//
//   m          the modulus
//   l, c, e    words below n; held multipliers
//   form       the modulus with what Montgomery's reductions need of it
#![tactic(auto)]

ghost use Rattle.std.specs.Prelude.{ℕ, ◌+◌, ◌-◌, ◌<◌, ◌≤◌, length, get_or};
ghost use Rattle.windows.specs.Window.{Clear, Apart, Below, PairAsked, Paired, Moved, Written, addMul, mulBy, reduced_by};
ghost use Rattle.window_combining.specs.Combined.{combination};
ghost use Rattle.montgomery.specs.Held.{held, plain, Formed};
ghost use Rattle.modulus.specs.Values.{Known, value, values};
ghost use Rattle.modulus_windows.specs.LoopPromises.{Wrote, Scaled, Entered};

use modulus::Modulus;
use montgomery::Form;
use reduction::Reciprocal;

// w[dst + j] = l * w[dst + j] + c * w[src + j - 1] + e * w[src + j], for j < len; the word before the first counts as 0.
pub fn combine_pair_held(
    w: &mut [u32],
    form: Form,
    l: u32,
    c: u32,
    e: u32,
    src: usize,
    dst: usize,
    len: usize,
)
    requires formed { Formed form }
    requires l_le_n { (l ≤ form.n) × ((c ≤ form.n) × ((e ≤ form.n) × ((src + len ≤ length w.old) × (dst + len ≤ length w.old)))) }
    requires apart { (Apart src len dst len) × ((Below form.n src len w.old) × (Below form.n dst len w.old)) }
    ensures { Written (combination form.n (plain form.n l) (plain form.n c) (plain form.n e) src dst w.old)
        dst len w.old w.new }
{
    let mut y: u32 = 0;
    for j in 0..len {
        let z = w[src + j];
        w[dst + j] = montgomery::sum_three(form, l, w[dst + j], c, y, e, z);
        y = z;
    }
}

// w[dst + j] = c * w[src + j], for j < len.
pub fn scale_held(w: &mut [u32], form: Form, c: u32, src: usize, dst: usize, len: usize)
    requires formed { Formed form }
    requires c_le_n { (c ≤ form.n) × ((src + len ≤ length w.old) × (dst + len ≤ length w.old)) }
    requires clear { Clear src dst len }
    ensures { Moved (mulBy form.n (plain form.n c)) src dst len w.old w.new }
{
    for j in 0..len {
        w[dst + j] = montgomery::product(form, c, w[src + j]);
    }
}

// The same with a multiplier as it is, by the reciprocal.
fn scale_plain(w: &mut [u32], m: Modulus, c: u32, src: usize, dst: usize, len: usize)
    requires known { Known m }
    requires len_in_bounds { (src + len ≤ length w.old) × (dst + len ≤ length w.old) }
    requires clear { Clear src dst len }
    ensures { Moved (mulBy m.n c) src dst len w.old w.new }
{
    let n = m.n;
    if reduction::power_of_two(n) {
        windows::scale_masked(w, n, c, src, dst, len);
        return;
    }
    windows::scale(
        w,
        n,
        Reciprocal {
            n,
            v: m.v,
            c: m.c as u64,
        },
        c,
        src,
        dst,
        len,
    );
}

// w[at + j] = f[j] held, for each word of f, whatever it is.
pub fn load_held(w: &mut [u32], at: usize, f: &[u32], form: Form)
    requires { (Formed form) × (at + length f.now ≤ length w.old) }
    ensures { Written (λ (k : ℕ). held form.n (get_or f.now k 0)) at (length f.now)
        w.old w.new }
{
    for (j, &x) in f.iter().enumerate() {
        w[at + j] = montgomery::enter(form, x);
    }
}

// w[dst + j] = l * w[dst + j] - c * w[src + j - 1] - e * w[src + j], for j < len; the word before the first counts as 0.
pub fn combine_pair(
    w: &mut [u32],
    m: Modulus,
    l: u32,
    c: u32,
    e: u32,
    src: usize,
    dst: usize,
    len: usize,
)
    requires known { Known m }
    requires l_lt_n { (l < m.n) × ((c < m.n) × ((e < m.n) × ((src + len ≤ length w.old) × (dst + len ≤ length w.old)))) }
    requires apart { (Apart src len dst len) × ((Below m.n src len w.old) × (Below m.n dst len w.old)) }
    ensures { Wrote m (combination m.n (value m l) (m.n - value m c) (m.n - value m e) src dst (values m w.old))
        dst len w.old w.new }
{
    let n = m.n;
    if m.held != 0 {
        combine_pair_held(
            w,
            Form {
                n,
                k: m.negative,
                m: m.inverse,
                r2: m.c,
            },
            l,
            n - c,
            n - e,
            src,
            dst,
            len,
        );
        return;
    }
    window_combining::combine_pair(
        w,
        Reciprocal {
            n,
            v: m.v,
            c: m.c as u64,
        },
        l,
        n - c,
        n - e,
        src,
        dst,
        len,
    );
}

// w[dst + j] = l * w[dst + j] - e * w[src + j], for j < len. A function of its own, so that the loop of `combine_pair` has one caller, the
// usual step, and becomes part of it.
pub fn combine(w: &mut [u32], m: Modulus, l: u32, e: u32, src: usize, dst: usize, len: usize)
    requires known { Known m }
    requires l_lt_n { (l < m.n) × ((e < m.n) × ((src + len ≤ length w.old) × (dst + len ≤ length w.old))) }
    requires apart { (Apart src len dst len) × ((Below m.n src len w.old) × (Below m.n dst len w.old)) }
    ensures { Wrote m (combination m.n (value m l) 0 (m.n - value m e) src dst (values m w.old))
        dst len w.old w.new }
{
    let n = m.n;
    if m.held != 0 {
        combine_pair_held(
            w,
            Form {
                n,
                k: m.negative,
                m: m.inverse,
                r2: m.c,
            },
            l,
            0,
            n - e,
            src,
            dst,
            len,
        );
        return;
    }
    window_combining::combine_pair(
        w,
        Reciprocal {
            n,
            v: m.v,
            c: m.c as u64,
        },
        l,
        0,
        n - e,
        src,
        dst,
        len,
    );
}

// w[dst + j] = c * w[src + j], for j < len.
pub fn scale(w: &mut [u32], m: Modulus, c: u32, src: usize, dst: usize, len: usize)
    requires known { Known m }
    requires c_lt_n { (c < m.n) × ((src + len ≤ length w.old) × (dst + len ≤ length w.old)) }
    requires clear { Clear src dst len }
    ensures { Scaled m c src dst len w.old w.new }
{
    let n = m.n;
    if m.held == 0 {
        scale_plain(w, m, c, src, dst, len);
        return;
    }
    scale_held(
        w,
        Form {
            n,
            k: m.negative,
            m: m.inverse,
            r2: m.c,
        },
        c,
        src,
        dst,
        len,
    );
}

// w[at + j] = f[j], for each word of f, whatever it is.
pub fn load(w: &mut [u32], at: usize, f: &[u32], m: Modulus)
    requires { (Known m) × (at + length f.now ≤ length w.old) }
    ensures { Entered m at f.now w.old w.new }
{
    let n = m.n;
    if m.held != 0 {
        load_held(
            w,
            at,
            f,
            Form {
                n,
                k: m.negative,
                m: m.inverse,
                r2: m.c,
            },
        );
        return;
    }
    windows::load(w, at, f, n);
}

// w[dst + j] += c * w[src + j - 1] + e * w[src + j], for j < len; the word before the first counts as 0.
pub fn add_pair(w: &mut [u32], m: Modulus, c: u32, e: u32, src: usize, dst: usize, len: usize)
    requires known { Known m }
    requires pair_asked { (PairAsked m.n e src dst len w.old) × (Below m.n src len w.old) }
    ensures { Paired m.n c e src dst len w.old w.new }
{
    let n = m.n;
    if m.held != 0 {
        let one = modulus::enter(m, 1);
        let x = modulus::enter(m, c);
        let y = modulus::enter(m, e);
        combine_pair_held(
            w,
            Form {
                n,
                k: m.negative,
                m: m.inverse,
                r2: m.c,
            },
            one,
            x,
            y,
            src,
            dst,
            len,
        );
        return;
    }
    if reduction::power_of_two(n) {
        windows::add_pair_masked(w, n, c, e, src, dst, len);
        return;
    }
    windows::add_pair(
        w,
        n,
        Reciprocal {
            n,
            v: m.v,
            c: m.c as u64,
        },
        c,
        e,
        src,
        dst,
        len,
    );
}

// w[dst + j] += c * w[src + j], for j < len.
pub fn add_scaled(w: &mut [u32], m: Modulus, c: u32, src: usize, dst: usize, len: usize)
    requires known { Known m }
    requires pair_asked { (PairAsked m.n c src dst len w.old) × (Below m.n src len w.old) }
    ensures { Moved (addMul m.n c) src dst len w.old w.new }
{
    let n = m.n;
    if m.held != 0 {
        let one = modulus::enter(m, 1);
        let x = modulus::enter(m, c);
        let form = Form {
            n,
            k: m.negative,
            m: m.inverse,
            r2: m.c,
        };
        combine_pair_held(w, form, one, 0, x, src, dst, len);
        return;
    }
    if reduction::power_of_two(n) {
        windows::add_scaled_masked(w, n, c, src, dst, len);
        return;
    }
    windows::add_scaled(
        w,
        n,
        Reciprocal {
            n,
            v: m.v,
            c: m.c as u64,
        },
        c,
        src,
        dst,
        len,
    );
}

// w[dst + j] = c * w[src + j], for j < len.
pub fn set_scaled(w: &mut [u32], m: Modulus, c: u32, src: usize, dst: usize, len: usize)
    requires known { Known m }
    requires len_in_bounds { (src + len ≤ length w.old) × (dst + len ≤ length w.old) }
    requires clear { Clear src dst len }
    ensures { Moved (mulBy m.n c) src dst len w.old w.new }
{
    let n = m.n;
    if m.held != 0 {
        let x = modulus::enter(m, c);
        let form = Form {
            n,
            k: m.negative,
            m: m.inverse,
            r2: m.c,
        };
        scale_held(w, form, x, src, dst, len);
        return;
    }
    scale_plain(w, m, c, src, dst, len);
}

// w[at + j] = w[at + j] % n, for j < len: numbers and not words, whatever the form.
pub fn reduce_words(w: &mut [u32], m: Modulus, at: usize, len: usize)
    requires { (Known m) × (at + len ≤ length w.old) }
    ensures { Moved (reduced_by m.n) at at len w.old w.new }
{
    let n = m.n;
    windows::reduce_words(
        w,
        n,
        Reciprocal {
            n,
            v: m.v,
            c: m.c as u64,
        },
        at,
        len,
    );
}
