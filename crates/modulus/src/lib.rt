// One record of a modulus, found once a run and passed down in place of n: n and its K, the reciprocal by which words are reduced, and
// whether words are held multiplied by 2^32 modulo n (Montgomery's form: n odd, from 3 on and below 2^31), with what that needs. Nothing
// above reads the flag: a word x stands for `value m x`, and every contract is about what words stand for.
//
//   Modulus, modulus_of          the record of n
//   enter, leave                 a number made a word, and a word made the residue that it stands for
//   product, sum, difference     of words
//   difference_of                l x - c y, by one reduction
//   times                        a word times a number: a number
//   multiply, multiply_add       a b and z + a b, of numbers
//
//   m          the modulus
//   x, y, l    words below n
//   a, b, z    numbers
#![tactic(auto)]

ghost use Rattle.std.specs.Prelude.{◌≡◌, ◌+◌, ◌-◌, ◌*◌, ◌%◌, ◌<◌, ◌≤◌};
ghost use Rattle.modulus.specs.Values.{Known, ModulusOf, value};
ghost use Rattle.modulus.specs.Values.{Enters, Leaves, Multiplies, Adds, Subtracts};

use montgomery::Form;
use reduction::Reciprocal;

// n is the word, wide the same in 64 bits, v is 2^64 / n and c is 2^64 modulo n, which Montgomery's form wants too. Where words are held,
// held is 1, negative is -n and inverse that of n modulo 2^32; else these three are 0. "the record of a modulus that both sets share holds
// the wider n and its K" (02, W9): wide and k. There is no padding but at the end: a copy of the record is words that the reader finds
// whole.
#[derive(Clone, Copy)]
pub struct Modulus {
    pub wide: u64,
    pub v: u64,
    pub inverse: u64,
    pub n: u32,
    pub c: u32,
    pub negative: u32,
    pub k: u32,
    pub held: u32,
}

// One division, of 2^64 by n; K is the place of the first bit of n.
pub fn modulus_of(n: u32) -> Modulus
    requires { 1 ≤ n }
    ensures { ModulusOf n result }
{
    let k = 31 - u32::leading_zeros(n);
    let r = reduction::modulus_of(n);
    let c = r.c as u32;
    if montgomery::fits_form(n) {
        return Modulus {
            wide: n as u64,
            v: r.v,
            inverse: montgomery::inverse_of(n),
            n,
            c,
            negative: 4294967295 - n + 1,
            k,
            held: 1,
        };
    }
    Modulus {
        wide: n as u64,
        v: r.v,
        inverse: 0,
        n,
        c,
        negative: 0,
        k,
        held: 0,
    }
}

// The word that stands for a, whatever number a is.
pub fn enter(m: Modulus, a: u32) -> u32
    requires { Known m }
    ensures { Enters m a result }
{
    if m.held != 0 {
        return montgomery::enter(
            Form {
                n: m.n,
                k: m.negative,
                m: m.inverse,
                r2: m.c,
            },
            a,
        );
    }
    reduction::reduce(
        Reciprocal {
            n: m.n,
            v: m.v,
            c: m.c as u64,
        },
        a as u64,
    )
}

// What x stands for.
pub fn leave(m: Modulus, x: u32) -> u32
    requires { Known m }
    ensures { Leaves m x result }
{
    if m.held != 0 {
        return montgomery::leave(
            Form {
                n: m.n,
                k: m.negative,
                m: m.inverse,
                r2: m.c,
            },
            x,
        );
    }
    x
}

pub fn product(m: Modulus, x: u32, y: u32) -> u32
    requires { (Known m) × (x ≤ m.n) }
    ensures { Multiplies m x y result }
{
    if m.held != 0 {
        return montgomery::product(
            Form {
                n: m.n,
                k: m.negative,
                m: m.inverse,
                r2: m.c,
            },
            x,
            y,
        );
    }
    reduction::product(
        Reciprocal {
            n: m.n,
            v: m.v,
            c: m.c as u64,
        },
        x,
        y,
    )
}

// a times what x stands for.
pub fn times(m: Modulus, x: u32, a: u32) -> u32
    requires { (Known m) × (x ≤ m.n) }
    ensures { (result < m.n) × (result ≡ (value m x * a) % m.n) }
{
    if m.held != 0 {
        return montgomery::product(
            Form {
                n: m.n,
                k: m.negative,
                m: m.inverse,
                r2: m.c,
            },
            x,
            a,
        );
    }
    reduction::product(
        Reciprocal {
            n: m.n,
            v: m.v,
            c: m.c as u64,
        },
        x,
        a,
    )
}

pub fn multiply(m: Modulus, a: u32, b: u32) -> u32
    requires { Known m }
    ensures { result ≡ (a * b) % m.n }
{
    reduction::product(
        Reciprocal {
            n: m.n,
            v: m.v,
            c: m.c as u64,
        },
        a,
        b,
    )
}

// z + a b.
pub fn multiply_add(m: Modulus, z: u32, a: u32, b: u32) -> u32
    requires { Known m }
    ensures { result ≡ (z + a * b) % m.n }
{
    reduction::add_product(
        Reciprocal {
            n: m.n,
            v: m.v,
            c: m.c as u64,
        },
        z,
        a,
        b,
    )
}

// The same in both forms: the sum of words stands for the sum.
pub fn sum(m: Modulus, x: u32, y: u32) -> u32
    requires { (Known m) × ((x < m.n) × (y < m.n)) }
    ensures { Adds m x y result }
{
    let n = m.n;
    let h = n - y;
    if x >= h {
        return x - h;
    }
    x + y
}

pub fn difference(m: Modulus, x: u32, y: u32) -> u32
    requires { (Known m) × ((x < m.n) × (y < m.n)) }
    ensures { Subtracts m x y result }
{
    let n = m.n;
    if x >= y {
        return x - y;
    }
    x + (n - y)
}

// l x - c y.
pub fn difference_of(m: Modulus, l: u32, x: u32, c: u32, y: u32) -> u32
    requires known { Known m }
    requires l_lt_n { (l < m.n) × ((x < m.n) × ((c < m.n) × (y < m.n))) }
    ensures { (result < m.n) × (value m result ≡ (value m l * value m x + (m.n - value m c) * value m y) % m.n) }
{
    let n = m.n;
    if m.held != 0 {
        return montgomery::sum_three(
            Form {
                n,
                k: m.negative,
                m: m.inverse,
                r2: m.c,
            },
            l,
            x,
            n - c,
            y,
            0,
            0,
        );
    }
    reduction::sum_three(
        Reciprocal {
            n,
            v: m.v,
            c: m.c as u64,
        },
        l,
        x,
        n - c,
        y,
        0,
        0,
    )
}
