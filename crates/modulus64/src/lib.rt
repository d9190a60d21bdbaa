// The operations on words of a modulus of 64 bits, as `modulus` has them at 32 bits. Words are as they are: each stands for itself, and the
// contracts say so by the record `plain m`, the modulus n with plain words, so that what is proved of the 32-bit record holds here.
//
//   enter, leave                 a number made a word, and a word made the residue that it stands for
//   product, difference          of words
//   difference_of                l x - c y
//   times                        a word times a number: a number
//   multiply                     numbers
//
//   m          the modulus with its reciprocal
//   x, y, l    words below n
//   a, b       numbers
#![tactic(auto)]

ghost use Rattle.std.specs.Prelude.{◌≡◌, ◌+◌, ◌-◌, ◌*◌, ◌%◌, ◌<◌, ◌≤◌};
ghost use Rattle.reduction64.specs.Moduli.{Ready};
ghost use Rattle.modulus.specs.Values.{value, Enters, Leaves, Multiplies, Subtracts};
ghost use Rattle.modulus64.specs.Plain.{plain};

use reduction64::Reciprocal;

// The word that stands for a, whatever number a is.
pub fn enter(m: Reciprocal, a: u64) -> u64
    requires { Ready m }
    ensures { Enters (plain m) a result }
{
    reduction64::residue(m.n, a)
}

// What x stands for.
pub fn leave(m: Reciprocal, x: u64) -> u64
    ensures { Leaves (plain m) x result }
{
    x
}

pub fn product(m: Reciprocal, x: u64, y: u64) -> u64
    requires { (Ready m) × (x ≤ m.n) }
    ensures { Multiplies (plain m) x y result }
{
    reduction64::product(m, x, y)
}

// a times what x stands for.
pub fn times(m: Reciprocal, x: u64, a: u64) -> u64
    requires { (Ready m) × (x ≤ m.n) }
    ensures { (result < m.n) × (result ≡ (value (plain m) x * a) % m.n) }
{
    reduction64::product(m, x, a)
}

pub fn multiply(m: Reciprocal, a: u64, b: u64) -> u64
    requires { Ready m }
    ensures { result ≡ (a * b) % m.n }
{
    reduction64::product(m, a, b)
}

pub fn difference(m: Reciprocal, x: u64, y: u64) -> u64
    requires { (Ready m) × ((x < m.n) × (y < m.n)) }
    ensures { Subtracts (plain m) x y result }
{
    reduction64::difference(m, x, y)
}

// l x - c y.
pub fn difference_of(m: Reciprocal, l: u64, x: u64, c: u64, y: u64) -> u64
    requires ready { Ready m }
    requires l_lt_n { (l < m.n) × ((x < m.n) × ((c < m.n) × (y < m.n))) }
    ensures { (result < m.n) × (value (plain m) result ≡ (value (plain m) l * value (plain m) x
        + (m.n - value (plain m) c) * value (plain m) y) % m.n) }
{
    reduction64::sum_three(m, l, x, m.n - c, y, 0, 0)
}
