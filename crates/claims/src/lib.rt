// The three tests of a claim from elsewhere (S47): a number D and two multipliers u and v for f and g modulo n.
//
//   divides                            the first: D divides n
//   longest, combined_word, combines   the second: u f + v g is D modulo n, one coefficient at a time; nothing is stored
//   is_reduced                         the third: D is the reduced resultant
//   Failure, number                    one of the three that fails, and its number
//   judge                              the first of the three that fails
#![tactic(auto)]

ghost use Rattle.std.specs.Prelude.{◌≡◌, max, ◌+◌, ◌-◌, ◌%◌, ◌≤◌, length};
ghost use Rattle.std.specs.Int.{◌∣◌};
ghost use Rattle.definitions.specs.Polynomials.{coef, convolve};
ghost use Rattle.definitions.specs.Resultants.{Combination, Reduced};
ghost use Rattle.windows.specs.Window.{Scratch};
ghost use Rattle.divisor.specs.Sizes.{DivisorLengthsAsked};
ghost use Rattle.claims.specs.Claims.{Judged, Tells, ClaimLengthsAsked, ClaimAsked};
ghost use Rattle.claims.specs.Failures.{number_failing};

// What a claim is refuted by, under its number: D does not divide n, the combination does not give D, D is not the reduced resultant.
#[derive(Clone, Copy, Debug, PartialEq, Eq)]
pub enum Failure {
    Divisor = 1,
    Combination = 2,
    Reduced = 3,
}

impl Failure {
    ghost use Rattle.claims.specs.Failures.{failure_number};

    // Its number, which a host is told.
    pub fn number(self) -> u32
        ensures { result ≡ failure_number self }
    {
        self as u32
    }
}

// S47: "0 divides no n"
#[tactic(auto, using(crate::proofs::Testing::tests))]
fn divides(n: u32, d: u32) -> bool
    requires { 1 ≤ n }
    ensures { Tells result (d ∣ n) }
{
    d != 0 && n % d == 0
}

// The words of the longer of the products u f and v g.
fn longest(f: &[u32], g: &[u32], u: &[u32], v: &[u32]) -> usize
    requires { ClaimLengthsAsked f.now g.now u.now v.now }
    ensures { result ≡ max (length u.now + length f.now - 1)
        (length v.now + length g.now - 1) }
{
    let a = u.len() + f.len();
    let b = v.len() + g.len();
    if a < b {
        return b - 1;
    }
    a - 1
}

// Word k of u f + v g.
fn combined_word(n: u32, f: &[u32], g: &[u32], u: &[u32], v: &[u32], k: usize) -> u32
    requires { 1 ≤ n }
    ensures { result ≡ (convolve (coef u.now) (coef f.now) k
        + convolve (coef v.now) (coef g.now) k) % n }
{
    let a = convolution::product_word(n, u, f, k);
    let b = convolution::product_word(n, v, g, k);
    arithmetic::add_mod(n, a, b)
}

// S47: "the combination gives D modulo n": the constant is D, and each word above it up to the longer product is 0.
fn combines(n: u32, f: &[u32], g: &[u32], d: u32, u: &[u32], v: &[u32]) -> bool
    requires { ClaimAsked n f.now g.now u.now v.now }
    ensures { Tells result (Combination n f.now g.now u.now v.now d) }
{
    if combined_word(n, f, g, u, v, 0) != d % n {
        return false;
    }
    for k in 1..longest(f, g, u, v) {
        if combined_word(n, f, g, u, v, k) != 0 {
            return false;
        }
    }
    true
}

// S47: "D is the reduced resultant as defined": there is one, and the run finds it.
fn is_reduced(work: &mut [u32], n: u32, f: &[u32], g: &[u32], d: u32) -> bool
    requires { (2 ≤ n) × DivisorLengthsAsked f.now g.now work.old }
    ensures tells { Tells result (Reduced n f.now g.now d) }
    ensures scratch { Scratch work.old work.new }
{
    let found = divisor::run(work, n, f, g);
    found == d
}

// Whether D divides n, the combination gives D and D is the reduced resultant, else the first of these that fails.
pub fn judge(
    work: &mut [u32],
    n: u32,
    f: &[u32],
    g: &[u32],
    d: u32,
    u: &[u32],
    v: &[u32],
) -> Result<(), Failure>
    requires { ClaimAsked n f.now g.now u.now v.now × (8192 ≤ length work.old) }
    ensures judged { Judged (number_failing result) n f.now g.now d u.now v.now }
    ensures scratch { Scratch work.old work.new }
{
    let divides_n = divides(n, d);
    let gives_d = combines(n, f, g, d, u, v);
    if !divides_n {
        return Err(Failure::Divisor);
    }
    if !gives_d {
        return Err(Failure::Combination);
    }
    if !is_reduced(work, n, f, g, d) {
        return Err(Failure::Reduced);
    }
    Ok(())
}
