// The runs of a frame's job, each on as many of the working words as it needs: those are wiped, and the others are zeros already.
//
//   f, g      the polynomials of the job
//   work      the working words, all zero before a run and after it
//   w, part   the part of them that is lent to a run
//
//   ordered      the resultant by Euclid without inverses, where f has no more words than g; or nothing
//   either       the same either way round
//   euclid       the same, and the words lent are zeros again
//   general      the resultant by the general run, which may need all working words
//   euclid_first the resultant: Euclid first, on as many words as f and g have
//   small_prime_divides    where the general run is called at once
//   resultant    the resultant
//   divisor      D on the words lent, and they are zeros again
//   reduced      D, on as many words as its run asks for
#![tactic(auto)]

ghost use Rattle.std.specs.Prelude.{◌≡◌, ◌≤◌, length, replicate};
ghost use Rattle.definitions.specs.Resultants.{resultant, Reduced};
ghost use Rattle.windows.specs.Window.{Scratch};
ghost use Rattle.coprime_test.specs.CoprimeAttempted.{TestLengthsAsked};
ghost use Rattle.resultant_pseudo.specs.StandingRuns.{EuclidAttempted};
ghost use Rattle.divisor.specs.Sizes.{DivisorLengthsAsked};
ghost use Rattle.frame_runs.specs.Jobs.{EuclidAsked, JobAsked};

use resultant_pseudo::NotUnit;

// Euclid without inverses: the value, or nothing where some leading word is no unit.
fn ordered(w: &mut [u32], n: u32, f: &[u32], g: &[u32]) -> Result<u32, NotUnit<u32>>
    requires { (2 ≤ n) × (TestLengthsAsked f.now g.now w.old × (length f.now ≤ length g.now)) }
    ensures euclid_attempted { EuclidAttempted n (resultant n f.now g.now) result }
    ensures scratch { Scratch w.old w.new }
{
    let l = f.len();
    let k = g.len();
    let m = modulus::modulus_of(n);
    modulus_windows::load(w, 0, f, m);
    modulus_windows::load(w, l, g, m);
    resultant_euclid::attempt(w, m, 0, l - 1, l, k - 1)
}

// A swap costs the sign (-1)^(d e).
fn either(w: &mut [u32], n: u32, f: &[u32], g: &[u32]) -> Result<u32, NotUnit<u32>>
    requires { EuclidAsked n f.now g.now w.old }
    ensures euclid_attempted { EuclidAttempted n (resultant n f.now g.now) result }
    ensures scratch { Scratch w.old w.new }
{
    if f.len() <= g.len() {
        return ordered(w, n, f, g);
    }
    match ordered(w, n, g, f) {
        Ok(v) => Ok(resultant_signs::with_sign(n, (f.len() - 1) * (g.len() - 1), v)),
        Err(x) => Err(x),
    }
}

fn euclid(w: &mut [u32], n: u32, f: &[u32], g: &[u32]) -> Result<u32, NotUnit<u32>>
    requires { EuclidAsked n f.now g.now w.old }
    ensures euclid_attempted { EuclidAttempted n (resultant n f.now g.now) result }
    ensures w_after { w.new ≡ replicate (length w.old) 0 }
{
    let r = either(w, n, f, g);
    windows::wipe(w);
    r
}

fn general(n: u32, f: &[u32], g: &[u32], work: &mut [u32]) -> u32
    requires { JobAsked n f.now g.now work.old }
    ensures value { result ≡ resultant n f.now g.now }
    ensures work_after { work.new ≡ replicate (length work.old) 0 }
{
    let value = resultant::run(work, n, f, g);
    windows::wipe(work);
    value
}

fn euclid_first(n: u32, f: &[u32], g: &[u32], work: &mut [u32]) -> u32
    requires { JobAsked n f.now g.now work.old }
    ensures value { result ≡ resultant n f.now g.now }
    ensures work_after { work.new ≡ replicate (length work.old) 0 }
{
    let room = f.len() + g.len();
    match euclid(&mut work[0..room], n, f, g) {
        Ok(v) => v,
        Err(_) => general(n, f, g, work),
    }
}

// Whether 2, 3, 5 or 7 divides n. Modulo such an n some leading word is a zero divisor nearly always, and Euclid without inverses finds
// nothing.
fn small_prime_divides(n: u32) -> bool {
    if n % 2 == 0 {
        return true;
    }
    if n % 3 == 0 {
        return true;
    }
    if n % 5 == 0 {
        return true;
    }
    n % 7 == 0
}

// Whichever way is taken, the value is the resultant.
pub fn resultant(n: u32, f: &[u32], g: &[u32], work: &mut [u32]) -> u32
    requires { JobAsked n f.now g.now work.old }
    ensures value { result ≡ resultant n f.now g.now }
    ensures work_after { work.new ≡ replicate (length work.old) 0 }
{
    if small_prime_divides(n) {
        return general(n, f, g, work);
    }
    euclid_first(n, f, g, work)
}

fn divisor(part: &mut [u32], n: u32, f: &[u32], g: &[u32]) -> u32
    requires { (2 ≤ n) × DivisorLengthsAsked f.now g.now part.old }
    ensures reduced { Reduced n f.now g.now result }
    ensures part_after { part.new ≡ replicate (length part.old) 0 }
{
    let value = divisor::run(part, n, f, g);
    windows::wipe(part);
    value
}

// The run for D asks for 245 words.
pub fn reduced(n: u32, f: &[u32], g: &[u32], work: &mut [u32]) -> u32
    requires { JobAsked n f.now g.now work.old }
    ensures reduced { Reduced n f.now g.now result }
    ensures work_after { work.new ≡ replicate (length work.old) 0 }
{
    divisor(&mut work[0..245], n, f, g)
}
