// The sixteen places of the factors present, as words: where a number stands, the degrees and the resultants together, and the refusals
// that go by them. A place is free where its number is 0.
//
//   place_of                     the first place that has a number
//   degree_sum, multiplied       the sum of the degrees and the product of the resultants
//   taken, absent, full          what refuses an arrival with 14, a leaving with 14, an arrival with 13
//   arrival_refusal, leaving_refusal      the refusals in their order
#![tactic(auto)]

ghost use Rattle.std.specs.Prelude.{◌≡◌, ◌≤◌};
ghost use Rattle.refusals.specs.Refusal.{status_of};
ghost use Rattle.refusals.specs.Refusals.{narrow, first_refusal};
ghost use Rattle.factor_places.specs.Places.{first_place_of, sum, multiplied, taken, absent, full, arrival_tests, leaving_tests};

use refusals::Refusal;

// The places of factors.
pub const PLACES: usize = 16;

// The first place that has the number k, or 16 where none has.
pub fn place_of(number: [u16; PLACES], k: u16) -> usize
    ensures { result ≡ first_place_of k number }
{
    for i in 0..PLACES {
        if number[i] == k {
            return i;
        }
    }
    PLACES
}

fn wide(x: u32) -> u64
    ensures { (result ≡ x) × (result ≤ 4294967295) }
{
    x as u64
}

fn degree_sum(degree: [u32; PLACES]) -> u64
    ensures { (result ≡ sum degree) × (result ≤ 68719476720) }
{
    let mut s: u64 = 0;
    for i in (0..PLACES).rev() {
        s += wide(degree[i]);
    }
    s
}

// The product of the resultants modulo n.
pub fn multiplied(n: u32, resultant: [u32; PLACES]) -> u32
    requires { 2 ≤ n }
    ensures { result ≡ multiplied n resultant }
{
    let mut p: u32 = 1;
    for i in (0..PLACES).rev() {
        p = arithmetic::mul_mod(n, resultant[i], p);
    }
    p
}

// "a number 0 or one already held on arrival"
fn taken(number: [u16; PLACES], k: u16) -> bool
    ensures { result ≡ taken k number }
{
    k == 0 || place_of(number, k) < PLACES
}

// "a number 0 or … one not held on leaving"
fn absent(number: [u16; PLACES], k: u16) -> bool
    ensures { result ≡ absent k number }
{
    k == 0 || PLACES <= place_of(number, k)
}

// "a seventeenth factor or a summed degree above 48"
fn full(number: [u16; PLACES], degree: [u32; PLACES], d: usize) -> bool
    requires { d ≤ 48 }
    ensures { result ≡ full d number degree }
{
    if PLACES <= place_of(number, 0) {
        return true;
    }
    let sum = degree_sum(degree) + (d as u64);
    (refusals::MAX_DEGREE as u64) < sum
}

// The refusals of an arrival beside h, where room is the number of working words.
pub fn arrival_refusal(
    n: u32,
    number: [u16; PLACES],
    degree: [u32; PLACES],
    k: u16,
    f: &[u32],
    h: &[u32],
    room: usize,
) -> Result<(), Refusal>
    ensures { status_of result ≡ first_refusal (arrival_tests narrow n number degree k f.now h.now room) }
{
    refusals::refusal_of_pair(n, f, h)?;
    if taken(number, k) {
        return Err(Refusal::BadNumber);
    }
    if full(number, degree, f.len() - 1) {
        return Err(Refusal::FactorsFull);
    }
    refusals::room(room, refusals::WORKING_WORDS, Refusal::ShortWork)
}

// The refusals of a leaving.
pub fn leaving_refusal(n: u32, number: [u16; PLACES], k: u16) -> Result<(), Refusal>
    ensures { status_of result ≡ first_refusal (leaving_tests narrow n number k) }
{
    if refusals::bad_modulus(n) {
        return Err(Refusal::BadModulus);
    }
    if absent(number, k) {
        Err(Refusal::BadNumber)
    } else {
        Ok(())
    }
}
