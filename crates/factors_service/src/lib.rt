// A product whose factors come and go: one h, at most 16 factors, each under a number, and the resultant of their product with h.
// Of a factor only its degree and its resultant with h are kept: the resultant of a product is the product of the resultants, so a
// factor leaves by giving up its place, also where its resultant is a zero divisor. The places, and what refuses a call, are in
// `factor_places`.
//
//   Factors, FactorsAnswer        start, arrive, leave and read take and hand back the state by value; a status beside it
//   padded, served_length         h with zeros above; how many of its words are read
//   replaced_at                   the state with another factor, or none, in a place
//   arrive_served, arrive_beside     an arrival, with h, that nothing refuses; one that may be refused
//   start, arrive, leave, read   the services
#![tactic(auto)]

ghost use Rattle.std.specs.Prelude.{◌≡◌, ◌-◌, ◌<◌, ◌≤◌, ◌++◌, length, replicate};
ghost use Rattle.refusals.specs.Refusals.{narrow};
ghost use Rattle.factors_service.specs.FactorsService.{served_length_of, state_h, replaced_at_of};
ghost use Rattle.factors_service.specs.FactorsService.{StartAnswer, ArriveAsked, ArriveAnswer, LeaveAnswer, ReadingAnswer};

use factor_places::PLACES;
use refusals::{Answer, MAX_LENGTH, Refusal};

// A place is free where its number is 0; degree 0 and resultant 1 stand there. h has len words, zeros above.
#[repr(C)]
#[derive(Clone, Copy)]
pub struct Factors {
    pub n: u32,
    pub len: u32,
    pub h: [u32; MAX_LENGTH],
    pub number: [u16; PLACES],
    pub degree: [u32; PLACES],
    pub resultant: [u32; PLACES],
}

#[repr(C)]
#[derive(Clone, Copy)]
pub struct FactorsAnswer {
    pub factors: Factors,
    pub status: u32,
}

fn padded(h: &[u32]) -> [u32; MAX_LENGTH]
    requires { length h.now ≤ 49 }
    ensures { result ≡ h.now ++ replicate (49 - length h.now) 0 }
{
    let mut words = [0u32; MAX_LENGTH];
    for i in 0..h.len() {
        words[i] = h[i];
    }
    words
}

// The number of words of h that a state holds: of any state, so it may be no length.
fn served_length(len: u32) -> usize
    ensures { (result ≡ served_length_of len) × (result ≤ 49) }
{
    let count = len as usize;
    if MAX_LENGTH < count {
        return 0;
    }
    count
}

// No factor is present.
pub fn start(n: u32, h: &[u32]) -> FactorsAnswer
    ensures { StartAnswer narrow n h.now result.factors result.status }
{
    if let Err(refusal) = refusals::refusal_one(n, h) {
        let factors = Factors {
            n: 0,
            len: 0,
            h: [0; MAX_LENGTH],
            number: [0; PLACES],
            degree: [0; PLACES],
            resultant: [0; PLACES],
        };
        return FactorsAnswer {
            factors,
            status: refusal.number(),
        };
    }
    let words = padded(h);
    let factors = Factors {
        n,
        len: h.len() as u32,
        h: words,
        number: [0; PLACES],
        degree: [0; PLACES],
        resultant: [1; PLACES],
    };
    FactorsAnswer { factors, status: 0 }
}

// s with the number k, the degree d and the resultant x in place i.
fn replaced_at(s: Factors, i: usize, k: u16, d: u32, x: u32) -> Factors
    requires { i < 16 }
    ensures { result ≡ replaced_at_of s i k d x }
{
    let h = s.h;
    let mut number = s.number;
    let mut degree = s.degree;
    let mut resultant = s.resultant;
    number[i] = k;
    degree[i] = d;
    resultant[i] = x;
    Factors {
        n: s.n,
        len: s.len,
        h,
        number,
        degree,
        resultant,
    }
}

// The factor f arrives where h is that of the state and nothing refuses it.
fn arrive_served(s: Factors, k: u16, f: &[u32], h: &[u32], work: &mut [u32]) -> Factors
    requires { ArriveAsked s k f.now h.now work.old }
    ensures { ArriveAnswer narrow s k f.now work.old work.new result 0 }
{
    let number = s.number;
    let i = factor_places::place_of(number, 0);
    let d = (f.len() - 1) as u32;
    let a = resultant_service::resultant(s.n, f, h, work);
    replaced_at(s, i, k, d, a.value)
}

// The factor f arrives, or is refused, where h is that of the state.
fn arrive_beside(s: Factors, k: u16, f: &[u32], h: &[u32], work: &mut [u32]) -> FactorsAnswer
    requires { h.now ≡ state_h s }
    ensures { ArriveAnswer narrow s k f.now work.old work.new result.factors result.status }
{
    let number = s.number;
    let degree = s.degree;
    if let Err(refusal) = factor_places::arrival_refusal(s.n, number, degree, k, f, h, work.len()) {
        return FactorsAnswer {
            factors: s,
            status: refusal.number(),
        };
    }
    let factors = arrive_served(s, k, f, h, work);
    FactorsAnswer { factors, status: 0 }
}

// The factor f under the number k.
pub fn arrive(s: Factors, k: u16, f: &[u32], work: &mut [u32]) -> FactorsAnswer
    ensures { ArriveAnswer narrow s k f.now work.old work.new result.factors result.status }
{
    let words = s.h;
    let len = served_length(s.len);
    arrive_beside(s, k, f, &words[0..len], work)
}

// The factor with the number k leaves.
pub fn leave(s: Factors, k: u16) -> FactorsAnswer
    ensures { LeaveAnswer narrow s k result.factors result.status }
{
    let number = s.number;
    if let Err(refusal) = factor_places::leaving_refusal(s.n, number, k) {
        return FactorsAnswer {
            factors: s,
            status: refusal.number(),
        };
    }
    let i = factor_places::place_of(number, k);
    let factors = replaced_at(s, i, 0, 0, 1);
    FactorsAnswer { factors, status: 0 }
}

// The resultant of the product of the factors present with h.
pub fn read(s: Factors) -> Answer
    ensures { ReadingAnswer narrow s result.value result.status }
{
    if refusals::bad_modulus(s.n) {
        return Answer::from(Refusal::BadModulus);
    }
    let resultant = s.resultant;
    let value = factor_places::multiplied(s.n, resultant);
    Answer { value, status: 0 }
}
