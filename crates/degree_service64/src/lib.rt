// The true degree of a polynomial, and its words up to there, as services, words of 64 bits: `degree_service` has the description.
// What is answered is its `Degree`: a degree is small, and a refusal the same, at every width.
//
//   true_degree          the place of the highest nonzero word, or none
//   true_degree_words    the same in three words
//   leading              the words up to that place, the caller's own
#![tactic(auto)]

ghost use Rattle.std.specs.Prelude.{◌≡◌};
ghost use Rattle.definitions.specs.Polynomials.{extent};
ghost use Rattle.refusals64.specs.Wide.{wide};
ghost use Rattle.degree_service.specs.DegreeService.{TrueDegreeAnswer, DegreeWordsAnswer, LeadingAnswer};

use degree_service::{Degree, DegreeAnswer};

// The number of words up to the highest nonzero one.
fn extent_of(f: &[u64]) -> usize
    ensures { result ≡ extent f.now }
{
    for j in (0..f.len()).rev() {
        if f[j] != 0 {
            return j + 1;
        }
    }
    0
}

// S18: "True degree: the place of the highest nonzero coefficient"; of a zero polynomial it "is now "none"".
pub fn true_degree(n: u64, f: &[u64]) -> Degree
    ensures { TrueDegreeAnswer wide n f.now result }
{
    if let Err(refusal) = refusals64::refusal_one(n, f) {
        return Degree::Refused(refusal);
    }
    let k = extent_of(f);
    if k == 0 {
        return Degree::None;
    }
    Degree::At((k - 1) as u32)
}

// The true degree in words: an enum cannot be handed to a host.
pub fn true_degree_words(n: u64, f: &[u64]) -> DegreeAnswer
    ensures { DegreeWordsAnswer wide n f.now result.some result.degree result.status }
{
    match true_degree(n, f) {
        Degree::None => DegreeAnswer {
            some: 0,
            degree: 0,
            status: 0,
        },
        Degree::At(k) => DegreeAnswer {
            some: 1,
            degree: k,
            status: 0,
        },
        Degree::Refused(refusal) => DegreeAnswer {
            some: 0,
            degree: 0,
            status: refusal.number(),
        },
    }
}

// "Another serves the words up to that place: they are handed back as a leading part of the caller's own words, not copied."
pub fn leading<'a>(n: u64, f: &'a [u64]) -> &'a [u64]
    ensures { LeadingAnswer wide n f.now result.now }
{
    let k = degree_service::words_up_to(true_degree(n, f));
    &f[0..k]
}
