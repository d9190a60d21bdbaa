// The true degree of a polynomial, and its words up to there, as services (S39, S40): from any words an answer, or a numbered refusal. The
// polynomial is lent words, the constant first.
//
//   true_degree          the place of the highest nonzero word, or none
//   true_degree_words    the same in three words
//   words_up_to          how many words there are up to that place
//   leading              the words up to that place, the caller's own
#![tactic(auto)]

ghost use Rattle.std.specs.Prelude.{◌≡◌};
ghost use Rattle.definitions.specs.Polynomials.{extent};
ghost use Rattle.refusals.specs.Refusals.{narrow};
ghost use Rattle.degree_service.specs.DegreeService.{words_told, TrueDegreeAnswer, DegreeWordsAnswer, LeadingAnswer};

use refusals::Refusal;

// None for the zero polynomial, the degree, or the refusal.
#[derive(Clone, Copy)]
pub enum Degree {
    None,
    At(u32),
    Refused(Refusal),
}

// The same for a host: some is 1 where there is a degree, else 0; status is 0 or the number of the refusal.
#[repr(C)]
#[derive(Clone, Copy)]
pub struct DegreeAnswer {
    pub some: u32,
    pub degree: u32,
    pub status: u32,
}

// The number of words up to the highest nonzero one.
fn extent_of(f: &[u32]) -> usize
    ensures { result ≡ extent f.now }
{
    for j in (0..f.len()).rev() {
        if f[j] != 0 {
            return j + 1;
        }
    }
    0
}

// S18: "True degree: the place of the highest nonzero coefficient"; of a zero polynomial it "is now "none"".
pub fn true_degree(n: u32, f: &[u32]) -> Degree
    ensures { TrueDegreeAnswer narrow n f.now result }
{
    if let Err(refusal) = refusals::refusal_one(n, f) {
        return Degree::Refused(refusal);
    }
    let k = extent_of(f);
    if k == 0 {
        return Degree::None;
    }
    Degree::At((k - 1) as u32)
}

// The true degree in words: an enum cannot be handed to a host.
pub fn true_degree_words(n: u32, f: &[u32]) -> DegreeAnswer
    ensures { DegreeWordsAnswer narrow n f.now result.some result.degree result.status }
{
    match true_degree(n, f) {
        Degree::None => DegreeAnswer {
            some: 0,
            degree: 0,
            status: 0,
        },
        Degree::At(k) => DegreeAnswer {
            some: 1,
            degree: k,
            status: 0,
        },
        Degree::Refused(refusal) => DegreeAnswer {
            some: 0,
            degree: 0,
            status: refusal.number(),
        },
    }
}

// The number of words up to the degree: none for the zero polynomial and after a refusal.
pub fn words_up_to(d: Degree) -> usize
    ensures { result ≡ words_told d }
{
    match d {
        Degree::None => 0,
        Degree::At(k) => k as usize + 1,
        Degree::Refused(_) => 0,
    }
}

// S40, S84: "Another serves the words up to that place: they are handed back as a leading part of the caller's own words, not copied."
pub fn leading<'a>(n: u32, f: &'a [u32]) -> &'a [u32]
    ensures { LeadingAnswer narrow n f.now result.now }
{
    let k = words_up_to(true_degree(n, f));
    &f[0..k]
}
