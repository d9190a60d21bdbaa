// A text as a polynomial (paper 02, W13), as a service: from any bytes an answer, or a numbered refusal. What a text is stands in
// text_notation/specs/Notation.antt. "A text that is read is the text that would be written": the characters are gathered into
// words with no eye to their order (`text_gathering`), those words are written, and any other text than that is refused.
//
//   put_words, hand_over, read_words   words into the lent buffer, and the answer
//   read_text                          the service
#![tactic(auto)]

ghost use Rattle.std.specs.Prelude.{◌≡◌, false, ◌++◌, ◌≤◌, length, take, drop};
ghost use Rattle.refusals.specs.Refusals.{narrow, bad_modulus_of};
ghost use Rattle.text_reader_service.specs.TextReader.{HandedOver, WordsAnswer, ReadAnswer};

use degree_service::Degree;
use refusals::{Answer, Refusal};

// The words that the reader needs.
const ROOM: usize = 49;

// The characters of the longest text (text_notation/proofs/Lengths.antt).
const LONGEST: usize = 767;

// The first count words of f, at the front of the words lent.
fn put_words(f: &[u32], count: usize, words: &mut [u32])
    requires { (count ≤ length f.now) × (count ≤ length words.old) }
    ensures { words.new ≡ take count f.now ++ drop count words.old }
{
    for i in 0..count {
        words[i] = f[i];
    }
}

// The 49 words f are handed over, the first count of them the polynomial: "needs 49 words, zeros above".
fn hand_over(f: &[u32], count: u32, words: &mut [u32]) -> Answer
    requires { length f.now ≡ 49 }
    ensures { HandedOver f.now count words.old words.new result.value result.status }
{
    if words.len() < ROOM {
        return Answer::from(Refusal::ShortResult);
    }
    put_words(f, ROOM, words);
    Answer {
        value: count,
        status: 0,
    }
}

// The 49 words f that a text spells: each below n, or refusal 17. A zero polynomial has no degree: it "comes back as the single word 0".
fn read_words(n: u32, f: &[u32], words: &mut [u32]) -> Answer
    requires { (bad_modulus_of narrow n ≡ false) × (length f.now ≡ 49) }
    ensures { WordsAnswer n f.now words.old words.new result.value result.status }
{
    match degree_service::true_degree(n, f) {
        Degree::None => hand_over(f, 1, words),
        Degree::At(k) => hand_over(f, k + 1, words),
        Degree::Refused(_) => Answer::from(Refusal::NoText),
    }
}

// "The reader answers the number of words". A text of more than 767 characters is not of the notation (text_notation/proofs/Lengths.antt)
// and is refused unread.
#[tactic(auto, using(crate::proofs::ReadReturns::by_text))]
pub fn read_text(n: u32, text: &[u8], words: &mut [u32]) -> Answer
    ensures { ReadAnswer narrow n text.now words.old words.new result.value result.status }
{
    if refusals::bad_modulus(n) {
        return Answer::from(Refusal::BadModulus);
    }
    if LONGEST < text.len() {
        return Answer::from(Refusal::NoText);
    }
    let mut f = [0u32; ROOM];
    text_gathering::gather(text, &mut f);
    if text_gathering::is_text_of(text, &f) {
        read_words(n, &f, words)
    } else {
        Answer::from(Refusal::NoText)
    }
}
