// The words that a text comes to, and whether a text is that of lent words. The characters are gathered with no eye to their order: what
// they come to is no polynomial until its text is the same.
//
//   number_after, coefficient_after    the number and the coefficient being read, after one more character
//   store, end_term, gather            the words that a text comes to
//   same_text, is_text_of              whether a text is that of lent words
#![tactic(auto)]

ghost use Rattle.std.specs.Prelude.{◌≡◌, cond, ◌≤◌, eqb, length};
ghost use Rattle.text_notation.specs.Notation.{text};
ghost use Rattle.text_notation.specs.Candidates.{number_after_of, coefficient_after_of, stored, gathered, same_text_of};
ghost use Rattle.text_gathering.specs.InWord.{in_word};

// The largest word: no residue, and no power.
const LARGEST: u32 = 4294967295;

// A plus sign, a star and a circumflex begin a number, and `x` alone is power 1. Any other character counts as a digit. A number
// that does not fit in a word counts as the largest word, which is no residue and no power.
fn number_after(b: u8, x: u32) -> u32
    ensures { result ≡ number_after_of in_word b x }
{
    if b == b'+' {
        return 0;
    }
    if b == b'*' {
        return 0;
    }
    if b == b'^' {
        return 0;
    }
    if b == b'x' {
        return 1;
    }
    let y = (x as u64) * 10 + ((b % 16) as u64);
    if y < 4294967296 {
        return y as u32;
    }
    LARGEST
}

// The number before a star is a coefficient, up to the next plus sign.
fn coefficient_after(b: u8, c: u32, x: u32) -> u32
    ensures { result ≡ coefficient_after_of b c x }
{
    if b == b'+' {
        return 0;
    }
    if b == b'*' {
        return x;
    }
    c
}

// The coefficient c of power x, or the number x alone where there is none. Other powers than the words have are left out.
fn store(c: u32, x: u32, words: &mut [u32])
    requires { 1 ≤ length words.old }
    ensures { words.new ≡ stored c x words.old }
{
    if c == 0 {
        words[0] = x;
        return;
    }
    let k = x as usize;
    if k < words.len() {
        words[k] = c;
    }
}

// A plus sign ends a term.
fn end_term(b: u8, c: u32, x: u32, words: &mut [u32])
    requires { 1 ≤ length words.old }
    ensures { words.new ≡ cond (eqb b 43) (stored c x words.old) words.old }
{
    if b != b'+' {
        return;
    }
    store(c, x, words);
}

// Every term of s to its place.
pub fn gather(s: &[u8], words: &mut [u32])
    requires { 1 ≤ length words.old }
    ensures { words.new ≡ gathered in_word s.now 0 0 words.old }
{
    let mut c: u32 = 0;
    let mut x: u32 = 0;
    for &b in s {
        end_term(b, c, x, words);
        c = coefficient_after(b, c, x);
        x = number_after(b, x);
    }
    store(c, x, words);
}

fn same_text(s: &[u8], t: &[u8]) -> bool
    ensures { result ≡ same_text_of s.now t.now }
{
    s == t
}

// Whether s is the text of the words f.
pub fn is_text_of(s: &[u8], f: &[u32]) -> bool
    requires { length f.now ≤ 49 }
    ensures { result ≡ same_text_of s.now (text f.now) }
{
    let mut t = [0u8; text_writer_service::ROOM];
    let count = text_writer_service::put_text(&mut t, f);
    same_text(s, &t[0..count])
}
