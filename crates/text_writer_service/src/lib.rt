// A polynomial as text (S55), as a service (S56): from any words an answer, or a numbered refusal. What a text is stands in
// text_notation/specs/Notation.antt, where characters are bytes by their codes.
//
//   put_number, put_power, put_plus, put_term    write one part from place `at` on, and answer the place after it
//   put_text                                     the text of lent words
//   refusal, write_text                          the first refusal that applies; the service
#![tactic(auto)]

ghost use Rattle.std.specs.Prelude.{◌≡◌, ◌+◌, ◌-◌, ◌≤◌, length, replicate};
ghost use Rattle.refusals.specs.Refusal.{status_of};
ghost use Rattle.refusals.specs.Refusals.{narrow};
ghost use Rattle.text_notation.specs.Notation.{decimal, power_text, text};
ghost use Rattle.text_writer_service.specs.Parts.{Put, Room, plus, added};
ghost use Rattle.text_writer_service.specs.TextWriter.{write_status, WriteAnswer};

use refusals::{Answer, Refusal};

// The code of the digit 0.
const ZERO: u32 = 48;

// The bytes that the writer needs.
pub const ROOM: usize = 800;

// The digits of x, the last of them after those of the rest.
fn put_number(out: &mut [u8], at: usize, x: u32) -> usize
    requires { at + length (decimal x) ≤ length out.old }
    ensures { Put (decimal x) at result out.old out.new }
{
    if x < 10 {
        out[at] = (ZERO + x) as u8;
        return at + 1;
    }
    let end = put_number(out, at, x / 10);
    out[end] = (ZERO + x % 10) as u8;
    end + 1
}

// S55: "for power 1 the two characters `*x`, for a higher power k the characters `*x^` and then k in decimal"
fn put_power(out: &mut [u8], at: usize, k: usize) -> usize
    requires { (at + length (power_text k) ≤ length out.old) × (k ≤ 48) }
    ensures { Put (power_text k) at result out.old out.new }
{
    if k == 0 {
        return at;
    }
    out[at] = b'*';
    out[at + 1] = b'x';
    if k == 1 {
        return at + 2;
    }
    out[at + 2] = b'^';
    put_number(out, at + 3, k as u32)
}

// S55: "joined by a plus sign": none before the first term
fn put_plus(out: &mut [u8], at: usize) -> usize
    requires { at + 1 ≤ length out.old }
    ensures { Put (plus at) at result out.old out.new }
{
    if at == 0 {
        return 0;
    }
    out[at] = b'+';
    at + 1
}

// The term of the coefficient c and power k, after the `at` characters before it; none where c is 0.
fn put_term(out: &mut [u8], at: usize, c: u32, k: usize) -> usize
    requires { (at + 16 ≤ length out.old) × (k ≤ 48) }
    ensures { Put (added at c k) at result out.old out.new }
{
    if c == 0 {
        return at;
    }
    let first = put_plus(out, at);
    let after = put_number(out, first, c);
    put_power(out, after, k)
}

// S55: "Terms run from high power to low": the text of f, and its length.
pub fn put_text(out: &mut [u8], f: &[u32]) -> usize
    requires { Room f.now out.old }
    ensures { Put (text f.now) 0 result out.old out.new }
{
    let mut at: usize = 0;
    for k in (0..f.len()).rev() {
        at = put_term(out, at, f[k], k);
    }
    if at == 0 {
        out[0] = b'0';
        return 1;
    }
    at
}

// Zeros from place `at` up to `end`.
fn put_zeros(out: &mut [u8], at: usize, end: usize)
    requires { (at ≤ end) × (end ≤ length out.old) }
    ensures { Put (replicate (end - at) 0) at end out.old out.new }
{
    for i in at..end {
        out[i] = 0;
    }
}

// Refusals 1, 2, 3 and 6; l bytes are lent.
fn refusal(n: u32, f: &[u32], l: usize) -> Result<(), Refusal>
    ensures { status_of result ≡ write_status narrow n f.now l }
{
    refusals::refusal_one(n, f)?;
    refusals::room(l, ROOM, Refusal::ShortResult)
}

// S56: "the writer answers the number of characters and needs 800 bytes, zeros above"
pub fn write_text(n: u32, f: &[u32], text: &mut [u8]) -> Answer
    ensures { WriteAnswer narrow n f.now text.old text.new result.value result.status }
{
    if let Err(refusal) = refusal(n, f, text.len()) {
        return Answer::from(refusal);
    }
    let count = put_text(text, f);
    put_zeros(text, count, ROOM);
    Answer {
        value: count as u32,
        status: 0,
    }
}
