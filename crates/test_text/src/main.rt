// Polynomials as text on cases from outside: tools/text_figures.py writes them, and what must be answered.
//
// Each line of the input is a case: 1, n, how many bytes are lent, and the words to be written as text; or 2, n, how many words are lent,
// and the codes of the characters to be read. A line of the writer has the status, the number of characters, how many of the lent bytes
// are zero after them and how many as found after these, and the text; a line of the reader the status, the number of words, what became
// of the lent words, and the text that was read.
#![tactic(auto)]

ghost use Rattle.std.specs.Prelude.{◌≤◌, length};

use refusals::Answer;
use std::io;
use std::io::{BufReader, Read};
use test_lines::{MARK, put_count, put_name, size};

// What stands in lent bytes before a call.
const BYTE: u8 = 9;

const WRITE: u32 = 1;

// The place after the bytes that are x from place `at` on.
fn passed(text: &[u8], at: usize, x: u8) -> usize
    requires { at ≤ length text.now }
    ensures { (at ≤ result) × (result ≤ length text.now) }
{
    for i in at..text.len() {
        if text[i] != x {
            return i;
        }
    }
    text.len()
}

fn put_text(rt: &impl Print, text: &[u8]) -> io::Result<()> {
    put_name(rt, b" ")?;
    put_name(rt, text)
}

// What became of lent bytes of which the first are a text.
fn put_bytes(rt: &impl Print, text: &[u8], count: usize) -> io::Result<()> {
    if text.len() < count {
        return Ok(());
    }
    let zero = passed(text, count, 0);
    put_count(rt, zero - count)?;
    put_count(rt, passed(text, zero, BYTE) - zero)?;
    put_text(rt, &text[0..count])
}

fn writer_line(rt: &impl Print, n: u32, f: &[u32], text: &mut [u8]) -> io::Result<()> {
    text.fill(BYTE);
    let r: Answer = text_writer_service::write_text(n, f, text);
    test_lines::put_answer(rt, b"write", r.status, r.value)?;
    put_bytes(rt, text, r.value as usize)
}

fn reader_line(rt: &impl Print, n: u32, text: &[u8], words: &mut [u32]) -> io::Result<()> {
    let r: Answer = text_reader_service::read_text(n, text, words);
    test_lines::put_answer(rt, b"read", r.status, r.value)?;
    test_lines::put_lent(rt, words)?;
    put_text(rt, text)
}

// The same, with marked words.
fn mark(rt: &impl Print, n: u32, text: &[u8], words: &mut [u32]) -> io::Result<()> {
    test_lines::fill(words, MARK);
    reader_line(rt, n, text, words)
}

fn byte(x: u32) -> u8 {
    (x % 256) as u8
}

// The characters of these codes, as many as there is room for; how many they are.
fn characters(codes: &[u32], text: &mut [u8]) -> usize
    ensures { result ≤ length text.old }
{
    for i in 0..text.len() {
        if codes.len() <= i {
            return i;
        }
        text[i] = byte(codes[i]);
    }
    text.len()
}

// The words of a line; whether they were all there.
fn try_words(
    rt: &impl Print,
    words: &[u32],
    text: &mut [u8],
    room: &mut [u32],
) -> io::Result<bool> {
    if words.len() < 3 {
        return Ok(false);
    }
    let rest = &words[3..];
    if words[0] == WRITE {
        let k = size(words[2], text.len());
        writer_line(rt, words[1], rest, &mut text[0..k])?;
        return Ok(true);
    }
    let l = characters(rest, text);
    let k = size(words[2], room.len());
    mark(rt, words[1], &text[0..l], &mut room[0..k])?;
    Ok(true)
}

// The next line; whether there was one.
fn try_line(
    rt: &impl Print,
    input: &mut impl Read,
    line: &mut [u8],
    words: &mut [u32],
    text: &mut [u8],
    room: &mut [u32],
) -> io::Result<bool> {
    let count = test_lines::read_line(input, line, words)?;
    if !try_words(rt, &words[0..count], text, room)? {
        return Ok(false);
    }
    test_lines::end_line(rt)?;
    Ok(true)
}

// A proved loop has to end, and nothing says that an input does: it ends after a number of rounds that no run uses up.
fn run(
    rt: &impl Print,
    input: &mut impl Read,
    line: &mut [u8],
    words: &mut [u32],
    text: &mut [u8],
    room: &mut [u32],
) -> io::Result<()> {
    for _ in 0..u64::MAX {
        if !try_line(rt, input, line, words, text, room)? {
            break;
        }
    }
    Ok(())
}

fn main(rt: HostRuntime) -> io::Result<()> {
    let mut input = BufReader::new(rt.alloc(), rt.stdin())?;
    let mut line = [0u8; 4096];
    let mut words = [0u32; 820];
    let mut text = [0u8; 810];
    let mut room = [0u32; 52];
    run(&rt, &mut input, &mut line, &mut words, &mut text, &mut room)
}
