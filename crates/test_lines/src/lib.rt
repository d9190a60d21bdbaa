// What every trial program reads and writes with: cases from standard input, a line of numbers each, and answers to standard output, a
// line each. Which decimal numbers a line has, and what is written, no contract says: the program's output is compared with a stored one.
//
//   read_line                                      the numbers of the next line
//   size                                           a length among them
//   next_line, spelt, spelt_words                  a line of hexadecimal digits without blanks, such as a frame
//   put_name, put, put_count, put_words, end_line  a line's parts
//   put_answer, put_lent, put_working              what a service answered, what became of a result and of a working buffer
//   put_digit, put_short                           small numbers as one character each, for a line of many answers
//   put_hexadecimal                                a number in so many digits
//   MARK, fill, ending                             what stands in lent words before a call, and how many at the end are one number
//   X64, WIDE_MARK                                 the same for words of 64 bits
#![tactic(auto)]

ghost use Rattle.std.specs.Prelude.{◌+◌, ◌-◌, ◌*◌, ◌%◌, ◌≤◌, ◌<◌, min, ◌≡◌, length, replicate, IfOk, OnErr};
ghost use Rattle.test_lines.specs.Lines.{Ending, FrontWritten, hexadecimal, spelled, part};

use std::io;
use std::io::Read;

// What stands in the lent words before a call.
pub const MARK: u32 = 2882400001;

pub const WIDE_MARK: u64 = 12379813738877118345;

// ---- what is read

// Reads a character to place k; false at a newline and at the input's end.
fn read_to(input: &mut impl Read, line: &mut [u8], k: usize) -> io::Result<bool>
    requires { k < length line.old }
{
    let got = input.read(&mut line[k..k + 1])?;
    Ok(if got > 0 { line[k] != b'\n' } else { false })
}

// The characters up to the next newline, the input's end or the end of the room; how many they are. What stands after them is any, and
// after a read that failed all are.
pub fn next_line(input: &mut impl Read, line: &mut [u8]) -> io::Result<usize>
    ensures { IfOk result (λ count. count ≤ length line.new) }
{
    for l in 0..line.len() {
        if !read_to(input, line, l)? {
            return Ok(l);
        }
    }
    Ok(line.len())
}

// A number, and the place after the character that ends it.
#[derive(Drop)]
struct Token {
    value: u32,
    next: usize,
}

// The number with one digit more, modulo 2^32.
fn with_digit(x: u64, c: u8) -> u64
    requires { (x ≤ 4294967295) × (48 ≤ c) }
    ensures { result ≤ 4294967295 }
{
    (x * 10 + (c - b'0') as u64) % 4294967296
}

// The number whose digits begin at place `at`, modulo 2^32: a character that comes before the digits ends it.
fn number_at(text: &[u8], at: usize) -> Token
    requires { at < length text.now }
    ensures { (at < result.next) × (result.next ≤ length text.now) }
{
    let mut x: u64 = 0;
    for i in at..text.len() {
        if text[i] < b'0' {
            return Token {
                value: x as u32,
                next: i + 1,
            };
        }
        x = with_digit(x, text[i]);
    }
    Token {
        value: x as u32,
        next: text.len(),
    }
}

// The numbers of a line, as many as there is room for; how many they are.
fn numbers(text: &[u8], words: &mut [u32]) -> usize
    ensures { FrontWritten words.old words.new result }
{
    let mut at: usize = 0;
    for k in 0..words.len() {
        if text.len() <= at {
            return k;
        }
        let t = number_at(text, at);
        words[k] = t.value;
        at = t.next;
    }
    words.len()
}

// Reads the next line, decimal numbers below 2^32 with a blank between, into the front of words; how many they are, 0 at the end of the
// input. The line has at most as many characters as `line`, whose bytes are then any. A read that failed leaves the words as they were.
pub fn read_line(input: &mut impl Read, line: &mut [u8], words: &mut [u32]) -> io::Result<usize>
    ensures ok { IfOk result (λ count. FrontWritten words.old words.new count) }
    ensures err { OnErr result (words.new ≡ words.old) }
{
    let l = next_line(input, line)?;
    Ok(numbers(&line[0..l], words))
}

// A length, never above `most`.
pub fn size(x: u32, most: usize) -> usize
    ensures { result ≡ min x most }
{
    if most < x as usize {
        return most;
    }
    x as usize
}

// ---- hexadecimal lines

// The value of a digit, 0 for any other character.
fn digit(c: u8) -> u64
    ensures { (result ≡ hexadecimal c) × (result ≤ 15) }
{
    if c < b'0' {
        return 0;
    }
    if c <= b'9' {
        return (c - b'0') as u64;
    }
    if c < b'a' {
        return 0;
    }
    if c <= b'f' {
        return (c - b'a') as u64 + 10;
    }
    0
}

// The number with one hexadecimal digit more, modulo 2^64.
fn with_hexadecimal(x: u64, c: u8) -> u64
    ensures { result ≡ (x * 16 + hexadecimal c) % 18446744073709551616 }
{
    x % 1152921504606846976 * 16 + digit(c)
}

// The number that the characters from place `at` up to place `end`, or up to the end of the text, spell, modulo 2^64.
pub fn spelt64(text: &[u8], at: usize, end: usize) -> u64
    ensures { result ≡ spelled 0 (part text.now at end) % 18446744073709551616 }
{
    let mut x: u64 = 0;
    for i in at..end {
        if text.len() <= i {
            return x;
        }
        x = with_hexadecimal(x, text[i]);
    }
    x
}

// The same modulo 2^32.
pub fn spelt(text: &[u8], at: usize, end: usize) -> u32
    ensures { result ≡ spelled 0 (part text.now at end) % 4294967296 }
{
    (spelt64(text, at, end) % 4294967296) as u32
}

// How many characters stand from place i on.
fn left(text: &[u8], i: usize) -> usize
    ensures { result ≡ length text.now - i }
{
    if text.len() <= i {
        return 0;
    }
    text.len() - i
}

// The words that eight characters each spell from place `at` on, as many as there is room for; how many they are.
pub fn spelt_words(text: &[u8], at: usize, words: &mut [u32]) -> usize
    ensures { FrontWritten words.old words.new result }
{
    let mut i = at;
    for count in 0..words.len() {
        if left(text, i) < 8 {
            return count;
        }
        words[count] = (spelt64(text, i, i + 8) % 4294967296) as u32;
        i += 8;
    }
    words.len()
}

// The same of sixteen characters each.
pub fn spelt_words64(text: &[u8], at: usize, words: &mut [u64]) -> usize
    ensures { FrontWritten words.old words.new result }
{
    let mut i = at;
    for got in 0..words.len() {
        if left(text, i) < 16 {
            return got;
        }
        words[got] = spelt64(text, i, i + 16);
        i += 16;
    }
    words.len()
}

// ---- what is written

// The name with which a line begins.
pub fn put_name(rt: &impl Print, name: &[u8]) -> io::Result<()> {
    rt.write_all(name)
}

// A number, with a blank before it.
pub fn put64(rt: &impl Print, x: u64) -> io::Result<()> {
    print!(rt; " {x}")
}

pub fn put(rt: &impl Print, x: u32) -> io::Result<()> {
    put64(rt, x as u64)
}

// A number of words, with a blank before it.
pub fn put_count(rt: &impl Print, x: usize) -> io::Result<()> {
    put64(rt, x as u64)
}

// All words of w, in brackets.
pub fn put_words(rt: &impl Print, w: &[u32]) -> io::Result<()> {
    put_name(rt, b" [")?;
    for x in w {
        put(rt, *x)?;
    }
    put_name(rt, b" ]")
}

pub fn put_words64(rt: &impl Print, w: &[u64]) -> io::Result<()> {
    put_name(rt, b" [")?;
    for x in w {
        put64(rt, *x)?;
    }
    put_name(rt, b" ]")
}

// How a service's line begins: its name, the status and the value.
pub fn put_answer(rt: &impl Print, name: &[u8], status: u32, value: u32) -> io::Result<()> {
    put_answer64(rt, name, status, value as u64)
}

pub fn put_answer64(rt: &impl Print, name: &[u8], status: u32, value: u64) -> io::Result<()> {
    put_name(rt, name)?;
    put(rt, status)?;
    put64(rt, value)
}

// What became of lent words: in brackets those up to the last that is not as found, then how many after it are as found.
pub fn put_lent(rt: &impl Print, w: &[u32]) -> io::Result<()> {
    let l = w.len();
    let same = ending(w, MARK);
    put_words(rt, &w[0..l - same])?;
    put_count(rt, same)
}

// How many words at the end of a working buffer are as found, and how many are zero.
pub fn put_working(rt: &impl Print, w: &[u32]) -> io::Result<()> {
    put_count(rt, ending(w, MARK))?;
    put_count(rt, ending(w, 0))
}

pub fn put_working64(rt: &impl Print, w: &[u64]) -> io::Result<()> {
    put_count(rt, ending64(w, WIDE_MARK))?;
    put_count(rt, ending64(w, 0))
}

// A number in so many hexadecimal digits, with no blank before it.
pub fn put_hexadecimal(rt: &impl Print, x: u64, digits: usize) -> io::Result<()> {
    print!(rt; "{x:0digits$x}")
}

// A number below 62 as a digit or a letter, small letters before capitals, and 62, 63 and 64 as + / =; a question mark for any other.
pub fn put_digit(rt: &impl Print, x: u32) -> io::Result<()> {
    if x < 10 {
        return put_name(rt, &[b'0' + x as u8]);
    }
    if x < 36 {
        return put_name(rt, &[b'a' + (x - 10) as u8]);
    }
    if x < 62 {
        return put_name(rt, &[b'A' + (x - 36) as u8]);
    }
    put_sign(rt, x)
}

fn put_sign(rt: &impl Print, x: u32) -> io::Result<()> {
    match x {
        62 => put_name(rt, b"+"),
        63 => put_name(rt, b"/"),
        64 => put_name(rt, b"="),
        _ => put_name(rt, b"?"),
    }
}

// In a line of many answers: the digit of the value, or an exclamation mark and the status.
pub fn put_short(rt: &impl Print, status: u32, value: u32) -> io::Result<()> {
    if status != 0 {
        put_name(rt, b"!")?;
        return put_digit(rt, status);
    }
    put_digit(rt, value)
}

// The end of a line.
pub fn end_line(rt: &impl Print) -> io::Result<()> {
    put_name(rt, b"\n")
}

// ---- lent words

// x in each word of w.
pub fn fill(w: &mut [u32], x: u32)
    ensures { w.new ≡ replicate (length w.old) x }
{
    w.fill(x);
}

// How many words at the end of w are x.
pub fn ending(w: &[u32], x: u32) -> usize
    ensures { Ending x w.now result }
{
    let l = w.len();
    for i in (0..l).rev() {
        if w[i] != x {
            return l - 1 - i;
        }
    }
    l
}

// The same for words of 64 bits.
pub fn fill64(words: &mut [u64], x: u64)
    ensures { words.new ≡ replicate (length words.old) x }
{
    words.fill(x);
}

pub fn ending64(w: &[u64], x: u64) -> usize
    ensures { Ending x w.now result }
{
    let all = w.len();
    for j in (0..all).rev() {
        if w[j] != x {
            return all - 1 - j;
        }
    }
    all
}
