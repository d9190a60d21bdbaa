// The lines of the frame program (S65 to S67): what a line's characters say, and an answer line's characters.
//
//   FrameKind     the kind of a frame
//   Frame         what the head of a frame says
//   kind_numbered the kind that a number stands for, if any
//   read_fields   the modulus and the degrees
//   read_head     the head of a line
//   read_words    the words after it
//   newline       the end of a line
//   write_short   its kind and status
//   write_line    an answer line
#![tactic(auto)]

ghost use Rattle.std.specs.Prelude.{◌≡◌, ◌++◌, ◌+◌, ◌*◌, ◌≤◌, ◌<◌, length, take, drop, set};
ghost use Rattle.hexadecimal.specs.Hexadecimal.{digits_of};
ghost use Rattle.frame_lines.specs.FrameLines.{answer_line};
ghost use Rattle.frame_lines.specs.Kinds.{kind_number, kind_of_number};
ghost use Rattle.frame_lines.specs.Heads.{KindRead, HeadOf, WordsRead};

// S65: the characters of a frame's head, the places of its modulus and its degrees, and the digits of a kind, a degree and a status.
pub const HEAD_LENGTH: usize = 14;

const MODULUS: usize = 2;

const FIRST_DEGREE: usize = 10;

const SECOND_DEGREE: usize = 12;

const SHORT: usize = 2;

// S66: the most characters of a frame.
pub const LONGEST: usize = 798;

// S67: the characters of an answer line, and the places of its status, its value and its newline.
pub const ANSWER_LENGTH: usize = 13;

const STATUS: usize = 2;

const VALUE: usize = 4;

const END: usize = 12;

// S67: the kind and the status of the answer to what is no frame.
pub const NO_KIND: u32 = 255;

pub const NO_FRAME: u32 = 8;

pub const LINE_END: u8 = 10;

// S65: the kinds, each with its number.
#[derive(Clone, Copy)]
pub enum FrameKind {
    Resultant = 1,
    Reduced = 2,
}

// The head of a frame: kind, modulus and degrees.
#[derive(Clone, Copy)]
pub struct Frame {
    pub kind: FrameKind,
    pub n: u32,
    pub d: usize,
    pub e: usize,
}

impl FrameKind {
    // The number that stands for it in a line.
    pub fn number(self) -> u32
        ensures { result ≡ kind_number self }
    {
        self as u32
    }
}

// The kind that a number stands for.
fn kind_numbered(number: u32) -> Option<FrameKind>
    ensures { result ≡ kind_of_number number }
{
    match number {
        1 => Some(FrameKind::Resultant),
        2 => Some(FrameKind::Reduced),
        _ => None,
    }
}

// What the rest of the head says, once the length and the kind are known.
fn read_fields(s: &[u8], kind: FrameKind) -> Option<Frame>
    requires { KindRead s.now (kind_number kind) }
    ensures { HeadOf s.now result }
{
    let n = hexadecimal::word(s, MODULUS)?;
    let d = hexadecimal::number(s, FIRST_DEGREE, SHORT)? as usize;
    let e = hexadecimal::number(s, SECOND_DEGREE, SHORT)? as usize;
    let count = d + 1 + (e + 1);
    if s.len() != HEAD_LENGTH + hexadecimal::DIGITS * count {
        return None;
    }
    Some(Frame { kind, n, d, e })
}

// The head of a line that can be a frame by its length and its first 14 characters.
pub fn read_head(s: &[u8]) -> Option<Frame>
    ensures { HeadOf s.now result }
{
    if s.len() < HEAD_LENGTH {
        return None;
    }
    if s.len() > LONGEST {
        return None;
    }
    let number = hexadecimal::number(s, 0, SHORT)?;
    let kind = kind_numbered(number)?;
    read_fields(s, kind)
}

// Reads the words of a line that is as long as its head says; answers whether all of its characters are digits.
pub fn read_words(s: &[u8], words: &mut [u32], count: usize) -> bool
    requires { (length s.now ≡ 14 + 8 * count) × (count ≤ length words.old) }
    ensures { WordsRead s.now count words.new result }
{
    for i in 0..count {
        let Some(x) = hexadecimal::word(s, HEAD_LENGTH + hexadecimal::DIGITS * i) else {
            return false;
        };
        words[i] = x;
    }
    true
}

fn newline(out: &mut [u8], at: usize)
    requires { at < length out.old }
    ensures { out.new ≡ set out.old at 10 }
{
    out[at] = LINE_END;
}

// The kind and the status of an answer line.
fn write_short(out: &mut [u8], at: usize, kind: u32, status: u32)
    requires { at + 4 ≤ length out.old }
    ensures { out.new ≡
        take at out.old ++ ((digits_of 2 kind ++ digits_of 2 status) ++ drop (at + 4) out.old) }
{
    hexadecimal::write(out, at, SHORT, kind);
    hexadecimal::write(out, at + STATUS, SHORT, status);
}

// Writes an answer line from place `at` on; what stands before and after it is left.
pub fn write_line(out: &mut [u8], at: usize, kind: u32, status: u32, value: u32)
    requires { at + 13 ≤ length out.old }
    ensures { out.new ≡
        take at out.old ++ (answer_line kind status value ++ drop (at + 13) out.old) }
{
    write_short(out, at, kind, status);
    hexadecimal::write(out, at + VALUE, hexadecimal::DIGITS, value);
    newline(out, at + END);
}
