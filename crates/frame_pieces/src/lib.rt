// What an input's pieces are made of (S64): what a read's count means, where a line ends, and how an unfinished line is kept.
//
//   what_came             what the count of a read means
//   skip                  how far there is no newline, at least
//   find_newline          the end of a line
//   keep                  an unfinished line
#![tactic(auto)]

ghost use Rattle.std.specs.Prelude.{◌≡◌, ◌≤◌, length};
ghost use Rattle.frame_pieces.specs.Inputs.{input_of};
ghost use Rattle.frame_pieces.specs.Newlines.{Clear, NewlineAt, KeepsPending, LineAfter};

// What the count of a line stands for that is too long for a frame.
pub const TOO_LONG: usize = 799;

// The bit 32 of eight characters.
const DIGIT_BIT: u64 = 0x2020202020202020;

// What the count of a read means: that many characters came. A read that takes none has come to the end of the input.
pub fn what_came(count: usize) -> Option<usize>
    ensures { result ≡ input_of count }
{
    if count == 0 {
        return None;
    }
    Some(count)
}

// From place `from` on, eight characters at a time, as far as each of them has the bit 32: all digits have it, and a newline has not.
fn skip(piece: &[u8], from: usize) -> usize
    requires { from ≤ length piece.now }
    ensures { Clear piece.now from result }
{
    // Kept: what it answers is the place of the first eight that fail, and a `for` with `step_by(8)` needs that place of the end worked out once more.
    let mut j = from;
    while 8 <= piece.len() - j {
        if hexadecimal::eight(piece, j) & DIGIT_BIT != DIGIT_BIT {
            return j;
        }
        j += 8;
    }
    j
}

// The place of the first newline from place `from` on, and the length of the piece where there is none.
pub fn find_newline(piece: &[u8], from: usize) -> usize
    requires { from ≤ length piece.now }
    ensures { NewlineAt piece.now from result }
{
    for j in skip(piece, from)..piece.len() {
        if piece[j] == frame_lines::LINE_END {
            return j;
        }
    }
    piece.len()
}

// Keeps part after what is kept of an unfinished line. No more than the first 798 words of the buffer are used.
pub fn keep(pending: usize, line: &mut [u8], part: &[u8]) -> usize
    requires { 798 ≤ length line.old }
    ensures keeps_pending { KeepsPending pending line.old part.now result line.new }
    ensures line_after { LineAfter result line.old line.new }
{
    if pending > frame_lines::LONGEST {
        return TOO_LONG;
    }
    if part.len() > frame_lines::LONGEST - pending {
        return TOO_LONG;
    }
    line[pending..pending + part.len()].copy_from_slice(part);
    pending + part.len()
}
