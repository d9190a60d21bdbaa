// An input that comes in pieces of any size: the lines that end in a piece are answered, and the unfinished line is kept until
// the next. Of a line that is too long for a frame nothing but that is kept.
#![tactic(auto)]

ghost use Rattle.std.specs.Prelude.{◌≡◌, min, ◌+◌, ◌*◌, ◌≤◌, length};
ghost use Rattle.frame_runs.specs.Working.{Working};
ghost use Rattle.frame_pieces.specs.Newlines.{LineAfter};
ghost use Rattle.frame_reader.specs.Pieces.{PendingAnswered, PartAnswered, Steps, Ends};

use refusals::WORKING_WORDS;

// What a step leaves: the count of the pending line, and of the characters written.
#[derive(Clone, Copy)]
pub struct Progress {
    pub pending: usize,
    pub written: usize,
}

// Working words for the runs. Only that is told of them which is asked for: whoever has them need not look at 8192 zeros.
fn fresh_words() -> [u32; WORKING_WORDS]
    ensures value { 8192 ≡ length result }
    ensures working { Working result }
{
    [0; WORKING_WORDS]
}

// A line of 799 characters or more is kept as one of 799: it is no frame, whatever comes.
fn counted(pending: usize) -> usize
    ensures { result ≡ min pending 799 }
{
    if pending > frame_pieces::TOO_LONG {
        return frame_pieces::TOO_LONG;
    }
    pending
}

// Writes the answer to the pending line.
fn answer_pending(pending: usize, line: &[u8], work: &mut [u32], out: &mut [u8], at: usize)
    requires { (798 ≤ length line.now) × ((Working work.old) × (at + 13 ≤ length out.old)) }
    ensures pending_answered { PendingAnswered pending line.now at out.old out.new
        work.old work.new }
    ensures working { Working work.new }
{
    if pending > frame_lines::LONGEST {
        frame_lines::write_line(out, at, frame_lines::NO_KIND, frame_lines::NO_FRAME, 0);
        return;
    }
    frames::answer(&line[0..pending], work, out, at);
}

// Writes the answer to the line that part ends.
fn close(pending: usize, line: &mut [u8], part: &[u8], work: &mut [u32], out: &mut [u8], at: usize)
    requires { (798 ≤ length line.old) × ((Working work.old) × (at + 13 ≤ length out.old)) }
    ensures part_answered { PartAnswered pending line.old part.now at out.old out.new
        work.old work.new }
    ensures line_after { LineAfter 0 line.old line.new }
    ensures working { Working work.new }
{
    if pending == 0 {
        frames::answer(part, work, out, at);
        return;
    }
    let h = frame_pieces::keep(pending, line, part);
    answer_pending(h, line, work, out, at);
}

// Kept: a count, of which 799 and more stand for a line that is too long: a promise that may not change.
// Answers the lines that end in the piece and keeps the unfinished one. pending and line are what the step before left; before the
// first, pending is 0. Any pending is taken: 799 and more stand for a line that is too long for a frame.
pub fn step(pending: usize, line: &mut [u8], piece: &[u8], out: &mut [u8]) -> Progress
    requires { (798 ≤ length line.old) × (13 * length piece.now ≤ length out.old) }
    ensures written_in_bounds { result.written ≤ length out.old }
    ensures steps { Steps (min pending 799) line.old piece.now result.pending line.new result.written
        out.old out.new }
    ensures line_after { LineAfter result.pending line.old line.new }
{
    let mut work = fresh_words();
    let mut h = counted(pending);
    let mut i: usize = 0;
    let mut w: usize = 0;
    while i < piece.len() {
        let j = frame_pieces::find_newline(piece, i);
        if j == piece.len() {
            let rest = frame_pieces::keep(h, line, &piece[i..j]);
            return Progress {
                pending: rest,
                written: w,
            };
        }
        close(h, line, &piece[i..j], &mut work[0..WORKING_WORDS], out, w);
        h = 0;
        w += frame_lines::ANSWER_LENGTH;
        i = j + 1;
    }
    Progress {
        pending: h,
        written: w,
    }
}

// The end of the input: answers the pending line, if there is one, and says how many characters it wrote.
pub fn finish(pending: usize, line: &[u8], out: &mut [u8]) -> usize
    requires { (798 ≤ length line.now) × (13 ≤ length out.old) }
    ensures upper_bound { result ≤ length out.old }
    ensures ends { Ends (min pending 799) line.now result out.old out.new }
{
    let h = counted(pending);
    if h == 0 {
        return 0;
    }
    let mut work = fresh_words();
    answer_pending(h, line, &mut work[0..WORKING_WORDS], out, 0);
    frame_lines::ANSWER_LENGTH
}
