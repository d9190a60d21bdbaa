// From a line's characters to its answer line (document 01, "Job frames"; refusal 10 is of document 02, W5).
//
//   Line                          what an answer line says
//   run_job, refused, serve       the value of a job that nothing refuses; a refusal; the job of a frame's words
//   frame_words                   room for the words of a frame
//   read_and_serve, serve_line    the words of a line are read and served, and wiped
//   tell, write_told, answer      what the answer to a line says, and the answer line
#![tactic(auto)]

ghost use Rattle.std.specs.Prelude.{◌≡◌, ◌+◌, ◌≤◌, length, take, drop, replicate, ◌++◌};
ghost use Rattle.frame_lines.specs.FrameLines.{answer_line};
ghost use Rattle.frame_lines.specs.Kinds.{kind_number};
ghost use Rattle.frames.specs.Frames.{Value, Served, Told, Wrote};
ghost use Rattle.frames.specs.Lending.{Lent};
ghost use Rattle.frame_runs.specs.Jobs.{JobAsked};
ghost use Rattle.frame_runs.specs.Working.{Working};

use frame_lines::{Frame, FrameKind};
use refusals::Answer;

// The most words of a frame: two polynomials of 49 words.
const WORDS: usize = 98;

// What an answer line says.
#[derive(Clone, Copy)]
struct Line {
    kind: u32,
    status: u32,
    value: u32,
}

// The value of a job that nothing refuses.
fn run_job(kind: FrameKind, n: u32, f: &[u32], g: &[u32], work: &mut [u32]) -> u32
    requires { JobAsked n f.now g.now work.old }
    ensures value { Value (kind_number kind) n f.now g.now result }
    ensures work_after { work.new ≡ replicate (length work.old) 0 }
{
    match kind {
        FrameKind::Resultant => frame_runs::resultant(n, f, g, work),
        FrameKind::Reduced => frame_runs::reduced(n, f, g, work),
    }
}

fn refused(status: u32) -> Answer
    ensures { (result.value ≡ 0) × (result.status ≡ status) }
{
    Answer { value: 0, status }
}

// Serves the job of a frame's words: the first polynomial is the first d + 1 of them, the second is the part from place d + 1
// onward.
fn serve(kind: FrameKind, n: u32, d: usize, words: &[u32], work: &mut [u32]) -> Answer
    requires { (d + 1 ≤ length words.now) × Working work.old }
    ensures { Served (kind_number kind) n (take (d + 1) words.now) (drop (d + 1) words.now)
        result.status result.value work.old work.new }
{
    let f = &words[0..d + 1];
    let g = &words[d + 1..];
    if let Err(refusal) = frame_refusals::job_refusal(n, f, g) {
        return refused(refusal.number());
    }
    let value = run_job(kind, n, f, g, work);
    Answer { value, status: 0 }
}

// The words of a frame. Of zeros only the count is told: whoever has them need not look at 98 of them.
fn frame_words() -> [u32; WORDS]
    ensures { 98 ≡ length result }
{
    [0; WORDS]
}

// Reads the words of the line s, whose head is known, and serves their job. Where a character is no digit, it is no frame.
fn read_and_serve(s: &[u8], frame: Frame, words: &mut [u32], work: &mut [u32]) -> Line
    requires { Lent s.now (kind_number frame.kind) frame.n frame.d frame.e words.old work.old }
    ensures { Told s.now result.kind result.status result.value work.old work.new }
{
    let count = frame.d + 1 + (frame.e + 1);
    if !frame_lines::read_words(s, words, count) {
        return Line {
            kind: frame_lines::NO_KIND,
            status: frame_lines::NO_FRAME,
            value: 0,
        };
    }
    let a = serve(frame.kind, frame.n, frame.d, &words[0..count], work);
    Line {
        kind: frame.kind.number(),
        status: a.status,
        value: a.value,
    }
}

// The same, and whatever the line is, all words that were lent are zeros again.
fn serve_line(s: &[u8], frame: Frame, words: &mut [u32], work: &mut [u32]) -> Line
    requires { Lent s.now (kind_number frame.kind) frame.n frame.d frame.e words.old work.old }
    ensures told { Told s.now result.kind result.status result.value work.old work.new }
    ensures words_after { words.new ≡ replicate (length words.old) 0 }
{
    let line = read_and_serve(s, frame, words, work);
    windows::wipe(words);
    line
}

// What the answer to the line s says. Words are lent for a line whose head is a frame's.
fn tell(s: &[u8], work: &mut [u32]) -> Line
    requires { Working work.old }
    ensures { Told s.now result.kind result.status result.value work.old work.new }
{
    let Some(frame) = frame_lines::read_head(s) else {
        return Line {
            kind: frame_lines::NO_KIND,
            status: frame_lines::NO_FRAME,
            value: 0,
        };
    };
    let mut words = frame_words();
    serve_line(s, frame, &mut words[0..WORDS], work)
}

fn write_told(line: Line, out: &mut [u8], at: usize)
    requires { at + 13 ≤ length out.old }
    ensures { out.new ≡ take at out.old
        ++ (answer_line line.kind line.status line.value ++ drop (at + 13) out.old) }
{
    frame_lines::write_line(out, at, line.kind, line.status, line.value);
}

// Writes the answer to the line s from place `at` on. The words of a frame are zero again before the answer is written.
pub fn answer(s: &[u8], work: &mut [u32], out: &mut [u8], at: usize)
    requires { (at + 13 ≤ length out.old) × Working work.old }
    ensures { Wrote s.now at out.old out.new work.old work.new }
{
    let line = tell(s, work);
    write_told(line, out, at);
}
