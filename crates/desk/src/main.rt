// The frame program (S64): reads job frames from standard input, one a line, and writes an answer line for each to standard output.
// It answers the lines that are complete before it reads again. Where a read or a write fails, it says so on standard error, with
// the reason, and stops; an unfinished line is then not answered. A call that a signal interrupts, or that would have to wait on a
// non-blocking descriptor, has not failed: it is tried again.
#![tactic(auto)]

ghost use Rattle.std.specs.Prelude.{◌≡◌, ◌*◌, ◌≤◌, length, IfOk};

use std::alloc::{AllocError, Global};
use std::io::{ErrorKind, Read, Write};
use std::{io, thread};

// Room for an unfinished line, of which no more than 798 characters are kept.
// Kept: a buffer with its count beside it, as `frame_reader::step` takes them: a promise that may not change.
const LINE: usize = 4096;

// What a read takes at most.
const PIECE: usize = 65536;

// Room for the answers to 65536 lines, as many as can end in the characters of one read: 13 for each.
const ROOM: usize = 851968;

// The call that has failed, and why.
#[derive(Drop)]
enum Failure {
    Input(io::Error),
    Output(io::Error),
}

// Whether the call that failed so is to be tried again.
fn again(error: &io::Error) -> bool {
    let kind = error.kind();
    if kind == ErrorKind::Interrupted {
        return true;
    }
    if kind == ErrorKind::WouldBlock {
        thread::yield_now();
        return true;
    }
    false
}

// Writes answers, from where a write stopped on.
fn put(to: &mut impl Write, answers: &[u8]) -> io::Result<()> {
    let mut done: usize = 0;
    for _ in 0..u64::MAX {
        if done >= answers.len() {
            return Ok(());
        }
        match to.write(&answers[done..]) {
            Ok(0) => return Err(io::Error::from(ErrorKind::WriteZero)),
            Ok(got) => done += got,
            Err(error) => {
                if !again(&error) {
                    return Err(error);
                }
            }
        }
    }
    Err(io::Error::from(ErrorKind::TimedOut))
}

// Reads once, answers the lines that end in what came, and holds the rest, whose count it answers, or nothing where the input has ended;
// where the read is to be tried again, all stays as it was. A character can end a line, and a line's answer has 13.
fn take_next(
    input: &mut impl Read,
    to: &mut impl Write,
    pending: usize,
    line: &mut [u8],
    piece: &mut [u8],
    out: &mut [u8],
) -> Result<Option<usize>, Failure>
    requires { (798 ≤ length line.old) × (13 * length piece.old ≤ length out.old) }
{
    let n = match input.read(piece) {
        Ok(n) => n,
        Err(error) => {
            if again(&error) {
                return Ok(Some(pending));
            }
            return Err(Failure::Input(error));
        }
    };
    if frame_pieces::what_came(n).is_none() {
        return Ok(None);
    }
    let p = frame_reader::step(pending, line, &piece[0..n], out);
    put(to, &out[0..p.written]).map_err(Failure::Output)?;
    Ok(Some(p.pending))
}

// Answers the last line, if it has no newline.
fn end(to: &mut impl Write, pending: usize, line: &[u8], out: &mut [u8]) -> Result<(), Failure>
    requires { (798 ≤ length line.now) × (13 ≤ length out.old) }
{
    let written = frame_reader::finish(pending, line, out);
    put(to, &out[0..written]).map_err(Failure::Output)
}

// A proved loop has to end, and nothing says that an input does: it ends after a number of rounds that no run uses up.
fn run(
    input: &mut impl Read,
    to: &mut impl Write,
    line: &mut [u8],
    piece: &mut [u8],
    out: &mut [u8],
) -> Result<(), Failure>
    requires { (798 ≤ length line.old) × ((13 ≤ length out.old) × (13 * length piece.old ≤ length out.old)) }
{
    let mut pending: usize = 0;
    for _ in 0..u64::MAX {
        let Some(h) = take_next(input, to, pending, line, piece, out)? else {
            return end(to, pending, line, out);
        };
        pending = h;
    }
    Ok(())
}

fn answers_room() -> [u8; ROOM]
    ensures { 851968 ≡ length result }
{
    [0; ROOM]
}

// The reason alone, without its number.
fn reason(alloc: Global, error: &io::Error) -> Result<String, AllocError> {
    let said = format!(in alloc; "{error}")?;
    match said.as_str().split_once(" (os error ") {
        Some((text, _)) => String::from_str(alloc, text),
        None => Ok(said),
    }
}

fn complain(rt: &(impl Eprint + AllocGlobal), failure: &Failure) -> io::Result<()> {
    let (what, error) = match failure {
        Failure::Input(error) => ("standard input cannot be read", error),
        Failure::Output(error) => ("standard output does not take the answers", error),
    };
    let why = reason(rt.alloc(), error)?;
    eprintln!(rt; "jingcobu-desk: {what}: {why}")
}

fn main(rt: HostRuntime) -> io::Result<()> {
    let mut line = [0; LINE];
    let mut piece = [0; PIECE];
    let mut out = answers_room();
    let mut input = rt.stdin();
    let mut to = rt.stdout();
    match run(&mut input, &mut to, &mut line, &mut piece, &mut out) {
        Ok(()) => Ok(()),
        Err(failure) => complain(&rt, &failure),
    }
}
