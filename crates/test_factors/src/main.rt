// The product whose factors come and go, on histories from outside: tools/factors_figures.py writes them, and what must be answered.
//
// Each line of the input is a call on the state that the line before left: the kind, two numbers, words. If the kind is 1, a start with n
// and the words of h; if it is 2, the factor of these words arrives, and the numbers are its own and how many working words are lent; if it
// is 3, the factor with this number leaves; any other kind puts a state that no start made: n and the length of h, then the word of all h,
// the number, the degree and the resultant of all places. Each is answered by a line: the status, of an arrival what became of the working
// words, then the status and the value of a reading.
#![tactic(auto)]

ghost use Rattle.std.specs.Prelude.{◌≤◌, length};

use factors_service::Factors;
use refusals::Answer;
use std::io;
use std::io::{BufReader, Read};
use test_lines::{MARK, put, put_name, size};

const START: u32 = 1;

const ARRIVE: u32 = 2;

const LEAVE: u32 = 3;

// ---- the calls

fn start(rt: &impl Print, n: u32, h: &[u32]) -> io::Result<Factors> {
    let a = factors_service::start(n, h);
    put_name(rt, b"start")?;
    put(rt, a.status)?;
    Ok(a.factors)
}

fn arrive(rt: &impl Print, s: Factors, k: u16, f: &[u32], work: &mut [u32]) -> io::Result<Factors> {
    test_lines::fill(work, MARK);
    let a = factors_service::arrive(s, k, f, work);
    put_name(rt, b"arrive")?;
    put(rt, a.status)?;
    test_lines::put_working(rt, work)?;
    Ok(a.factors)
}

fn leave(rt: &impl Print, s: Factors, k: u16) -> io::Result<Factors> {
    let a = factors_service::leave(s, k);
    put_name(rt, b"leave")?;
    put(rt, a.status)?;
    Ok(a.factors)
}

// The state of any words.
fn state(rt: &impl Print, n: u32, len: u32, words: &[u32]) -> io::Result<Factors> {
    put_name(rt, b"state")?;
    if words.len() < 4 {
        return Ok(factors_service::start(0, words).factors);
    }
    Ok(Factors {
        n,
        len,
        h: [words[0]; 49],
        number: [(words[1] % 65536) as u16; 16],
        degree: [words[2]; 16],
        resultant: [words[3]; 16],
    })
}

fn put_reading(rt: &impl Print, s: Factors) -> io::Result<()> {
    let a: Answer = factors_service::read(s);
    put(rt, a.status)?;
    put(rt, a.value)
}

// ---- the run

// The call of a line.
fn call(rt: &impl Print, s: Factors, words: &[u32], work: &mut [u32]) -> io::Result<Factors>
    requires { 3 ≤ length words.now }
{
    let rest = &words[3..words.len()];
    if words[0] == START {
        return start(rt, words[1], rest);
    }
    let k = (words[1] % 65536) as u16;
    if words[0] == ARRIVE {
        let lw = size(words[2], work.len());
        return arrive(rt, s, k, rest, &mut work[0..lw]);
    }
    if words[0] == LEAVE {
        return leave(rt, s, k);
    }
    state(rt, words[1], words[2], rest)
}

// A state, and whether there was a line.
#[derive(Drop)]
struct Step {
    factors: Factors,
    more: bool,
}

// The next line.
fn try_line(
    rt: &impl Print,
    input: &mut impl Read,
    s: Factors,
    line: &mut [u8],
    words: &mut [u32],
    work: &mut [u32],
) -> io::Result<Step> {
    let count = test_lines::read_line(input, line, words)?;
    if count < 3 {
        return Ok(Step {
            factors: s,
            more: false,
        });
    }
    let r = call(rt, s, &words[0..count], work)?;
    put_reading(rt, r)?;
    test_lines::end_line(rt)?;
    Ok(Step {
        factors: r,
        more: true,
    })
}

// A proved loop has to end, and nothing says that an input does: it ends after a number of rounds that no run uses up.
fn run(
    rt: &impl Print,
    input: &mut impl Read,
    line: &mut [u8],
    words: &mut [u32],
    work: &mut [u32],
) -> io::Result<()> {
    let mut s = factors_service::start(0, words).factors;
    for _ in 0..u64::MAX {
        let r = try_line(rt, input, s, line, words, work)?;
        if !r.more {
            break;
        }
        s = r.factors;
    }
    Ok(())
}

fn main(rt: HostRuntime) -> io::Result<()> {
    let mut input = BufReader::new(rt.alloc(), rt.stdin())?;
    let mut line = [0u8; 4096];
    let mut words = [0u32; 64];
    let mut work = [0u32; 8200];
    run(&rt, &mut input, &mut line, &mut words, &mut work)
}
