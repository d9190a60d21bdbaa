// The planner on cases from outside: tools/shares_figures.py writes them, and what must be answered.
//
// Each line of the input is a case of five numbers: N, and what waits in each of the four groups. Each is answered by a line: the status,
// and the four shares.
#![tactic(auto)]

use std::io;
use std::io::{BufReader, Read};
use test_lines::put;

fn answer(rt: &impl Print, frames: u32, a: u32, b: u32, c: u32, d: u32) -> io::Result<()> {
    let p = shares_service::shares(frames, a, b, c, d);
    let s = p.share;
    test_lines::put_answer(rt, b"shares", p.status, s[0])?;
    put(rt, s[1])?;
    put(rt, s[2])?;
    put(rt, s[3])?;
    test_lines::end_line(rt)
}

// The next line; whether there was one.
fn try_line(
    rt: &impl Print,
    input: &mut impl Read,
    line: &mut [u8],
    words: &mut [u32],
) -> io::Result<bool> {
    if test_lines::read_line(input, line, words)? < 5 {
        return Ok(false);
    }
    answer(rt, words[0], words[1], words[2], words[3], words[4])?;
    Ok(true)
}

// A proved loop has to end, and nothing says that an input does: it ends after a number of rounds that no run uses up.
fn run(
    rt: &impl Print,
    input: &mut impl Read,
    line: &mut [u8],
    words: &mut [u32],
) -> io::Result<()> {
    for _ in 0..u64::MAX {
        if !try_line(rt, input, line, words)? {
            break;
        }
    }
    Ok(())
}

fn main(rt: HostRuntime) -> io::Result<()> {
    let mut input = BufReader::new(rt.alloc(), rt.stdin())?;
    let mut line = [0u8; 4096];
    let mut words = [0u32; 5];
    run(&rt, &mut input, &mut line, &mut words)
}
