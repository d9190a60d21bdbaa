// The resultant of two variables on cases from outside: tools/bivariate_figures.py writes them, and what must be answered.
//
// Each line of the input is a case: n, the number of words of f, its degrees d and a, the number of words of g, its degrees e and b, the
// lengths of the result and of the working words, the words of f, the words of g. Each is answered by a line: the status, the value, and
// what became of the lent words.
#![tactic(auto)]

use refusals::Answer;
use std::io;
use std::io::{BufReader, Read};
use test_lines::{MARK, size};

// The degrees of both polynomials.
#[derive(Drop)]
struct Degrees {
    d: u32,
    a: u32,
    e: u32,
    b: u32,
}

fn answer(
    rt: &impl Print,
    n: u32,
    f: &[u32],
    g: &[u32],
    s: Degrees,
    out: &mut [u32],
    work: &mut [u32],
) -> io::Result<()> {
    let d = s.d as usize;
    let a = s.a as usize;
    let e = s.e as usize;
    let b = s.b as usize;
    let r: Answer = bivariate_service::bivariate_resultant(n, f, d, a, g, e, b, out, work);
    test_lines::put_answer(rt, b"two", r.status, r.value)?;
    test_lines::put_lent(rt, out)?;
    test_lines::put_working(rt, work)
}

// The call with marked words.
fn mark(
    rt: &impl Print,
    n: u32,
    f: &[u32],
    g: &[u32],
    s: Degrees,
    out: &mut [u32],
    work: &mut [u32],
) -> io::Result<()> {
    test_lines::fill(out, MARK);
    test_lines::fill(work, MARK);
    answer(rt, n, f, g, s, out, work)
}

// The call with as much of each buffer as is lent.
fn lend(
    rt: &impl Print,
    n: u32,
    f: &[u32],
    g: &[u32],
    head: &[u32],
    out: &mut [u32],
    work: &mut [u32],
) -> io::Result<()> {
    if head.len() < 9 {
        return Ok(());
    }
    let s = Degrees {
        d: head[2],
        a: head[3],
        e: head[5],
        b: head[6],
    };
    let lo = size(head[7], out.len());
    let lw = size(head[8], work.len());
    mark(rt, n, f, g, s, &mut out[0..lo], &mut work[0..lw])
}

// The words of a line; whether they were all there.
fn try_words(
    rt: &impl Print,
    words: &[u32],
    out: &mut [u32],
    work: &mut [u32],
) -> io::Result<bool> {
    if words.len() < 9 {
        return Ok(false);
    }
    let l = size(words[1], 2500);
    let m = size(words[4], 2500);
    if words.len() < 9 + l + m {
        return Ok(false);
    }
    lend(
        rt,
        words[0],
        &words[9..9 + l],
        &words[9 + l..9 + l + m],
        &words[0..9],
        out,
        work,
    )?;
    test_lines::end_line(rt)?;
    Ok(true)
}

// The next line; whether there was one.
fn try_line(
    rt: &impl Print,
    input: &mut impl Read,
    line: &mut [u8],
    words: &mut [u32],
    out: &mut [u32],
    work: &mut [u32],
) -> io::Result<bool> {
    let count = test_lines::read_line(input, line, words)?;
    try_words(rt, &words[0..count], out, work)
}

// A proved loop has to end, and nothing says that an input does: it ends after a number of rounds that no run uses up.
fn run(
    rt: &impl Print,
    input: &mut impl Read,
    line: &mut [u8],
    words: &mut [u32],
    out: &mut [u32],
    work: &mut [u32],
) -> io::Result<()> {
    for _ in 0..u64::MAX {
        if !try_line(rt, input, line, words, out, work)? {
            break;
        }
    }
    Ok(())
}

fn main(rt: HostRuntime) -> io::Result<()> {
    let mut input = BufReader::new(rt.alloc(), rt.stdin())?;
    let mut line = [0u8; 65536];
    let mut words = [0u32; 5000];
    let mut out = [0u32; 70];
    let mut work = [0u32; 8200];
    run(&rt, &mut input, &mut line, &mut words, &mut out, &mut work)
}
