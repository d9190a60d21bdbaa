// The plain evaluator on cases from outside: tools/evaluator_figures.py writes them, and what must be answered.
//
// Each line of the input is a case: the service, n, the lengths of f and g, a count, the words of f, the words of g. The service is 1 for
// one pair, which is answered by its status and value; and 2 for a row, which sends no g: f with the first so many g of that length, at
// most 3, in the order in which the constant changes last, each answer short (test_lines).
#![tactic(auto)]

ghost use Rattle.std.specs.Prelude.{◌≤◌};

use refusals::Answer;
use std::io;
use std::io::{BufReader, Read};

const PAIR: u32 = 1;

fn pair(rt: &impl Print, n: u32, f: &[u32], g: &[u32]) -> io::Result<()> {
    let r: Answer = evaluator_service::evaluate(n, f, g);
    test_lines::put_answer(rt, b"evaluate", r.status, r.value)
}

// The digits of t to the base n.
fn counted(n: u32, t: u32) -> [u32; 3]
    requires { 2 ≤ n }
{
    [t / n / n % n, t / n % n, t % n]
}

// f with polynomial t of those of m words.
fn put_one(rt: &impl Print, n: u32, f: &[u32], m: usize, t: u32) -> io::Result<()>
    requires { (2 ≤ n) × (m ≤ 3) }
{
    let g = counted(n, t);
    let r: Answer = evaluator_service::evaluate(n, f, &g[3 - m..3]);
    test_lines::put_short(rt, r.status, r.value)
}

fn put_row(rt: &impl Print, n: u32, f: &[u32], m: usize, count: u32) -> io::Result<()>
    requires { (2 ≤ n) × (m ≤ 3) }
{
    for t in 0..count {
        put_one(rt, n, f, m, t)?;
    }
    Ok(())
}

fn row(rt: &impl Print, n: u32, f: &[u32], m: usize, count: u32) -> io::Result<()> {
    test_lines::put_name(rt, b"row ")?;
    if n < 2 {
        return Ok(());
    }
    if 3 < m {
        return Ok(());
    }
    put_row(rt, n, f, m, count)
}

// The words of a line; whether they were all there.
fn try_words(rt: &impl Print, words: &[u32]) -> io::Result<bool> {
    if words.len() < 5 {
        return Ok(false);
    }
    let l = test_lines::size(words[2], 64);
    let m = test_lines::size(words[3], 64);
    if words.len() < 5 + l {
        return Ok(false);
    }
    let f = &words[5..5 + l];
    if words[0] != PAIR {
        row(rt, words[1], f, m, words[4])?;
        return Ok(true);
    }
    if words.len() < 5 + l + m {
        return Ok(false);
    }
    pair(rt, words[1], f, &words[5 + l..5 + l + m])?;
    Ok(true)
}

// The next line; whether there was one.
fn try_line(
    rt: &impl Print,
    input: &mut impl Read,
    line: &mut [u8],
    words: &mut [u32],
) -> io::Result<bool> {
    let count = test_lines::read_line(input, line, words)?;
    if !try_words(rt, &words[0..count])? {
        return Ok(false);
    }
    test_lines::end_line(rt)?;
    Ok(true)
}

// A proved loop has to end, and nothing says that an input does: it ends after a number of rounds that no run uses up.
fn run(
    rt: &impl Print,
    input: &mut impl Read,
    line: &mut [u8],
    words: &mut [u32],
) -> io::Result<()> {
    for _ in 0..u64::MAX {
        if !try_line(rt, input, line, words)? {
            break;
        }
    }
    Ok(())
}

fn main(rt: HostRuntime) -> io::Result<()> {
    let mut input = BufReader::new(rt.alloc(), rt.stdin())?;
    let mut line = [0u8; 4096];
    let mut words = [0u32; 128];
    run(&rt, &mut input, &mut line, &mut words)
}
