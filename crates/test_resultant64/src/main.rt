// Resultants and laws in words of 64 bits, a call a line, against figures from outside (tools/services64_figures.py).
//
// Reads a call a line, hexadecimal without blanks: the service in 2 digits, n in 16, the lengths of f, g and h in 2 each, those of the lent
// buffers p, u and v and of the working words in 4 each, the words of f, g and h in 16 each. For each it writes a line, decimal: the name
// of the service, the status, the value or values, and what became of the lent words. The words of p are all written, in brackets; of a
// cofactor how many words at the end are as found, and what the two combine to at two points; of the working words how many at the end
// are as found, and how many are zero.
#![tactic(auto)]

ghost use Rattle.std.specs.Prelude.{◌+◌, ◌≤◌, ◌≡◌, length};

use product_law_service::Numbers;
use refusals64::Answer;
use std::io;
use std::io::{BufReader, Read};
use test_lines::{
    WIDE_MARK, ending64, put_answer64, put_count, put_working64, put64, size, spelt, spelt64,
};

// The services, by their numbers in the input.
const EVALUATE: u32 = 13;

const RESULTANT: u32 = 14;

const REDUCED: u32 = 15;

const HOW_FAR: u32 = 16;

// The characters of a line before the words of f, and the most words of a polynomial that are sent.
const HEAD: usize = 40;

const MOST: usize = 50;

// A call: the service, n, and the lengths of f, g and h, whose words stand one after the other.
#[derive(Drop)]
struct Sent {
    service: u32,
    n: u64,
    f: usize,
    g: usize,
    h: usize,
}

// ---- what is written

fn put_answer(rt: &impl Print, name: &[u8], a: Answer) -> io::Result<()> {
    put_answer64(rt, name, a.status, a.value)
}

// The value at x of the polynomial in the first `count` words of f, modulo n.
fn value_at(n: u64, f: &[u64], count: usize, x: u64) -> u64
    requires { (1 ≤ n) × (count ≤ length f.now) }
{
    let mut s: u64 = 0;
    for i in (0..count).rev() {
        s = arithmetic64::mul_add_mod(n, f[i], s, x);
    }
    s
}

// The value of u f + v g at x, modulo n, where the words of u and v as found do not count.
fn combined(n: u64, f: &[u64], g: &[u64], u: &[u64], v: &[u64], x: u64) -> u64
    requires { 1 ≤ n }
{
    let first = value_at(n, u, u.len() - ending64(u, WIDE_MARK), x);
    let second = value_at(n, v, v.len() - ending64(v, WIDE_MARK), x);
    let s = arithmetic64::mul_mod(n, first, value_at(n, f, f.len(), x));
    arithmetic64::mul_add_mod(n, s, second, value_at(n, g, g.len(), x))
}

// How many words of the cofactors u and v are as found, and what they combine f and g to at 3 and at -2.
fn put_cofactors(
    rt: &impl Print,
    n: u64,
    f: &[u64],
    g: &[u64],
    u: &[u64],
    v: &[u64],
) -> io::Result<()> {
    put_count(rt, ending64(u, WIDE_MARK))?;
    put_count(rt, ending64(v, WIDE_MARK))?;
    if n < 2 {
        return Ok(());
    }
    put64(rt, combined(n, f, g, u, v, 3))?;
    put64(rt, combined(n, f, g, u, v, n - 2))
}

// ---- the services

fn resultant_line(
    rt: &impl Print,
    n: u64,
    f: &[u64],
    g: &[u64],
    work: &mut [u64],
) -> io::Result<()> {
    put_answer(
        rt,
        b"resultant",
        resultant_service64::resultant(n, f, g, work),
    )?;
    put_working64(rt, work)
}

fn reduced_line(
    rt: &impl Print,
    n: u64,
    f: &[u64],
    g: &[u64],
    u: &mut [u64],
    v: &mut [u64],
    work: &mut [u64],
) -> io::Result<()> {
    put_answer(
        rt,
        b"reduced",
        reduced_service64::reduced_resultant(n, f, g, u, v, work),
    )?;
    put_cofactors(rt, n, f, g, u, v)?;
    put_working64(rt, work)
}

fn how_far_line(
    rt: &impl Print,
    n: u64,
    f: &[u64],
    g: &[u64],
    u: &mut [u64],
    v: &mut [u64],
    work: &mut [u64],
) -> io::Result<()> {
    let a = product_law_service64::how_far(n, f, g, u, v, work);
    put_answer64(rt, b"how_far", a.status, a.resultant)?;
    put64(rt, a.divisor)?;
    put_cofactors(rt, n, f, g, u, v)?;
    put_working64(rt, work)
}

fn put_numbers(rt: &impl Print, a: Numbers<u64>) -> io::Result<()> {
    put_answer64(rt, b"law", a.status, a.r)?;
    put64(rt, a.rf)?;
    put64(rt, a.rg)?;
    put64(rt, a.d)?;
    put64(rt, a.df)?;
    put64(rt, a.dg)
}

fn law_line(
    rt: &impl Print,
    c: Sent,
    words: &[u64],
    p: &mut [u64],
    u: &mut [u64],
    v: &mut [u64],
    work: &mut [u64],
) -> io::Result<()>
    requires { c.f + c.g + c.h ≤ length words.now }
{
    let first = c.f;
    let second = first + c.g;
    let f = &words[0..first];
    let g = &words[first..second];
    let h = &words[second..second + c.h];
    put_numbers(
        rt,
        product_law_service64::law_of_products(c.n, f, g, h, p, u, v, work),
    )?;
    test_lines::put_words64(rt, p)?;
    let m = p.len() - ending64(p, WIDE_MARK);
    put_cofactors(rt, c.n, &p[0..m], h, u, v)?;
    put_working64(rt, work)
}

// A service of f and g.
fn pair_line(
    rt: &impl Print,
    service: u32,
    n: u64,
    f: &[u64],
    g: &[u64],
    u: &mut [u64],
    v: &mut [u64],
    work: &mut [u64],
) -> io::Result<()> {
    if service == EVALUATE {
        return put_answer(rt, b"evaluate", evaluator_service64::evaluate(n, f, g));
    }
    if service == RESULTANT {
        return resultant_line(rt, n, f, g, work);
    }
    if service == REDUCED {
        return reduced_line(rt, n, f, g, u, v, work);
    }
    how_far_line(rt, n, f, g, u, v, work)
}

fn call(
    rt: &impl Print,
    c: Sent,
    words: &[u64],
    p: &mut [u64],
    u: &mut [u64],
    v: &mut [u64],
    work: &mut [u64],
) -> io::Result<()>
    requires { c.f + c.g + c.h ≤ length words.now }
{
    if c.service <= HOW_FAR {
        let first = c.f;
        return pair_line(
            rt,
            c.service,
            c.n,
            &words[0..first],
            &words[first..first + c.g],
            u,
            v,
            work,
        );
    }
    law_line(rt, c, words, p, u, v, work)
}

// ---- the run

// The buffers as they are lent, each word marked, with words to spare. The contracts give only the lengths.
fn result_room() -> [u64; 3040]
    ensures { 3040 ≡ length result }
{
    [WIDE_MARK; 3040]
}

fn working_room() -> [u64; 16400]
    ensures { 16400 ≡ length result }
{
    [WIDE_MARK; 16400]
}

// The call with as much of each buffer as is lent.
fn lend(rt: &impl Print, text: &[u8], c: Sent, words: &[u64]) -> io::Result<()>
    requires { c.f + c.g + c.h ≤ length words.now }
{
    let lp = size(spelt(text, 24, 28), 64);
    let lu = size(spelt(text, 28, 32), 3040);
    let lv = size(spelt(text, 32, 36), 3040);
    let lw = size(spelt(text, 36, 40), 16400);
    let mut p = [WIDE_MARK; 64];
    let mut u = result_room();
    let mut v = result_room();
    let mut work = working_room();
    call(
        rt,
        c,
        words,
        &mut p[0..lp],
        &mut u[0..lu],
        &mut v[0..lv],
        &mut work[0..lw],
    )
}

// The head of a line.
fn called(text: &[u8]) -> Sent
    ensures { result.f + result.g + result.h ≤ 150 }
{
    Sent {
        service: spelt(text, 0, 2),
        n: spelt64(text, 2, 18),
        f: size(spelt(text, 18, 20), MOST),
        g: size(spelt(text, 20, 22), MOST),
        h: size(spelt(text, 22, 24), MOST),
    }
}

// The text of a call; whether it was one.
fn try_text(rt: &impl Print, text: &[u8], words: &mut [u64]) -> io::Result<bool> {
    if text.len() < HEAD {
        return Ok(false);
    }
    let c = called(text);
    if test_lines::spelt_words64(text, HEAD, words) < c.f + c.g + c.h {
        return Ok(false);
    }
    lend(rt, text, c, words)?;
    test_lines::end_line(rt)?;
    Ok(true)
}

// The next line; whether it was a call.
fn try_line(
    rt: &impl Print,
    input: &mut impl Read,
    line: &mut [u8],
    words: &mut [u64],
) -> io::Result<bool> {
    let l = test_lines::next_line(input, line)?;
    try_text(rt, &line[0..l], words)
}

// A proved loop has to end, and nothing says that an input does: it ends after a number of rounds that no run uses up.
fn run(
    rt: &impl Print,
    input: &mut impl Read,
    line: &mut [u8],
    words: &mut [u64],
) -> io::Result<()> {
    for _ in 0..u64::MAX {
        if !try_line(rt, input, line, words)? {
            break;
        }
    }
    Ok(())
}

fn main(rt: HostRuntime) -> io::Result<()> {
    let mut input = BufReader::new(rt.alloc(), rt.stdin())?;
    let mut line = [0u8; 4096];
    let mut words = [0u64; 150];
    run(&rt, &mut input, &mut line, &mut words)
}
