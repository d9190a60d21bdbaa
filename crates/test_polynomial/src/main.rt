// The polynomial services on cases from outside: tools/polynomial_figures.py writes them, and what must be answered.
//
// Each line of the input is a case: the service, n, the lengths of f and g, the lengths of the first and second result and of the working
// words, the words of f, the words of g. Each is answered by a line: the name of the service, the status, the value, and what became of
// the lent words that it writes.
#![tactic(auto)]

use degree_service::Degree;
use refusals::Answer;
use std::io;
use std::io::{BufReader, Read};
use test_lines::{MARK, put, put_lent, put_name, put_working, size};

const PRODUCT: u32 = 1;

const DIVISION: u32 = 2;

const MONIC: u32 = 3;

const INVERSE: u32 = 4;

const DEGREE: u32 = 5;

fn put_answer(rt: &impl Print, name: &[u8], r: Answer) -> io::Result<()> {
    test_lines::put_answer(rt, name, r.status, r.value)
}

// ---- the services

fn product_line(rt: &impl Print, n: u32, f: &[u32], g: &[u32], a: &mut [u32]) -> io::Result<()> {
    put_answer(rt, b"product", product_service::product(n, f, g, a))?;
    put_lent(rt, a)
}

fn division_line(
    rt: &impl Print,
    n: u32,
    f: &[u32],
    g: &[u32],
    a: &mut [u32],
    b: &mut [u32],
) -> io::Result<()> {
    put_answer(rt, b"division", division_service::division(n, f, g, a, b))?;
    put_lent(rt, a)?;
    put_lent(rt, b)
}

fn monic_line(
    rt: &impl Print,
    n: u32,
    f: &[u32],
    a: &mut [u32],
    b: &mut [u32],
    work: &mut [u32],
) -> io::Result<()> {
    put_answer(
        rt,
        b"monic",
        unit_monic_service::unit_times_monic(n, f, a, b, work),
    )?;
    put_lent(rt, a)?;
    put_lent(rt, b)?;
    put_working(rt, work)
}

fn inverse_line(
    rt: &impl Print,
    n: u32,
    f: &[u32],
    a: &mut [u32],
    work: &mut [u32],
) -> io::Result<()> {
    put_answer(rt, b"inverse", inverse_service::inverse(n, f, a, work))?;
    put_lent(rt, a)?;
    put_working(rt, work)
}

// The true degree, and the leading part.
fn degree_line(rt: &impl Print, n: u32, f: &[u32]) -> io::Result<()> {
    match degree_service::true_degree(n, f) {
        Degree::None => {
            put_name(rt, b"degree none")?;
        }
        Degree::At(k) => {
            put_name(rt, b"degree")?;
            put(rt, k)?;
        }
        Degree::Refused(refusal) => {
            put_name(rt, b"degree refused")?;
            put(rt, refusal.number())?;
        }
    }
    test_lines::put_words(rt, degree_service::leading(n, f))
}

// The product word by word, for k from 0 to d + e + 2: the answer to the last.
fn words_apart(n: u32, f: &[u32], g: &[u32], a: &mut [u32]) -> Answer {
    let all = f.len() + g.len();
    for k in 0..all {
        product_word_service::product_word(n, f, g, a, k);
    }
    product_word_service::product_word(n, f, g, a, all)
}

fn words_line(rt: &impl Print, n: u32, f: &[u32], g: &[u32], a: &mut [u32]) -> io::Result<()> {
    put_answer(rt, b"words", words_apart(n, f, g, a))?;
    put_lent(rt, a)
}

// ---- the run

fn answer(
    rt: &impl Print,
    service: u32,
    n: u32,
    f: &[u32],
    g: &[u32],
    a: &mut [u32],
    b: &mut [u32],
    work: &mut [u32],
) -> io::Result<()> {
    if service == PRODUCT {
        return product_line(rt, n, f, g, a);
    }
    if service == DIVISION {
        return division_line(rt, n, f, g, a, b);
    }
    if service == MONIC {
        return monic_line(rt, n, f, a, b, work);
    }
    if service == INVERSE {
        return inverse_line(rt, n, f, a, work);
    }
    if service == DEGREE {
        return degree_line(rt, n, f);
    }
    words_line(rt, n, f, g, a)
}

// The call with marked words.
fn mark(
    rt: &impl Print,
    service: u32,
    n: u32,
    f: &[u32],
    g: &[u32],
    a: &mut [u32],
    b: &mut [u32],
    work: &mut [u32],
) -> io::Result<()> {
    test_lines::fill(a, MARK);
    test_lines::fill(b, MARK);
    test_lines::fill(work, MARK);
    answer(rt, service, n, f, g, a, b, work)
}

// The call with as much of each buffer as is lent.
fn lend(
    rt: &impl Print,
    service: u32,
    n: u32,
    f: &[u32],
    g: &[u32],
    sizes: &[u32],
    a: &mut [u32],
    b: &mut [u32],
    work: &mut [u32],
) -> io::Result<()> {
    if sizes.len() < 3 {
        return Ok(());
    }
    let la = size(sizes[0], a.len());
    let lb = size(sizes[1], b.len());
    let lw = size(sizes[2], work.len());
    mark(
        rt,
        service,
        n,
        f,
        g,
        &mut a[0..la],
        &mut b[0..lb],
        &mut work[0..lw],
    )
}

// The words of a line; whether they were all there.
fn try_words(
    rt: &impl Print,
    words: &[u32],
    a: &mut [u32],
    b: &mut [u32],
    work: &mut [u32],
) -> io::Result<bool> {
    if words.len() < 7 {
        return Ok(false);
    }
    let l = size(words[2], 64);
    let m = size(words[3], 64);
    if words.len() < 7 + l + m {
        return Ok(false);
    }
    lend(
        rt,
        words[0],
        words[1],
        &words[7..7 + l],
        &words[7 + l..7 + l + m],
        &words[4..7],
        a,
        b,
        work,
    )?;
    test_lines::end_line(rt)?;
    Ok(true)
}

// The next line; whether there was one.
fn try_line(
    rt: &impl Print,
    input: &mut impl Read,
    line: &mut [u8],
    words: &mut [u32],
    a: &mut [u32],
    b: &mut [u32],
    work: &mut [u32],
) -> io::Result<bool> {
    let count = test_lines::read_line(input, line, words)?;
    try_words(rt, &words[0..count], a, b, work)
}

// A proved loop has to end, and nothing says that an input does: it ends after a number of rounds that no run uses up.
fn run(
    rt: &impl Print,
    input: &mut impl Read,
    line: &mut [u8],
    words: &mut [u32],
    a: &mut [u32],
    b: &mut [u32],
    work: &mut [u32],
) -> io::Result<()> {
    for _ in 0..u64::MAX {
        if !try_line(rt, input, line, words, a, b, work)? {
            break;
        }
    }
    Ok(())
}

fn main(rt: HostRuntime) -> io::Result<()> {
    let mut input = BufReader::new(rt.alloc(), rt.stdin())?;
    let mut line = [0u8; 4096];
    let mut words = [0u32; 128];
    let mut a = [0u32; 2048];
    let mut b = [0u32; 64];
    let mut work = [0u32; 8200];
    run(
        &rt, &mut input, &mut line, &mut words, &mut a, &mut b, &mut work,
    )
}
