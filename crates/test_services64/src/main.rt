// Residues and polynomials in words of 64 bits, a call a line, against figures from outside (tools/services64_figures.py).
//
// Reads a call a line, hexadecimal without blanks: the service in 2 digits, n in 16, the lengths of f and g in 2 each, those of the lent
// buffers u and v and of the working words in 4 each, the words of f and g in 16 each. For each it writes a line, decimal: the name of the
// service, the status, the value, and what became of the lent words. The words of u and v are all written, in brackets; of the working
// words how many at the end are as found, and how many are zero.
#![tactic(auto)]

ghost use Rattle.std.specs.Prelude.{◌+◌, ◌≤◌, ◌≡◌, length};

use degree_service::Degree;
use refusals64::Answer;
use residue::Kind;
use std::io;
use std::io::{BufReader, Read};
use test_lines::{
    WIDE_MARK, put, put_answer64, put_name, put_words64, put_working64, put64, size, spelt, spelt64,
};

// The services, by their numbers in the input.
const SUM: u32 = 1;

const DIFFERENCE: u32 = 2;

const TIMES: u32 = 3;

const POWER: u32 = 4;

const GCD: u32 = 5;

const KIND: u32 = 6;

const PRODUCT: u32 = 7;

const DIVISION: u32 = 8;

const DEGREE: u32 = 9;

const LEADING: u32 = 10;

const MONIC: u32 = 11;

// The characters of a line before the words of f, and the most words of f and of g that are sent.
const HEAD: usize = 34;

const MOST: usize = 50;

fn put_answer(rt: &impl Print, name: &[u8], a: Answer) -> io::Result<()> {
    put_answer64(rt, name, a.status, a.value)
}

// ---- the services on residues

fn gcd_line(rt: &impl Print, n: u64, a: u64, b: u64) -> io::Result<()> {
    let r = residue_service64::gcd_with_cofactors(n, a, b);
    put_answer64(rt, b"gcd", r.status, r.g)?;
    put64(rt, r.s)?;
    put64(rt, r.t)
}

fn kind_line(rt: &impl Print, n: u64, a: u64) -> io::Result<()> {
    match residue_service64::classify(n, a) {
        Ok(k) => match k {
            Kind::Unit(i) => {
                put_name(rt, b"unit")?;
                put64(rt, i)?;
            }
            Kind::Nilpotent => {
                put_name(rt, b"nilpotent")?;
            }
            Kind::Splits(p, q) => {
                put_name(rt, b"splits")?;
                put64(rt, p)?;
                put64(rt, q)?;
            }
        },
        Err(refusal) => {
            put_name(rt, b"no kind")?;
            put(rt, refusal.number())?;
        }
    }
    Ok(())
}

fn residues(rt: &impl Print, service: u32, n: u64, a: u64, b: u64) -> io::Result<()> {
    if service == SUM {
        return put_answer(rt, b"sum", residue_service64::sum(n, a, b));
    }
    if service == DIFFERENCE {
        return put_answer(rt, b"difference", residue_service64::difference(n, a, b));
    }
    if service == TIMES {
        return put_answer(rt, b"times", residue_service64::product(n, a, b));
    }
    if service == POWER {
        return put_answer(rt, b"power", residue_service64::power(n, a, b as usize));
    }
    if service == GCD {
        return gcd_line(rt, n, a, b);
    }
    kind_line(rt, n, a)
}

// ---- the services on polynomials

fn product_line(rt: &impl Print, n: u64, f: &[u64], g: &[u64], p: &mut [u64]) -> io::Result<()> {
    put_answer(rt, b"product", product_service64::product(n, f, g, p))?;
    put_words64(rt, p)
}

fn division_line(
    rt: &impl Print,
    n: u64,
    f: &[u64],
    g: &[u64],
    q: &mut [u64],
    r: &mut [u64],
) -> io::Result<()> {
    put_answer(rt, b"division", division_service64::division(n, f, g, q, r))?;
    put_words64(rt, q)?;
    put_words64(rt, r)
}

fn degree_line(rt: &impl Print, n: u64, f: &[u64]) -> io::Result<()> {
    match degree_service64::true_degree(n, f) {
        Degree::None => {
            put_name(rt, b"degree none")?;
        }
        Degree::At(k) => {
            put_name(rt, b"degree")?;
            put(rt, k)?;
        }
        Degree::Refused(refusal) => {
            put_name(rt, b"no degree")?;
            put(rt, refusal.number())?;
        }
    }
    Ok(())
}

fn leading_line(rt: &impl Print, n: u64, f: &[u64]) -> io::Result<()> {
    put_name(rt, b"leading")?;
    put_words64(rt, degree_service64::leading(n, f))
}

fn monic_line(
    rt: &impl Print,
    n: u64,
    f: &[u64],
    u: &mut [u64],
    h: &mut [u64],
    work: &mut [u64],
) -> io::Result<()> {
    put_answer(
        rt,
        b"monic",
        unit_monic_service64::unit_times_monic(n, f, u, h, work),
    )?;
    put_words64(rt, u)?;
    put_words64(rt, h)?;
    put_working64(rt, work)
}

fn inverse_line(
    rt: &impl Print,
    n: u64,
    f: &[u64],
    out: &mut [u64],
    work: &mut [u64],
) -> io::Result<()> {
    put_answer(rt, b"inverse", inverse_service64::inverse(n, f, out, work))?;
    put_words64(rt, out)?;
    put_working64(rt, work)
}

fn polynomials(
    rt: &impl Print,
    service: u32,
    n: u64,
    f: &[u64],
    g: &[u64],
    u: &mut [u64],
    v: &mut [u64],
    work: &mut [u64],
) -> io::Result<()> {
    if service == PRODUCT {
        return product_line(rt, n, f, g, u);
    }
    if service == DIVISION {
        return division_line(rt, n, f, g, u, v);
    }
    if service == DEGREE {
        return degree_line(rt, n, f);
    }
    if service == LEADING {
        return leading_line(rt, n, f);
    }
    if service == MONIC {
        return monic_line(rt, n, f, u, v, work);
    }
    inverse_line(rt, n, f, u, work)
}

// ---- the run

// The first word of f, 0 where there is none.
fn head(f: &[u64]) -> u64 {
    if f.len() == 0 {
        return 0;
    }
    f[0]
}

fn call(
    rt: &impl Print,
    service: u32,
    n: u64,
    f: &[u64],
    g: &[u64],
    u: &mut [u64],
    v: &mut [u64],
    work: &mut [u64],
) -> io::Result<()> {
    if service <= KIND {
        return residues(rt, service, n, head(f), head(g));
    }
    polynomials(rt, service, n, f, g, u, v, work)
}

// The buffers as they are lent, each word marked, with words to spare. The contracts give only the lengths.
fn result_room() -> [u64; 3040]
    ensures { 3040 ≡ length result }
{
    [WIDE_MARK; 3040]
}

fn working_room() -> [u64; 16400]
    ensures { 16400 ≡ length result }
{
    [WIDE_MARK; 16400]
}

// The call with as much of each buffer as is lent.
fn lend(rt: &impl Print, text: &[u8], f: &[u64], g: &[u64]) -> io::Result<()> {
    let n = spelt64(text, 2, 18);
    let lu = size(spelt(text, 22, 26), 3040);
    let lv = size(spelt(text, 26, 30), 3040);
    let lw = size(spelt(text, 30, 34), 16400);
    let mut u = result_room();
    let mut v = result_room();
    let mut work = working_room();
    call(
        rt,
        spelt(text, 0, 2),
        n,
        f,
        g,
        &mut u[0..lu],
        &mut v[0..lv],
        &mut work[0..lw],
    )
}

// The text of a call; whether it was one.
fn try_text(rt: &impl Print, text: &[u8], words: &mut [u64]) -> io::Result<bool> {
    if text.len() < HEAD {
        return Ok(false);
    }
    let l = size(spelt(text, 18, 20), MOST);
    let m = size(spelt(text, 20, 22), MOST);
    if test_lines::spelt_words64(text, HEAD, words) < l + m {
        return Ok(false);
    }
    lend(rt, text, &words[0..l], &words[l..l + m])?;
    test_lines::end_line(rt)?;
    Ok(true)
}

// The next line; whether it was a call.
fn try_line(
    rt: &impl Print,
    input: &mut impl Read,
    line: &mut [u8],
    words: &mut [u64],
) -> io::Result<bool> {
    let l = test_lines::next_line(input, line)?;
    try_text(rt, &line[0..l], words)
}

// A proved loop has to end, and nothing says that an input does: it ends after a number of rounds that no run uses up.
fn run(
    rt: &impl Print,
    input: &mut impl Read,
    line: &mut [u8],
    words: &mut [u64],
) -> io::Result<()> {
    for _ in 0..u64::MAX {
        if !try_line(rt, input, line, words)? {
            break;
        }
    }
    Ok(())
}

fn main(rt: HostRuntime) -> io::Result<()> {
    let mut input = BufReader::new(rt.alloc(), rt.stdin())?;
    let mut line = [0u8; 4096];
    let mut words = [0u64; 100];
    run(&rt, &mut input, &mut line, &mut words)
}
