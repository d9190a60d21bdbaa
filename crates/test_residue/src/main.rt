// The residue services on cases from outside: tools/residue_figures.py writes them, and what must be answered.
//
// Each line of the input is a case of four numbers: the service, n, a, b. Each is answered by a line: the name of the service, the
// status and what it answered. A service's number and 10 stands for a row: all b below the fourth number, each answer short (test_lines).
// Joining has n1 and n2 for n and a, and b is x: a line has the idempotent, and x joined with each y.
#![tactic(auto)]

ghost use Rattle.std.specs.Prelude.{◌≤◌};
ghost use Rattle.residue.specs.Moduli.{CoprimeModuli};

use refusals::Answer;
use residue::Kind;
use residue_service::GcdAnswer;
use std::io;
use std::io::{BufReader, Read};
use test_lines::{put, put_answer, put_name};

const SUM: u32 = 1;

const DIFFERENCE: u32 = 2;

const PRODUCT: u32 = 3;

const POWER: u32 = 4;

const GCD: u32 = 5;

const KIND: u32 = 6;

const JOIN: u32 = 7;

const ROWS: u32 = 10;

// The name of a service of two numbers.
fn put_service(rt: &impl Print, service: u32) -> io::Result<()> {
    if service == SUM {
        return put_name(rt, b"sum");
    }
    if service == DIFFERENCE {
        return put_name(rt, b"difference");
    }
    if service == PRODUCT {
        return put_name(rt, b"times");
    }
    if service == POWER {
        return put_name(rt, b"power");
    }
    put_name(rt, b"gcd")
}

fn apply(service: u32, n: u32, a: u32, b: u32) -> Answer {
    if service == SUM {
        return residue_service::sum(n, a, b);
    }
    if service == DIFFERENCE {
        return residue_service::difference(n, a, b);
    }
    if service == PRODUCT {
        return residue_service::product(n, a, b);
    }
    residue_service::power(n, a, b as usize)
}

// ---- one case

fn gcd_line(rt: &impl Print, n: u32, a: u32, b: u32) -> io::Result<()> {
    let c = residue_service::gcd_with_cofactors(n, a, b);
    put_answer(rt, b"gcd", c.status, c.g)?;
    put(rt, c.s)?;
    put(rt, c.t)
}

// The K of n, and the kind of a.
fn kind_line(rt: &impl Print, n: u32, a: u32) -> io::Result<()> {
    put_name(rt, b"kind")?;
    put(rt, residue::modulus_of(n).k)?;
    match residue_service::classify(n, a) {
        Ok(k) => match k {
            Kind::Unit(i) => {
                put_name(rt, b" unit")?;
                put(rt, i)?;
            }
            Kind::Nilpotent => {
                put_name(rt, b" nilpotent")?;
            }
            Kind::Splits(p, q) => {
                put_name(rt, b" splits")?;
                put(rt, p)?;
                put(rt, q)?;
            }
        },
        Err(refusal) => {
            put_name(rt, b" refused")?;
            put(rt, refusal.number())?;
        }
    }
    Ok(())
}

// ---- joining

fn put_joined(rt: &impl Print, n1: u32, n2: u32, x: u32, y: u32) -> io::Result<()>
    requires { CoprimeModuli 4294967296 n1 n2 }
{
    if x >= n1 {
        return Ok(());
    }
    if y >= n2 {
        return Ok(());
    }
    put(rt, residue::join(n1, n2, x, y))
}

fn put_all_joined(rt: &impl Print, n1: u32, n2: u32, x: u32) -> io::Result<()>
    requires { CoprimeModuli 4294967296 n1 n2 }
{
    put(rt, residue::idempotent(n1, n2))?;
    for y in 0..n2 {
        put_joined(rt, n1, n2, x, y)?;
    }
    Ok(())
}

fn join_small(rt: &impl Print, n1: u32, n2: u32, x: u32) -> io::Result<()>
    requires le_n1 { (1 ≤ n1) × (n1 ≤ 16) }
    requires le_n2 { (1 ≤ n2) × (n2 ≤ 16) }
{
    if bezout::gcd(n1, n2) != 1 {
        return Ok(());
    }
    put_all_joined(rt, n1, n2, x)
}

fn join_line(rt: &impl Print, n1: u32, n2: u32, x: u32) -> io::Result<()> {
    put_name(rt, b"join")?;
    if n1 < 1 {
        return Ok(());
    }
    if n1 > 16 {
        return Ok(());
    }
    if n2 < 1 {
        return Ok(());
    }
    if n2 > 16 {
        return Ok(());
    }
    join_small(rt, n1, n2, x)
}

// ---- rows

fn put_short_gcd(rt: &impl Print, c: GcdAnswer) -> io::Result<()> {
    test_lines::put_short(rt, c.status, c.g)?;
    if c.status != 0 {
        return Ok(());
    }
    test_lines::put_digit(rt, c.s)?;
    test_lines::put_digit(rt, c.t)
}

fn put_one(rt: &impl Print, service: u32, n: u32, a: u32, b: u32) -> io::Result<()> {
    if service == GCD {
        return put_short_gcd(rt, residue_service::gcd_with_cofactors(n, a, b));
    }
    let r = apply(service, n, a, b);
    test_lines::put_short(rt, r.status, r.value)
}

// One service with a and all b below count.
fn row(rt: &impl Print, service: u32, n: u32, a: u32, count: u32) -> io::Result<()> {
    put_service(rt, service)?;
    put_name(rt, b" ")?;
    for b in 0..count {
        put_one(rt, service, n, a, b)?;
    }
    Ok(())
}

// ---- the run

fn answer(rt: &impl Print, service: u32, n: u32, a: u32, b: u32) -> io::Result<()> {
    if service > ROWS {
        return row(rt, service - ROWS, n, a, b);
    }
    if service == GCD {
        return gcd_line(rt, n, a, b);
    }
    if service == KIND {
        return kind_line(rt, n, a);
    }
    if service == JOIN {
        return join_line(rt, n, a, b);
    }
    let r = apply(service, n, a, b);
    put_service(rt, service)?;
    put_answer(rt, b"", r.status, r.value)
}

// The next line; whether there was one.
fn try_line(
    rt: &impl Print,
    input: &mut impl Read,
    line: &mut [u8],
    words: &mut [u32],
) -> io::Result<bool> {
    if test_lines::read_line(input, line, words)? < 4 {
        return Ok(false);
    }
    answer(rt, words[0], words[1], words[2], words[3])?;
    test_lines::end_line(rt)?;
    Ok(true)
}

// A proved loop has to end, and nothing says that an input does: it ends after a number of rounds that no run uses up.
fn run(
    rt: &impl Print,
    input: &mut impl Read,
    line: &mut [u8],
    words: &mut [u32],
) -> io::Result<()> {
    for _ in 0..u64::MAX {
        if !try_line(rt, input, line, words)? {
            break;
        }
    }
    Ok(())
}

fn main(rt: HostRuntime) -> io::Result<()> {
    let mut input = BufReader::new(rt.alloc(), rt.stdin())?;
    let mut line = [0u8; 4096];
    let mut words = [0u32; 4];
    run(&rt, &mut input, &mut line, &mut words)
}
