// The service that says why two polynomials are not coprime, on cases from outside: tools/why_figures.py writes them, and what must be
// answered.
//
// Each line of the input is a case: the kind, n, the lengths of f and g, the lengths of the divisor and of the working words, two numbers,
// the words of f, the words of g. If the kind is 1, the pair is answered by status, ground, modulus, degree, what became of the lent words,
// and whether this program found that the ground holds, by dividing. If it is 2, the line is a row, which sends no g: f with so many g of
// that length, at most 3, as the length of the divisor says; the first number is that of the first g, the second the step to the next; the
// digits of its number to the base n are the words of g, modulo n^3. Each answer is the ground, the modulus of ground 1 and 2, and of
// ground 2 the degree and the words below the top one, a character each (test_lines); a question mark if the ground does not hold.
#![tactic(auto)]

ghost use Rattle.std.specs.Prelude.{◌≤◌};

use refusals::Answer;
use std::io;
use std::io::{BufReader, Read};
use test_lines::{MARK, ending, put, put_digit, put_name, size};
use why_service::Reason;

const PAIR: u32 = 1;

// The words of a line before f.
const HEAD: usize = 8;

// ---- whether a ground holds

// Whether m divides each word of f.
fn multiples(m: u32, f: &[u32]) -> bool {
    f.iter().all(|x| m != 0 && *x % m == 0)
}

// The words of f modulo m, as far as room goes.
fn reduce_into(m: u32, f: &[u32], room: &mut [u32])
    requires { 1 ≤ m }
{
    for i in 0..room.len() {
        if i >= f.len() {
            return;
        }
        room[i] = f[i] % m;
    }
}

// Whether each word of w from place k on is 0.
fn zero_from(w: &[u32], k: usize) -> bool {
    if w.len() < k {
        return true;
    }
    w.len() - k <= ending(w, 0)
}

// Whether h divides f modulo m, f of at most 49 words: the division of the engine leaves no remainder.
fn divides(m: u32, h: &[u32], f: &[u32]) -> bool
    requires { 1 ≤ m }
{
    let mut room = [0u32; 49];
    let mut quotient = [0u32; 49];
    let mut rest = [0u32; 49];
    reduce_into(m, f, &mut room);
    let k = f.len();
    if 49 < k {
        return false;
    }
    let a: Answer = division_service::division(m, &room[0..k], h, &mut quotient, &mut rest);
    if a.status != 0 {
        return false;
    }
    zero_from(&rest, 0)
}

fn true_zero(f: &[u32], g: &[u32], m: u32, w: &[u32]) -> bool {
    if !multiples(m, f) {
        return false;
    }
    if !multiples(m, g) {
        return false;
    }
    zero_from(w, 0)
}

fn true_common(f: &[u32], g: &[u32], m: u32, t: usize, w: &[u32]) -> bool
    requires { 1 ≤ m }
{
    if t < 1 {
        return false;
    }
    if t >= w.len() {
        return false;
    }
    if w[t] != 1 {
        return false;
    }
    if !zero_from(w, t + 1) {
        return false;
    }
    let h = &w[0..t + 1];
    if !divides(m, h, f) {
        return false;
    }
    divides(m, h, g)
}

// Whether the ground holds; w are the words of the divisor. A named modulus divides n and is above 1.
fn true_ground(n: u32, f: &[u32], g: &[u32], r: Reason, w: &[u32]) -> bool {
    if r.ground == 0 {
        if r.m != 0 {
            return false;
        }
        if r.degree != 0 {
            return false;
        }
        return zero_from(w, 0);
    }
    if r.m < 2 {
        return false;
    }
    if n % r.m != 0 {
        return false;
    }
    if r.ground == 1 {
        return true_zero(f, g, r.m, w);
    }
    true_common(f, g, r.m, r.degree as usize, w)
}

// ---- one pair

fn put_reason(rt: &impl Print, r: Reason) -> io::Result<()> {
    put_name(rt, b"why")?;
    put(rt, r.status)?;
    put(rt, r.ground)?;
    put(rt, r.m)?;
    put(rt, r.degree)
}

// The divisor has 49 words, if it is long enough.
fn put_holds(
    rt: &impl Print,
    n: u32,
    f: &[u32],
    g: &[u32],
    r: Reason,
    w: &[u32],
) -> io::Result<()> {
    if r.status != 0 {
        return Ok(());
    }
    if w.len() < 49 {
        return Ok(());
    }
    if true_ground(n, f, g, r, &w[0..49]) {
        put_name(rt, b" holds")?;
    }
    Ok(())
}

// The pair with marked words.
fn pair(
    rt: &impl Print,
    n: u32,
    f: &[u32],
    g: &[u32],
    w: &mut [u32],
    work: &mut [u32],
) -> io::Result<()> {
    test_lines::fill(w, MARK);
    test_lines::fill(work, MARK);
    let r = why_service::why(n, f, g, w, work);
    put_reason(rt, r)?;
    test_lines::put_lent(rt, w)?;
    test_lines::put_working(rt, work)?;
    put_holds(rt, n, f, g, r, w)
}

// ---- rows

// The first words of w, a character each.
fn put_digits(rt: &impl Print, w: &[u32]) -> io::Result<()> {
    for x in w {
        put_digit(rt, *x)?;
    }
    Ok(())
}

fn put_short(rt: &impl Print, r: Reason, w: &[u32]) -> io::Result<()> {
    put_digit(rt, r.ground)?;
    if r.ground == 0 {
        return Ok(());
    }
    put_digit(rt, r.m)?;
    if r.ground == 1 {
        return Ok(());
    }
    put_digit(rt, r.degree)?;
    put_digits(rt, &w[0..size(r.degree, w.len())])
}

fn put_one(
    rt: &impl Print,
    n: u32,
    f: &[u32],
    g: &[u32],
    w: &mut [u32],
    work: &mut [u32],
) -> io::Result<()> {
    let r = why_service::why(n, f, g, w, work);
    if r.status != 0 {
        return put_name(rt, b"!");
    }
    if !true_ground(n, f, g, r, w) {
        return put_name(rt, b"?");
    }
    put_short(rt, r, w)
}

// f with polynomial t of those of m words, the constant as the last digit.
fn put_counted(
    rt: &impl Print,
    n: u32,
    f: &[u32],
    m: usize,
    t: u32,
    work: &mut [u32],
) -> io::Result<()>
    requires { (2 ≤ n) × (m ≤ 3) }
{
    let mut w = [0u32; 49];
    let g = [t % n, t / n % n, t / n / n % n];
    put_one(rt, n, f, &g[0..m], &mut w, work)
}

fn put_row(
    rt: &impl Print,
    n: u32,
    f: &[u32],
    m: usize,
    count: u32,
    first: u32,
    step: u32,
    work: &mut [u32],
) -> io::Result<()>
    requires { (2 ≤ n) × (m ≤ 3) }
{
    let mut t = first;
    for _ in 0..count {
        put_counted(rt, n, f, m, t, work)?;
        t = arithmetic::mul_add_mod(4294967291, t, 1, step);
    }
    Ok(())
}

fn row(
    rt: &impl Print,
    n: u32,
    f: &[u32],
    m: usize,
    count: u32,
    first: u32,
    step: u32,
    work: &mut [u32],
) -> io::Result<()> {
    put_name(rt, b"row ")?;
    if n < 2 {
        return Ok(());
    }
    if 3 < m {
        return Ok(());
    }
    put_row(rt, n, f, m, count, first, step, work)
}

// ---- the run

// A pair with as much of each buffer as is lent.
fn lend(
    rt: &impl Print,
    n: u32,
    f: &[u32],
    g: &[u32],
    lw: u32,
    lent: u32,
    w: &mut [u32],
    work: &mut [u32],
) -> io::Result<()> {
    let a = size(lw, w.len());
    let b = size(lent, work.len());
    pair(rt, n, f, g, &mut w[0..a], &mut work[0..b])
}

// The words of a line; whether they were all there.
fn try_words(rt: &impl Print, words: &[u32], w: &mut [u32], work: &mut [u32]) -> io::Result<bool> {
    if words.len() < HEAD {
        return Ok(false);
    }
    let l = size(words[2], 64);
    let m = size(words[3], 64);
    if words.len() < HEAD + l {
        return Ok(false);
    }
    let f = &words[HEAD..HEAD + l];
    if words[0] != PAIR {
        row(rt, words[1], f, m, words[4], words[6], words[7], work)?;
        return Ok(true);
    }
    if words.len() < HEAD + l + m {
        return Ok(false);
    }
    lend(
        rt,
        words[1],
        f,
        &words[HEAD + l..HEAD + l + m],
        words[4],
        words[5],
        w,
        work,
    )?;
    Ok(true)
}

// The next line; whether there was one.
fn try_line(
    rt: &impl Print,
    input: &mut impl Read,
    line: &mut [u8],
    words: &mut [u32],
    w: &mut [u32],
    work: &mut [u32],
) -> io::Result<bool> {
    let count = test_lines::read_line(input, line, words)?;
    if !try_words(rt, &words[0..count], w, work)? {
        return Ok(false);
    }
    test_lines::end_line(rt)?;
    Ok(true)
}

// A proved loop has to end, and nothing says that an input does: it ends after a number of rounds that no run uses up.
fn run(
    rt: &impl Print,
    input: &mut impl Read,
    line: &mut [u8],
    words: &mut [u32],
    w: &mut [u32],
    work: &mut [u32],
) -> io::Result<()> {
    for _ in 0..u64::MAX {
        if !try_line(rt, input, line, words, w, work)? {
            break;
        }
    }
    Ok(())
}

fn main(rt: HostRuntime) -> io::Result<()> {
    let mut input = BufReader::new(rt.alloc(), rt.stdin())?;
    let mut line = [0u8; 4096];
    let mut words = [0u32; 128];
    let mut w = [0u32; 52];
    let mut work = [0u32; 8200];
    run(&rt, &mut input, &mut line, &mut words, &mut w, &mut work)
}
