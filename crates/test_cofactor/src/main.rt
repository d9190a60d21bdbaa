// The cofactors of the resultant on cases from outside: tools/cofactor_figures.py writes them, and what must be answered.
//
// Each line of the input is a case: the service, n, the lengths of f and g, the lengths of u, v and the working words, the words of f, the
// words of g. The service is 1 for one pair: status, value, how many words of u and v are as found, what became of the working words, and
// whether u f + v g is the value. It is 2 for a row, which sends no g: f with the first so many g of that length, at most 3, in the order
// in which the constant changes last; so many stands where a pair has the length of u. Each answer is short (test_lines), and a question
// mark where u f + v g is not the value.
#![tactic(auto)]

ghost use Rattle.std.specs.Prelude.{◌≤◌};

use refusals::Answer;
use std::io;
use std::io::{BufReader, Read};
use test_lines::{MARK, ending, put_count, put_name, size};

const PAIR: u32 = 1;

// ---- whether the cofactors combine

// Coefficient k of f: 0 beyond its first l words.
fn coefficient(f: &[u32], l: usize, k: usize) -> u32 {
    if k < l {
        if k < f.len() {
            return f[k];
        }
    }
    0
}

// x and coefficient k of f u, added; u has l words.
fn add_coefficient(n: u32, x: u32, f: &[u32], u: &[u32], l: usize, k: usize) -> u32
    requires { 1 ≤ n }
{
    let mut s = x;
    for i in 0..f.len() {
        if i > k {
            return s;
        }
        s = arithmetic::mul_add_mod(n, s, f[i], coefficient(u, l, k - i));
    }
    s
}

// Coefficient k of the constant c.
fn constant(c: u32, k: usize) -> u32 {
    if k == 0 {
        return c;
    }
    0
}

// Whether u f + v g, with u of one word less than g and v of one less than f, is the constant c modulo n.
fn combines(n: u32, f: &[u32], g: &[u32], u: &[u32], v: &[u32], c: u32) -> bool
    requires { 1 ≤ n }
{
    if f.len() == 0 {
        return false;
    }
    if g.len() == 0 {
        return false;
    }
    let d = f.len() - 1;
    let e = g.len() - 1;
    for k in 0..f.len() + g.len() {
        let x = add_coefficient(n, 0, f, u, e, k);
        if add_coefficient(n, x, g, v, d, k) != constant(c, k) {
            return false;
        }
    }
    true
}

// ---- one pair

fn put_combines(
    rt: &impl Print,
    n: u32,
    f: &[u32],
    g: &[u32],
    u: &[u32],
    v: &[u32],
    c: u32,
) -> io::Result<()> {
    if n < 1 {
        return Ok(());
    }
    if combines(n, f, g, u, v, c) {
        put_name(rt, b" combines")?;
    }
    Ok(())
}

fn pair(
    rt: &impl Print,
    n: u32,
    f: &[u32],
    g: &[u32],
    u: &mut [u32],
    v: &mut [u32],
    work: &mut [u32],
) -> io::Result<()> {
    let r: Answer = cofactor_service::resultant_cofactors(n, f, g, u, v, work);
    test_lines::put_answer(rt, b"cofactors", r.status, r.value)?;
    put_count(rt, ending(u, MARK))?;
    put_count(rt, ending(v, MARK))?;
    test_lines::put_working(rt, work)?;
    if r.status == 0 {
        put_combines(rt, n, f, g, u, v, r.value)?;
    }
    Ok(())
}

// The pair with marked words.
fn mark(
    rt: &impl Print,
    n: u32,
    f: &[u32],
    g: &[u32],
    u: &mut [u32],
    v: &mut [u32],
    work: &mut [u32],
) -> io::Result<()> {
    test_lines::fill(u, MARK);
    test_lines::fill(v, MARK);
    test_lines::fill(work, MARK);
    pair(rt, n, f, g, u, v, work)
}

// The pair with as much of each buffer as is lent.
fn lend(
    rt: &impl Print,
    n: u32,
    f: &[u32],
    g: &[u32],
    sizes: &[u32],
    u: &mut [u32],
    v: &mut [u32],
    work: &mut [u32],
) -> io::Result<()> {
    if sizes.len() < 3 {
        return Ok(());
    }
    let lu = size(sizes[0], u.len());
    let lv = size(sizes[1], v.len());
    let lw = size(sizes[2], work.len());
    mark(rt, n, f, g, &mut u[0..lu], &mut v[0..lv], &mut work[0..lw])
}

// ---- rows

// Whether fewer words of u were written than g has, fewer of v than f has, and they combine.
fn right(n: u32, f: &[u32], g: &[u32], u: &[u32], v: &[u32], c: u32) -> bool
    requires { 1 ≤ n }
{
    if u.len() - ending(u, MARK) >= g.len() {
        return false;
    }
    if v.len() - ending(v, MARK) >= f.len() {
        return false;
    }
    combines(n, f, g, u, v, c)
}

fn put_short(rt: &impl Print, n: u32, f: &[u32], g: &[u32], work: &mut [u32]) -> io::Result<()>
    requires { 1 ≤ n }
{
    let mut u = [MARK; 4];
    let mut v = [MARK; 4];
    let r: Answer = cofactor_service::resultant_cofactors(n, f, g, &mut u, &mut v, work);
    if r.status == 0 {
        if !right(n, f, g, &u, &v, r.value) {
            return put_name(rt, b"?");
        }
    }
    test_lines::put_short(rt, r.status, r.value)
}

// The digits of t to the base n.
fn counted(n: u32, t: u32) -> [u32; 3]
    requires { 2 ≤ n }
{
    [t / n / n % n, t / n % n, t % n]
}

// f with polynomial t of those of m words.
fn put_one(rt: &impl Print, n: u32, f: &[u32], m: usize, t: u32, work: &mut [u32]) -> io::Result<()>
    requires { (2 ≤ n) × (m ≤ 3) }
{
    let g = counted(n, t);
    put_short(rt, n, f, &g[3 - m..3], work)
}

fn put_row(
    rt: &impl Print,
    n: u32,
    f: &[u32],
    m: usize,
    count: u32,
    work: &mut [u32],
) -> io::Result<()>
    requires { (2 ≤ n) × (m ≤ 3) }
{
    for t in 0..count {
        put_one(rt, n, f, m, t, work)?;
    }
    Ok(())
}

fn row(
    rt: &impl Print,
    n: u32,
    f: &[u32],
    m: usize,
    count: u32,
    work: &mut [u32],
) -> io::Result<()> {
    put_name(rt, b"row ")?;
    if n < 2 {
        return Ok(());
    }
    if 3 < m {
        return Ok(());
    }
    put_row(rt, n, f, m, count, work)
}

// ---- the run

// The words of a line; whether they were all there.
fn try_words(
    rt: &impl Print,
    words: &[u32],
    u: &mut [u32],
    v: &mut [u32],
    work: &mut [u32],
) -> io::Result<bool> {
    if words.len() < 7 {
        return Ok(false);
    }
    let l = size(words[2], 64);
    let m = size(words[3], 64);
    if words.len() < 7 + l {
        return Ok(false);
    }
    let f = &words[7..7 + l];
    if words[0] != PAIR {
        row(rt, words[1], f, m, words[4], work)?;
        return Ok(true);
    }
    if words.len() < 7 + l + m {
        return Ok(false);
    }
    lend(
        rt,
        words[1],
        f,
        &words[7 + l..7 + l + m],
        &words[4..7],
        u,
        v,
        work,
    )?;
    Ok(true)
}

// The next line; whether there was one.
fn try_line(
    rt: &impl Print,
    input: &mut impl Read,
    line: &mut [u8],
    words: &mut [u32],
    u: &mut [u32],
    v: &mut [u32],
    work: &mut [u32],
) -> io::Result<bool> {
    let count = test_lines::read_line(input, line, words)?;
    if !try_words(rt, &words[0..count], u, v, work)? {
        return Ok(false);
    }
    test_lines::end_line(rt)?;
    Ok(true)
}

// A proved loop has to end, and nothing says that an input does: it ends after a number of rounds that no run uses up.
fn run(
    rt: &impl Print,
    input: &mut impl Read,
    line: &mut [u8],
    words: &mut [u32],
    u: &mut [u32],
    v: &mut [u32],
    work: &mut [u32],
) -> io::Result<()> {
    for _ in 0..u64::MAX {
        if !try_line(rt, input, line, words, u, v, work)? {
            break;
        }
    }
    Ok(())
}

fn main(rt: HostRuntime) -> io::Result<()> {
    let mut input = BufReader::new(rt.alloc(), rt.stdin())?;
    let mut line = [0u8; 4096];
    let mut words = [0u32; 128];
    let mut u = [0u32; 52];
    let mut v = [0u32; 52];
    let mut work = [0u32; 8200];
    run(
        &rt, &mut input, &mut line, &mut words, &mut u, &mut v, &mut work,
    )
}
