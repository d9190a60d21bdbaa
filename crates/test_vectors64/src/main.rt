// Drawn pairs of polynomials, words of 64 bits, against another program's numbers (tools/draw_vectors64.py).
//
// Reads a pair a line, n in 16 digits, d and e in 2, the words of f and g in 16 each, and writes for each the resultant and the reduced
// resultant, which are compared with the other program's numbers. After a number stands what was wrong, if anything was: the cofactors have
// to combine f and g to D, the words beyond L to be unchanged, and the working words to be zero.
#![tactic(auto)]

ghost use Rattle.std.specs.Prelude.{◌≤◌, ◌≡◌, length};

use refusals64::Answer;
use std::io;
use std::io::{BufReader, Read};
use test_lines::{WIDE_MARK, ending64, put_name, size, spelt};

// ---- whether cofactors combine

// Coefficient k of f: 0 beyond its words.
fn coefficient(f: &[u64], k: usize) -> u64 {
    if k < f.len() {
        return f[k];
    }
    0
}

// x and coefficient k of a b, added.
fn add_coefficient(n: u64, x: u64, a: &[u64], b: &[u64], k: usize) -> u64
    requires { 1 ≤ n }
{
    let mut s = x;
    for i in 0..a.len() {
        if i > k {
            return s;
        }
        s = arithmetic64::mul_add_mod(n, s, a[i], coefficient(b, k - i));
    }
    s
}

// Coefficient k of the constant c.
fn constant(c: u64, k: usize) -> u64 {
    if k == 0 {
        return c;
    }
    0
}

// Whether u f + v g is the constant c modulo n in the first count coefficients.
fn combines(n: u64, f: &[u64], g: &[u64], u: &[u64], v: &[u64], c: u64, count: usize) -> bool
    requires { 1 ≤ n }
{
    for k in 0..count {
        let x = add_coefficient(n, 0, f, u, k);
        if add_coefficient(n, x, g, v, k) != constant(c % n, k) {
            return false;
        }
    }
    true
}

// Whether only the first l words of w were written.
fn written(w: &[u64], l: usize) -> bool {
    if w.len() < l {
        return false;
    }
    w.len() - l <= ending64(w, WIDE_MARK)
}

// Whether only the first l words of u and v were written, and they combine f and g to c. No product has more than l + 48 words.
fn right(n: u64, f: &[u64], g: &[u64], u: &[u64], v: &[u64], l: usize, c: u64) -> bool
    requires { (1 ≤ n) × (l ≤ 4200) }
{
    if !written(u, l) {
        return false;
    }
    if !written(v, l) {
        return false;
    }
    if u.len() < l {
        return false;
    }
    if v.len() < l {
        return false;
    }
    combines(n, f, g, &u[0..l], &v[0..l], c, l + 49)
}

// ---- the services

// What a service called `what` answered: the status is 0, and the working words are zero.
fn answered(rt: &impl Print, status: u32, work: &[u64], what: &[u8]) -> io::Result<()> {
    if status != 0 {
        put_name(rt, what)?;
        put_name(rt, b"-status")?;
    }
    if ending64(work, 0) != work.len() {
        put_name(rt, what)?;
        put_name(rt, b"-working")?;
    }
    Ok(())
}

// Buffers as they are lent, each word marked, with words to spare. The contracts give only the lengths.
fn cofactor_room() -> [u64; 3040]
    ensures { 3040 ≡ length result }
{
    [WIDE_MARK; 3040]
}

fn working_room() -> [u64; 16400]
    ensures { 16400 ≡ length result }
{
    [WIDE_MARK; 16400]
}

fn try_resultant(rt: &impl Print, n: u64, f: &[u64], g: &[u64]) -> io::Result<()> {
    let mut work = working_room();
    let a: Answer = resultant_service64::resultant(n, f, g, &mut work);
    test_lines::put_hexadecimal(rt, a.value, 16)?;
    answered(rt, a.status, &work, b" resultant")
}

// L: the larger degree once for each halving of n, and 1.
fn cofactor_words(n: u64, larger: usize) -> usize
    requires { larger ≤ 48 }
    ensures { result ≤ 4200 }
{
    let mut l: usize = 1;
    let mut m = n;
    while 1 < m {
        if l > 4096 {
            return l;
        }
        l += larger;
        m = m / 2;
    }
    l
}

// The sent degree of the longer one.
fn larger_degree(f: &[u64], g: &[u64]) -> usize
    ensures { result ≤ 48 }
{
    if f.len() < g.len() {
        return degree(g);
    }
    degree(f)
}

fn degree(f: &[u64]) -> usize
    ensures { result ≤ 48 }
{
    if f.len() < 1 {
        return 0;
    }
    if 49 < f.len() {
        return 48;
    }
    f.len() - 1
}

fn compare_reduced(
    rt: &impl Print,
    n: u64,
    f: &[u64],
    g: &[u64],
    u: &[u64],
    v: &[u64],
    d: u64,
) -> io::Result<()>
    requires { 1 ≤ n }
{
    let l = cofactor_words(n, larger_degree(f, g));
    if !right(n, f, g, u, v, l, d) {
        put_name(rt, b" reduced-combine")?;
    }
    Ok(())
}

// D with its cofactors.
fn try_reduced(rt: &impl Print, n: u64, f: &[u64], g: &[u64]) -> io::Result<()>
    requires { 1 ≤ n }
{
    let mut u = cofactor_room();
    let mut v = cofactor_room();
    let mut work = working_room();
    let a: Answer = reduced_service64::reduced_resultant(n, f, g, &mut u, &mut v, &mut work);
    test_lines::put_hexadecimal(rt, a.value, 16)?;
    answered(rt, a.status, &work, b" reduced")?;
    compare_reduced(rt, n, f, g, &u, &v, a.value)
}

// ---- the run

// The text of a pair; whether it was one.
fn try_text(rt: &impl Print, text: &[u8], words: &mut [u64]) -> io::Result<bool> {
    let n = test_lines::spelt64(text, 0, 16);
    let d = size(spelt(text, 16, 18), 48);
    let e = size(spelt(text, 18, 20), 48);
    if n < 2 {
        return Ok(false);
    }
    if test_lines::spelt_words64(text, 20, words) < d + e + 2 {
        return Ok(false);
    }
    try_resultant(rt, n, &words[0..d + 1], &words[d + 1..d + e + 2])?;
    put_name(rt, b" ")?;
    try_reduced(rt, n, &words[0..d + 1], &words[d + 1..d + e + 2])?;
    test_lines::end_line(rt)?;
    Ok(true)
}

// The next line; whether it was a pair.
fn try_line(
    rt: &impl Print,
    input: &mut impl Read,
    line: &mut [u8],
    words: &mut [u64],
) -> io::Result<bool> {
    let l = test_lines::next_line(input, line)?;
    try_text(rt, &line[0..l], words)
}

// A proved loop has to end, and nothing says that an input does: it ends after a number of rounds that no run uses up.
fn run(
    rt: &impl Print,
    input: &mut impl Read,
    line: &mut [u8],
    words: &mut [u64],
) -> io::Result<()> {
    for _ in 0..u64::MAX {
        if !try_line(rt, input, line, words)? {
            break;
        }
    }
    Ok(())
}

fn main(rt: HostRuntime) -> io::Result<()> {
    let mut input = BufReader::new(rt.alloc(), rt.stdin())?;
    let mut line = [0u8; 4096];
    let mut words = [0u64; 98];
    run(&rt, &mut input, &mut line, &mut words)
}
