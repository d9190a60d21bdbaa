// Drawn pairs of polynomials, against another program's numbers (tools/draw_vectors.py).
//
// Reads frames of kind 01, one a line, and writes for each the resultant and the reduced resultant, which are compared with the other
// program's numbers, both of them in every line. After a number stands what was wrong, if anything was. The services are called on the
// words of the frame, that for D alone too; the cofactors have to combine f and g to D, the words beyond L to be unchanged, the working
// words to be zero, and, if d + e is at most 8, the plain evaluator to answer the same. So with the cofactors of the resultant: they
// combine f and g to it, and the words beyond e and d are unchanged.
#![tactic(auto)]

ghost use Rattle.std.specs.Prelude.{◌≤◌, ◌≡◌, length};

use refusals::Answer;
use std::io;
use std::io::{BufReader, Read};
use test_lines::{MARK, ending, put_name, size, spelt};

// ---- whether cofactors combine

// Coefficient k of f: 0 beyond its words.
fn coefficient(f: &[u32], k: usize) -> u32 {
    if k < f.len() {
        return f[k];
    }
    0
}

// x and coefficient k of a b, added.
fn add_coefficient(n: u32, x: u32, a: &[u32], b: &[u32], k: usize) -> u32
    requires { 1 ≤ n }
{
    let mut s = x;
    for i in 0..a.len() {
        if i > k {
            return s;
        }
        s = arithmetic::mul_add_mod(n, s, a[i], coefficient(b, k - i));
    }
    s
}

// Coefficient k of the constant c.
fn constant(c: u32, k: usize) -> u32 {
    if k == 0 {
        return c;
    }
    0
}

// Whether u f + v g is the constant c modulo n in the first count coefficients.
fn combines(n: u32, f: &[u32], g: &[u32], u: &[u32], v: &[u32], c: u32, count: usize) -> bool
    requires { 1 ≤ n }
{
    for k in 0..count {
        let x = add_coefficient(n, 0, f, u, k);
        if add_coefficient(n, x, g, v, k) != constant(c % n, k) {
            return false;
        }
    }
    true
}

// Whether only the first l words of w were written.
fn written(w: &[u32], l: usize) -> bool {
    if w.len() < l {
        return false;
    }
    w.len() - l <= ending(w, MARK)
}

// Whether only the first l words of u and m of v were written, and they combine f and g to c. No product has more than l + 48 words.
fn right(n: u32, f: &[u32], g: &[u32], u: &[u32], l: usize, v: &[u32], m: usize, c: u32) -> bool
    requires { (1 ≤ n) × (l ≤ 4200) }
{
    if !written(u, l) {
        return false;
    }
    if !written(v, m) {
        return false;
    }
    if u.len() < l {
        return false;
    }
    if v.len() < m {
        return false;
    }
    combines(n, f, g, &u[0..l], &v[0..m], c, l + 49)
}

// ---- the services

// What was wrong, after a number.
fn demand(rt: &impl Print, holds: bool, what: &[u8]) -> io::Result<()> {
    if !holds {
        put_name(rt, what)?;
    }
    Ok(())
}

// What a service called `what` answered: the status is 0, the value is as it should be, the working words are zero.
fn answered(rt: &impl Print, status: u32, same: bool, work: &[u32], what: &[u8]) -> io::Result<()> {
    if status != 0 {
        put_name(rt, what)?;
        put_name(rt, b"-status")?;
    }
    if !same {
        put_name(rt, what)?;
        put_name(rt, b"-value")?;
    }
    if ending(work, 0) != work.len() {
        put_name(rt, what)?;
        put_name(rt, b"-working")?;
    }
    Ok(())
}

// Buffers as they are lent, each word marked, with words to spare. The contracts give only the lengths.
fn cofactor_room() -> [u32; 1600]
    ensures { 1600 ≡ length result }
{
    [MARK; 1600]
}

fn working_room() -> [u32; 8300]
    ensures { 8300 ≡ length result }
{
    [MARK; 8300]
}

fn try_resultant(rt: &impl Print, n: u32, f: &[u32], g: &[u32]) -> io::Result<u32> {
    let mut work = working_room();
    let a: Answer = resultant_service::resultant(n, f, g, &mut work);
    test_lines::put_hexadecimal(rt, a.value as u64, 8)?;
    answered(rt, a.status, true, &work, b" resultant")?;
    Ok(a.value)
}

// The plain evaluator serves d + e up to 8.
fn try_evaluator(rt: &impl Print, n: u32, f: &[u32], g: &[u32], r: u32) -> io::Result<()> {
    if 10 < f.len() + g.len() {
        return Ok(());
    }
    let a: Answer = evaluator_service::evaluate(n, f, g);
    answered(rt, a.status, a.value == r, &[0], b" evaluator")
}

// The sent degree.
fn degree(f: &[u32]) -> usize
    ensures { result ≤ 48 }
{
    if f.len() < 1 {
        return 0;
    }
    if 49 < f.len() {
        return 48;
    }
    f.len() - 1
}

// The cofactors of the resultant r: u has e words, v has d.
fn compare_cofactors(
    rt: &impl Print,
    n: u32,
    f: &[u32],
    g: &[u32],
    u: &[u32],
    v: &[u32],
    r: u32,
) -> io::Result<()>
    requires { 1 ≤ n }
{
    demand(
        rt,
        right(n, f, g, u, degree(g), v, degree(f), r),
        b" cofactors-combine",
    )
}

// The resultant r with its cofactors; two constants are refused with 9.
fn try_cofactors(rt: &impl Print, n: u32, f: &[u32], g: &[u32], r: u32) -> io::Result<()>
    requires { 1 ≤ n }
{
    let mut u = cofactor_room();
    let mut v = cofactor_room();
    let mut work = working_room();
    let a: Answer = cofactor_service::resultant_cofactors(n, f, g, &mut u, &mut v, &mut work);
    if f.len() + g.len() == 2 {
        return demand(rt, a.status == 9, b" constants");
    }
    answered(rt, a.status, a.value == r, &work, b" cofactors")?;
    compare_cofactors(rt, n, f, g, &u, &v, r)
}

// L: the larger degree once for each halving of n, and 1.
fn cofactor_words(n: u32, larger: usize) -> usize
    requires { larger ≤ 48 }
    ensures { result ≤ 4200 }
{
    let mut l: usize = 1;
    let mut m = n;
    while 1 < m {
        if l > 4096 {
            return l;
        }
        l += larger;
        m = m / 2;
    }
    l
}

fn larger_degree(f: &[u32], g: &[u32]) -> usize
    ensures { result ≤ 48 }
{
    if f.len() < g.len() {
        return degree(g);
    }
    degree(f)
}

fn compare_reduced(
    rt: &impl Print,
    n: u32,
    f: &[u32],
    g: &[u32],
    u: &[u32],
    v: &[u32],
    d: u32,
) -> io::Result<()>
    requires { 1 ≤ n }
{
    let l = cofactor_words(n, larger_degree(f, g));
    demand(rt, right(n, f, g, u, l, v, l, d), b" reduced-combine")
}

// D with its cofactors.
fn try_reduced(rt: &impl Print, n: u32, f: &[u32], g: &[u32]) -> io::Result<u32>
    requires { 1 ≤ n }
{
    let mut u = cofactor_room();
    let mut v = cofactor_room();
    let mut work = working_room();
    let a: Answer = reduced_service::reduced_resultant(n, f, g, &mut u, &mut v, &mut work);
    test_lines::put_hexadecimal(rt, a.value as u64, 8)?;
    answered(rt, a.status, true, &work, b" reduced")?;
    compare_reduced(rt, n, f, g, &u, &v, a.value)?;
    Ok(a.value)
}

// D alone: the service without cofactors answers d too.
fn try_divisor(rt: &impl Print, n: u32, f: &[u32], g: &[u32], d: u32) -> io::Result<()> {
    let mut work = working_room();
    let a: Answer = divisor_service::divisor(n, f, g, &mut work);
    answered(rt, a.status, a.value == d, &work, b" divisor")
}

// ---- the run

fn try_pair(rt: &impl Print, n: u32, f: &[u32], g: &[u32]) -> io::Result<()>
    requires { 1 ≤ n }
{
    let r = try_resultant(rt, n, f, g)?;
    try_evaluator(rt, n, f, g, r)?;
    try_cofactors(rt, n, f, g, r)?;
    put_name(rt, b" ")?;
    let d = try_reduced(rt, n, f, g)?;
    try_divisor(rt, n, f, g, d)?;
    test_lines::end_line(rt)
}

// The frame; whether it was one.
fn try_frame(rt: &impl Print, frame: &[u8], words: &mut [u32]) -> io::Result<bool> {
    let n = spelt(frame, 2, 10);
    let d = size(spelt(frame, 10, 12), 48);
    let e = size(spelt(frame, 12, 14), 48);
    if n < 2 {
        return Ok(false);
    }
    if test_lines::spelt_words(frame, 14, words) < d + e + 2 {
        return Ok(false);
    }
    try_pair(rt, n, &words[0..d + 1], &words[d + 1..d + e + 2])?;
    Ok(true)
}

// The next line; whether it was a frame.
fn try_line(
    rt: &impl Print,
    input: &mut impl Read,
    line: &mut [u8],
    words: &mut [u32],
) -> io::Result<bool> {
    let l = test_lines::next_line(input, line)?;
    try_frame(rt, &line[0..l], words)
}

// A proved loop has to end, and nothing says that an input does: it ends after a number of rounds that no run uses up.
fn run(
    rt: &impl Print,
    input: &mut impl Read,
    line: &mut [u8],
    words: &mut [u32],
) -> io::Result<()> {
    for _ in 0..u64::MAX {
        if !try_line(rt, input, line, words)? {
            break;
        }
    }
    Ok(())
}

fn main(rt: HostRuntime) -> io::Result<()> {
    let mut input = BufReader::new(rt.alloc(), rt.stdin())?;
    let mut line = [0u8; 4096];
    let mut words = [0u32; 98];
    run(&rt, &mut input, &mut line, &mut words)
}
