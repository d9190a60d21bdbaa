// The checking of claims on cases from outside: tools/claims_figures.py writes them, and what must be answered.
//
// Each line of the input is a case: the kind, n, the lengths of f and g, the number claimed, the lengths of u, v and the working words,
// which multiplier is changed in one word (0 none, 1 a number more in u, 2 in v, 3 another word in u, 4 in v), the place, the number, a
// step, how many words of u and of v are sent, the words of f, of g, of u, of v. If the kind is 1, the multipliers are those of the engine
// with its D, times the step. If it is 2, they are sent; the words that are not sent repeat those a step before. Each is answered by a
// line: the engine's D if it was asked, then status and value of the claim in words and what became of the working words, and the same
// from the case told.
#![tactic(auto)]

ghost use Rattle.std.specs.Prelude.{◌≤◌, length};

use claim_service::Claim;
use refusals::Answer;
use std::io;
use std::io::{BufReader, Read};
use test_lines::{MARK, put, put_name, put_working, size};

const OWN: u32 = 1;

// The words of a line before f.
const HEAD: usize = 14;

// ---- the claim

fn put_case(rt: &impl Print, c: Claim) -> io::Result<()> {
    match c {
        Claim::Accepted => {
            put_name(rt, b" accepted")?;
        }
        Claim::Fails(failure) => {
            put_name(rt, b" fails")?;
            put(rt, failure.number())?;
        }
        Claim::Refused(refusal) => {
            put_name(rt, b" refused")?;
            put(rt, refusal.number())?;
        }
    }
    Ok(())
}

fn told(
    rt: &impl Print,
    n: u32,
    f: &[u32],
    g: &[u32],
    d: u32,
    u: &[u32],
    v: &[u32],
    work: &mut [u32],
) -> io::Result<()> {
    test_lines::fill(work, MARK);
    put_case(rt, claim_service::check_claim(n, f, g, d, u, v, work))?;
    put_working(rt, work)
}

fn claim(
    rt: &impl Print,
    n: u32,
    f: &[u32],
    g: &[u32],
    d: u32,
    u: &[u32],
    v: &[u32],
    work: &mut [u32],
) -> io::Result<()> {
    test_lines::fill(work, MARK);
    let a: Answer = claim_service::check_claim_words(n, f, g, d, u, v, work);
    test_lines::put_answer(rt, b"claim", a.status, a.value)?;
    put_working(rt, work)?;
    told(rt, n, f, g, d, u, v, work)
}

// ---- the multipliers

// Each word times c, modulo n.
fn scale(w: &mut [u32], n: u32, c: u32)
    requires { 1 ≤ n }
{
    for x in w.iter_mut() {
        *x = arithmetic::mul_mod(n, c, *x);
    }
}

// x more at place i, modulo n.
fn add_at(w: &mut [u32], n: u32, i: usize, x: u32) {
    if n < 1 {
        return;
    }
    if i < w.len() {
        w[i] = arithmetic::add_mod(n, w[i], x);
    }
}

fn put_at(w: &mut [u32], i: usize, x: u32) {
    if i < w.len() {
        w[i] = x;
    }
}

// A change of one word.
#[derive(Drop)]
struct Change {
    which: u32,
    place: u32,
    x: u32,
}

fn change_word(n: u32, c: Change, u: &mut [u32], v: &mut [u32]) {
    let i = c.place as usize;
    if c.which == 1 {
        add_at(u, n, i, c.x);
        return;
    }
    if c.which == 2 {
        add_at(v, n, i, c.x);
        return;
    }
    if c.which == 3 {
        put_at(u, i, c.x);
        return;
    }
    if c.which == 4 {
        put_at(v, i, c.x);
    }
}

// Word i of those that are sent and of those that repeat them.
fn continued(sent: &[u32], w: &[u32], i: usize, step: usize) -> u32 {
    if i < sent.len() {
        return sent[i];
    }
    if step <= i {
        if i - step < w.len() {
            return w[i - step];
        }
    }
    0
}

fn continue_words(sent: &[u32], w: &mut [u32], step: u32) {
    let back = step as usize;
    for i in 0..w.len() {
        w[i] = continued(sent, w, i, back);
    }
}

// ---- the two kinds

// The engine's D with its multipliers, these times c; whether it answered.
fn engine(
    rt: &impl Print,
    n: u32,
    f: &[u32],
    g: &[u32],
    c: u32,
    u: &mut [u32],
    v: &mut [u32],
    work: &mut [u32],
) -> io::Result<bool> {
    test_lines::fill(u, 0);
    test_lines::fill(v, 0);
    let a: Answer = reduced_service::reduced_resultant(n, f, g, u, v, work);
    test_lines::put_answer(rt, b"reduced", a.status, a.value)?;
    put_name(rt, b" ")?;
    if n < 1 {
        return Ok(false);
    }
    scale(u, n, c);
    scale(v, n, c);
    Ok(a.status == 0)
}

// The multipliers of a line, before one word changes; whether they are there.
fn multipliers(
    rt: &impl Print,
    head: &[u32],
    f: &[u32],
    g: &[u32],
    rest: &[u32],
    u: &mut [u32],
    v: &mut [u32],
    work: &mut [u32],
) -> io::Result<bool>
    requires { 14 ≤ length head.now }
{
    let step = head[11];
    if head[0] == OWN {
        return engine(rt, head[1], f, g, step, u, v, work);
    }
    let k = size(head[12], rest.len());
    continue_words(&rest[0..k], u, step);
    continue_words(&rest[k..rest.len()], v, step);
    Ok(true)
}

// The case with the words that are lent.
fn case(
    rt: &impl Print,
    head: &[u32],
    f: &[u32],
    g: &[u32],
    rest: &[u32],
    u: &mut [u32],
    v: &mut [u32],
    work: &mut [u32],
) -> io::Result<()>
    requires { 14 ≤ length head.now }
{
    if !multipliers(rt, head, f, g, rest, u, v, work)? {
        return Ok(());
    }
    let c = Change {
        which: head[8],
        place: head[9],
        x: head[10],
    };
    change_word(head[1], c, u, v);
    let lw = size(head[7], work.len());
    claim(rt, head[1], f, g, head[4], u, v, &mut work[0..lw])
}

// The case with as much of u and v as it has.
fn lend(
    rt: &impl Print,
    head: &[u32],
    f: &[u32],
    g: &[u32],
    rest: &[u32],
    u: &mut [u32],
    v: &mut [u32],
    work: &mut [u32],
) -> io::Result<()>
    requires { 14 ≤ length head.now }
{
    let lu = size(head[5], u.len());
    let lv = size(head[6], v.len());
    case(rt, head, f, g, rest, &mut u[0..lu], &mut v[0..lv], work)
}

// ---- the run

// The words of a line; whether they were all there.
fn try_words(
    rt: &impl Print,
    words: &[u32],
    u: &mut [u32],
    v: &mut [u32],
    work: &mut [u32],
) -> io::Result<bool> {
    if words.len() < HEAD {
        return Ok(false);
    }
    let l = size(words[2], 64);
    let m = size(words[3], 64);
    if words.len() < HEAD + l + m {
        return Ok(false);
    }
    lend(
        rt,
        &words[0..HEAD],
        &words[HEAD..HEAD + l],
        &words[HEAD + l..HEAD + l + m],
        &words[HEAD + l + m..words.len()],
        u,
        v,
        work,
    )?;
    test_lines::end_line(rt)?;
    Ok(true)
}

// The next line; whether there was one.
fn try_line(
    rt: &impl Print,
    input: &mut impl Read,
    line: &mut [u8],
    words: &mut [u32],
    u: &mut [u32],
    v: &mut [u32],
    work: &mut [u32],
) -> io::Result<bool> {
    let count = test_lines::read_line(input, line, words)?;
    try_words(rt, &words[0..count], u, v, work)
}

// A proved loop has to end, and nothing says that an input does: it ends after a number of rounds that no run uses up.
fn run(
    rt: &impl Print,
    input: &mut impl Read,
    line: &mut [u8],
    words: &mut [u32],
    u: &mut [u32],
    v: &mut [u32],
    work: &mut [u32],
) -> io::Result<()> {
    for _ in 0..u64::MAX {
        if !try_line(rt, input, line, words, u, v, work)? {
            break;
        }
    }
    Ok(())
}

fn main(rt: HostRuntime) -> io::Result<()> {
    let mut input = BufReader::new(rt.alloc(), rt.stdin())?;
    let mut line = [0u8; 65536];
    let mut words = [0u32; 8320];
    let mut u = [0u32; 4100];
    let mut v = [0u32; 4100];
    let mut work = [0u32; 8200];
    run(
        &rt, &mut input, &mut line, &mut words, &mut u, &mut v, &mut work,
    )
}
