// Division with remainder as a service (S36): from any words and lengths an answer, or a numbered refusal. Polynomials are lent words, the
// constant first.
//
//   division        quotient and remainder by a polynomial whose top word is a unit
//   excess          by how much a degree is above another
#![tactic(auto)]

ghost use Rattle.std.specs.Prelude.{◌≡◌, not, [], ◌∷◌, ℕ, ◌+◌, ◌-◌, ◌*◌, ◌%◌, ◌≤◌, eqb, length};
ghost use Rattle.definitions.specs.Polynomials.{coef, deg, convolve, tabulate, Division};
ghost use Rattle.reduction.specs.Moduli.{Ready};
ghost use Rattle.refusals.specs.Refusal.{status_of};
ghost use Rattle.refusals.specs.Refusals.{narrow, short, first_refusal};
ghost use Rattle.division_service.specs.DivisionStages.{QuotientAsked, QuotientWords, difference};
ghost use Rattle.division_service.specs.DivisionService.{DivisionAnswer};

use reduction::Reciprocal;
use refusals::{Answer, Refusal};

// a - b, or 0 where b is more.
pub fn excess(a: usize, b: usize) -> usize
    ensures { result ≡ a - b }
{
    a.saturating_sub(b)
}

// Coefficient k of f.
fn coefficient(f: &[u32], k: usize) -> u32
    ensures { result ≡ coef f.now k }
{
    f.get(k).copied().unwrap_or(0)
}

// i (a - x) modulo n, for x at most n, by one reduction.
fn quotient_word(m: Reciprocal, i: u32, a: u32, x: u32) -> u32
    requires { (Ready m) × (x ≤ m.n) }
    ensures { result ≡ (i * ((a + (m.n - x)) % m.n)) % m.n }
{
    let n = m.n;
    reduction::sum_two(m, 0, i, a, n - x, i)
}

// The quotient of f by g, from its top word down: word s is i (f_{e+s} - q_{s+1} g_{e-1} - q_{s+2} g_{e-2} - ..), where i is the
// inverse of the top word of g. While word s is made, 0 stands in its place.
fn quotient_words(m: Reciprocal, i: u32, f: &[u32], g: &[u32], q: &mut [u32])
    requires { (Ready m) × QuotientAsked m.n i f.now g.now q.old }
    ensures { QuotientWords m.n f.now g.now q.new }
{
    windows::wipe(q);
    let e = g.len() - 1;
    let l = q.len();
    for s in (0..excess(f.len(), e)).rev() {
        let x = convolution::product_word_by(m, &q[s..l], g, e);
        q[s] = quotient_word(m, i, f[e + s], x);
    }
}

// The words of f - q g, as many as there are in r.
fn remainder_words(m: Reciprocal, f: &[u32], g: &[u32], q: &[u32], r: &mut [u32])
    requires { Ready m }
    ensures { r.new ≡ tabulate (length r.old)
        (λ (k : ℕ). difference m.n (coef f.now k) (convolve (coef q.now) (coef g.now) k)) }
{
    for k in 0..r.len() {
        let x = convolution::product_word_by(m, q, g, k);
        r[k] = reduction::difference(m, coefficient(f, k), x);
    }
}

// f = q g + r, the inverse of the top word of g being i; q and r have as many words as the result.
fn divide(n: u32, i: u32, f: &[u32], g: &[u32], q: &mut [u32], r: &mut [u32])
    requires { (QuotientAsked n i f.now g.now q.old) × (length r.old ≡ deg g.now) }
    ensures { Division n f.now g.now q.new r.new }
{
    let m = reduction::modulus_of(n);
    quotient_words(m, i, f, g, q);
    remainder_words(m, f, g, q, r);
}

// The refusals 4 and 6 of a division: u is what the divisor's top word has in common with n; the buffers have lq and lr words, and the
// results need m and e.
fn refusal_quotient(u: u32, lq: usize, m: usize, lr: usize, e: usize) -> Result<(), Refusal>
    ensures { status_of result ≡ first_refusal ((4, not (eqb u 1)) ∷ (6, short lq m) ∷ (6, short lr e) ∷ []) }
{
    if u != 1 {
        return Err(Refusal::LeadNoUnit);
    }
    refusals::room(lq, m, Refusal::ShortResult)?;
    refusals::room(lr, e, Refusal::ShortResult)
}

// S15: "Division by a polynomial whose top word is a unit: f = qg + r, r of e words (none for e = 0), q of d - e + 1 words, or one zero
// word if d < e."
pub fn division(n: u32, f: &[u32], g: &[u32], q: &mut [u32], r: &mut [u32]) -> Answer
    ensures { DivisionAnswer narrow n f.now g.now q.old q.new r.old
        r.new result.value result.status }
{
    if let Err(refusal) = refusals::refusal_of_pair(n, f, g) {
        return Answer::from(refusal);
    }
    let e = g.len() - 1;
    let m = excess(f.len() - 1, e) + 1;
    let u = bezout::cofactor(n, g[e]);
    if let Err(refusal) = refusal_quotient(u.g, q.len(), m, r.len(), e) {
        return Answer::from(refusal);
    }
    divide(n, u.s, f, g, &mut q[0..m], &mut r[0..e]);
    Answer {
        value: 0,
        status: 0,
    }
}
