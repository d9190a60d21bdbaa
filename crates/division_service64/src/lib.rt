// Division with remainder as a service, words of 64 bits: `division_service` has the description.
//
//   division        quotient and remainder by a polynomial whose top word is a unit
#![tactic(auto)]

ghost use Rattle.std.specs.Prelude.{◌≡◌, not, [], ◌∷◌, ℕ, ◌+◌, ◌-◌, ◌*◌, ◌%◌, ◌≤◌, eqb, length};
ghost use Rattle.definitions.specs.Polynomials.{coef, deg, convolve, tabulate, Division};
ghost use Rattle.reduction64.specs.Moduli.{Ready};
ghost use Rattle.refusals.specs.Refusal.{status_of};
ghost use Rattle.refusals.specs.Refusals.{short, first_refusal};
ghost use Rattle.refusals64.specs.Wide.{wide};
ghost use Rattle.division_service.specs.DivisionStages.{QuotientAsked, QuotientWords, difference};
ghost use Rattle.division_service.specs.DivisionService.{DivisionAnswer};

use reduction64::Reciprocal;
use refusals::Refusal;
use refusals64::Answer;

// Coefficient k of f.
fn coefficient(f: &[u64], k: usize) -> u64
    ensures { result ≡ coef f.now k }
{
    f.get(k).copied().unwrap_or(0)
}

// i (a - x) modulo n, for x at most n, by one reduction.
fn quotient_word(m: Reciprocal, i: u64, a: u64, x: u64) -> u64
    requires { (Ready m) × (x ≤ m.n) }
    ensures { result ≡ (i * ((a + (m.n - x)) % m.n)) % m.n }
{
    let n = m.n;
    reduction64::sum_two(m, 0, i, a, n - x, i)
}

// The quotient of f by g, from its top word down: word s is i (f_{e+s} - q_{s+1} g_{e-1} - q_{s+2} g_{e-2} - ..), where i is the
// inverse of the top word of g. While word s is made, 0 stands in its place.
fn quotient_words(m: Reciprocal, i: u64, f: &[u64], g: &[u64], q: &mut [u64])
    requires { (Ready m) × QuotientAsked m.n i f.now g.now q.old }
    ensures { QuotientWords m.n f.now g.now q.new }
{
    windows64::wipe(q);
    let e = g.len() - 1;
    let l = q.len();
    for s in (0..division_service::excess(f.len(), e)).rev() {
        let x = convolution64::product_word_by(m, &q[s..l], g, e);
        q[s] = quotient_word(m, i, f[e + s], x);
    }
}

// The words of f - q g, as many as there are in r.
fn remainder_words(m: Reciprocal, f: &[u64], g: &[u64], q: &[u64], r: &mut [u64])
    requires { Ready m }
    ensures { r.new ≡ tabulate (length r.old)
        (λ (k : ℕ). difference m.n (coef f.now k) (convolve (coef q.now) (coef g.now) k)) }
{
    for k in 0..r.len() {
        let x = convolution64::product_word_by(m, q, g, k);
        r[k] = reduction64::difference(m, coefficient(f, k), x);
    }
}

// f = q g + r, the inverse of the top word of g being i; q and r have as many words as the result.
fn divide(n: u64, i: u64, f: &[u64], g: &[u64], q: &mut [u64], r: &mut [u64])
    requires { (QuotientAsked n i f.now g.now q.old) × (length r.old ≡ deg g.now) }
    ensures { Division n f.now g.now q.new r.new }
{
    let m = reduction64::modulus_of(n);
    quotient_words(m, i, f, g, q);
    remainder_words(m, f, g, q, r);
}

// The refusals 4 and 6 of a division: u is what the divisor's top word has in common with n; the buffers have lq and lr words, and the
// results need m and e.
fn refusal_quotient(u: u64, lq: usize, m: usize, lr: usize, e: usize) -> Result<(), Refusal>
    ensures { status_of result ≡ first_refusal ((4, not (eqb u 1)) ∷ (6, short lq m) ∷ (6, short lr e) ∷ []) }
{
    if u != 1 {
        return Err(Refusal::LeadNoUnit);
    }
    refusals::room(lq, m, Refusal::ShortResult)?;
    refusals::room(lr, e, Refusal::ShortResult)
}

// S15: "Division by a polynomial whose top word is a unit: f = qg + r, r of e words (none for e = 0), q of d - e + 1 words, or one zero
// word if d < e."
pub fn division(n: u64, f: &[u64], g: &[u64], q: &mut [u64], r: &mut [u64]) -> Answer
    ensures { DivisionAnswer wide n f.now g.now q.old q.new r.old
        r.new result.value result.status }
{
    if let Err(refusal) = refusals64::refusal_of_pair(n, f, g) {
        return Answer::from(refusal);
    }
    let e = g.len() - 1;
    let m = division_service::excess(f.len() - 1, e) + 1;
    let u = bezout64::cofactor(n, g[e]);
    if let Err(refusal) = refusal_quotient(u.g, q.len(), m, r.len(), e) {
        return Answer::from(refusal);
    }
    divide(n, u.s, f, g, &mut q[0..m], &mut r[0..e]);
    Answer {
        value: 0,
        status: 0,
    }
}
