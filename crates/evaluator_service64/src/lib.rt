// The plain evaluator (S41, S71), words of 64 bits: a second way to the resultant, by elimination on Sylvester's matrix, for d + e up to 8.
// It serves to check the resultant run, and shares no code with it but the arithmetic of residues. The promise is that of `evaluator`, at
// another width.
//
//   sent_degree                     the words of a polynomial less 1
//   shifted, sylvester_word, sylvester_row, sylvester_matrix
//   bad_lengths, bad_words, refusal the tests, and the refusal
//   evaluate                        the service
#![tactic(auto)]

ghost use Rattle.std.specs.Prelude.{◌≡◌, ◌-◌, ◌<◌, ◌≤◌, pos, length};
ghost use Rattle.definitions.specs.Polynomials.{deg};
ghost use Rattle.definitions.specs.Resultants.{sylvester};
ghost use Rattle.evaluator_service.specs.SylvesterRows.{entry};
ghost use Rattle.refusals64.specs.Wide.{wide};
ghost use Rattle.refusals.specs.Refusal.{status_of};
ghost use Rattle.evaluator_service.specs.EvaluatorService.{bad_lengths_of, bad_words_of, evaluator_status, EvaluatorAnswer};
ghost use Rattle.evaluator_service.specs.Sylvester.{RowWords, ServedRows, HoldsSylvester, HoldsSylvesterRow};

use refusals::Refusal;
use refusals64::Answer;

// Zero top words count (S7): "the top word may be zero".
fn sent_degree(f: &[u64]) -> usize
    requires { 1 ≤ length f.now }
    ensures { result ≡ length f.now - 1 }
{
    f.len() - 1
}

// S7: "highest coefficient first, each row one column further right": row i of f, at column j.
fn shifted(f: &[u64], i: usize, j: usize) -> u64
    requires { RowWords f.now × ((i < 8) × (j < 8)) }
    ensures { pos result ≡ entry (deg f.now) f.now i j }
{
    let d = sent_degree(f);
    if j < i {
        return 0;
    }
    if i + d < j {
        return 0;
    }
    f[i + d - j]
}

// S7: "first e rows hold f, … then d rows hold g likewise": row r, at column c.
fn sylvester_word(f: &[u64], g: &[u64], r: usize, c: usize) -> u64
    requires { ServedRows f.now g.now × ((r < 8) × (c < 8)) }
    ensures { pos result ≡ sylvester f.now g.now r c }
{
    let e = sent_degree(g);
    if r < e {
        return shifted(f, r, c);
    }
    shifted(g, r - e, c)
}

fn sylvester_row(f: &[u64], g: &[u64], r: usize) -> [u64; 8]
    requires { ServedRows f.now g.now × (r < 8) }
    ensures { HoldsSylvesterRow f.now g.now r result }
{
    let mut x: [u64; 8] = [0; 8];
    for c in 0..8 {
        x[c] = sylvester_word(f, g, r, c);
    }
    x
}

// Sylvester's matrix in the sent degrees. Its d + e rows and columns stand in the corner, and what lies beyond them does not count.
fn sylvester_matrix(f: &[u64], g: &[u64]) -> [[u64; 8]; 8]
    requires { ServedRows f.now g.now }
    ensures { HoldsSylvester f.now g.now result }
{
    let mut m: [[u64; 8]; 8] = [[0; 8]; 8];
    for r in 0..8 {
        m[r] = sylvester_row(f, g, r);
    }
    m
}

// Refusal 2: whether a polynomial has no word or more than 49, or d + e is above 8.
fn bad_lengths(f: &[u64], g: &[u64]) -> bool
    ensures { result ≡ bad_lengths_of f.now g.now }
{
    if refusals::bad_length(f) {
        return true;
    }
    if refusals::bad_length(g) {
        return true;
    }
    8 < f.len() - 1 + (g.len() - 1)
}

// Refusal 3: whether a word of f or of g is n or more. A word is read only where the lengths are served (S93).
fn bad_words(n: u64, f: &[u64], g: &[u64]) -> bool
    requires { ServedRows f.now g.now }
    ensures { result ≡ bad_words_of n f.now g.now }
{
    if !refusals64::all_below(n, f) {
        return true;
    }
    !refusals64::all_below(n, g)
}

// The first of the refusals that applies.
fn refusal(n: u64, f: &[u64], g: &[u64]) -> Result<(), Refusal>
    ensures { status_of result ≡ evaluator_status wide n f.now g.now }
{
    if refusals64::bad_modulus(n) {
        return Err(Refusal::BadModulus);
    }
    if bad_lengths(f, g) {
        return Err(Refusal::BadLength);
    }
    if bad_words(n, f, g) {
        return Err(Refusal::BadWord);
    }
    Ok(())
}

// The determinant of Sylvester's matrix of f and g modulo n. S8: "With d = e = 0 the determinant is 1."
pub fn evaluate(n: u64, f: &[u64], g: &[u64]) -> Answer
    ensures { EvaluatorAnswer wide n f.now g.now result.value result.status }
{
    if let Err(refusal) = refusal(n, f, g) {
        return Answer::from(refusal);
    }
    let size = f.len() - 1 + (g.len() - 1);
    let m = sylvester_matrix(f, g);
    Answer {
        value: evaluator_matrices64::determinant(m, n, size),
        status: 0,
    }
}
