// Many pairs in one call: the refusals of a batch, which every batch service shares.
//
//   f, g, b              the polynomials of a batch, whose degrees and number b holds
//   l, m                 the lengths of the result buffer and of the working buffer
//
//   Batch                the sent degrees, and the number of pairs
//   bad_pieces           whether words are not count polynomials of one sent degree
//   pieces_below         whether the words of count polynomials are residues
//   refusal_pieces, refusal_words, refusal_room     the refusals 2; 3; 6 and 7
//   refusal_batch        the first refusal that applies
#![tactic(auto)]

ghost use Rattle.std.specs.Prelude.{◌≡◌, not, [], ◌∷◌, length};
ghost use Rattle.refusals.specs.Refusal.{status_of};
ghost use Rattle.refusals.specs.Refusals.{narrow, all_below_of, short, first_refusal};
ghost use Rattle.batch_pairs.specs.Batches.{bad_pieces_of, ServedPieces, batch_status};

use refusals::Refusal;

// count polynomials of sent degree d one after the other, and as many of sent degree e.
#[derive(Clone, Copy)]
pub struct Batch {
    pub d: usize,
    pub e: usize,
    pub count: usize,
}

// Whether d is above 48, or length is not count times d + 1. The quotient and the remainder of length are tested: no product is made that
// could be too large for a word.
fn bad_pieces(length: usize, d: usize, count: usize) -> bool
    ensures { result ≡ bad_pieces_of d count length }
{
    if refusals::MAX_DEGREE < d {
        return true;
    }
    if length / (d + 1) != count {
        return true;
    }
    length % (d + 1) != 0
}

// Refusal 2 of a batch, f of lf words and g of lg.
fn refusal_pieces(lf: usize, lg: usize, b: Batch) -> Result<(), Refusal>
    ensures { status_of result ≡ first_refusal ((2, bad_pieces_of b.d b.count lf) ∷ (2, bad_pieces_of b.e b.count lg) ∷ []) }
{
    if bad_pieces(lf, b.d, b.count) {
        return Err(Refusal::BadLength);
    }
    if bad_pieces(lg, b.e, b.count) {
        return Err(Refusal::BadLength);
    }
    Ok(())
}

// Whether every word of count polynomials of sent degree d is a residue.
fn pieces_below(n: u32, f: &[u32], d: usize, count: usize) -> bool
    requires { ServedPieces d count (length f.now) }
    ensures { result ≡ all_below_of n f.now }
{
    let size = d + 1;
    refusals::all_below(n, &f[0..count * size])
}

// Refusal 3 of a batch. A word is read only where both lengths are served.
fn refusal_words(n: u32, f: &[u32], g: &[u32], b: Batch) -> Result<(), Refusal>
    requires { ServedPieces b.d b.count (length f.now) × ServedPieces b.e b.count (length g.now) }
    ensures { status_of result ≡ first_refusal ((3, not (all_below_of n f.now)) ∷ (3, not (all_below_of n g.now)) ∷ []) }
{
    if !pieces_below(n, f, b.d, b.count) {
        return Err(Refusal::BadWord);
    }
    if !pieces_below(n, g, b.e, b.count) {
        return Err(Refusal::BadWord);
    }
    Ok(())
}

// Refusals 6 and 7 of a batch.
fn refusal_room(count: usize, l: usize, m: usize) -> Result<(), Refusal>
    ensures { status_of result ≡ first_refusal ((6, short l count) ∷ (7, short m narrow.working) ∷ []) }
{
    refusals::room(l, count, Refusal::ShortResult)?;
    refusals::room(m, refusals::WORKING_WORDS, Refusal::ShortWork)
}

// Refusals 1, 2, 3, 6 and 7 of a batch, in this order.
pub fn refusal_batch(
    n: u32,
    f: &[u32],
    g: &[u32],
    b: Batch,
    l: usize,
    m: usize,
) -> Result<(), Refusal>
    ensures { status_of result ≡ batch_status narrow n f.now b.d g.now b.e b.count l m }
{
    if refusals::bad_modulus(n) {
        return Err(Refusal::BadModulus);
    }
    refusal_pieces(f.len(), g.len(), b)?;
    refusal_words(n, f, g, b)?;
    refusal_room(b.count, l, m)
}
