// The refusals of the law of products, before the first of its calls.
//
//   sizes_refusal, words_refusal    1 and 2, of n and the lengths; 3, of the words
//   sent_refusal                    the refusals 1, 2 and 3 of n, f, g and h
//   room_refusal                    the refusals 6 and 7 of the lent buffers
#![tactic(auto)]

ghost use Rattle.std.specs.Prelude.{◌≡◌};
ghost use Rattle.refusals.specs.Refusal.{status_of};
ghost use Rattle.refusals.specs.Refusals.{narrow, first_refusal};
ghost use Rattle.product_law_refusals.specs.LawRefusals.{law_sizes, law_words, law_sent, law_room};

use refusals::Refusal;

fn sizes_refusal(n: u32, f: &[u32], g: &[u32], h: &[u32]) -> Result<(), Refusal>
    ensures { status_of result ≡ first_refusal (law_sizes narrow n f.now g.now h.now) }
{
    if refusals::bad_modulus(n) {
        return Err(Refusal::BadModulus);
    }
    refusals::refusal_lengths(f, g)?;
    if refusals::MAX_DEGREE < (f.len() - 1) + (g.len() - 1) {
        return Err(Refusal::BadLength);
    }
    if refusals::bad_length(h) {
        return Err(Refusal::BadLength);
    }
    Ok(())
}

fn words_refusal(n: u32, f: &[u32], g: &[u32], h: &[u32]) -> Result<(), Refusal>
    ensures { status_of result ≡ first_refusal (law_words n f.now g.now h.now) }
{
    if !refusals::all_below(n, f) || !refusals::all_below(n, g) || !refusals::all_below(n, h) {
        return Err(Refusal::BadWord);
    }
    Ok(())
}

// The refusals 1, 2 and 3 of n, f, g and h.
pub fn sent_refusal(n: u32, f: &[u32], g: &[u32], h: &[u32]) -> Result<(), Refusal>
    ensures { status_of result ≡ first_refusal (law_sent narrow n f.now g.now h.now) }
{
    sizes_refusal(n, f, g, h)?;
    words_refusal(n, f, g, h)
}

// The buffers have lp, lu, lv and lw words; the product needs m, and a cofactor l.
pub fn room_refusal(
    lp: usize,
    m: usize,
    lu: usize,
    lv: usize,
    l: usize,
    lw: usize,
) -> Result<(), Refusal>
    ensures { status_of result ≡ first_refusal (law_room narrow lp m lu lv l lw) }
{
    refusals::room(lp, m, Refusal::ShortResult)?;
    refusals::room(lu, l, Refusal::ShortResult)?;
    refusals::room(lv, l, Refusal::ShortResult)?;
    refusals::room(lw, refusals::WORKING_WORDS, Refusal::ShortWork)
}
