// The refusals of the law of products, words of 64 bits: `product_law_refusals` has the description.
#![tactic(auto)]

ghost use Rattle.std.specs.Prelude.{◌≡◌};
ghost use Rattle.refusals.specs.Refusal.{status_of};
ghost use Rattle.refusals.specs.Refusals.{first_refusal};
ghost use Rattle.refusals64.specs.Wide.{wide};
ghost use Rattle.product_law_refusals.specs.LawRefusals.{law_sizes, law_words, law_sent, law_room};

use refusals::Refusal;

fn sizes_refusal(n: u64, f: &[u64], g: &[u64], h: &[u64]) -> Result<(), Refusal>
    ensures { status_of result ≡ first_refusal (law_sizes wide n f.now g.now h.now) }
{
    if refusals64::bad_modulus(n) {
        return Err(Refusal::BadModulus);
    }
    refusals::refusal_lengths(f, g)?;
    if refusals::MAX_DEGREE < (f.len() - 1) + (g.len() - 1) {
        return Err(Refusal::BadLength);
    }
    if refusals::bad_length(h) {
        return Err(Refusal::BadLength);
    }
    Ok(())
}

fn words_refusal(n: u64, f: &[u64], g: &[u64], h: &[u64]) -> Result<(), Refusal>
    ensures { status_of result ≡ first_refusal (law_words n f.now g.now h.now) }
{
    if !refusals64::all_below(n, f)
        || !refusals64::all_below(n, g)
        || !refusals64::all_below(n, h)
    {
        return Err(Refusal::BadWord);
    }
    Ok(())
}

// The refusals 1, 2 and 3 of n, f, g and h.
pub fn sent_refusal(n: u64, f: &[u64], g: &[u64], h: &[u64]) -> Result<(), Refusal>
    ensures { status_of result ≡ first_refusal (law_sent wide n f.now g.now h.now) }
{
    sizes_refusal(n, f, g, h)?;
    words_refusal(n, f, g, h)
}

// The buffers have lp, lu, lv and lw words; the product needs m, and a cofactor l.
pub fn room_refusal(
    lp: usize,
    m: usize,
    lu: usize,
    lv: usize,
    l: usize,
    lw: usize,
) -> Result<(), Refusal>
    ensures { status_of result ≡ first_refusal (law_room wide lp m lu lv l lw) }
{
    refusals::room(lp, m, Refusal::ShortResult)?;
    refusals::room(lu, l, Refusal::ShortResult)?;
    refusals::room(lv, l, Refusal::ShortResult)?;
    refusals::room(lw, refusals64::WORKING_WORDS, Refusal::ShortWork)
}
