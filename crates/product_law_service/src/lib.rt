// Laws of the numbers that the services answer, tried on the engine itself: the numbers are asked of the services, and what is promised is
// the law of the numbers that they answered. Only their contracts can prove it. The law of products: the product of f and g, the three
// resultants and the three reduced resultants with h. How far the resultant and the reduced resultant of f and g can differ.
//
//   how_far            the numbers of two calls
//   law_of_products    the numbers of seven calls: of the product, then two each of f, g and the product with h
//   refusal            the first refusal of the seven
//   factor_numbers     the numbers of f and of g
#![tactic(auto)]

ghost use Rattle.std.specs.Prelude.{◌≡◌};
ghost use Rattle.refusals.specs.Refusal.{status_of};
ghost use Rattle.refusals.specs.Refusals.{narrow, first_refusal};
ghost use Rattle.product_law_service.specs.HowFar.{HowFarAnswer};
ghost use Rattle.product_law_service.specs.LawService.{law_refusals, FactorNumbers, LawAnswer};

use refusals::Refusal;

// The resultant, the reduced resultant D as `divisor`, in words of any width, and 0 or the number of the refusal.
#[derive(Clone, Copy)]
pub struct Differing<W> {
    pub resultant: W,
    pub divisor: W,
    pub status: u32,
}

// Both numbers of f and g; u and v take the cofactors of D. "When the top word of f is a unit, D divides the resultant, and
// gcd(resultant, n) divides the d-th power of D"; so for g.
pub fn how_far(
    n: u32,
    f: &[u32],
    g: &[u32],
    u: &mut [u32],
    v: &mut [u32],
    work: &mut [u32],
) -> Differing<u32>
    ensures { HowFarAnswer narrow n f.now g.now u.old u.new v.old
        v.new work.old work.new result.resultant result.divisor result.status }
{
    let d = reduced_service::reduced_resultant(n, f, g, u, v, work);
    if d.status != 0 {
        return Differing {
            resultant: 0,
            divisor: 0,
            status: d.status,
        };
    }
    let r = resultant_service::resultant(n, f, g, work);
    Differing {
        resultant: r.value,
        divisor: d.value,
        status: 0,
    }
}

// The resultants r, rf, rg of the product, of f and of g with h, their reduced resultants d, df, dg, and 0 or the number of the refusal.
#[derive(Clone, Copy)]
pub struct Numbers<W> {
    pub r: W,
    pub rf: W,
    pub rg: W,
    pub d: W,
    pub df: W,
    pub dg: W,
    pub status: u32,
}

// The resultants and the reduced resultants of f and of g, each with h.
#[derive(Clone, Copy)]
pub struct Factors<W> {
    pub rf: W,
    pub rg: W,
    pub df: W,
    pub dg: W,
}

// The lengths of the buffers: of the product, of the two cofactors, and of the working words.
#[derive(Clone, Copy)]
pub struct Room {
    pub product: usize,
    pub first: usize,
    pub second: usize,
    pub work: usize,
}

// The first refusal that applies to one of the seven calls.
fn refusal(n: u32, f: &[u32], g: &[u32], h: &[u32], room: Room) -> Result<(), Refusal>
    ensures { status_of result ≡ first_refusal (law_refusals narrow n f.now g.now h.now
        room.product room.first room.second room.work) }
{
    product_law_refusals::sent_refusal(n, f, g, h)?;
    let m = (f.len() - 1) + (g.len() - 1) + 1;
    let l = reduced::cofactor_length(n, m, h.len());
    product_law_refusals::room_refusal(room.product, m, room.first, room.second, l, room.work)
}

// Both numbers of f with h, then both of g with h.
fn factor_numbers(
    n: u32,
    f: &[u32],
    g: &[u32],
    h: &[u32],
    u: &mut [u32],
    v: &mut [u32],
    work: &mut [u32],
) -> Factors<u32>
    ensures { FactorNumbers narrow n f.now g.now h.now u.old u.new
        v.old v.new work.old work.new result.rf result.rg result.df result.dg }
{
    let a = how_far(n, f, h, u, v, work);
    let b = how_far(n, g, h, u, v, work);
    Factors {
        rf: a.resultant,
        rg: b.resultant,
        df: a.divisor,
        dg: b.divisor,
    }
}

// p takes the product of f and g, u and v the cofactors of its D with h.
pub fn law_of_products(
    n: u32,
    f: &[u32],
    g: &[u32],
    h: &[u32],
    p: &mut [u32],
    u: &mut [u32],
    v: &mut [u32],
    work: &mut [u32],
) -> Numbers<u32>
    ensures { LawAnswer narrow n f.now g.now h.now p.old p.new
        u.old u.new v.old v.new work.old work.new
        result.r result.rf result.rg result.d result.df result.dg result.status }
{
    let room = Room {
        product: p.len(),
        first: u.len(),
        second: v.len(),
        work: work.len(),
    };
    if let Err(refusal) = refusal(n, f, g, h, room) {
        return Numbers {
            r: 0,
            rf: 0,
            rg: 0,
            d: 0,
            df: 0,
            dg: 0,
            status: refusal.number(),
        };
    }
    let m = (f.len() - 1) + (g.len() - 1) + 1;
    product_service::product(n, f, g, p);
    let a = factor_numbers(n, f, g, h, u, v, work);
    let b = how_far(n, &p[0..m], h, u, v, work);
    Numbers {
        r: b.resultant,
        rf: a.rf,
        rg: a.rg,
        d: b.divisor,
        df: a.df,
        dg: a.dg,
        status: 0,
    }
}
