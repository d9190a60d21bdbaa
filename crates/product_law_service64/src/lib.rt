// Laws of the numbers that the services answer, tried on the engine itself, words of 64 bits: `product_law_service` has the
// description.
//
//   how_far            the numbers of two calls
//   law_of_products    the numbers of seven calls: of the product, then two each of f, g and the product with h
//   refusal            the first refusal of the seven
//   factor_numbers     the numbers of f and of g
#![tactic(auto)]

ghost use Rattle.std.specs.Prelude.{◌≡◌};
ghost use Rattle.refusals.specs.Refusal.{status_of};
ghost use Rattle.refusals.specs.Refusals.{first_refusal};
ghost use Rattle.refusals64.specs.Wide.{wide};
ghost use Rattle.product_law_service.specs.HowFar.{HowFarAnswer};
ghost use Rattle.product_law_service.specs.LawService.{law_refusals, FactorNumbers, LawAnswer};

use product_law_service::{Differing, Factors, Numbers, Room};
use refusals::Refusal;

// Both numbers of f and g; u and v take the cofactors of D. "When the top word of f is a unit, D divides the resultant, and
// gcd(resultant, n) divides the d-th power of D"; so for g.
pub fn how_far(
    n: u64,
    f: &[u64],
    g: &[u64],
    u: &mut [u64],
    v: &mut [u64],
    work: &mut [u64],
) -> Differing<u64>
    ensures { HowFarAnswer wide n f.now g.now u.old u.new v.old
        v.new work.old work.new result.resultant result.divisor result.status }
{
    let d = reduced_service64::reduced_resultant(n, f, g, u, v, work);
    if d.status != 0 {
        return Differing {
            resultant: 0,
            divisor: 0,
            status: d.status,
        };
    }
    let r = resultant_service64::resultant(n, f, g, work);
    Differing {
        resultant: r.value,
        divisor: d.value,
        status: 0,
    }
}

// The first refusal that applies to one of the seven calls.
fn refusal(n: u64, f: &[u64], g: &[u64], h: &[u64], room: Room) -> Result<(), Refusal>
    ensures { status_of result ≡ first_refusal (law_refusals wide n f.now g.now h.now
        room.product room.first room.second room.work) }
{
    product_law_refusals64::sent_refusal(n, f, g, h)?;
    let m = (f.len() - 1) + (g.len() - 1) + 1;
    let l = reduced64::cofactor_length(n, m, h.len());
    product_law_refusals64::room_refusal(room.product, m, room.first, room.second, l, room.work)
}

// Both numbers of f with h, then both of g with h.
fn factor_numbers(
    n: u64,
    f: &[u64],
    g: &[u64],
    h: &[u64],
    u: &mut [u64],
    v: &mut [u64],
    work: &mut [u64],
) -> Factors<u64>
    ensures { FactorNumbers wide n f.now g.now h.now u.old u.new
        v.old v.new work.old work.new result.rf result.rg result.df result.dg }
{
    let a = how_far(n, f, h, u, v, work);
    let b = how_far(n, g, h, u, v, work);
    Factors {
        rf: a.resultant,
        rg: b.resultant,
        df: a.divisor,
        dg: b.divisor,
    }
}

// p takes the product of f and g, u and v the cofactors of its D with h.
pub fn law_of_products(
    n: u64,
    f: &[u64],
    g: &[u64],
    h: &[u64],
    p: &mut [u64],
    u: &mut [u64],
    v: &mut [u64],
    work: &mut [u64],
) -> Numbers<u64>
    ensures { LawAnswer wide n f.now g.now h.now p.old p.new
        u.old u.new v.old v.new work.old work.new
        result.r result.rf result.rg result.d result.df result.dg result.status }
{
    let room = Room {
        product: p.len(),
        first: u.len(),
        second: v.len(),
        work: work.len(),
    };
    if let Err(refusal) = refusal(n, f, g, h, room) {
        return Numbers {
            r: 0,
            rf: 0,
            rg: 0,
            d: 0,
            df: 0,
            dg: 0,
            status: refusal.number(),
        };
    }
    let m = (f.len() - 1) + (g.len() - 1) + 1;
    product_service64::product(n, f, g, p);
    let a = factor_numbers(n, f, g, h, u, v, work);
    let b = how_far(n, &p[0..m], h, u, v, work);
    Numbers {
        r: b.resultant,
        rf: a.rf,
        rg: a.rg,
        d: b.divisor,
        df: a.df,
        dg: a.dg,
        status: 0,
    }
}
