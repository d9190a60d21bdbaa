// The reduced resultant D alone of many pairs as a service, words of 64 bits: from any words, degrees and lengths the D of every pair, or a
// numbered refusal. The promise is that of `divisors_service`, at another width.
//
//   f, g, d, e, count    count polynomials of sent degree d one after the other, and as many of sent degree e; b holds the three numbers
//   out                  word i is D of the i-th pair
//
//   pair          D of the i-th pair
//   each_pair     those of all pairs, one after the other
//   divisors      the service
#![tactic(auto)]

ghost use Rattle.definitions.specs.Resultants.{Reduced};
ghost use Rattle.windows.specs.Window.{Scratch};
ghost use Rattle.refusals64.specs.Wide.{wide};
ghost use Rattle.batch_pairs.specs.Batches.{piece, Pairs};
ghost use Rattle.batch_pairs.specs.Asked.{BatchAsked, PairAsked};
ghost use Rattle.divisors_service.specs.DivisorsService.{DivisorsAnswer};

use batch_pairs::Batch;
use refusals64::Answer;

// D of the i-th pair.
fn pair(n: u64, f: &[u64], g: &[u64], b: Batch, i: usize, work: &mut [u64]) -> u64
    requires { PairAsked wide n f.now b.d g.now b.e i work.old }
    ensures reduced { Reduced n (piece b.d i f.now) (piece b.e i g.now) result }
    ensures scratch { Scratch work.old work.new }
{
    let k = b.d + 1;
    let l = b.e + 1;
    let x = i * k;
    let y = i * l;
    divisor64::run(work, n, &f[x..x + k], &g[y..y + l])
}

// D of all pairs, in the first count words of out.
fn each_pair(n: u64, f: &[u64], g: &[u64], b: Batch, out: &mut [u64], work: &mut [u64])
    requires { BatchAsked wide n f.now b.d g.now b.e b.count out.old work.old }
    ensures pairs { Pairs (Reduced n) f.now b.d g.now b.e b.count
        out.old out.new }
    ensures scratch { Scratch work.old work.new }
{
    for i in 0..b.count {
        out[i] = pair(n, f, g, b, i, work);
    }
}

// D of each of count pairs modulo n, without cofactors.
pub fn divisors(
    n: u64,
    f: &[u64],
    d: usize,
    g: &[u64],
    e: usize,
    count: usize,
    out: &mut [u64],
    work: &mut [u64],
) -> Answer
    ensures { DivisorsAnswer wide n f.now d g.now e count out.old out.new
        work.old work.new result.value result.status }
{
    let b = Batch { d, e, count };
    if let Err(refusal) = batch_pairs64::refusal_batch(n, f, g, b, out.len(), work.len()) {
        return Answer::from(refusal);
    }
    each_pair(n, f, g, b, out, work);
    answers64::answered(0, work)
}
