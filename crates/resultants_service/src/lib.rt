// The resultants of many pairs as a service: from any words, degrees and lengths the resultant of every pair, or a numbered refusal. The
// working words are wiped once.
//
//   f, g, d, e, count    count polynomials of sent degree d one after the other, and as many of sent degree e; b holds the three numbers
//   out                  word i is the resultant of the i-th pair
//
//   pair          the resultant of the i-th pair
//   each_pair     those of all pairs, one after the other
//   resultants    the service
#![tactic(auto)]

ghost use Rattle.std.specs.Prelude.{◌≡◌};
ghost use Rattle.definitions.specs.Resultants.{resultant};
ghost use Rattle.windows.specs.Window.{Scratch};
ghost use Rattle.refusals.specs.Refusals.{narrow};
ghost use Rattle.batch_pairs.specs.Batches.{piece, Pairs};
ghost use Rattle.batch_pairs.specs.Asked.{BatchAsked, PairAsked};
ghost use Rattle.resultants_service.specs.ResultantsService.{IsResultant, ResultantsAnswer};

use batch_pairs::Batch;
use refusals::Answer;

// The resultant of the i-th pair.
fn pair(n: u32, f: &[u32], g: &[u32], b: Batch, i: usize, work: &mut [u32]) -> u32
    requires { PairAsked narrow n f.now b.d g.now b.e i work.old }
    ensures value { result ≡ resultant n (piece b.d i f.now) (piece b.e i g.now) }
    ensures scratch { Scratch work.old work.new }
{
    let k = b.d + 1;
    let l = b.e + 1;
    let x = i * k;
    let y = i * l;
    resultant::run(work, n, &f[x..x + k], &g[y..y + l])
}

// The resultants of all pairs, in the first count words of out.
fn each_pair(n: u32, f: &[u32], g: &[u32], b: Batch, out: &mut [u32], work: &mut [u32])
    requires { BatchAsked narrow n f.now b.d g.now b.e b.count out.old work.old }
    ensures pairs { Pairs (IsResultant n) f.now b.d g.now b.e b.count
        out.old out.new }
    ensures scratch { Scratch work.old work.new }
{
    for i in 0..b.count {
        out[i] = pair(n, f, g, b, i, work);
    }
}

// The resultant of each of count pairs modulo n, in the sent degrees d and e.
pub fn resultants(
    n: u32,
    f: &[u32],
    d: usize,
    g: &[u32],
    e: usize,
    count: usize,
    out: &mut [u32],
    work: &mut [u32],
) -> Answer
    ensures { ResultantsAnswer narrow n f.now d g.now e count out.old out.new
        work.old work.new result.value result.status }
{
    let b = Batch { d, e, count };
    if let Err(refusal) = batch_pairs::refusal_batch(n, f, g, b, out.len(), work.len()) {
        return Answer::from(refusal);
    }
    each_pair(n, f, g, b, out, work);
    answers::answered(0, work)
}
