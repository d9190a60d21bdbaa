// Product and division for the benchmark in bench/polynomial.c: the services, callable from C.
#![tactic(auto)]

ghost use Rattle.refusals.specs.Refusals.{narrow};
ghost use Rattle.product_service.specs.ProductService.{ProductAnswer};
ghost use Rattle.division_service.specs.DivisionService.{DivisionAnswer};

use refusals::Answer;

#[unsafe(no_mangle)]
pub extern "C" fn polynomial_bench_product(n: u32, f: &[u32], g: &[u32], out: &mut [u32]) -> Answer
    ensures { ProductAnswer narrow n f.now g.now out.old out.new
        result.value result.status }
{
    product_service::product(n, f, g, out)
}

#[unsafe(no_mangle)]
pub extern "C" fn polynomial_bench_division(
    n: u32,
    f: &[u32],
    g: &[u32],
    q: &mut [u32],
    r: &mut [u32],
) -> Answer
    ensures { DivisionAnswer narrow n f.now g.now q.old q.new r.old
        r.new result.value result.status }
{
    division_service::division(n, f, g, q, r)
}
