// The word loop of a pseudo-division: a window loses two shifted multiples of another and is scaled itself, by one reduction a word.
//
//   combine_pair    the words at dst, times l, with c and m times the words at src
//
//   l       what the words at dst are multiplied by: the leading word of the divisor, or its square
//   c, m    the multipliers of the word before and of the word itself: two quotient words
#![tactic(auto)]

ghost use Rattle.std.specs.Prelude.{◌+◌, ◌≤◌, length};
ghost use Rattle.windows.specs.Window.{Written, Apart, Below};
ghost use Rattle.reduction.specs.Moduli.{Ready};
ghost use Rattle.window_combining.specs.Combined.{combination};

use reduction::Reciprocal;

// w[dst + j] = l * w[dst + j] + c * w[src + j - 1] + m * w[src + j], for j < len; the word before the first counts as 0.
// No word from src on reaches n: the return inside the loop is never taken. It keeps the back end from vector code, which has no upper
// half of a product.
pub fn combine_pair(
    w: &mut [u32],
    modulus: Reciprocal,
    l: u32,
    c: u32,
    m: u32,
    src: usize,
    dst: usize,
    len: usize,
)
    requires ready { Ready modulus }
    requires len_in_bounds { (src + len ≤ length w.old) × (dst + len ≤ length w.old) }
    requires apart { (Apart src len dst len) × (Below modulus.n src len w.old) }
    ensures { Written (combination modulus.n l c m src dst w.old) dst len w.old w.new }
{
    let n = modulus.n;
    let mut y: u32 = 0;
    for j in 0..len {
        let z = w[src + j];
        if z >= n {
            return;
        }
        w[dst + j] = reduction::sum_three(modulus, l, w[dst + j], c, y, m, z);
        y = z;
    }
}
