// The multipliers of Euclid without inverses as cofactors: beta f + k gamma g is a constant c, and z times that is u f + v g with
// u = z beta and v = z k gamma. The words of beta and gamma stand for residues, and leave as they are multiplied.
//
//   put         a number times what the words of a window stand for, in a lent buffer, with zeros above
//   hand_out    both multipliers times z
//
//   w, m       the buffer, and the modulus
//   r          where the multipliers stand
//   a, b       how many words of each
#![tactic(auto)]

ghost use Rattle.std.specs.Prelude.{◌+◌, ◌≤◌, length};
ghost use Rattle.windows.specs.Window.{Below};
ghost use Rattle.modulus.specs.Values.{Known, values};
ghost use Rattle.multiplier_words.specs.Words.{Put, HandAsked, Handed};

use euclid_steps::Ending;
use modulus::Modulus;

// u[j] is c times what w[at + j] stands for, for j < len, and 0 above.
fn put(u: &mut [u32], w: &[u32], m: Modulus, c: u32, at: usize, len: usize)
    requires known { (Known m) × (Below m.n at len w.now) }
    requires len_in_bounds { (at + len ≤ length w.now) × (len ≤ length u.old) }
    ensures { Put m.n c at len (values m w.now) u.old u.new }
{
    windows::wipe(u);
    for j in 0..len {
        u[j] = modulus::times(m, w[at + j], c);
    }
}

// z times the multipliers of f and of g.
pub fn hand_out(
    u: &mut [u32],
    v: &mut [u32],
    w: &[u32],
    m: Modulus,
    r: Ending<u32>,
    z: u32,
    a: usize,
    b: usize,
)
    requires { HandAsked m r a b w.now u.old v.old }
    ensures { Handed m r z a b w.now u.old v.old u.new v.new }
{
    let y = modulus::times(m, r.k, z);
    put(u, w, m, z, r.u, a);
    put(v, w, m, y, r.v, b);
}
