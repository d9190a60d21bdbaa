// What the runs of a resultant have in common: laws of their eliminations, in specs/, and the sign that an exchange costs.
//
//   with_sign    a residue with a sign
#![tactic(auto)]

ghost use Rattle.std.specs.Prelude.{◌≡◌, ◌<◌};
ghost use Rattle.law_polynomials.specs.ResultantLaws.{signed};

// x with the sign (-1)^k.
pub fn with_sign(n: u32, k: usize, x: u32) -> u32
    requires { x < n }
    ensures { result ≡ signed n k x }
{
    if k % 2 == 0 {
        return x;
    }
    arithmetic::negate(n, x)
}
