// The sign that an exchange costs, words of 64 bits. The 32-bit twin `resultant_signs` has the laws.
//
//   with_sign    a residue with a sign
#![tactic(auto)]

ghost use Rattle.std.specs.Prelude.{◌≡◌, ◌<◌};
ghost use Rattle.law_polynomials.specs.ResultantLaws.{signed};

// x with the sign (-1)^k.
pub fn with_sign(n: u64, k: usize, x: u64) -> u64
    requires { x < n }
    ensures { result ≡ signed n k x }
{
    if k % 2 == 0 {
        return x;
    }
    arithmetic64::negate(n, x)
}
