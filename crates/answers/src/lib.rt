// The end of an answered call, for every service that answers a number.
#![tactic(auto)]

ghost use Rattle.std.specs.Prelude.{◌≡◌, length, replicate};

use refusals::Answer;

// The value, with status 0. S24: "After an answered call the working buffer it was lent holds zeros."
pub fn answered(value: u32, work: &mut [u32]) -> Answer
    ensures value_value { (result.value ≡ value) × (result.status ≡ 0) }
    ensures work_after { work.new ≡ replicate (length work.old) 0 }
{
    windows::wipe(work);
    Answer { value, status: 0 }
}
