//! What a proof learns of the numbers of a type parameter's values.

ghost use Rattle.std.specs.Prelude.{ℕ, ◌^◌, ◌<◌, All, map};

use fastlanes_base::MachineWord;

/// Tells that each element is below `2^T`. Of a type parameter's value that is known where a word function is called on
/// it, so one is called on each. Nothing uses the answers, so that the compiler drops the calls and the loop.
#[inline(always)]
pub fn know_range<E: MachineWord>(words: &[E])
    ensures { All (λ x. x < 2 ^ E.T) (map E.number words.now) }
{
    for word in words {
        let _low = word.low(0);
    }
}
