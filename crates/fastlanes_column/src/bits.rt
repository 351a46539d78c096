//! How many bits numbers need.

ghost use Rattle.std.specs.Prelude.{ℕ, ◌↔◌, ◌^◌, ◌<◌, ◌≤◌, All, length, map};
ghost use Rattle.fastlanes.specs.Frame.{framed};
ghost use Rattle.fastlanes_column.specs.LeastWidth.{IsAsWide, IsLeastOf, IsLeastWidth};

use fastlanes::{FastLanes, number_of};
use fastlanes_base::MachineWord;

/// The least of the words.
#[inline(always)]
pub fn least<E: MachineWord>(words: &[E]) -> E
    requires { 0 < length words.now }
    ensures value { IsLeastOf (E.number result) (map E.number words.now) }
    ensures below { All (λ x. x < 2 ^ E.T) (map E.number words.now) }
{
    let mut least = words[0];
    for word in words {
        if word.less(least) {
            least = *word;
        }
    }
    least
}

/// The least width that holds the words' differences from a reference.
#[inline(always)]
pub fn width_from<E: FastLanes>(words: &[E], reference: E) -> usize
    ensures width { IsLeastWidth result (framed E.T (E.number reference) (map E.number words.now)) }
    ensures fits { result ≤ E.T }
{
    width_of(joined_differences(words, reference))
}

/// A word with each bit that the difference of one of the words from a reference has.
#[inline(always)]
fn joined_differences<E: MachineWord>(words: &[E], reference: E) -> E
    ensures { IsAsWide (E.number result)
        (framed E.T (E.number reference) (map E.number words.now)) }
{
    let mut joined = E::zero();
    for word in words {
        joined = joined.or(word.minus(reference));
    }
    joined
}

/// How many bits a word has up to its highest one.
#[inline(always)]
pub fn width_of<E: FastLanes>(word: E) -> usize
    ensures exact { (w : ℕ) → (E.number word < 2 ^ w) ↔ (result ≤ w) }
    ensures fits { result ≤ E.T }
{
    let _low = word.word_low(0);
    64 - number_of(word).leading_zeros() as usize
}
