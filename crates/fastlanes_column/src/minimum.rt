//! The header of a FOR block: the minimum, and the width above it.

ghost use Rattle.std.specs.Prelude.{◌≡◌, ◌↔◌, ℕ, ◌+◌, ◌%◌, ◌^◌, ◌<◌, ◌≤◌, All, length, map};
ghost use Rattle.std.specs.Option.{ForSome};
ghost use Rattle.fastlanes.specs.Frame.{framed};
ghost use Rattle.fastlanes_column.specs.LeastWidth.{HasHead, IsAsWide, IsGreatestOf, IsLeastOf};

use crate::bits::{least, width_from};
use crate::frame::FrameHead;
use fastlanes::{FastLanes, number_of};
use num_traits::NumCast;

/// Returns the head whose reference is the minimum of the words. Words of 64 bits near the first one are compared as numbers of
/// 32 bits, since neither SSE nor AVX2 has a minimum of unsigned words of 64 bits.
#[inline(always)]
pub fn head_at_minimum<E: FastLanes>(words: &[E]) -> FrameHead<E>
    requires { 0 < length words.now }
    ensures { HasHead E.T (E.number result.reference) result.width (map E.number words.now) }
{
    if E::T == 64 {
        if let Some(head) = head_near(words) {
            return head;
        }
    }
    let reference = least(words);
    FrameHead {
        width: width_from(words, reference),
        reference,
    }
}

/// Returns that head of words of 64 bits, or `None` if one of them is too far from the first one.
#[inline(always)]
fn head_near<E: FastLanes>(words: &[E]) -> Option<FrameHead<E>>
    requires some { 0 < length words.now }
    requires size { E.T ≡ 64 }
    ensures { ForSome result (λ head. HasHead E.T (E.number head.reference) head.width
        (map E.number words.now)) }
{
    let base = base_near(number_of(words[0]));
    // If the ends of the block are far apart, no pass over it is needed.
    if number_of(words[words.len() - 1]).wrapping_sub(base) >= 0x1_0000_0000 {
        return None;
    }
    let distances = distances_from(words, base);
    if distances.joined >= 0x1_0000_0000 {
        return None;
    }
    let width = width_of_half(distances.greatest - distances.least);
    let reference = word_of(base + distances.least as u64)?;
    Some(FrameHead { width, reference })
}

/// Returns a base near a number, at most 2^31 below it unless the number is close to 2^64. Its sum with a number of 32 bits does
/// not wrap.
#[inline(always)]
fn base_near(first: u64) -> u64
    ensures { result + 2 ^ 32 ≤ 2 ^ 64 }
{
    first.saturating_sub(0x8000_0000).min(0xFFFF_FFFF_0000_0000)
}

/// The distances of words from a base: their OR, and the minimum and the maximum of their low halves.
#[derive(Clone, Copy)]
struct Distances {
    joined: u64,
    least: u32,
    greatest: u32,
}

/// Computes the distances of words from a base.
#[inline(always)]
fn distances_from<E: FastLanes>(words: &[E], base: u64) -> Distances
    requires { 0 < length words.now }
    ensures joined { IsAsWide result.joined (framed 64 base (map E.number words.now)) }
    ensures least { IsLeastOf result.least
        (map (λ x. x % 2 ^ 32) (framed 64 base (map E.number words.now))) }
    ensures greatest { IsGreatestOf result.greatest
        (map (λ x. x % 2 ^ 32) (framed 64 base (map E.number words.now))) }
    ensures below { All (λ x. x < 2 ^ 64) (map E.number words.now) }
{
    let mut joined = 0;
    let mut least = low_half(number_of(words[0]).wrapping_sub(base));
    let mut greatest = least;
    for word in words {
        let distance = number_of(*word).wrapping_sub(base);
        joined |= distance;
        let low = low_half(distance);
        least = least.min(low);
        greatest = greatest.max(low);
    }
    Distances {
        joined,
        least,
        greatest,
    }
}

/// Returns the lowest 32 bits of a number.
#[inline(always)]
fn low_half(number: u64) -> u32
    ensures { result ≡ number % 2 ^ 32 }
{
    (number % 0x1_0000_0000) as u32
}

/// Returns the word of a number, or `None` if the type has none.
#[inline(always)]
fn word_of<E: FastLanes>(number: u64) -> Option<E>
    ensures { ForSome result (λ word. E.number word ≡ number) }
{
    <E as NumCast>::from(number)
}

/// Returns the bit width of a number.
#[inline(always)]
fn width_of_half(number: u32) -> usize
    ensures exact { (w : ℕ) → (number < 2 ^ w) ↔ (result ≤ w) }
    ensures fits { result ≤ 32 }
{
    32 - number.leading_zeros() as usize
}
