//! One digit of packed words, at any place, from their bytes.

ghost use Rattle.std.specs.Prelude.{◌≡◌, ◌+◌, ◌*◌, ◌/◌, ◌^◌, ◌<◌, ◌≤◌, length, slice_index};
ghost use Rattle.fastlanes.specs.Digits.{digit};
ghost use Rattle.fastlanes_pages.specs.ColumnValues.{words_in};

use fastlanes::{FastLanes, lane_of, row_of};
use fastlanes_bytes::WordBytes;
use fastlanes_packing::JoinsWords;

/// The word at a place of the packed words that bytes are.
#[inline(always)]
pub(crate) fn word_at<E: WordBytes>(bytes: &[u8], width: usize, place: usize) -> E
    requires bytes { length bytes.now ≡ 128 * width }
    requires place { place < E.LANES * width }
    ensures below { E.number result < 2 ^ E.T }
    ensures value { slice_index (words_in E.T (E.LANES * width) bytes.now) place ≡ E.number result }
{
    let start = E::T / 8 * place;
    E::of_bytes(&bytes[start..start + E::T / 8])
}

/// The word of a lane that holds a bit of the lane.
#[inline(always)]
fn word_of_bit<E: WordBytes>(bytes: &[u8], width: usize, lane: usize, bit: usize) -> E
    requires width { width ≤ E.T }
    requires bytes { length bytes.now ≡ 128 * width }
    requires lane { lane < E.LANES }
    requires bit { bit < width * E.T }
    ensures below { E.number result < 2 ^ E.T }
    ensures value { slice_index (words_in E.T (E.LANES * width) bytes.now)
        (E.LANES * (bit / E.T) + lane) ≡ E.number result }
{
    word_at::<E>(bytes, width, E::LANES * (bit / E::T) + lane)
}

/// The digit at a place of the packed words that bytes are, from the one or two words that it is in.
#[inline(always)]
pub(crate) fn digit_in_bytes<E: JoinsWords + WordBytes>(
    bytes: &[u8],
    width: usize,
    index: usize,
) -> E
    requires width { width ≤ E.T }
    requires bytes { length bytes.now ≡ 128 * width }
    requires index { index < 1024 }
    ensures { E.number result
        ≡ digit E.T E.LANES width (words_in E.T (E.LANES * width) bytes.now) index }
{
    if width == 0 {
        return E::zero();
    }
    let lane = lane_of::<E>(index);
    let bit = row_of::<E>(index) * width;
    let first = word_of_bit::<E>(bytes, width, lane, bit);
    let last = word_of_bit::<E>(bytes, width, lane, bit + width - 1);
    E::joined_digit(width, first, last, (bit % E::T) as u32)
}
