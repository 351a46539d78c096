//! The element types of columns.

ghost use Rattle.std.specs.Prelude.{◌≡◌, ℕ, ◌+◌, ◌-◌, ◌*◌, ◌/◌, ◌%◌, ◌^◌, ◌<◌, ◌≤◌, All, drop, fold, length, map, max, min, pos, refl, slice_index, take};
ghost use Rattle.fastlanes.specs.Delta.{undeltas};
ghost use Rattle.fastlanes.specs.Digits.{digits};
ghost use Rattle.fastlanes.specs.Frame.{word_difference};
ghost use Rattle.fastlanes.specs.Transposition.{untransposed};
ghost use Rattle.fastlanes_bytes.specs.Bytes.{HasWords, bytes_of};
ghost use Rattle.fastlanes_column.specs.LeastWidth.{IsLeastOf, IsLeastWidth, IsNarrowestHead};
ghost use Rattle.fastlanes_pages.specs.ColumnValues.{frame_values, words_in};
ghost use Rattle.fastlanes_pages.specs.Masks.{IsMask, holds_of};
ghost use Rattle.fastlanes_pages.specs.Shortest.{lane_deltas, own_bases, own_deltas};
ghost use Rattle.fastlanes_pages.specs.Values.{AreDifferences, IsFrame};

use crate::bounds::bounds_of_bases;
use crate::single::{digit_in_bytes, word_at};
use crate::writing::{differences_width, put_words, write_differences};
use fastlanes::{Delta, FoR, index, lane_of, number_of, row_of};
use fastlanes_base::MachineWord;
use fastlanes_blocks::{Comparison, Element, Ordered, filter};
use fastlanes_bytes::WordBytes;
use fastlanes_column::{FrameHead, delta_read, frame_head, frame_write};
use fastlanes_packing::JoinsWords;

/// An element type of columns, with all that packs and compares its blocks: `u8`, `u16`, `u32` and `u64`.
pub trait Packed: FoR + WordBytes + JoinsWords + Element + Ordered<Self> {
    /// The element that a number is.
    fn of_number(number: u64) -> Self
        requires { number < 2 ^ Self.T }
        ensures { Self.number result ≡ number };

    /// Reads a block of differences from the bytes of its bases and those of its words.
    fn read_sums(before: &[u8], bytes: &[u8], width: usize, output: &mut [Self; 1024])
        requires width { width ≤ Self.T }
        requires before { length before.now ≡ 128 }
        requires bytes { length bytes.now ≡ 128 * width }
        ensures { AreDifferences Self.T Self.LANES width before.now bytes.now
            (map Self.number output.new) };

    /// The least width that holds the differences of a block's neighbours.
    fn sums_width(block: &[Self; 1024]) -> usize
        ensures lanes { IsLeastWidth result
            (lane_deltas Self.T Self.LANES (map Self.number block.now)) }
        ensures neighbours { IsLeastWidth result (own_deltas Self.T (map Self.number block.now)) }
        ensures fits { result ≤ Self.T };

    /// Writes the bytes of a block's bases, and those of the differences of its neighbours, each of at most `width` bits.
    fn write_sums(block: &[Self; 1024], width: usize, before: &mut [u8], bytes: &mut [u8])
        requires width { width ≤ Self.T }
        requires before { length before.old ≡ 128 }
        requires bytes { length bytes.old ≡ 128 * width }
        requires near { All (λ x. x < 2 ^ width)
            (lane_deltas Self.T Self.LANES (map Self.number block.now)) }
        ensures sums { AreDifferences Self.T Self.LANES width before.new bytes.new
            (map Self.number block.now) }
        ensures bases { HasWords Self.T Self.LANES (own_bases Self.LANES (map Self.number block.now))
            before.new };

    // A comparison sees the number of an element.
    ghost integer_number_law: { (x : ℕ) → Self.Ordered.integer x ≡ pos x };
}

impl Packed for u8 {
    #[inline(always)]
    fn of_number(number: u64) -> u8 {
        number as u8
    }

    fn read_sums(before: &[u8], bytes: &[u8], width: usize, output: &mut [u8; 1024]) {
        read_differences::<u8, 128>(before, bytes, width, output);
    }

    fn sums_width(block: &[u8; 1024]) -> usize {
        differences_width(block)
    }

    fn write_sums(block: &[u8; 1024], width: usize, before: &mut [u8], bytes: &mut [u8]) {
        write_differences::<u8, 128>(block, width, before, bytes);
    }

    ghost integer_number_law = { λ x. refl };
}

impl Packed for u16 {
    #[inline(always)]
    fn of_number(number: u64) -> u16 {
        number as u16
    }

    fn read_sums(before: &[u8], bytes: &[u8], width: usize, output: &mut [u16; 1024]) {
        read_differences::<u16, 64>(before, bytes, width, output);
    }

    fn sums_width(block: &[u16; 1024]) -> usize {
        differences_width(block)
    }

    fn write_sums(block: &[u16; 1024], width: usize, before: &mut [u8], bytes: &mut [u8]) {
        write_differences::<u16, 64>(block, width, before, bytes);
    }

    ghost integer_number_law = { λ x. refl };
}

impl Packed for u32 {
    #[inline(always)]
    fn of_number(number: u64) -> u32 {
        number as u32
    }

    fn read_sums(before: &[u8], bytes: &[u8], width: usize, output: &mut [u32; 1024]) {
        read_differences::<u32, 32>(before, bytes, width, output);
    }

    fn sums_width(block: &[u32; 1024]) -> usize {
        differences_width(block)
    }

    fn write_sums(block: &[u32; 1024], width: usize, before: &mut [u8], bytes: &mut [u8]) {
        write_differences::<u32, 32>(block, width, before, bytes);
    }

    ghost integer_number_law = { λ x. refl };
}

impl Packed for u64 {
    #[inline(always)]
    fn of_number(number: u64) -> u64 {
        number
    }

    fn read_sums(before: &[u8], bytes: &[u8], width: usize, output: &mut [u64; 1024]) {
        read_differences::<u64, 16>(before, bytes, width, output);
    }

    fn sums_width(block: &[u64; 1024]) -> usize {
        differences_width(block)
    }

    fn write_sums(block: &[u64; 1024], width: usize, before: &mut [u8], bytes: &mut [u8]) {
        write_differences::<u64, 16>(block, width, before, bytes);
    }

    ghost integer_number_law = { λ x. refl };
}

/// An element type of columns: a word, and what columns do with blocks of words and the bytes of these. Every type that is `Packed`
/// is one. What goes from block to block asks for no more: `Packed` brings all laws of `num_traits` into every proof.
pub trait Stored: MachineWord {
    /// The element that a number is.
    fn of_number(number: u64) -> Self
        requires { number < 2 ^ Self.T }
        ensures { Self.number result ≡ number };

    /// The number of an element.
    fn to_number(self) -> u64
        ensures value { result ≡ Self.number self }
        ensures below { result < 2 ^ Self.T };

    /// Reads each word from its bytes.
    fn read_words(bytes: &[u8], words: &mut [Self])
        requires { length bytes.now ≡ length words.old * (Self.T / 8) }
        ensures length { length words.new ≡ length words.old }
        ensures words { HasWords Self.T (length words.old) (map Self.number words.new) bytes.now };

    /// Writes each word's bytes at the start of `bytes`, and answers how many these are. The bytes after them stay.
    fn write_words(words: &[Self], bytes: &mut [u8]) -> usize
        requires { length words.now * (Self.T / 8) ≤ length bytes.old }
        ensures count { result ≡ length words.now * (Self.T / 8) }
        ensures within { result ≤ length bytes.new }
        ensures below { All (λ x. x < 2 ^ Self.T) (map Self.number words.now) }
        ensures bytes { take result bytes.new ≡ bytes_of Self.T (map Self.number words.now) }
        ensures rest { drop result bytes.new ≡ drop result bytes.old };

    /// Reads a frame from its bytes.
    fn read_frame(bytes: &[u8], width: usize, reference: Self, output: &mut [Self; 1024])
        requires width { width ≤ Self.T }
        requires bytes { length bytes.now ≡ 128 * width }
        ensures { IsFrame Self.T Self.LANES width (Self.number reference) bytes.now
            (map Self.number output.new) };

    /// The value at a place of the bytes of a frame, from the one or two words that its digit is in.
    fn value_of_frame(bytes: &[u8], width: usize, reference: Self, index: usize) -> Self
        requires width { width ≤ Self.T }
        requires bytes { length bytes.now ≡ 128 * width }
        requires index { index < 1024 }
        ensures { Self.number result ≡ slice_index
            (frame_values Self.T Self.LANES width (Self.number reference) bytes.now) index };

    /// Reads a block of differences from the bytes of its bases and those of its words.
    fn read_sums(before: &[u8], bytes: &[u8], width: usize, output: &mut [Self; 1024])
        requires width { width ≤ Self.T }
        requires before { length before.now ≡ 128 }
        requires bytes { length bytes.now ≡ 128 * width }
        ensures { AreDifferences Self.T Self.LANES width before.now bytes.now
            (map Self.number output.new) };

    /// The value at a place of a block of differences, of the bytes of its bases and those of its words: its lane's base, and the
    /// digits of the lane's rows up to it.
    fn value_of_sums(before: &[u8], bytes: &[u8], width: usize, i: usize) -> Self
        requires width { width ≤ Self.T }
        requires before { length before.now ≡ 128 }
        requires bytes { length bytes.now ≡ 128 * width }
        requires index { i < 1024 }
        ensures { Self.number result ≡ slice_index (untransposed (undeltas Self.T Self.LANES
            (words_in Self.T Self.LANES before.now)
            (digits Self.T Self.LANES width (words_in Self.T (Self.LANES * width) bytes.now)))) i };

    /// Returns the minimum and the maximum of the bases of a block of differences, from their bytes.
    fn base_bounds(before: &[u8]) -> (Self, Self)
        requires { length before.now ≡ 128 }
        ensures least { Self.number result.0
            ≡ fold min (2 ^ Self.T - 1) (words_in Self.T Self.LANES before.now) }
        ensures greatest { Self.number result.1
            ≡ fold max 0 (words_in Self.T Self.LANES before.now) };

    /// The least width that holds the differences of a block's neighbours.
    fn sums_width(block: &[Self; 1024]) -> usize
        ensures lanes { IsLeastWidth result
            (lane_deltas Self.T Self.LANES (map Self.number block.now)) }
        ensures neighbours { IsLeastWidth result (own_deltas Self.T (map Self.number block.now)) }
        ensures fits { result ≤ Self.T };

    /// Returns the minimum bit width and the reference of a block's FOR form. The reference is the block's minimum, and no reference
    /// that is at most every value has a smaller width.
    fn least_frame(block: &[Self; 1024]) -> (usize, Self)
        ensures minimum { IsLeastOf (Self.number result.1) (map Self.number block.now) }
        ensures fits { result.0 ≤ Self.T }
        ensures near { All (λ x. word_difference Self.T x (Self.number result.1) < 2 ^ result.0)
            (map Self.number block.now) }
        ensures narrowest { IsNarrowestHead (Self.number result.1) result.0
            (map Self.number block.now) };

    /// Writes the bytes of a frame, from whose reference no value is further above than its width holds.
    fn write_frame(block: &[Self; 1024], width: usize, reference: Self, bytes: &mut [u8])
        requires width { width ≤ Self.T }
        requires bytes { length bytes.old ≡ 128 * width }
        requires near { All (λ x. word_difference Self.T x (Self.number reference) < 2 ^ width)
            (map Self.number block.now) }
        ensures { IsFrame Self.T Self.LANES width (Self.number reference) bytes.new
            (map Self.number block.now) };

    /// Writes the bytes of a block's bases, and those of the differences of its neighbours, each of at most `width` bits.
    fn write_sums(block: &[Self; 1024], width: usize, before: &mut [u8], bytes: &mut [u8])
        requires width { width ≤ Self.T }
        requires before { length before.old ≡ 128 }
        requires bytes { length bytes.old ≡ 128 * width }
        requires near { All (λ x. x < 2 ^ width)
            (lane_deltas Self.T Self.LANES (map Self.number block.now)) }
        ensures sums { AreDifferences Self.T Self.LANES width before.new bytes.new
            (map Self.number block.now) }
        ensures bases { HasWords Self.T Self.LANES (own_bases Self.LANES (map Self.number block.now))
            before.new };

    /// Which values of a frame a comparison holds of, by a comparison of its digits.
    fn filter_digits(
        bytes: &[u8],
        width: usize,
        reference: Self,
        comparison: Comparison,
        value: Self,
        mask: &mut [u64; 16],
    )
        requires width { width ≤ Self.T }
        requires bytes { length bytes.now ≡ 128 * width }
        requires value { Self.number reference ≤ Self.number value }
        requires sum { Self.number reference + 2 ^ width ≤ 2 ^ Self.T }
        ensures { IsMask (holds_of comparison (Self.number value))
            (frame_values Self.T Self.LANES width (Self.number reference) bytes.now) mask.new };

    /// Which of 1024 values a comparison holds of.
    fn filter_values(
        values: &[Self; 1024],
        comparison: Comparison,
        value: Self,
        mask: &mut [u64; 16],
    )
        ensures { IsMask (holds_of comparison (Self.number value)) (map Self.number values.now)
            mask.new };
}

impl<E: Packed> Stored for E {
    #[inline(always)]
    fn of_number(number: u64) -> E {
        <E as Packed>::of_number(number)
    }

    #[inline(always)]
    fn to_number(self) -> u64 {
        let _low = self.word_low(0);
        number_of(self)
    }

    #[inline(always)]
    fn read_words(bytes: &[u8], words: &mut [E]) {
        fastlanes_bytes::read_words(bytes, words);
    }

    #[inline(always)]
    fn write_words(words: &[E], bytes: &mut [u8]) -> usize {
        fastlanes_bytes::write_words(words, bytes)
    }

    fn read_frame(bytes: &[u8], width: usize, reference: E, output: &mut [E; 1024]) {
        let mut words = [E::zero(); 1024];
        let words = &mut words[..E::LANES * width];
        fastlanes_bytes::read_words(bytes, words);
        E::unchecked_unfor_pack(width, words, reference, output);
    }

    #[inline(always)]
    fn value_of_frame(bytes: &[u8], width: usize, reference: E, index: usize) -> E {
        digit_in_bytes::<E>(bytes, width, index).word_add(reference)
    }

    #[inline(always)]
    fn read_sums(before: &[u8], bytes: &[u8], width: usize, output: &mut [E; 1024]) {
        <E as Packed>::read_sums(before, bytes, width, output);
    }

    fn value_of_sums(before: &[u8], bytes: &[u8], width: usize, i: usize) -> E {
        let place = index(i % 64, i / 64);
        let lane = lane_of::<E>(place);
        let mut sum = word_at::<E>(before, 1, lane);
        for row in 0..row_of::<E>(place) + 1 {
            sum = sum.word_add(digit_in_bytes::<E>(bytes, width, index(row, lane)));
        }
        sum
    }

    #[inline(always)]
    fn base_bounds(before: &[u8]) -> (E, E) {
        bounds_of_bases(before)
    }

    #[inline(always)]
    fn sums_width(block: &[E; 1024]) -> usize {
        <E as Packed>::sums_width(block)
    }

    #[inline(always)]
    fn least_frame(block: &[E; 1024]) -> (usize, E) {
        let head = frame_head(block);
        (head.width, head.reference)
    }

    fn write_frame(block: &[E; 1024], width: usize, reference: E, bytes: &mut [u8]) {
        let mut words = [E::zero(); 1024];
        let words = &mut words[..E::LANES * width];
        frame_write(&FrameHead { width, reference }, block, words);
        put_words(words, bytes);
    }

    #[inline(always)]
    fn write_sums(block: &[E; 1024], width: usize, before: &mut [u8], bytes: &mut [u8]) {
        <E as Packed>::write_sums(block, width, before, bytes);
    }

    fn filter_digits(
        bytes: &[u8],
        width: usize,
        reference: E,
        comparison: Comparison,
        value: E,
        mask: &mut [u64; 16],
    ) {
        let mut words = [E::zero(); 1024];
        let words = &mut words[..E::LANES * width];
        fastlanes_bytes::read_words(bytes, words);
        filter::<E, E>(width, words, mask, comparison, value.word_sub(reference));
    }

    fn filter_values(values: &[E; 1024], comparison: Comparison, value: E, mask: &mut [u64; 16]) {
        // At the full width beside 0 the digits are the values.
        let mut words = [E::zero(); 1024];
        E::unchecked_for_pack(E::T, values, E::zero(), &mut words);
        filter::<E, E>(E::T, &words, mask, comparison, value);
    }
}

/// Reads a block of differences from the bytes of its bases and those of its words.
pub(crate) fn read_differences<E: Delta<LANES> + WordBytes, const LANES: usize>(
    before: &[u8],
    bytes: &[u8],
    width: usize,
    output: &mut [E; 1024],
)
    requires lanes { LANES ≡ E.LANES }
    requires width { width ≤ E.T }
    requires before { length before.now ≡ 128 }
    requires bytes { length bytes.now ≡ 128 * width }
    ensures { AreDifferences E.T E.LANES width before.now bytes.now (map E.number output.new) }
{
    let mut bases = [E::zero(); LANES];
    fastlanes_bytes::read_words(before, &mut bases);
    let mut words = [E::zero(); 1024];
    let words = &mut words[..E::LANES * width];
    fastlanes_bytes::read_words(bytes, words);
    delta_read(width, words, &bases, output);
}
