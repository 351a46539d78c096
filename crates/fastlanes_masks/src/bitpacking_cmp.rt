//! Comparison of packed values with a value, without unpacking them.

ghost use Rattle.std.specs.Prelude.{◌≡◌, ℕ, Bool, List, ◌+◌, ◌*◌, ◌/◌, ◌<◌, ◌≤◌, ◌++◌, All, length, map, slice_index, if◌then◌else◌};
ghost use Rattle.fastlanes_base.specs.Digits.{digit, row_digit};
ghost use Rattle.fastlanes_masks.specs.Bits.{TransposesBits, block_bit, block_byte};
ghost use Rattle.fastlanes_masks.specs.Mask.{
  AnswersLanes,
  AreComparable,
  IsAnswer,
  IsComparable,
  IsGathered,
  IsLaneMask,
  IsPlaceMask,
  LanesAnswer,
  MayAsk,
  lane_byte,
};

use crate::lanes::{bytes_of, put_bytes};
use fastlanes_base::{FastLanes, FastLanesComparable, MachineWord};
use fastlanes_rows::row::digit_at;
use fastlanes_rows::steps::{RowStep, walk_rows};
use fastlanes_rows::width::{AtWidth, Bits, Width, Widths};
use std::marker::PhantomData;
use std::simd::prelude::*;

/// Comparison of packed blocks with a value.
///
/// ```rust
/// use fastlanes::BitPackingCompare;
///
/// let mut mask = [0; 16];
/// u8::unchecked_unpack_cmp(1, &[0xFF; 128], &mut mask, |a: u8, b: u8| a == b, 1);
/// assert_eq!(rt; mask, [u64::MAX; 16]);
/// ```
pub trait BitPackingCompare: FastLanes {
    /// What `unpack_cmp` does at a width that is known at run time:
    /// `u16::unchecked_unpack_cmp(4, &packed, &mut mask, comparison, 8)` does the same as
    /// `unpack_cmp::<u16, u16, _, 4, 256>(&packed, &mut mask, comparison, 8)`.
    fn unchecked_unpack_cmp<V: FastLanesComparable<Bitpacked = Self>, F: Fn(V, V) -> bool + Drop>(
        width: usize,
        input: &[Self],
        output: &mut [u64; 16],
        comparison: F,
        value: V,
    )
        requires width { width ≤ Self.T }
        requires input { length input.now ≡ Self.LANES * width }
        requires callable { MayAsk Self.number V.unpacked (F.pre comparison) value
            (digit Self.T Self.LANES width (map Self.number input.now)) }
        ensures mask { IsLaneMask Self.T Self.LANES
            (IsAnswer Self.number V.unpacked (F.post comparison) value)
            (digit Self.T Self.LANES width (map Self.number input.now)) output.new }
        // What `transpose_bits::<Self>` makes of the mask is in the order of places.
        ensures logical { (moved : List ℕ) → TransposesBits Self.T Self.LANES output.new moved
            → IsPlaceMask (IsAnswer Self.number V.unpacked (F.post comparison) value)
            (digit Self.T Self.LANES width (map Self.number input.now)) moved };

    /// What `unpack_cmp` does, at the width `N`, of which alone a program gets the code.
    fn unpack_cmp_at<
        N: Width,
        V: FastLanesComparable<Bitpacked = Self>,
        F: Fn(V, V) -> bool + Drop,
    >(input: &[Self], output: &mut [u64; 16], comparison: F, value: V)
        requires width { N.W ≤ Self.T }
        requires input { length input.now ≡ Self.LANES * N.W }
        requires callable { MayAsk Self.number V.unpacked (F.pre comparison) value
            (digit Self.T Self.LANES N.W (map Self.number input.now)) }
        ensures { IsLaneMask Self.T Self.LANES
            (IsAnswer Self.number V.unpacked (F.post comparison) value)
            (digit Self.T Self.LANES N.W (map Self.number input.now)) output.new };
}

impl<E: ComparesLanes> BitPackingCompare for E {
    #[inline(always)]
    fn unchecked_unpack_cmp<V: FastLanesComparable<Bitpacked = E>, F: Fn(V, V) -> bool + Drop>(
        width: usize,
        input: &[E],
        output: &mut [u64; 16],
        comparison: F,
        value: V,
    ) {
        // Where the width was asked, the compiler would look at it once for all widths, and width 0 would wait for that.
        if input.is_empty() {
            compare_zeros(width, input, output, comparison, value);
        } else {
            E::at_width::<Comparing, _, _>(width, input, (&comparison, value), output);
        }
    }

    #[inline(always)]
    fn unpack_cmp_at<N: Width, V: FastLanesComparable<Bitpacked = E>, F: Fn(V, V) -> bool + Drop>(
        input: &[E],
        output: &mut [u64; 16],
        comparison: F,
        value: V,
    ) {
        if N::W == 0 {
            compare_zeros(0, input, output, comparison, value);
        } else {
            E::compare_block::<N, V, F>(input, &comparison, value, output);
        }
    }
}

/// Element types the words of which, one for each lane of a block, are 128 bytes, as a mask is.
pub trait LaneBytes: MachineWord {
    /// The bytes of the words of all lanes, the first half and the second.
    fn bytes_of_lanes(words: &[Self]) -> (u8x64, u8x64)
        requires { length words.now ≡ Self.LANES }
        ensures { (n : ℕ) → n < 128 → slice_index (result.0 ++ result.1) n
            ≡ lane_byte Self.T (map Self.number words.now) n };
}

impl LaneBytes for u32 {
    #[inline(always)]
    fn bytes_of_lanes(words: &[u32]) -> (u8x64, u8x64) {
        (
            bytes_of_32(u32x16::from_slice(&words[0..16])),
            bytes_of_32(u32x16::from_slice(&words[16..32])),
        )
    }
}

impl LaneBytes for u64 {
    #[inline(always)]
    fn bytes_of_lanes(words: &[u64]) -> (u8x64, u8x64) {
        (
            bytes_of(u64x8::from_slice(&words[0..8])),
            bytes_of(u64x8::from_slice(&words[8..16])),
        )
    }
}

/// Element types of which the words of a quarter of all lanes stay in registers, where the compiler makes vectors of them.
pub trait ComparesQuarters: MachineWord {
    /// A quarter of the mask of a comparison at the width `N`.
    fn compare_quarter<N: Width, V: FastLanesComparable<Bitpacked = Self>, F: Fn(V, V) -> bool>(
        packed: &[Self],
        comparison: &F,
        value: V,
        quarter: usize,
    ) -> u64x4
        requires width { N.W ≤ Self.T }
        requires input { length packed.now ≡ Self.LANES * N.W }
        requires quarter { quarter < 4 }
        requires callable { AreComparable Self.T Self.LANES N.W
            (IsComparable Self.number V.unpacked (F.pre comparison.now) value)
            (map Self.number packed.now) }
        ensures { AnswersLanes Self.T (Self.LANES / 4)
            (IsAnswer Self.number V.unpacked (F.post comparison.now) value)
            (λ lane. row_digit Self.T Self.LANES N.W (map Self.number packed.now)
            (Self.LANES / 4 * quarter + lane)) result };
}

impl ComparesQuarters for u8 {
    #[inline(always)]
    fn compare_quarter<N: Width, V: FastLanesComparable<Bitpacked = u8>, F: Fn(V, V) -> bool>(
        packed: &[u8],
        comparison: &F,
        value: V,
        quarter: usize,
    ) -> u64x4 {
        let mut words = [0u8; 32];
        compare_lanes::<u8, N, V, F>(packed, comparison, value, 32 * quarter, &mut words);
        four_words_of(bytes_of_8(u8x32::from_array(words)))
    }
}

impl ComparesQuarters for u16 {
    #[inline(always)]
    fn compare_quarter<N: Width, V: FastLanesComparable<Bitpacked = u16>, F: Fn(V, V) -> bool>(
        packed: &[u16],
        comparison: &F,
        value: V,
        quarter: usize,
    ) -> u64x4 {
        let mut words = [0u16; 16];
        compare_lanes::<u16, N, V, F>(packed, comparison, value, 16 * quarter, &mut words);
        four_words_of(bytes_of_16(u16x16::from_array(words)))
    }
}

/// Element types, each with room for words of its lanes.
pub trait ComparesLanes: Widths {
    /// The mask of a comparison at the width `N`.
    fn compare_block<N: Width, V: FastLanesComparable<Bitpacked = Self>, F: Fn(V, V) -> bool>(
        packed: &[Self],
        comparison: &F,
        value: V,
        output: &mut [u64; 16],
    )
        requires width { N.W ≤ Self.T }
        requires input { length packed.now ≡ Self.LANES * N.W }
        requires callable { AreComparable Self.T Self.LANES N.W
            (IsComparable Self.number V.unpacked (F.pre comparison.now) value)
            (map Self.number packed.now) }
        ensures { IsLaneMask Self.T Self.LANES
            (IsAnswer Self.number V.unpacked (F.post comparison.now) value)
            (digit Self.T Self.LANES N.W (map Self.number packed.now)) output.new };
}

impl ComparesLanes for u8 {
    #[inline(always)]
    fn compare_block<N: Width, V: FastLanesComparable<Bitpacked = u8>, F: Fn(V, V) -> bool>(
        packed: &[u8],
        comparison: &F,
        value: V,
        output: &mut [u64; 16],
    ) {
        compare_by_quarters::<u8, N, V, F>(packed, comparison, value, output);
    }
}

impl ComparesLanes for u16 {
    #[inline(always)]
    fn compare_block<N: Width, V: FastLanesComparable<Bitpacked = u16>, F: Fn(V, V) -> bool>(
        packed: &[u16],
        comparison: &F,
        value: V,
        output: &mut [u64; 16],
    ) {
        compare_by_quarters::<u16, N, V, F>(packed, comparison, value, output);
    }
}

impl ComparesLanes for u32 {
    #[inline(never)]
    fn compare_block<N: Width, V: FastLanesComparable<Bitpacked = u32>, F: Fn(V, V) -> bool>(
        packed: &[u32],
        comparison: &F,
        value: V,
        output: &mut [u64; 16],
    ) {
        let mut words = [0u32; 32];
        compare_by_lanes::<u32, N, V, F>(packed, comparison, value, &mut words, output);
    }
}

impl ComparesLanes for u64 {
    #[inline(never)]
    fn compare_block<N: Width, V: FastLanesComparable<Bitpacked = u64>, F: Fn(V, V) -> bool>(
        packed: &[u64],
        comparison: &F,
        value: V,
        output: &mut [u64; 16],
    ) {
        let mut words = [0u64; 16];
        compare_by_lanes::<u64, N, V, F>(packed, comparison, value, &mut words, output);
    }
}

/// Compares each value of a block packed to `W` bits with `value`, and writes the 1024 answers as bits: bit
/// `lane * T + row` is the answer for the digit at `index(row, lane)`, extended with zeros and unpacked to `V`. So below the
/// full width a negative value that was packed compares as a value of zero or more. `transpose_bits::<E>` brings the bits
/// into the order of the values. How often the comparison is asked, and in which order, is left open; it is asked at width
/// 0 too.
///
/// ```rust
/// let mut values = [0; 1024];
/// values[195] = 9;
/// let mut packed = [0; 256];
/// fastlanes::pack::<u16, 4, 256>(&values, &mut packed);
/// let mut mask = [0; 16];
/// fastlanes::unpack_cmp::<u16, u16, _, 4, 256>(&packed, &mut mask, |a: u16, b: u16| a > b, 8);
/// // The place 195 is row 9 of lane 3: bit 3 * 16 + 9.
/// assert_eq!(rt; mask[0], 1 << 57);
/// ```
pub fn unpack_cmp<
    E: BitPackingCompare,
    V: FastLanesComparable<Bitpacked = E>,
    F: Fn(V, V) -> bool + Drop,
    const W: usize,
    const B: usize,
>(input: &[E; B], output: &mut [u64; 16], comparison: F, value: V)
    requires width { W ≤ E.T }
    requires words { B ≡ E.LANES * W }
    requires callable { MayAsk E.number V.unpacked (F.pre comparison) value
        (digit E.T E.LANES W (map E.number input.now)) }
    ensures mask { IsLaneMask E.T E.LANES (IsAnswer E.number V.unpacked (F.post comparison) value)
        (digit E.T E.LANES W (map E.number input.now)) output.new }
    // What `transpose_bits::<E>` makes of the mask is in the order of places.
    ensures logical { (moved : List ℕ) → TransposesBits E.T E.LANES output.new moved
        → IsPlaceMask (IsAnswer E.number V.unpacked (F.post comparison) value)
        (digit E.T E.LANES W (map E.number input.now)) moved }
{
    E::unpack_cmp_at::<Bits<W>, V, F>(input, output, comparison, value);
}

/// Asks the comparison about the digit of a row.
#[inline(always)]
fn compare_row<E: MachineWord, V: FastLanesComparable<Bitpacked = E>, F: Fn(V, V) -> bool>(
    width: usize,
    packed: &[E],
    comparison: &F,
    value: V,
    lane: usize,
    row: usize,
) -> bool
    requires width { width ≤ E.T }
    requires words { length packed.now ≡ E.LANES * width }
    requires lane { lane < E.LANES }
    requires row { row < E.T }
    requires callable { IsComparable E.number V.unpacked (F.pre comparison.now) value
        (row_digit E.T E.LANES width (map E.number packed.now) lane row) }
    ensures { (word : E) × (E.number word
        ≡ row_digit E.T E.LANES width (map E.number packed.now) lane row)
        × F.post comparison.now (V.unpacked word) value result }
{
    comparison(V::as_unpacked(digit_at(width, packed, lane, row)), value)
}

/// An answer as a word with one bit.
#[inline(always)]
fn bit_of<E: MachineWord>(answer: bool) -> E
    ensures { E.number result ≡ (if answer then 1 else 0) }
{
    if answer { E::one() } else { E::zero() }
}

/// Packed words, and what their digits are compared by.
#[derive(Drop)]
struct Compared<'a, E, V, F> {
    packed: &'a [E],
    comparison: &'a F,
    value: V,
}

/// The rows of a lane, of which each is compared with a value.
struct ComparingLane<N> {
    width: PhantomData<N>,
}

impl<
    'a,
    E: MachineWord,
    V: FastLanesComparable<Bitpacked = E>,
    F: Fn(V, V) -> bool,
    N: Width,
> RowStep<E, Compared<'a, E, V, F>, ()> for ComparingLane<N> {
    type Carry = E;

    ghost stands = { λ width lane row by none word. (N.W ≤ E.T)
        × (length by.packed.now ≡ E.LANES * N.W) × (lane < E.LANES)
        × ((row : ℕ) → row < E.T → IsComparable E.number V.unpacked (F.pre by.comparison.now)
        by.value (row_digit E.T E.LANES N.W (map E.number by.packed.now) lane row))
        × IsGathered (IsAnswer E.number V.unpacked (F.post by.comparison.now) by.value)
        (row_digit E.T E.LANES N.W (map E.number by.packed.now) lane) row (E.number word) };

    ghost leads = { λ width lane r o row by none word. by ≡ r };

    /// Adds the answer for a row to those for the rows before it.
    #[inline]
    fn step(
        by: &mut Compared<'a, E, V, F>,
        _none: &mut (),
        _width: usize,
        lane: usize,
        row: usize,
        word: E,
    ) -> E {
        let answer = compare_row(N::W, by.packed, by.comparison, by.value, lane, row);
        word.or(bit_of::<E>(answer).up(row as u32))
    }
}

/// The answers for a lane: bit `row` is that for the row.
#[inline(always)]
fn compare_lane<
    E: MachineWord,
    V: FastLanesComparable<Bitpacked = E>,
    F: Fn(V, V) -> bool,
    N: Width,
>(packed: &[E], comparison: &F, value: V, lane: usize) -> E
    requires width { N.W ≤ E.T }
    requires words { length packed.now ≡ E.LANES * N.W }
    requires lane { lane < E.LANES }
    requires callable { (row : ℕ) → row < E.T
        → IsComparable E.number V.unpacked (F.pre comparison.now) value
        (row_digit E.T E.LANES N.W (map E.number packed.now) lane row) }
    ensures { IsGathered (IsAnswer E.number V.unpacked (F.post comparison.now) value)
        (row_digit E.T E.LANES N.W (map E.number packed.now) lane) E.T (E.number result) }
{
    let mut by = Compared {
        packed,
        comparison,
        value,
    };
    walk_rows::<E, _, (), ComparingLane<N>>(&mut by, &mut (), N::W, lane, E::zero())
}

/// The answers for the lanes from `first` on, a word for each.
#[inline(always)]
fn compare_lanes<
    E: MachineWord,
    N: Width,
    V: FastLanesComparable<Bitpacked = E>,
    F: Fn(V, V) -> bool,
>(packed: &[E], comparison: &F, value: V, first: usize, words: &mut [E])
    requires width { N.W ≤ E.T }
    requires input { length packed.now ≡ E.LANES * N.W }
    requires lanes { first + length words.old ≤ E.LANES }
    requires callable { AreComparable E.T E.LANES N.W
        (IsComparable E.number V.unpacked (F.pre comparison.now) value) (map E.number packed.now) }
    ensures { LanesAnswer E.T (length words.old)
        (IsAnswer E.number V.unpacked (F.post comparison.now) value)
        (λ lane. row_digit E.T E.LANES N.W (map E.number packed.now) (first + lane))
        (map E.number words.new) }
{
    for lane in 0..words.len() {
        words[lane] = compare_lane::<E, V, F, N>(packed, comparison, value, first + lane);
    }
}

/// Compares a block at the width `N`, with a word for each lane in `words`.
#[inline(always)]
fn compare_by_lanes<
    E: LaneBytes,
    N: Width,
    V: FastLanesComparable<Bitpacked = E>,
    F: Fn(V, V) -> bool,
>(packed: &[E], comparison: &F, value: V, words: &mut [E], output: &mut [u64; 16])
    requires width { N.W ≤ E.T }
    requires input { length packed.now ≡ E.LANES * N.W }
    requires words { length words.old ≡ E.LANES }
    requires callable { AreComparable E.T E.LANES N.W
        (IsComparable E.number V.unpacked (F.pre comparison.now) value) (map E.number packed.now) }
    ensures { IsLaneMask E.T E.LANES (IsAnswer E.number V.unpacked (F.post comparison.now) value)
        (digit E.T E.LANES N.W (map E.number packed.now)) output.new }
{
    compare_lanes::<E, N, V, F>(packed, comparison, value, 0, words);
    let (low, high) = E::bytes_of_lanes(words);
    put_bytes(low, high, output);
}

/// The bytes of sixteen words, the lowest of the first word first.
#[inline(always)]
fn bytes_of_32(words: u32x16) -> u8x64
    ensures long { length result ≡ 64 }
    ensures bytes { (n : ℕ) → n < 64 → slice_index result n ≡ lane_byte 32 words n }
{
    words.to_le_bytes()
}

/// The same of words of 16 bits, half as many bytes.
#[inline(always)]
fn bytes_of_16(words: u16x16) -> u8x32
    ensures { (n : ℕ) → n < 32 → slice_index result n ≡ lane_byte 16 words n }
{
    words.to_le_bytes()
}

/// The same of bytes.
#[inline(always)]
fn bytes_of_8(words: u8x32) -> u8x32
    ensures { (n : ℕ) → n < 32 → slice_index result n ≡ lane_byte 8 words n }
{
    words
}

/// The four words of these bytes.
#[inline(always)]
fn four_words_of(bytes: u8x32) -> u64x4
    ensures { (n : ℕ) → n < 32 → block_byte result n ≡ slice_index bytes n }
{
    u64x4::from_le_bytes(bytes)
}

/// Writes a quarter of a mask.
#[inline(always)]
fn put_quarter(words: u64x4, quarter: usize, output: &mut [u64; 16])
    requires { quarter < 4 }
    ensures here { (k : ℕ) → k < 4 → slice_index output.new (4 * quarter + k)
        ≡ slice_index words k }
    ensures before { (k : ℕ) → k < 4 * quarter
        → slice_index output.new k ≡ slice_index output.old k }
{
    words.copy_to_slice(&mut output[4 * quarter..4 * quarter + 4]);
}

/// Compares a block at the width `N`, a quarter of the lanes after another.
#[inline(always)]
fn compare_by_quarters<
    E: ComparesQuarters,
    N: Width,
    V: FastLanesComparable<Bitpacked = E>,
    F: Fn(V, V) -> bool,
>(packed: &[E], comparison: &F, value: V, output: &mut [u64; 16])
    requires width { N.W ≤ E.T }
    requires input { length packed.now ≡ E.LANES * N.W }
    requires callable { AreComparable E.T E.LANES N.W
        (IsComparable E.number V.unpacked (F.pre comparison.now) value) (map E.number packed.now) }
    ensures { IsLaneMask E.T E.LANES (IsAnswer E.number V.unpacked (F.post comparison.now) value)
        (digit E.T E.LANES N.W (map E.number packed.now)) output.new }
{
    for quarter in 0..4 {
        let words = E::compare_quarter::<N, V, F>(packed, comparison, value, quarter);
        put_quarter(words, quarter, output);
    }
}

/// The same answer for every digit.
#[inline(always)]
fn answer_all(answer: bool, output: &mut [u64; 16])
    ensures { (b : ℕ) → b < 1024 → block_bit output.new b ≡ (if answer then 1 else 0) }
{
    if answer {
        *output = [u64::MAX; 16];
    } else {
        *output = [0; 16];
    }
}

/// Comparison of a block with a value at a width that is not known yet.
struct Comparing;

impl<'a, E: ComparesLanes, V: FastLanesComparable<Bitpacked = E>, F: Fn(V, V) -> bool> AtWidth<
    E,
    (&'a F, V),
    u64,
> for Comparing {
    ghost asks = { λ width packed by mask. (width ≤ E.T) × (length packed ≡ E.LANES * width) × (length mask ≡ 16)
        × AreComparable E.T E.LANES width (IsComparable E.number V.unpacked (F.pre by.0.now) by.1)
        (map E.number packed) };

    ghost gives = { λ width packed by mask. IsLaneMask E.T E.LANES (IsAnswer E.number V.unpacked (F.post by.0.now) by.1)
        (digit E.T E.LANES width (map E.number packed)) mask };

    #[inline(always)]
    fn at<N: Width>(packed: &[E], by: (&'a F, V), output: &mut [u64]) {
        if let Some(mask) = output.first_chunk_mut::<16>() {
            E::compare_block::<N, V, F>(packed, by.0, by.1, mask);
        }
    }
}

/// Compares a block at width 0, where all digits are 0: it asks once.
#[inline(always)]
fn compare_zeros<E: MachineWord, V: FastLanesComparable<Bitpacked = E>, F: Fn(V, V) -> bool + Drop>(
    width: usize,
    input: &[E],
    output: &mut [u64; 16],
    comparison: F,
    value: V,
)
    requires width { width ≡ 0 }
    requires input { length input.now ≡ E.LANES * width }
    requires callable { MayAsk E.number V.unpacked (F.pre comparison) value
        (digit E.T E.LANES width (map E.number input.now)) }
    ensures { IsLaneMask E.T E.LANES (IsAnswer E.number V.unpacked (F.post comparison) value)
        (digit E.T E.LANES width (map E.number input.now)) output.new }
{
    let answer = compare_row(width, input, &comparison, value, 0, 0);
    answer_all(answer, output);
}
