//! The least and the greatest digit of a block.

ghost use Rattle.std.proofs.Common.{arith};
ghost use Rattle.std.specs.Prelude.{◌≡◌, ◌*◌, ◌-◌, ◌%◌, ◌^◌, ◌<◌, ◌≤◌, [], length, map, slice_index};
ghost use Rattle.fastlanes_base.specs.Digits.{digits};
ghost use Rattle.fastlanes_blocks.specs.Ranges.{HasGreatest, HasLeast, IsFirst, IsFirstOf, IsGreatest, IsLeast};
ghost use Rattle.fastlanes_rows.specs.Rows.{HasLanes};

use crate::fold::RowKernel;
use crate::lanes::lanes_of;
use crate::order::OrderedRow;
use crate::widths::{FoldTypes, fold_block};
use fastlanes_base::MachineWord;
use fastlanes_rows::vector::RowVector;
use std::simd::prelude::*;

/// The least and the greatest value of each lane so far.
#[derive(Clone, Copy)]
struct Range<V> {
    least: V,
    greatest: V,
}

impl<E: MachineWord, V: OrderedRow<E>> RowKernel<E, V> for Range<V> {
    ghost took = { λ width s taken. HasLeast E.T V.N (V.at s.least) taken × HasGreatest V.N (V.at s.greatest) taken };

    #[inline(always)]
    fn take(&mut self, _width: usize, _from: usize, digits: V) {
        self.least = self.least.lesser(digits);
        self.greatest = self.greatest.greater(digits);
    }
}

/// The lesser of two values.
fn lesser<E: MachineWord>(one: E, other: E) -> E
    ensures { IsFirst (λ x y. x ≤ y) (E.number one) (E.number other) (E.number result) }
{
    if other.less(one) { other } else { one }
}

/// The greater of two values.
fn greater<E: MachineWord>(one: E, other: E) -> E
    ensures { IsFirst (λ x y. y ≤ x) (E.number one) (E.number other) (E.number result) }
{
    if one.less(other) { other } else { one }
}

/// The least and the greatest of what the lanes have. Each lane has its turn, the first one too: LLVM takes as many as a power of two
/// by halves, and one lane less one by one.
#[inline(always)]
fn ends_of<E: MachineWord, V: RowVector<E>>(range: Range<V>) -> (E, E)
    requires some { 0 < V.N }
    requires lanes { V.N ≤ 128 }
    ensures least { IsFirstOf (λ x y. x ≤ y) V.N (V.at range.least) (E.number result.0) }
    ensures greatest { IsFirstOf (λ x y. y ≤ x) V.N (V.at range.greatest) (E.number result.1) }
{
    let low = lanes_of(range.least);
    let high = lanes_of(range.greatest);
    let mut least = low[0];
    let mut greatest = high[0];
    for j in 0..V::N {
        least = lesser(least, low[j]);
        greatest = greater(greatest, high[j]);
    }
    (least, greatest)
}

/// The range of a block before its first digit is taken.
#[inline(always)]
fn empty_range<E: MachineWord, V: RowVector<E>>() -> Range<V>
    ensures least { HasLeast E.T V.N (V.at result.least) [] }
    ensures greatest { HasGreatest V.N (V.at result.greatest) [] }
{
    let zero = E::zero();
    Range {
        least: V::splat(zero.minus(E::one())),
        greatest: V::splat(zero),
    }
}

/// The least and the greatest digit of a block, by rows of the type's own words.
#[inline(always)]
fn range_by_rows<E: FoldTypes>(width: usize, packed: &[E]) -> (E, E)
    requires width { width ≤ E.T }
    requires packed { length packed.now ≡ E.LANES * width }
    ensures least { IsLeast (E.number result.0) (digits E.T E.LANES width (map E.number packed.now)) }
    ensures greatest { IsGreatest (E.number result.1) (digits E.T E.LANES width (map E.number packed.now)) }
{
    ends_of::<E, E::Taken>(fold_block(width, packed, empty_range::<E, E::Taken>()))
}

/// Digits of `u64`, modulo 2^32, as numbers of 32 bits.
#[inline(always)]
fn shortened(digits: u64x8) -> u32x8
    ensures { HasLanes 8 (slice_index result) (λ j. slice_index digits j % 2 ^ 32) }
{
    digits.low(32).cast::<u32>()
}

/// The range of digits of `u64`: of at most 32 bits as numbers of so many, since AVX2 has no least and greatest of words of 64.
#[derive(Clone, Copy)]
struct RangeOfU64 {
    short: Range<u32x8>,
    long: Range<u64x8>,
}

impl RowKernel<u64, u64x8> for RangeOfU64 {
    ghost took = { λ width s taken.
        (width ≤ 32 → HasLeast 32 8 (slice_index s.short.least) taken × HasGreatest 8 (slice_index s.short.greatest) taken)
        × (32 < width → HasLeast 64 8 (slice_index s.long.least) taken × HasGreatest 8 (slice_index s.long.greatest) taken) };

    #[inline(always)]
    fn take(&mut self, width: usize, _from: usize, digits: u64x8) {
        if width <= 32 {
            let short = shortened(digits);
            self.short.least = self.short.least.lesser(short);
            self.short.greatest = self.short.greatest.greater(short);
        } else {
            self.long.least = self.long.least.lesser(digits);
            self.long.greatest = self.long.greatest.greater(digits);
        }
    }
}

/// The least and the greatest digit of a block of `u64`.
fn range_of_u64(width: usize, packed: &[u64]) -> (u64, u64)
    requires width { width ≤ 64 }
    requires packed { length packed.now ≡ 16 * width }
    ensures least { IsLeast result.0 (digits 64 16 width packed.now) }
    ensures greatest { IsGreatest result.1 (digits 64 16 width packed.now) }
{
    let none = RangeOfU64 {
        short: empty_range::<u32, u32x8>(),
        long: empty_range::<u64, u64x8>(),
    };
    let range = fold_block(width, packed, none);
    if width <= 32 {
        let (least, greatest) = ends_of::<u32, u32x8>(range.short);
        (u64::from(least), u64::from(greatest))
    } else {
        ends_of::<u64, u64x8>(range.long)
    }
}

/// Element types, each with the rows by which the least and the greatest digit are found.
pub trait RangeTypes: FoldTypes {
    /// The least and the greatest digit of a block.
    #[inline(always)]
    fn range(width: usize, packed: &[Self]) -> (Self, Self)
        requires width { width ≤ Self.T }
        requires packed { length packed.now ≡ Self.LANES * width }
        ensures least { IsLeast (Self.number result.0)
            (digits Self.T Self.LANES width (map Self.number packed.now)) }
        ensures greatest { IsGreatest (Self.number result.1)
            (digits Self.T Self.LANES width (map Self.number packed.now)) }
    {
        range_by_rows(width, packed)
    }
}

impl RangeTypes for u8 {}

impl RangeTypes for u16 {}

impl RangeTypes for u32 {}

impl RangeTypes for u64 {
    #[inline(always)]
    fn range(width: usize, packed: &[u64]) -> (u64, u64) {
        range_of_u64(width, packed)
    }
}

/// The least and the greatest digit of a block of `LANES * width` words, which is not unpacked for it.
///
/// ```rust
/// let mut packed = [0; 384];
/// packed[261] = 0x80;
/// // Row 7 of lane 5 has the three highest bits of the lane, 4, and all other digits are 0.
/// assert_eq!(rt; fastlanes_blocks::unpack_range::<u8>(3, &packed), (0, 4));
/// ```
pub fn unpack_range<E: RangeTypes>(width: usize, packed: &[E]) -> (E, E)
    requires width { width ≤ E.T }
    requires packed { length packed.now ≡ E.LANES * width }
    ensures least { IsLeast (E.number result.0) (digits E.T E.LANES width (map E.number packed.now)) }
    ensures greatest { IsGreatest (E.number result.1) (digits E.T E.LANES width (map E.number packed.now)) }
    ensures ordered { E.number result.0 ≤ E.number result.1 }
{
    E::range(width, packed)
}
