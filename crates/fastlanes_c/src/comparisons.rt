//! The comparisons with values of the eight types.
//!
//! Written by `blocks/write.py` from its template, where changes are made.

ghost use Rattle.std.specs.Prelude.{◌≡◌, ◌*◌, ◌<◌, ◌≤◌, length, pos};
ghost use Rattle.std.specs.Int.{cast_signed, w8, w16, w32, w64};
ghost use Rattle.fastlanes.specs.Digits.{digit};
ghost use Rattle.fastlanes.specs.Mask.{IsLaneMask, IsPlaceMask};
ghost use Rattle.fastlanes_blocks.specs.Comparisons.{Tells, holds};
ghost use Rattle.fastlanes_c.specs.Comparisons.{comparison_of};

use crate::blocks::{PackedU8, PackedU16, PackedU32, PackedU64};
use fastlanes_blocks::{Comparison, compare, filter};

/// Returns the comparison with this number in C.
pub(crate) fn numbered(number: u32) -> Comparison
    requires number { number < 6 }
    ensures { result ≡ comparison_of number }
{
    match number {
        0 => Comparison::Equal,
        1 => Comparison::NotEqual,
        2 => Comparison::Less,
        3 => Comparison::AtMost,
        4 => Comparison::Greater,
        _ => Comparison::AtLeast,
    }
}

// Values of `u8`, packed in words of `u8`.

/// Compares each packed value with `value`: bit `lane * 8 + row` of `mask` is the result for that row of that lane.
/// `fl_transpose_bits_u8` reorders the mask. Packed values are read as `u8`.
#[unsafe(no_mangle)]
pub extern "C" fn fl_unpack_cmp_u8(
    width: usize,
    input: PackedU8,
    comparison: u32,
    value: u8,
    mask: &mut [u64; 16],
)
    requires width { width ≤ 8 }
    requires words { length input.words.now ≡ 128 * width }
    requires comparison { comparison < 6 }
    ensures { IsLaneMask 8 128 (Tells pos (holds (comparison_of comparison)) (pos value))
        (digit 8 128 width input.entry.words.now) mask.new }
{
    compare::<u8, u8>(width, input.words, mask, numbered(comparison), value);
}

/// Compares each packed value with `value`: bit `i % 64` of `mask[i / 64]` is the result for packed value `i`. Packed values are read as `u8`.
#[unsafe(no_mangle)]
pub extern "C" fn fl_unpack_filter_u8(
    width: usize,
    input: PackedU8,
    comparison: u32,
    value: u8,
    mask: &mut [u64; 16],
)
    requires width { width ≤ 8 }
    requires words { length input.words.now ≡ 128 * width }
    requires comparison { comparison < 6 }
    ensures { IsPlaceMask (Tells pos (holds (comparison_of comparison)) (pos value))
        (digit 8 128 width input.entry.words.now) mask.new }
{
    filter::<u8, u8>(width, input.words, mask, numbered(comparison), value);
}

// Values of `i8`, packed in words of `u8`.

/// Compares each packed value with `value`: bit `lane * 8 + row` of `mask` is the result for that row of that lane.
/// `fl_transpose_bits_u8` reorders the mask. Packed values are read as `i8`.
#[unsafe(no_mangle)]
pub extern "C" fn fl_unpack_cmp_i8(
    width: usize,
    input: PackedU8,
    comparison: u32,
    value: i8,
    mask: &mut [u64; 16],
)
    requires width { width ≤ 8 }
    requires words { length input.words.now ≡ 128 * width }
    requires comparison { comparison < 6 }
    ensures { IsLaneMask 8 128 (Tells (cast_signed w8) (holds (comparison_of comparison)) value)
        (digit 8 128 width input.entry.words.now) mask.new }
{
    compare::<u8, i8>(width, input.words, mask, numbered(comparison), value);
}

/// Compares each packed value with `value`: bit `i % 64` of `mask[i / 64]` is the result for packed value `i`. Packed values are read as `i8`.
#[unsafe(no_mangle)]
pub extern "C" fn fl_unpack_filter_i8(
    width: usize,
    input: PackedU8,
    comparison: u32,
    value: i8,
    mask: &mut [u64; 16],
)
    requires width { width ≤ 8 }
    requires words { length input.words.now ≡ 128 * width }
    requires comparison { comparison < 6 }
    ensures { IsPlaceMask (Tells (cast_signed w8) (holds (comparison_of comparison)) value)
        (digit 8 128 width input.entry.words.now) mask.new }
{
    filter::<u8, i8>(width, input.words, mask, numbered(comparison), value);
}

// Values of `u16`, packed in words of `u16`.

/// Compares each packed value with `value`: bit `lane * 16 + row` of `mask` is the result for that row of that lane.
/// `fl_transpose_bits_u16` reorders the mask. Packed values are read as `u16`.
#[unsafe(no_mangle)]
pub extern "C" fn fl_unpack_cmp_u16(
    width: usize,
    input: PackedU16,
    comparison: u32,
    value: u16,
    mask: &mut [u64; 16],
)
    requires width { width ≤ 16 }
    requires words { length input.words.now ≡ 64 * width }
    requires comparison { comparison < 6 }
    ensures { IsLaneMask 16 64 (Tells pos (holds (comparison_of comparison)) (pos value))
        (digit 16 64 width input.entry.words.now) mask.new }
{
    compare::<u16, u16>(width, input.words, mask, numbered(comparison), value);
}

/// Compares each packed value with `value`: bit `i % 64` of `mask[i / 64]` is the result for packed value `i`. Packed values are read as `u16`.
#[unsafe(no_mangle)]
pub extern "C" fn fl_unpack_filter_u16(
    width: usize,
    input: PackedU16,
    comparison: u32,
    value: u16,
    mask: &mut [u64; 16],
)
    requires width { width ≤ 16 }
    requires words { length input.words.now ≡ 64 * width }
    requires comparison { comparison < 6 }
    ensures { IsPlaceMask (Tells pos (holds (comparison_of comparison)) (pos value))
        (digit 16 64 width input.entry.words.now) mask.new }
{
    filter::<u16, u16>(width, input.words, mask, numbered(comparison), value);
}

// Values of `i16`, packed in words of `u16`.

/// Compares each packed value with `value`: bit `lane * 16 + row` of `mask` is the result for that row of that lane.
/// `fl_transpose_bits_u16` reorders the mask. Packed values are read as `i16`.
#[unsafe(no_mangle)]
pub extern "C" fn fl_unpack_cmp_i16(
    width: usize,
    input: PackedU16,
    comparison: u32,
    value: i16,
    mask: &mut [u64; 16],
)
    requires width { width ≤ 16 }
    requires words { length input.words.now ≡ 64 * width }
    requires comparison { comparison < 6 }
    ensures { IsLaneMask 16 64 (Tells (cast_signed w16) (holds (comparison_of comparison)) value)
        (digit 16 64 width input.entry.words.now) mask.new }
{
    compare::<u16, i16>(width, input.words, mask, numbered(comparison), value);
}

/// Compares each packed value with `value`: bit `i % 64` of `mask[i / 64]` is the result for packed value `i`. Packed values are read as `i16`.
#[unsafe(no_mangle)]
pub extern "C" fn fl_unpack_filter_i16(
    width: usize,
    input: PackedU16,
    comparison: u32,
    value: i16,
    mask: &mut [u64; 16],
)
    requires width { width ≤ 16 }
    requires words { length input.words.now ≡ 64 * width }
    requires comparison { comparison < 6 }
    ensures { IsPlaceMask (Tells (cast_signed w16) (holds (comparison_of comparison)) value)
        (digit 16 64 width input.entry.words.now) mask.new }
{
    filter::<u16, i16>(width, input.words, mask, numbered(comparison), value);
}

// Values of `u32`, packed in words of `u32`.

/// Compares each packed value with `value`: bit `lane * 32 + row` of `mask` is the result for that row of that lane.
/// `fl_transpose_bits_u32` reorders the mask. Packed values are read as `u32`.
#[unsafe(no_mangle)]
pub extern "C" fn fl_unpack_cmp_u32(
    width: usize,
    input: PackedU32,
    comparison: u32,
    value: u32,
    mask: &mut [u64; 16],
)
    requires width { width ≤ 32 }
    requires words { length input.words.now ≡ 32 * width }
    requires comparison { comparison < 6 }
    ensures { IsLaneMask 32 32 (Tells pos (holds (comparison_of comparison)) (pos value))
        (digit 32 32 width input.entry.words.now) mask.new }
{
    compare::<u32, u32>(width, input.words, mask, numbered(comparison), value);
}

/// Compares each packed value with `value`: bit `i % 64` of `mask[i / 64]` is the result for packed value `i`. Packed values are read as `u32`.
#[unsafe(no_mangle)]
pub extern "C" fn fl_unpack_filter_u32(
    width: usize,
    input: PackedU32,
    comparison: u32,
    value: u32,
    mask: &mut [u64; 16],
)
    requires width { width ≤ 32 }
    requires words { length input.words.now ≡ 32 * width }
    requires comparison { comparison < 6 }
    ensures { IsPlaceMask (Tells pos (holds (comparison_of comparison)) (pos value))
        (digit 32 32 width input.entry.words.now) mask.new }
{
    filter::<u32, u32>(width, input.words, mask, numbered(comparison), value);
}

// Values of `i32`, packed in words of `u32`.

/// Compares each packed value with `value`: bit `lane * 32 + row` of `mask` is the result for that row of that lane.
/// `fl_transpose_bits_u32` reorders the mask. Packed values are read as `i32`.
#[unsafe(no_mangle)]
pub extern "C" fn fl_unpack_cmp_i32(
    width: usize,
    input: PackedU32,
    comparison: u32,
    value: i32,
    mask: &mut [u64; 16],
)
    requires width { width ≤ 32 }
    requires words { length input.words.now ≡ 32 * width }
    requires comparison { comparison < 6 }
    ensures { IsLaneMask 32 32 (Tells (cast_signed w32) (holds (comparison_of comparison)) value)
        (digit 32 32 width input.entry.words.now) mask.new }
{
    compare::<u32, i32>(width, input.words, mask, numbered(comparison), value);
}

/// Compares each packed value with `value`: bit `i % 64` of `mask[i / 64]` is the result for packed value `i`. Packed values are read as `i32`.
#[unsafe(no_mangle)]
pub extern "C" fn fl_unpack_filter_i32(
    width: usize,
    input: PackedU32,
    comparison: u32,
    value: i32,
    mask: &mut [u64; 16],
)
    requires width { width ≤ 32 }
    requires words { length input.words.now ≡ 32 * width }
    requires comparison { comparison < 6 }
    ensures { IsPlaceMask (Tells (cast_signed w32) (holds (comparison_of comparison)) value)
        (digit 32 32 width input.entry.words.now) mask.new }
{
    filter::<u32, i32>(width, input.words, mask, numbered(comparison), value);
}

// Values of `u64`, packed in words of `u64`.

/// Compares each packed value with `value`: bit `lane * 64 + row` of `mask` is the result for that row of that lane.
/// `fl_transpose_bits_u64` reorders the mask. Packed values are read as `u64`.
#[unsafe(no_mangle)]
pub extern "C" fn fl_unpack_cmp_u64(
    width: usize,
    input: PackedU64,
    comparison: u32,
    value: u64,
    mask: &mut [u64; 16],
)
    requires width { width ≤ 64 }
    requires words { length input.words.now ≡ 16 * width }
    requires comparison { comparison < 6 }
    ensures { IsLaneMask 64 16 (Tells pos (holds (comparison_of comparison)) (pos value))
        (digit 64 16 width input.entry.words.now) mask.new }
{
    compare::<u64, u64>(width, input.words, mask, numbered(comparison), value);
}

/// Compares each packed value with `value`: bit `i % 64` of `mask[i / 64]` is the result for packed value `i`. Packed values are read as `u64`.
#[unsafe(no_mangle)]
pub extern "C" fn fl_unpack_filter_u64(
    width: usize,
    input: PackedU64,
    comparison: u32,
    value: u64,
    mask: &mut [u64; 16],
)
    requires width { width ≤ 64 }
    requires words { length input.words.now ≡ 16 * width }
    requires comparison { comparison < 6 }
    ensures { IsPlaceMask (Tells pos (holds (comparison_of comparison)) (pos value))
        (digit 64 16 width input.entry.words.now) mask.new }
{
    filter::<u64, u64>(width, input.words, mask, numbered(comparison), value);
}

// Values of `i64`, packed in words of `u64`.

/// Compares each packed value with `value`: bit `lane * 64 + row` of `mask` is the result for that row of that lane.
/// `fl_transpose_bits_u64` reorders the mask. Packed values are read as `i64`.
#[unsafe(no_mangle)]
pub extern "C" fn fl_unpack_cmp_i64(
    width: usize,
    input: PackedU64,
    comparison: u32,
    value: i64,
    mask: &mut [u64; 16],
)
    requires width { width ≤ 64 }
    requires words { length input.words.now ≡ 16 * width }
    requires comparison { comparison < 6 }
    ensures { IsLaneMask 64 16 (Tells (cast_signed w64) (holds (comparison_of comparison)) value)
        (digit 64 16 width input.entry.words.now) mask.new }
{
    compare::<u64, i64>(width, input.words, mask, numbered(comparison), value);
}

/// Compares each packed value with `value`: bit `i % 64` of `mask[i / 64]` is the result for packed value `i`. Packed values are read as `i64`.
#[unsafe(no_mangle)]
pub extern "C" fn fl_unpack_filter_i64(
    width: usize,
    input: PackedU64,
    comparison: u32,
    value: i64,
    mask: &mut [u64; 16],
)
    requires width { width ≤ 64 }
    requires words { length input.words.now ≡ 16 * width }
    requires comparison { comparison < 6 }
    ensures { IsPlaceMask (Tells (cast_signed w64) (holds (comparison_of comparison)) value)
        (digit 64 16 width input.entry.words.now) mask.new }
{
    filter::<u64, i64>(width, input.words, mask, numbered(comparison), value);
}
