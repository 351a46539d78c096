//! The functions on blocks of the four element types.
//!
//! Written by `blocks/write.py` from its template, where changes are made.

ghost use Rattle.std.specs.Prelude.{◌≡◌, ◌==◌, ℕ, ◌*◌, ◌%◌, ◌^◌, ◌≤◌, ◌<◌, All, drop, length, map, slice_index};
ghost use Rattle.std.specs.List.{sum};
ghost use Rattle.fastlanes.specs.Digits.{IsPacked, digit, digits};
ghost use Rattle.fastlanes.specs.Bits.{TransposesBits, UntransposesBits};
ghost use Rattle.fastlanes.specs.Delta.{deltas, undeltas};
ghost use Rattle.fastlanes.specs.Frame.{framed, unframed};
ghost use Rattle.fastlanes.specs.RunLengths.{run_number, starts};
ghost use Rattle.fastlanes.specs.Transposition.{transposed, untransposed};
ghost use Rattle.fastlanes_blocks.specs.Blocks.{PacksBlocks, UnpacksBlocks};
ghost use Rattle.fastlanes_blocks.specs.Ranges.{IsGreatest, IsLeast};
ghost use Rattle.fastlanes_column.specs.LeastWidth.{IsLeastOf, IsLeastWidth};

use fastlanes::delta::Summing;
use fastlanes::ffor::{Framing, Unframing};
use fastlanes::{
    BitPacking, Delta, FoR, RLE, Transpose, WideRows, transpose_bits, untranspose_bits,
};
use fastlanes_blocks::blocks::{PackingBlocks, UnpackingBlocks};
use fastlanes_blocks::{pack_blocks, unpack_blocks, unpack_range, unpack_sum};
use fastlanes_column::{FrameHead, delta_head, delta_read, delta_write, frame_get, frame_head};
use fastlanes_packing::bitpacking::{Packing, Unpacking};
use fastlanes_rows::width::{Apart, Widths};
use std::simd::prelude::*;

// Blocks of `u8`: 128 lanes of 8 rows.

/// A packed block that a call reads: a pointer to its words, then their number.
#[derive(Drop)]
#[repr(C)]
pub struct PackedU8<'a> {
    pub words: &'a [u8],
}

/// A packed block that a call writes: a pointer to its words, then their number.
#[derive(Drop)]
#[repr(C)]
pub struct PackedMutU8<'a> {
    pub words: &'a mut [u8],
}

/// Packs a block to `width` bits per value: packed value `i` is `input[i]` modulo 2^`width`.
#[unsafe(no_mangle)]
pub extern "C" fn fl_pack_u8(width: usize, input: &[u8; 1024], output: PackedMutU8)
    requires width { width ≤ 8 }
    requires words { length output.words.now ≡ 128 * width }
    ensures { IsPacked 8 128 width input.now output.exit.0.now }
{
    u8::pack_wide(width, input, output.words);
}

/// Unpacks a block: `output[i]` is packed value `i`. Accepts arbitrary words.
#[unsafe(no_mangle)]
pub extern "C" fn fl_unpack_u8(width: usize, input: PackedU8, output: &mut [u8; 1024])
    requires width { width ≤ 8 }
    requires words { length input.words.now ≡ 128 * width }
    ensures { output.new ≡ digits 8 128 width input.entry.words.now }
{
    u8::unpack_wide(width, input.words, output);
}

/// Packs `count` consecutive blocks as `fl_pack_u8` does, with a single width dispatch. The packed blocks are consecutive, too.
#[unsafe(no_mangle)]
pub extern "C" fn fl_pack_blocks_u8(width: usize, count: usize, input: &[u8], output: &mut [u8])
    requires width { width ≤ 8 }
    requires input { length input.now ≡ 1024 * count }
    requires output { length output.old ≡ 128 * width * count }
    ensures { PacksBlocks 8 128 width count input.now output.new }
{
    pack_blocks::<u8>(width, count, input, output);
}

/// Unpacks `count` consecutive packed blocks as `fl_unpack_u8` does, with a single width dispatch.
#[unsafe(no_mangle)]
pub extern "C" fn fl_unpack_blocks_u8(width: usize, count: usize, input: &[u8], output: &mut [u8])
    requires width { width ≤ 8 }
    requires input { length input.now ≡ 128 * width * count }
    requires output { length output.old ≡ 1024 * count }
    ensures { UnpacksBlocks 8 128 width count input.now output.new }
{
    unpack_blocks::<u8>(width, count, input, output);
}

/// Returns packed value `index`. At width 0 the result is 0.
#[unsafe(no_mangle)]
pub extern "C" fn fl_unpack_single_u8(width: usize, input: PackedU8, index: usize) -> u8
    requires width { width ≤ 8 }
    requires words { length input.words.now ≡ 128 * width }
    requires index { 0 < width → index < 1024 }
    ensures { result ≡ digit 8 128 width input.entry.words.now index }
{
    u8::unchecked_unpack_single(width, input.words, index)
}

/// Gathers selected values: writes packed value `indices[k]` to `output[k]`. Indices may repeat and need no order. At width 0 they
/// are not read, and each output is 0.
#[unsafe(no_mangle)]
pub extern "C" fn fl_unpack_indices_u8(
    width: usize,
    input: PackedU8,
    indices: &[usize],
    output: &mut [u8],
)
    requires width { width ≤ 8 }
    requires words { length input.words.now ≡ 128 * width }
    requires indices { 0 < width → All (λ i. i < 1024) indices.now }
    requires output { length output.old ≡ length indices.now }
    ensures { output.new ≡ map (digit 8 128 width input.entry.words.now) indices.now }
{
    u8::unchecked_unpack_indices(width, input.words, indices, output);
}

/// Returns the sum of the 1024 packed values.
#[unsafe(no_mangle)]
pub extern "C" fn fl_unpack_sum_u8(width: usize, input: PackedU8) -> u64
    requires width { width ≤ 8 }
    requires words { length input.words.now ≡ 128 * width }
    ensures { result ≡ sum (digits 8 128 width input.entry.words.now) }
{
    unpack_sum::<u8>(width, input.words)
}

/// Writes the minimum and the maximum of the 1024 packed values.
#[unsafe(no_mangle)]
pub extern "C" fn fl_unpack_range_u8(
    width: usize,
    input: PackedU8,
    minimum: &mut u8,
    maximum: &mut u8,
)
    requires width { width ≤ 8 }
    requires words { length input.words.now ≡ 128 * width }
    ensures minimum { IsLeast minimum.new (digits 8 128 width input.entry.words.now) }
    ensures maximum { IsGreatest maximum.new (digits 8 128 width input.entry.words.now) }
{
    let range = unpack_range::<u8>(width, input.words);
    *minimum = range.0;
    *maximum = range.1;
}

/// Packs each value's difference from `reference`: packed value `i` is `input[i] - reference` modulo 2^`width`.
#[unsafe(no_mangle)]
pub extern "C" fn fl_for_pack_u8(
    width: usize,
    input: &[u8; 1024],
    reference: u8,
    output: PackedMutU8,
)
    requires width { width ≤ 8 }
    requires words { length output.words.now ≡ 128 * width }
    ensures { IsPacked 8 128 width (framed 8 reference input.now) output.exit.0.now }
{
    u8::unchecked_for_pack(width, input, reference, output.words);
}

/// Unpacks a FOR block: `output[i]` is `reference` plus packed value `i`, modulo 2^8.
#[unsafe(no_mangle)]
pub extern "C" fn fl_unfor_pack_u8(
    width: usize,
    input: PackedU8,
    reference: u8,
    output: &mut [u8; 1024],
)
    requires width { width ≤ 8 }
    requires words { length input.words.now ≡ 128 * width }
    ensures { output.new ≡ unframed 8 reference (digits 8 128 width input.entry.words.now) }
{
    u8::unchecked_unfor_pack(width, input.words, reference, output);
}

/// Chooses the parameters of a FOR block: writes the block's minimum to `*reference` and returns the minimum bit width of the
/// differences from it. With these, `fl_unfor_pack_u8` inverts `fl_for_pack_u8`. No other reference at or below the minimum allows
/// a smaller width.
#[unsafe(no_mangle)]
pub extern "C" fn fl_frame_head_u8(input: &[u8; 1024], reference: &mut u8) -> usize
    ensures reference { IsLeastOf reference.new input.now }
    ensures width { IsLeastWidth result (framed 8 reference.new input.now) }
    ensures fits { result ≤ 8 }
{
    let head = frame_head::<u8>(input);
    *reference = head.reference;
    head.width
}

/// Returns the value at `index` of a FOR block: `reference` plus packed value `index`, modulo 2^8.
#[unsafe(no_mangle)]
pub extern "C" fn fl_frame_get_u8(width: usize, reference: u8, input: PackedU8, index: usize) -> u8
    requires width { width ≤ 8 }
    requires words { length input.words.now ≡ 128 * width }
    requires index { index < 1024 }
    ensures { result ≡ slice_index (unframed 8 reference (digits 8 128 width input.entry.words.now)) index }
{
    frame_get::<u8>(&FrameHead { width, reference }, input.words, index)
}

/// Computes differences along lanes, modulo 2^8. Each value is reduced by the value in the previous row of its lane, and row 0 by
/// the lane's base. `fl_transpose_u8` first makes adjacent values adjacent rows.
#[unsafe(no_mangle)]
pub extern "C" fn fl_delta_u8(input: &[u8; 1024], base: &[u8; 128], output: &mut [u8; 1024])
    ensures { output.new ≡ deltas 8 128 base.now input.now }
{
    u8::delta(input, base, output);
}

/// Inverts `fl_delta_u8`: each value is the base of its lane plus the differences in the rows up to it, modulo 2^8.
#[unsafe(no_mangle)]
pub extern "C" fn fl_undelta_u8(input: &[u8; 1024], base: &[u8; 128], output: &mut [u8; 1024])
    ensures { output.new ≡ undeltas 8 128 base.now input.now }
{
    u8::undelta(input, base, output);
}

/// Unpacks differences and sums them along lanes: `fl_unpack_u8` and `fl_undelta_u8` in one pass.
#[unsafe(no_mangle)]
pub extern "C" fn fl_undelta_pack_u8(
    width: usize,
    input: PackedU8,
    base: &[u8; 128],
    output: &mut [u8; 1024],
)
    requires width { width ≤ 8 }
    requires words { length input.words.now ≡ 128 * width }
    ensures { output.new ≡ undeltas 8 128 base.now (digits 8 128 width input.entry.words.now) }
{
    u8::unchecked_undelta_pack(width, input.words, base, output);
}

/// Returns the minimum bit width of the differences of adjacent values, modulo 2^8. `base[l]` is the value before lane `l` of the
/// transposed block, whose first value is `input[l % 16 * 64 + ORDER[l / 16 % 8] * 8]`.
#[unsafe(no_mangle)]
pub extern "C" fn fl_delta_width_u8(input: &[u8; 1024], base: &[u8; 128]) -> usize
    ensures width { IsLeastWidth result (deltas 8 128 base.now (transposed input.now)) }
    ensures fits { result ≤ 8 }
{
    delta_head::<u8, 128>(input, base)
}

/// Packs the differences of adjacent values: `fl_transpose_u8`, `fl_delta_u8` and `fl_pack_u8` in one call.
#[unsafe(no_mangle)]
pub extern "C" fn fl_delta_write_u8(
    width: usize,
    input: &[u8; 1024],
    base: &[u8; 128],
    output: PackedMutU8,
)
    requires width { width ≤ 8 }
    requires words { length output.words.now ≡ 128 * width }
    ensures { IsPacked 8 128 width (deltas 8 128 base.now (transposed input.now)) output.exit.0.now }
{
    delta_write::<u8, 128>(width, input, base, output.words);
}

/// Unpacks differences of adjacent values and sums them: `fl_undelta_pack_u8` and `fl_untranspose_u8` in one call. Inverts
/// `fl_delta_write_u8` if the width holds each difference.
#[unsafe(no_mangle)]
pub extern "C" fn fl_delta_read_u8(
    width: usize,
    input: PackedU8,
    base: &[u8; 128],
    output: &mut [u8; 1024],
)
    requires width { width ≤ 8 }
    requires words { length input.words.now ≡ 128 * width }
    ensures { output.new ≡ untransposed (undeltas 8 128 base.now (digits 8 128 width input.entry.words.now)) }
{
    delta_read::<u8, 128>(width, input.words, base, output);
}

/// Transposes a block: `output[i]` is `input[i % 16 * 64 + ORDER[i / 16 % 8] * 8 + i / 128]`. Each lane of the output has 8
/// adjacent values of the input.
#[unsafe(no_mangle)]
pub extern "C" fn fl_transpose_u8(input: &[u8; 1024], output: &mut [u8; 1024])
    ensures { output.new ≡ transposed input.now }
{
    u8::transpose(input, output);
}

/// Inverts `fl_transpose_u8`.
#[unsafe(no_mangle)]
pub extern "C" fn fl_untranspose_u8(input: &[u8; 1024], output: &mut [u8; 1024])
    ensures { output.new ≡ untransposed input.now }
{
    u8::untranspose(input, output);
}

/// Reorders a mask from lane order to logical order: bit `lane * 8 + row` moves to bit
/// `ORDER[row / 8] * 16 + row % 8 * 128 + lane`.
#[unsafe(no_mangle)]
pub extern "C" fn fl_transpose_bits_u8(input: &[u64; 16], output: &mut [u64; 16])
    ensures { TransposesBits 8 128 input.now output.new }
{
    transpose_bits::<u8>(input, output);
}

/// Inverts `fl_transpose_bits_u8`: reorders a mask from logical order to lane order.
#[unsafe(no_mangle)]
pub extern "C" fn fl_untranspose_bits_u8(input: &[u64; 16], output: &mut [u64; 16])
    ensures { UntransposesBits 8 128 input.now output.new }
{
    untranspose_bits::<u8>(input, output);
}

/// Run-length encodes a block. Returns the number of runs of equal adjacent values, writes the value of run `k` to `values[k]`, and
/// the run number of `input[i]` to `indices[i]`. Elements of `values` after the last run are unchanged.
#[unsafe(no_mangle)]
pub extern "C" fn fl_rle_encode_u8(
    input: &[u8; 1024],
    values: &mut [u8; 1024],
    indices: &mut [u16; 1024],
) -> usize
    ensures count { result ≡ length (starts ◌==◌ input.now) }
    ensures indices { (i : ℕ) → i < 1024 → slice_index indices.new i ≡ run_number ◌==◌ input.now i }
    ensures entries { (k : ℕ) → k < result
        → slice_index values.new k ≡ slice_index input.now (slice_index (starts ◌==◌ input.now) k) }
    ensures rest { drop result values.new ≡ drop result values.old }
{
    u8::encode_unchecked(input, values, indices)
}

/// Decodes a dictionary or run-length encoded block: `output[i]` is `values[indices[i]]`.
#[unsafe(no_mangle)]
pub extern "C" fn fl_rle_decode_u8(values: &[u8], indices: &[u16; 1024], output: &mut [u8; 1024])
    requires { All (λ index. index < length values.now) indices.now }
    ensures { (i : ℕ) → i < 1024
        → slice_index output.new i ≡ slice_index values.now (slice_index indices.now i) }
{
    u8::decode_unchecked(values, indices, output);
}

// Blocks of `u16`: 64 lanes of 16 rows.

/// A packed block that a call reads: a pointer to its words, then their number.
#[derive(Drop)]
#[repr(C)]
pub struct PackedU16<'a> {
    pub words: &'a [u16],
}

/// A packed block that a call writes: a pointer to its words, then their number.
#[derive(Drop)]
#[repr(C)]
pub struct PackedMutU16<'a> {
    pub words: &'a mut [u16],
}

/// Packs a block to `width` bits per value: packed value `i` is `input[i]` modulo 2^`width`.
#[unsafe(no_mangle)]
pub extern "C" fn fl_pack_u16(width: usize, input: &[u16; 1024], output: PackedMutU16)
    requires width { width ≤ 16 }
    requires words { length output.words.now ≡ 64 * width }
    ensures { IsPacked 16 64 width input.now output.exit.0.now }
{
    u16::pack_wide(width, input, output.words);
}

/// Unpacks a block: `output[i]` is packed value `i`. Accepts arbitrary words.
#[unsafe(no_mangle)]
pub extern "C" fn fl_unpack_u16(width: usize, input: PackedU16, output: &mut [u16; 1024])
    requires width { width ≤ 16 }
    requires words { length input.words.now ≡ 64 * width }
    ensures { output.new ≡ digits 16 64 width input.entry.words.now }
{
    u16::unpack_wide(width, input.words, output);
}

/// Packs `count` consecutive blocks as `fl_pack_u16` does, with a single width dispatch. The packed blocks are consecutive, too.
#[unsafe(no_mangle)]
pub extern "C" fn fl_pack_blocks_u16(width: usize, count: usize, input: &[u16], output: &mut [u16])
    requires width { width ≤ 16 }
    requires input { length input.now ≡ 1024 * count }
    requires output { length output.old ≡ 64 * width * count }
    ensures { PacksBlocks 16 64 width count input.now output.new }
{
    pack_blocks::<u16>(width, count, input, output);
}

/// Unpacks `count` consecutive packed blocks as `fl_unpack_u16` does, with a single width dispatch.
#[unsafe(no_mangle)]
pub extern "C" fn fl_unpack_blocks_u16(
    width: usize,
    count: usize,
    input: &[u16],
    output: &mut [u16],
)
    requires width { width ≤ 16 }
    requires input { length input.now ≡ 64 * width * count }
    requires output { length output.old ≡ 1024 * count }
    ensures { UnpacksBlocks 16 64 width count input.now output.new }
{
    unpack_blocks::<u16>(width, count, input, output);
}

/// Returns packed value `index`. At width 0 the result is 0.
#[unsafe(no_mangle)]
pub extern "C" fn fl_unpack_single_u16(width: usize, input: PackedU16, index: usize) -> u16
    requires width { width ≤ 16 }
    requires words { length input.words.now ≡ 64 * width }
    requires index { 0 < width → index < 1024 }
    ensures { result ≡ digit 16 64 width input.entry.words.now index }
{
    u16::unchecked_unpack_single(width, input.words, index)
}

/// Gathers selected values: writes packed value `indices[k]` to `output[k]`. Indices may repeat and need no order. At width 0 they
/// are not read, and each output is 0.
#[unsafe(no_mangle)]
pub extern "C" fn fl_unpack_indices_u16(
    width: usize,
    input: PackedU16,
    indices: &[usize],
    output: &mut [u16],
)
    requires width { width ≤ 16 }
    requires words { length input.words.now ≡ 64 * width }
    requires indices { 0 < width → All (λ i. i < 1024) indices.now }
    requires output { length output.old ≡ length indices.now }
    ensures { output.new ≡ map (digit 16 64 width input.entry.words.now) indices.now }
{
    u16::unchecked_unpack_indices(width, input.words, indices, output);
}

/// Returns the sum of the 1024 packed values.
#[unsafe(no_mangle)]
pub extern "C" fn fl_unpack_sum_u16(width: usize, input: PackedU16) -> u64
    requires width { width ≤ 16 }
    requires words { length input.words.now ≡ 64 * width }
    ensures { result ≡ sum (digits 16 64 width input.entry.words.now) }
{
    unpack_sum::<u16>(width, input.words)
}

/// Writes the minimum and the maximum of the 1024 packed values.
#[unsafe(no_mangle)]
pub extern "C" fn fl_unpack_range_u16(
    width: usize,
    input: PackedU16,
    minimum: &mut u16,
    maximum: &mut u16,
)
    requires width { width ≤ 16 }
    requires words { length input.words.now ≡ 64 * width }
    ensures minimum { IsLeast minimum.new (digits 16 64 width input.entry.words.now) }
    ensures maximum { IsGreatest maximum.new (digits 16 64 width input.entry.words.now) }
{
    let range = unpack_range::<u16>(width, input.words);
    *minimum = range.0;
    *maximum = range.1;
}

/// Packs each value's difference from `reference`: packed value `i` is `input[i] - reference` modulo 2^`width`.
#[unsafe(no_mangle)]
pub extern "C" fn fl_for_pack_u16(
    width: usize,
    input: &[u16; 1024],
    reference: u16,
    output: PackedMutU16,
)
    requires width { width ≤ 16 }
    requires words { length output.words.now ≡ 64 * width }
    ensures { IsPacked 16 64 width (framed 16 reference input.now) output.exit.0.now }
{
    u16::unchecked_for_pack(width, input, reference, output.words);
}

/// Unpacks a FOR block: `output[i]` is `reference` plus packed value `i`, modulo 2^16.
#[unsafe(no_mangle)]
pub extern "C" fn fl_unfor_pack_u16(
    width: usize,
    input: PackedU16,
    reference: u16,
    output: &mut [u16; 1024],
)
    requires width { width ≤ 16 }
    requires words { length input.words.now ≡ 64 * width }
    ensures { output.new ≡ unframed 16 reference (digits 16 64 width input.entry.words.now) }
{
    u16::unchecked_unfor_pack(width, input.words, reference, output);
}

/// Chooses the parameters of a FOR block: writes the block's minimum to `*reference` and returns the minimum bit width of the
/// differences from it. With these, `fl_unfor_pack_u16` inverts `fl_for_pack_u16`. No other reference at or below the minimum allows
/// a smaller width.
#[unsafe(no_mangle)]
pub extern "C" fn fl_frame_head_u16(input: &[u16; 1024], reference: &mut u16) -> usize
    ensures reference { IsLeastOf reference.new input.now }
    ensures width { IsLeastWidth result (framed 16 reference.new input.now) }
    ensures fits { result ≤ 16 }
{
    let head = frame_head::<u16>(input);
    *reference = head.reference;
    head.width
}

/// Returns the value at `index` of a FOR block: `reference` plus packed value `index`, modulo 2^16.
#[unsafe(no_mangle)]
pub extern "C" fn fl_frame_get_u16(
    width: usize,
    reference: u16,
    input: PackedU16,
    index: usize,
) -> u16
    requires width { width ≤ 16 }
    requires words { length input.words.now ≡ 64 * width }
    requires index { index < 1024 }
    ensures { result ≡ slice_index (unframed 16 reference (digits 16 64 width input.entry.words.now)) index }
{
    frame_get::<u16>(&FrameHead { width, reference }, input.words, index)
}

/// Computes differences along lanes, modulo 2^16. Each value is reduced by the value in the previous row of its lane, and row 0 by
/// the lane's base. `fl_transpose_u16` first makes adjacent values adjacent rows.
#[unsafe(no_mangle)]
pub extern "C" fn fl_delta_u16(input: &[u16; 1024], base: &[u16; 64], output: &mut [u16; 1024])
    ensures { output.new ≡ deltas 16 64 base.now input.now }
{
    u16::delta(input, base, output);
}

/// Inverts `fl_delta_u16`: each value is the base of its lane plus the differences in the rows up to it, modulo 2^16.
#[unsafe(no_mangle)]
pub extern "C" fn fl_undelta_u16(input: &[u16; 1024], base: &[u16; 64], output: &mut [u16; 1024])
    ensures { output.new ≡ undeltas 16 64 base.now input.now }
{
    u16::undelta(input, base, output);
}

/// Unpacks differences and sums them along lanes: `fl_unpack_u16` and `fl_undelta_u16` in one pass.
#[unsafe(no_mangle)]
pub extern "C" fn fl_undelta_pack_u16(
    width: usize,
    input: PackedU16,
    base: &[u16; 64],
    output: &mut [u16; 1024],
)
    requires width { width ≤ 16 }
    requires words { length input.words.now ≡ 64 * width }
    ensures { output.new ≡ undeltas 16 64 base.now (digits 16 64 width input.entry.words.now) }
{
    u16::unchecked_undelta_pack(width, input.words, base, output);
}

/// Returns the minimum bit width of the differences of adjacent values, modulo 2^16. `base[l]` is the value before lane `l` of the
/// transposed block, whose first value is `input[l % 16 * 64 + ORDER[l / 16 % 8] * 8]`.
#[unsafe(no_mangle)]
pub extern "C" fn fl_delta_width_u16(input: &[u16; 1024], base: &[u16; 64]) -> usize
    ensures width { IsLeastWidth result (deltas 16 64 base.now (transposed input.now)) }
    ensures fits { result ≤ 16 }
{
    delta_head::<u16, 64>(input, base)
}

/// Packs the differences of adjacent values: `fl_transpose_u16`, `fl_delta_u16` and `fl_pack_u16` in one call.
#[unsafe(no_mangle)]
pub extern "C" fn fl_delta_write_u16(
    width: usize,
    input: &[u16; 1024],
    base: &[u16; 64],
    output: PackedMutU16,
)
    requires width { width ≤ 16 }
    requires words { length output.words.now ≡ 64 * width }
    ensures { IsPacked 16 64 width (deltas 16 64 base.now (transposed input.now)) output.exit.0.now }
{
    delta_write::<u16, 64>(width, input, base, output.words);
}

/// Unpacks differences of adjacent values and sums them: `fl_undelta_pack_u16` and `fl_untranspose_u16` in one call. Inverts
/// `fl_delta_write_u16` if the width holds each difference.
#[unsafe(no_mangle)]
pub extern "C" fn fl_delta_read_u16(
    width: usize,
    input: PackedU16,
    base: &[u16; 64],
    output: &mut [u16; 1024],
)
    requires width { width ≤ 16 }
    requires words { length input.words.now ≡ 64 * width }
    ensures { output.new ≡ untransposed (undeltas 16 64 base.now (digits 16 64 width input.entry.words.now)) }
{
    delta_read::<u16, 64>(width, input.words, base, output);
}

/// Transposes a block: `output[i]` is `input[i % 16 * 64 + ORDER[i / 16 % 8] * 8 + i / 128]`. Each lane of the output has 16
/// adjacent values of the input.
#[unsafe(no_mangle)]
pub extern "C" fn fl_transpose_u16(input: &[u16; 1024], output: &mut [u16; 1024])
    ensures { output.new ≡ transposed input.now }
{
    u16::transpose(input, output);
}

/// Inverts `fl_transpose_u16`.
#[unsafe(no_mangle)]
pub extern "C" fn fl_untranspose_u16(input: &[u16; 1024], output: &mut [u16; 1024])
    ensures { output.new ≡ untransposed input.now }
{
    u16::untranspose(input, output);
}

/// Reorders a mask from lane order to logical order: bit `lane * 16 + row` moves to bit
/// `ORDER[row / 8] * 16 + row % 8 * 128 + lane`.
#[unsafe(no_mangle)]
pub extern "C" fn fl_transpose_bits_u16(input: &[u64; 16], output: &mut [u64; 16])
    ensures { TransposesBits 16 64 input.now output.new }
{
    transpose_bits::<u16>(input, output);
}

/// Inverts `fl_transpose_bits_u16`: reorders a mask from logical order to lane order.
#[unsafe(no_mangle)]
pub extern "C" fn fl_untranspose_bits_u16(input: &[u64; 16], output: &mut [u64; 16])
    ensures { UntransposesBits 16 64 input.now output.new }
{
    untranspose_bits::<u16>(input, output);
}

/// Run-length encodes a block. Returns the number of runs of equal adjacent values, writes the value of run `k` to `values[k]`, and
/// the run number of `input[i]` to `indices[i]`. Elements of `values` after the last run are unchanged.
#[unsafe(no_mangle)]
pub extern "C" fn fl_rle_encode_u16(
    input: &[u16; 1024],
    values: &mut [u16; 1024],
    indices: &mut [u16; 1024],
) -> usize
    ensures count { result ≡ length (starts ◌==◌ input.now) }
    ensures indices { (i : ℕ) → i < 1024 → slice_index indices.new i ≡ run_number ◌==◌ input.now i }
    ensures entries { (k : ℕ) → k < result
        → slice_index values.new k ≡ slice_index input.now (slice_index (starts ◌==◌ input.now) k) }
    ensures rest { drop result values.new ≡ drop result values.old }
{
    u16::encode_unchecked(input, values, indices)
}

/// Decodes a dictionary or run-length encoded block: `output[i]` is `values[indices[i]]`.
#[unsafe(no_mangle)]
pub extern "C" fn fl_rle_decode_u16(values: &[u16], indices: &[u16; 1024], output: &mut [u16; 1024])
    requires { All (λ index. index < length values.now) indices.now }
    ensures { (i : ℕ) → i < 1024
        → slice_index output.new i ≡ slice_index values.now (slice_index indices.now i) }
{
    u16::decode_unchecked(values, indices, output);
}

// Blocks of `u32`: 32 lanes of 32 rows.

/// A packed block that a call reads: a pointer to its words, then their number.
#[derive(Drop)]
#[repr(C)]
pub struct PackedU32<'a> {
    pub words: &'a [u32],
}

/// A packed block that a call writes: a pointer to its words, then their number.
#[derive(Drop)]
#[repr(C)]
pub struct PackedMutU32<'a> {
    pub words: &'a mut [u32],
}

/// Packs a block to `width` bits per value: packed value `i` is `input[i]` modulo 2^`width`.
#[unsafe(no_mangle)]
pub extern "C" fn fl_pack_u32(width: usize, input: &[u32; 1024], output: PackedMutU32)
    requires width { width ≤ 32 }
    requires words { length output.words.now ≡ 32 * width }
    ensures { IsPacked 32 32 width input.now output.exit.0.now }
{
    u32::pack_wide(width, input, output.words);
}

/// Unpacks a block: `output[i]` is packed value `i`. Accepts arbitrary words.
#[unsafe(no_mangle)]
pub extern "C" fn fl_unpack_u32(width: usize, input: PackedU32, output: &mut [u32; 1024])
    requires width { width ≤ 32 }
    requires words { length input.words.now ≡ 32 * width }
    ensures { output.new ≡ digits 32 32 width input.entry.words.now }
{
    u32::unpack_wide(width, input.words, output);
}

/// Packs `count` consecutive blocks as `fl_pack_u32` does, with a single width dispatch. The packed blocks are consecutive, too.
#[unsafe(no_mangle)]
pub extern "C" fn fl_pack_blocks_u32(width: usize, count: usize, input: &[u32], output: &mut [u32])
    requires width { width ≤ 32 }
    requires input { length input.now ≡ 1024 * count }
    requires output { length output.old ≡ 32 * width * count }
    ensures { PacksBlocks 32 32 width count input.now output.new }
{
    pack_blocks::<u32>(width, count, input, output);
}

/// Unpacks `count` consecutive packed blocks as `fl_unpack_u32` does, with a single width dispatch.
#[unsafe(no_mangle)]
pub extern "C" fn fl_unpack_blocks_u32(
    width: usize,
    count: usize,
    input: &[u32],
    output: &mut [u32],
)
    requires width { width ≤ 32 }
    requires input { length input.now ≡ 32 * width * count }
    requires output { length output.old ≡ 1024 * count }
    ensures { UnpacksBlocks 32 32 width count input.now output.new }
{
    unpack_blocks::<u32>(width, count, input, output);
}

/// Returns packed value `index`. At width 0 the result is 0.
#[unsafe(no_mangle)]
pub extern "C" fn fl_unpack_single_u32(width: usize, input: PackedU32, index: usize) -> u32
    requires width { width ≤ 32 }
    requires words { length input.words.now ≡ 32 * width }
    requires index { 0 < width → index < 1024 }
    ensures { result ≡ digit 32 32 width input.entry.words.now index }
{
    u32::unchecked_unpack_single(width, input.words, index)
}

/// Gathers selected values: writes packed value `indices[k]` to `output[k]`. Indices may repeat and need no order. At width 0 they
/// are not read, and each output is 0.
#[unsafe(no_mangle)]
pub extern "C" fn fl_unpack_indices_u32(
    width: usize,
    input: PackedU32,
    indices: &[usize],
    output: &mut [u32],
)
    requires width { width ≤ 32 }
    requires words { length input.words.now ≡ 32 * width }
    requires indices { 0 < width → All (λ i. i < 1024) indices.now }
    requires output { length output.old ≡ length indices.now }
    ensures { output.new ≡ map (digit 32 32 width input.entry.words.now) indices.now }
{
    u32::unchecked_unpack_indices(width, input.words, indices, output);
}

/// Returns the sum of the 1024 packed values.
#[unsafe(no_mangle)]
pub extern "C" fn fl_unpack_sum_u32(width: usize, input: PackedU32) -> u64
    requires width { width ≤ 32 }
    requires words { length input.words.now ≡ 32 * width }
    ensures { result ≡ sum (digits 32 32 width input.entry.words.now) }
{
    unpack_sum::<u32>(width, input.words)
}

/// Writes the minimum and the maximum of the 1024 packed values.
#[unsafe(no_mangle)]
pub extern "C" fn fl_unpack_range_u32(
    width: usize,
    input: PackedU32,
    minimum: &mut u32,
    maximum: &mut u32,
)
    requires width { width ≤ 32 }
    requires words { length input.words.now ≡ 32 * width }
    ensures minimum { IsLeast minimum.new (digits 32 32 width input.entry.words.now) }
    ensures maximum { IsGreatest maximum.new (digits 32 32 width input.entry.words.now) }
{
    let range = unpack_range::<u32>(width, input.words);
    *minimum = range.0;
    *maximum = range.1;
}

/// Packs each value's difference from `reference`: packed value `i` is `input[i] - reference` modulo 2^`width`.
#[unsafe(no_mangle)]
pub extern "C" fn fl_for_pack_u32(
    width: usize,
    input: &[u32; 1024],
    reference: u32,
    output: PackedMutU32,
)
    requires width { width ≤ 32 }
    requires words { length output.words.now ≡ 32 * width }
    ensures { IsPacked 32 32 width (framed 32 reference input.now) output.exit.0.now }
{
    u32::unchecked_for_pack(width, input, reference, output.words);
}

/// Unpacks a FOR block: `output[i]` is `reference` plus packed value `i`, modulo 2^32.
#[unsafe(no_mangle)]
pub extern "C" fn fl_unfor_pack_u32(
    width: usize,
    input: PackedU32,
    reference: u32,
    output: &mut [u32; 1024],
)
    requires width { width ≤ 32 }
    requires words { length input.words.now ≡ 32 * width }
    ensures { output.new ≡ unframed 32 reference (digits 32 32 width input.entry.words.now) }
{
    u32::unchecked_unfor_pack(width, input.words, reference, output);
}

/// Chooses the parameters of a FOR block: writes the block's minimum to `*reference` and returns the minimum bit width of the
/// differences from it. With these, `fl_unfor_pack_u32` inverts `fl_for_pack_u32`. No other reference at or below the minimum allows
/// a smaller width.
#[unsafe(no_mangle)]
pub extern "C" fn fl_frame_head_u32(input: &[u32; 1024], reference: &mut u32) -> usize
    ensures reference { IsLeastOf reference.new input.now }
    ensures width { IsLeastWidth result (framed 32 reference.new input.now) }
    ensures fits { result ≤ 32 }
{
    let head = frame_head::<u32>(input);
    *reference = head.reference;
    head.width
}

/// Returns the value at `index` of a FOR block: `reference` plus packed value `index`, modulo 2^32.
#[unsafe(no_mangle)]
pub extern "C" fn fl_frame_get_u32(
    width: usize,
    reference: u32,
    input: PackedU32,
    index: usize,
) -> u32
    requires width { width ≤ 32 }
    requires words { length input.words.now ≡ 32 * width }
    requires index { index < 1024 }
    ensures { result ≡ slice_index (unframed 32 reference (digits 32 32 width input.entry.words.now)) index }
{
    frame_get::<u32>(&FrameHead { width, reference }, input.words, index)
}

/// Computes differences along lanes, modulo 2^32. Each value is reduced by the value in the previous row of its lane, and row 0 by
/// the lane's base. `fl_transpose_u32` first makes adjacent values adjacent rows.
#[unsafe(no_mangle)]
pub extern "C" fn fl_delta_u32(input: &[u32; 1024], base: &[u32; 32], output: &mut [u32; 1024])
    ensures { output.new ≡ deltas 32 32 base.now input.now }
{
    u32::delta(input, base, output);
}

/// Inverts `fl_delta_u32`: each value is the base of its lane plus the differences in the rows up to it, modulo 2^32.
#[unsafe(no_mangle)]
pub extern "C" fn fl_undelta_u32(input: &[u32; 1024], base: &[u32; 32], output: &mut [u32; 1024])
    ensures { output.new ≡ undeltas 32 32 base.now input.now }
{
    u32::undelta(input, base, output);
}

/// Unpacks differences and sums them along lanes: `fl_unpack_u32` and `fl_undelta_u32` in one pass.
#[unsafe(no_mangle)]
pub extern "C" fn fl_undelta_pack_u32(
    width: usize,
    input: PackedU32,
    base: &[u32; 32],
    output: &mut [u32; 1024],
)
    requires width { width ≤ 32 }
    requires words { length input.words.now ≡ 32 * width }
    ensures { output.new ≡ undeltas 32 32 base.now (digits 32 32 width input.entry.words.now) }
{
    u32::unchecked_undelta_pack(width, input.words, base, output);
}

/// Returns the minimum bit width of the differences of adjacent values, modulo 2^32. `base[l]` is the value before lane `l` of the
/// transposed block, whose first value is `input[l % 16 * 64 + ORDER[l / 16 % 8] * 8]`.
#[unsafe(no_mangle)]
pub extern "C" fn fl_delta_width_u32(input: &[u32; 1024], base: &[u32; 32]) -> usize
    ensures width { IsLeastWidth result (deltas 32 32 base.now (transposed input.now)) }
    ensures fits { result ≤ 32 }
{
    delta_head::<u32, 32>(input, base)
}

/// Packs the differences of adjacent values: `fl_transpose_u32`, `fl_delta_u32` and `fl_pack_u32` in one call.
#[unsafe(no_mangle)]
pub extern "C" fn fl_delta_write_u32(
    width: usize,
    input: &[u32; 1024],
    base: &[u32; 32],
    output: PackedMutU32,
)
    requires width { width ≤ 32 }
    requires words { length output.words.now ≡ 32 * width }
    ensures { IsPacked 32 32 width (deltas 32 32 base.now (transposed input.now)) output.exit.0.now }
{
    delta_write::<u32, 32>(width, input, base, output.words);
}

/// Unpacks differences of adjacent values and sums them: `fl_undelta_pack_u32` and `fl_untranspose_u32` in one call. Inverts
/// `fl_delta_write_u32` if the width holds each difference.
#[unsafe(no_mangle)]
pub extern "C" fn fl_delta_read_u32(
    width: usize,
    input: PackedU32,
    base: &[u32; 32],
    output: &mut [u32; 1024],
)
    requires width { width ≤ 32 }
    requires words { length input.words.now ≡ 32 * width }
    ensures { output.new ≡ untransposed (undeltas 32 32 base.now (digits 32 32 width input.entry.words.now)) }
{
    delta_read::<u32, 32>(width, input.words, base, output);
}

/// Transposes a block: `output[i]` is `input[i % 16 * 64 + ORDER[i / 16 % 8] * 8 + i / 128]`. Each lane of the output has 32
/// adjacent values of the input.
#[unsafe(no_mangle)]
pub extern "C" fn fl_transpose_u32(input: &[u32; 1024], output: &mut [u32; 1024])
    ensures { output.new ≡ transposed input.now }
{
    u32::transpose(input, output);
}

/// Inverts `fl_transpose_u32`.
#[unsafe(no_mangle)]
pub extern "C" fn fl_untranspose_u32(input: &[u32; 1024], output: &mut [u32; 1024])
    ensures { output.new ≡ untransposed input.now }
{
    u32::untranspose(input, output);
}

/// Reorders a mask from lane order to logical order: bit `lane * 32 + row` moves to bit
/// `ORDER[row / 8] * 16 + row % 8 * 128 + lane`.
#[unsafe(no_mangle)]
pub extern "C" fn fl_transpose_bits_u32(input: &[u64; 16], output: &mut [u64; 16])
    ensures { TransposesBits 32 32 input.now output.new }
{
    transpose_bits::<u32>(input, output);
}

/// Inverts `fl_transpose_bits_u32`: reorders a mask from logical order to lane order.
#[unsafe(no_mangle)]
pub extern "C" fn fl_untranspose_bits_u32(input: &[u64; 16], output: &mut [u64; 16])
    ensures { UntransposesBits 32 32 input.now output.new }
{
    untranspose_bits::<u32>(input, output);
}

/// Run-length encodes a block. Returns the number of runs of equal adjacent values, writes the value of run `k` to `values[k]`, and
/// the run number of `input[i]` to `indices[i]`. Elements of `values` after the last run are unchanged.
#[unsafe(no_mangle)]
pub extern "C" fn fl_rle_encode_u32(
    input: &[u32; 1024],
    values: &mut [u32; 1024],
    indices: &mut [u16; 1024],
) -> usize
    ensures count { result ≡ length (starts ◌==◌ input.now) }
    ensures indices { (i : ℕ) → i < 1024 → slice_index indices.new i ≡ run_number ◌==◌ input.now i }
    ensures entries { (k : ℕ) → k < result
        → slice_index values.new k ≡ slice_index input.now (slice_index (starts ◌==◌ input.now) k) }
    ensures rest { drop result values.new ≡ drop result values.old }
{
    u32::encode_unchecked(input, values, indices)
}

/// Decodes a dictionary or run-length encoded block: `output[i]` is `values[indices[i]]`.
#[unsafe(no_mangle)]
pub extern "C" fn fl_rle_decode_u32(values: &[u32], indices: &[u16; 1024], output: &mut [u32; 1024])
    requires { All (λ index. index < length values.now) indices.now }
    ensures { (i : ℕ) → i < 1024
        → slice_index output.new i ≡ slice_index values.now (slice_index indices.now i) }
{
    u32::decode_unchecked(values, indices, output);
}

// Blocks of `u64`: 16 lanes of 64 rows.

/// A packed block that a call reads: a pointer to its words, then their number.
#[derive(Drop)]
#[repr(C)]
pub struct PackedU64<'a> {
    pub words: &'a [u64],
}

/// A packed block that a call writes: a pointer to its words, then their number.
#[derive(Drop)]
#[repr(C)]
pub struct PackedMutU64<'a> {
    pub words: &'a mut [u64],
}

/// Packs a block to `width` bits per value: packed value `i` is `input[i]` modulo 2^`width`.
#[unsafe(no_mangle)]
pub extern "C" fn fl_pack_u64(width: usize, input: &[u64; 1024], output: PackedMutU64)
    requires width { width ≤ 64 }
    requires words { length output.words.now ≡ 16 * width }
    ensures { IsPacked 64 16 width input.now output.exit.0.now }
{
    u64::at_width::<Apart<Packing<u64x2, u64x16>>, _, _>(width, input, (), output.words);
}

/// Unpacks a block: `output[i]` is packed value `i`. Accepts arbitrary words.
#[unsafe(no_mangle)]
pub extern "C" fn fl_unpack_u64(width: usize, input: PackedU64, output: &mut [u64; 1024])
    requires width { width ≤ 64 }
    requires words { length input.words.now ≡ 16 * width }
    ensures { output.new ≡ digits 64 16 width input.entry.words.now }
{
    u64::at_width::<Apart<Unpacking<u64x2, u64x16>>, _, _>(width, input.words, (), output);
}

/// Packs `count` consecutive blocks as `fl_pack_u64` does, with a single width dispatch. The packed blocks are consecutive, too.
#[unsafe(no_mangle)]
pub extern "C" fn fl_pack_blocks_u64(width: usize, count: usize, input: &[u64], output: &mut [u64])
    requires width { width ≤ 64 }
    requires input { length input.now ≡ 1024 * count }
    requires output { length output.old ≡ 16 * width * count }
    ensures { PacksBlocks 64 16 width count input.now output.new }
{
    u64::at_width::<PackingBlocks<u64x2, u64x16>, _, _>(width, input, count, output);
}

/// Unpacks `count` consecutive packed blocks as `fl_unpack_u64` does, with a single width dispatch.
#[unsafe(no_mangle)]
pub extern "C" fn fl_unpack_blocks_u64(
    width: usize,
    count: usize,
    input: &[u64],
    output: &mut [u64],
)
    requires width { width ≤ 64 }
    requires input { length input.now ≡ 16 * width * count }
    requires output { length output.old ≡ 1024 * count }
    ensures { UnpacksBlocks 64 16 width count input.now output.new }
{
    u64::at_width::<UnpackingBlocks<u64x2, u64x16>, _, _>(width, input, count, output);
}

/// Returns packed value `index`. At width 0 the result is 0.
#[unsafe(no_mangle)]
pub extern "C" fn fl_unpack_single_u64(width: usize, input: PackedU64, index: usize) -> u64
    requires width { width ≤ 64 }
    requires words { length input.words.now ≡ 16 * width }
    requires index { 0 < width → index < 1024 }
    ensures { result ≡ digit 64 16 width input.entry.words.now index }
{
    u64::unchecked_unpack_single(width, input.words, index)
}

/// Gathers selected values: writes packed value `indices[k]` to `output[k]`. Indices may repeat and need no order. At width 0 they
/// are not read, and each output is 0.
#[unsafe(no_mangle)]
pub extern "C" fn fl_unpack_indices_u64(
    width: usize,
    input: PackedU64,
    indices: &[usize],
    output: &mut [u64],
)
    requires width { width ≤ 64 }
    requires words { length input.words.now ≡ 16 * width }
    requires indices { 0 < width → All (λ i. i < 1024) indices.now }
    requires output { length output.old ≡ length indices.now }
    ensures { output.new ≡ map (digit 64 16 width input.entry.words.now) indices.now }
{
    u64::unchecked_unpack_indices(width, input.words, indices, output);
}

/// Returns the sum of the 1024 packed values, modulo 2^64.
#[unsafe(no_mangle)]
pub extern "C" fn fl_unpack_sum_u64(width: usize, input: PackedU64) -> u64
    requires width { width ≤ 64 }
    requires words { length input.words.now ≡ 16 * width }
    ensures { result ≡ sum (digits 64 16 width input.entry.words.now) % 2 ^ 64 }
{
    unpack_sum::<u64>(width, input.words)
}

/// Writes the minimum and the maximum of the 1024 packed values.
#[unsafe(no_mangle)]
pub extern "C" fn fl_unpack_range_u64(
    width: usize,
    input: PackedU64,
    minimum: &mut u64,
    maximum: &mut u64,
)
    requires width { width ≤ 64 }
    requires words { length input.words.now ≡ 16 * width }
    ensures minimum { IsLeast minimum.new (digits 64 16 width input.entry.words.now) }
    ensures maximum { IsGreatest maximum.new (digits 64 16 width input.entry.words.now) }
{
    let range = unpack_range::<u64>(width, input.words);
    *minimum = range.0;
    *maximum = range.1;
}

/// Packs each value's difference from `reference`: packed value `i` is `input[i] - reference` modulo 2^`width`.
#[unsafe(no_mangle)]
pub extern "C" fn fl_for_pack_u64(
    width: usize,
    input: &[u64; 1024],
    reference: u64,
    output: PackedMutU64,
)
    requires width { width ≤ 64 }
    requires words { length output.words.now ≡ 16 * width }
    ensures { IsPacked 64 16 width (framed 64 reference input.now) output.exit.0.now }
{
    u64::at_width::<Apart<Framing<u64x2>>, _, _>(width, input, reference, output.words);
}

/// Unpacks a FOR block: `output[i]` is `reference` plus packed value `i`, modulo 2^64.
#[unsafe(no_mangle)]
pub extern "C" fn fl_unfor_pack_u64(
    width: usize,
    input: PackedU64,
    reference: u64,
    output: &mut [u64; 1024],
)
    requires width { width ≤ 64 }
    requires words { length input.words.now ≡ 16 * width }
    ensures { output.new ≡ unframed 64 reference (digits 64 16 width input.entry.words.now) }
{
    u64::at_width::<Apart<Unframing<u64x2>>, _, _>(width, input.words, reference, output);
}

/// Chooses the parameters of a FOR block: writes the block's minimum to `*reference` and returns the minimum bit width of the
/// differences from it. With these, `fl_unfor_pack_u64` inverts `fl_for_pack_u64`. No other reference at or below the minimum allows
/// a smaller width.
#[unsafe(no_mangle)]
pub extern "C" fn fl_frame_head_u64(input: &[u64; 1024], reference: &mut u64) -> usize
    ensures reference { IsLeastOf reference.new input.now }
    ensures width { IsLeastWidth result (framed 64 reference.new input.now) }
    ensures fits { result ≤ 64 }
{
    let head = frame_head::<u64>(input);
    *reference = head.reference;
    head.width
}

/// Returns the value at `index` of a FOR block: `reference` plus packed value `index`, modulo 2^64.
#[unsafe(no_mangle)]
pub extern "C" fn fl_frame_get_u64(
    width: usize,
    reference: u64,
    input: PackedU64,
    index: usize,
) -> u64
    requires width { width ≤ 64 }
    requires words { length input.words.now ≡ 16 * width }
    requires index { index < 1024 }
    ensures { result ≡ slice_index (unframed 64 reference (digits 64 16 width input.entry.words.now)) index }
{
    frame_get::<u64>(&FrameHead { width, reference }, input.words, index)
}

/// Computes differences along lanes, modulo 2^64. Each value is reduced by the value in the previous row of its lane, and row 0 by
/// the lane's base. `fl_transpose_u64` first makes adjacent values adjacent rows.
#[unsafe(no_mangle)]
pub extern "C" fn fl_delta_u64(input: &[u64; 1024], base: &[u64; 16], output: &mut [u64; 1024])
    ensures { output.new ≡ deltas 64 16 base.now input.now }
{
    u64::delta(input, base, output);
}

/// Inverts `fl_delta_u64`: each value is the base of its lane plus the differences in the rows up to it, modulo 2^64.
#[unsafe(no_mangle)]
pub extern "C" fn fl_undelta_u64(input: &[u64; 1024], base: &[u64; 16], output: &mut [u64; 1024])
    ensures { output.new ≡ undeltas 64 16 base.now input.now }
{
    u64::undelta(input, base, output);
}

/// Unpacks differences and sums them along lanes: `fl_unpack_u64` and `fl_undelta_u64` in one pass.
#[unsafe(no_mangle)]
pub extern "C" fn fl_undelta_pack_u64(
    width: usize,
    input: PackedU64,
    base: &[u64; 16],
    output: &mut [u64; 1024],
)
    requires width { width ≤ 64 }
    requires words { length input.words.now ≡ 16 * width }
    ensures { output.new ≡ undeltas 64 16 base.now (digits 64 16 width input.entry.words.now) }
{
    u64::at_width::<Apart<Summing<u64x2>>, &[u64], _>(width, input.words, base, output);
}

/// Returns the minimum bit width of the differences of adjacent values, modulo 2^64. `base[l]` is the value before lane `l` of the
/// transposed block, whose first value is `input[l % 16 * 64 + ORDER[l / 16 % 8] * 8]`.
#[unsafe(no_mangle)]
pub extern "C" fn fl_delta_width_u64(input: &[u64; 1024], base: &[u64; 16]) -> usize
    ensures width { IsLeastWidth result (deltas 64 16 base.now (transposed input.now)) }
    ensures fits { result ≤ 64 }
{
    delta_head::<u64, 16>(input, base)
}

/// Packs the differences of adjacent values: `fl_transpose_u64`, `fl_delta_u64` and `fl_pack_u64` in one call.
#[unsafe(no_mangle)]
pub extern "C" fn fl_delta_write_u64(
    width: usize,
    input: &[u64; 1024],
    base: &[u64; 16],
    output: PackedMutU64,
)
    requires width { width ≤ 64 }
    requires words { length output.words.now ≡ 16 * width }
    ensures { IsPacked 64 16 width (deltas 64 16 base.now (transposed input.now)) output.exit.0.now }
{
    delta_write::<u64, 16>(width, input, base, output.words);
}

/// Unpacks differences of adjacent values and sums them: `fl_undelta_pack_u64` and `fl_untranspose_u64` in one call. Inverts
/// `fl_delta_write_u64` if the width holds each difference.
#[unsafe(no_mangle)]
pub extern "C" fn fl_delta_read_u64(
    width: usize,
    input: PackedU64,
    base: &[u64; 16],
    output: &mut [u64; 1024],
)
    requires width { width ≤ 64 }
    requires words { length input.words.now ≡ 16 * width }
    ensures { output.new ≡ untransposed (undeltas 64 16 base.now (digits 64 16 width input.entry.words.now)) }
{
    delta_read::<u64, 16>(width, input.words, base, output);
}

/// Transposes a block: `output[i]` is `input[i % 16 * 64 + ORDER[i / 16 % 8] * 8 + i / 128]`. Each lane of the output has 64
/// adjacent values of the input.
#[unsafe(no_mangle)]
pub extern "C" fn fl_transpose_u64(input: &[u64; 1024], output: &mut [u64; 1024])
    ensures { output.new ≡ transposed input.now }
{
    u64::transpose(input, output);
}

/// Inverts `fl_transpose_u64`.
#[unsafe(no_mangle)]
pub extern "C" fn fl_untranspose_u64(input: &[u64; 1024], output: &mut [u64; 1024])
    ensures { output.new ≡ untransposed input.now }
{
    u64::untranspose(input, output);
}

/// Reorders a mask from lane order to logical order: bit `lane * 64 + row` moves to bit
/// `ORDER[row / 8] * 16 + row % 8 * 128 + lane`.
#[unsafe(no_mangle)]
pub extern "C" fn fl_transpose_bits_u64(input: &[u64; 16], output: &mut [u64; 16])
    ensures { TransposesBits 64 16 input.now output.new }
{
    transpose_bits::<u64>(input, output);
}

/// Inverts `fl_transpose_bits_u64`: reorders a mask from logical order to lane order.
#[unsafe(no_mangle)]
pub extern "C" fn fl_untranspose_bits_u64(input: &[u64; 16], output: &mut [u64; 16])
    ensures { UntransposesBits 64 16 input.now output.new }
{
    untranspose_bits::<u64>(input, output);
}

/// Run-length encodes a block. Returns the number of runs of equal adjacent values, writes the value of run `k` to `values[k]`, and
/// the run number of `input[i]` to `indices[i]`. Elements of `values` after the last run are unchanged.
#[unsafe(no_mangle)]
pub extern "C" fn fl_rle_encode_u64(
    input: &[u64; 1024],
    values: &mut [u64; 1024],
    indices: &mut [u16; 1024],
) -> usize
    ensures count { result ≡ length (starts ◌==◌ input.now) }
    ensures indices { (i : ℕ) → i < 1024 → slice_index indices.new i ≡ run_number ◌==◌ input.now i }
    ensures entries { (k : ℕ) → k < result
        → slice_index values.new k ≡ slice_index input.now (slice_index (starts ◌==◌ input.now) k) }
    ensures rest { drop result values.new ≡ drop result values.old }
{
    u64::encode_unchecked(input, values, indices)
}

/// Decodes a dictionary or run-length encoded block: `output[i]` is `values[indices[i]]`.
#[unsafe(no_mangle)]
pub extern "C" fn fl_rle_decode_u64(values: &[u64], indices: &[u16; 1024], output: &mut [u64; 1024])
    requires { All (λ index. index < length values.now) indices.now }
    ensures { (i : ℕ) → i < 1024
        → slice_index output.new i ≡ slice_index values.now (slice_index indices.now i) }
{
    u64::decode_unchecked(values, indices, output);
}
