//! C functions of `fastlanes_c` again, by rows of 64 bytes, two registers of x86-64-v3. In the library for that level they take the
//! place of those of the same names.
//!
//! Written by `../fastlanes_c/blocks/write.py` from its template, where changes are made.
#![tactic(auto)]

ghost use Rattle.std.specs.Prelude.{◌≡◌, ◌*◌, ◌≤◌, length};
ghost use Rattle.fastlanes.specs.Delta.{undeltas};
ghost use Rattle.fastlanes.specs.Frame.{framed, unframed};
ghost use Rattle.fastlanes_base.specs.Digits.{IsPacked, digits};
ghost use Rattle.fastlanes_blocks.specs.Blocks.{PacksBlocks, UnpacksBlocks};

use fastlanes::delta::Summing;
use fastlanes::ffor::{Framing, Unframing};
use fastlanes_blocks::blocks::{PackingBlocks, UnpackingBlocks};
use fastlanes_packing::bitpacking::{Packing, Unpacking};
use fastlanes_rows::width::{Apart, Widths};
use std::simd::prelude::*;

/// A packed block that a call reads: a pointer to its words, then their number.
#[derive(Drop)]
#[repr(C)]
pub struct PackedU32<'a> {
    pub words: &'a [u32],
}

/// A packed block that a call writes: a pointer to its words, then their number.
#[derive(Drop)]
#[repr(C)]
pub struct PackedMutU32<'a> {
    pub words: &'a mut [u32],
}

/// Packs a block to `width` bits per value: packed value `i` is `input[i]` modulo 2^`width`.
#[unsafe(no_mangle)]
pub extern "C" fn fl_pack_u32(width: usize, input: &[u32; 1024], output: PackedMutU32)
    requires width { width ≤ 32 }
    requires words { length output.words.now ≡ 32 * width }
    ensures { IsPacked 32 32 width input.now output.exit.0.now }
{
    u32::at_width::<Apart<Packing<u32x16, u32x32>>, _, _>(width, input, (), output.words);
}

/// Unpacks a block: `output[i]` is packed value `i`. Accepts arbitrary words.
#[unsafe(no_mangle)]
pub extern "C" fn fl_unpack_u32(width: usize, input: PackedU32, output: &mut [u32; 1024])
    requires width { width ≤ 32 }
    requires words { length input.words.now ≡ 32 * width }
    ensures { output.new ≡ digits 32 32 width input.entry.words.now }
{
    u32::at_width::<Apart<Unpacking<u32x16, u32x32>>, _, _>(width, input.words, (), output);
}

/// Packs `count` consecutive blocks as `fl_pack_u32` does, with a single width dispatch. The packed blocks are consecutive, too.
#[unsafe(no_mangle)]
pub extern "C" fn fl_pack_blocks_u32(width: usize, count: usize, input: &[u32], output: &mut [u32])
    requires width { width ≤ 32 }
    requires input { length input.now ≡ 1024 * count }
    requires output { length output.old ≡ 32 * width * count }
    ensures { PacksBlocks 32 32 width count input.now output.new }
{
    u32::at_width::<PackingBlocks<u32x16, u32x32>, _, _>(width, input, count, output);
}

/// Unpacks `count` consecutive packed blocks as `fl_unpack_u32` does, with a single width dispatch.
#[unsafe(no_mangle)]
pub extern "C" fn fl_unpack_blocks_u32(
    width: usize,
    count: usize,
    input: &[u32],
    output: &mut [u32],
)
    requires width { width ≤ 32 }
    requires input { length input.now ≡ 32 * width * count }
    requires output { length output.old ≡ 1024 * count }
    ensures { UnpacksBlocks 32 32 width count input.now output.new }
{
    u32::at_width::<UnpackingBlocks<u32x16, u32x32>, _, _>(width, input, count, output);
}

/// Packs each value's difference from `reference`: packed value `i` is `input[i] - reference` modulo 2^`width`.
#[unsafe(no_mangle)]
pub extern "C" fn fl_for_pack_u32(
    width: usize,
    input: &[u32; 1024],
    reference: u32,
    output: PackedMutU32,
)
    requires width { width ≤ 32 }
    requires words { length output.words.now ≡ 32 * width }
    ensures { IsPacked 32 32 width (framed 32 reference input.now) output.exit.0.now }
{
    u32::at_width::<Apart<Framing<u32x16>>, _, _>(width, input, reference, output.words);
}

/// Unpacks a FOR block: `output[i]` is `reference` plus packed value `i`, modulo 2^32.
#[unsafe(no_mangle)]
pub extern "C" fn fl_unfor_pack_u32(
    width: usize,
    input: PackedU32,
    reference: u32,
    output: &mut [u32; 1024],
)
    requires width { width ≤ 32 }
    requires words { length input.words.now ≡ 32 * width }
    ensures { output.new ≡ unframed 32 reference (digits 32 32 width input.entry.words.now) }
{
    u32::at_width::<Apart<Unframing<u32x16>>, _, _>(width, input.words, reference, output);
}

/// Unpacks differences and sums them along lanes: `fl_unpack_u32` and `fl_undelta_u32` in one pass.
#[unsafe(no_mangle)]
pub extern "C" fn fl_undelta_pack_u32(
    width: usize,
    input: PackedU32,
    base: &[u32; 32],
    output: &mut [u32; 1024],
)
    requires width { width ≤ 32 }
    requires words { length input.words.now ≡ 32 * width }
    ensures { output.new ≡ undeltas 32 32 base.now (digits 32 32 width input.entry.words.now) }
{
    u32::at_width::<Apart<Summing<u32x16>>, &[u32], _>(width, input.words, base, output);
}

/// A packed block that a call reads: a pointer to its words, then their number.
#[derive(Drop)]
#[repr(C)]
pub struct PackedU64<'a> {
    pub words: &'a [u64],
}

/// A packed block that a call writes: a pointer to its words, then their number.
#[derive(Drop)]
#[repr(C)]
pub struct PackedMutU64<'a> {
    pub words: &'a mut [u64],
}

/// Packs a block to `width` bits per value: packed value `i` is `input[i]` modulo 2^`width`.
#[unsafe(no_mangle)]
pub extern "C" fn fl_pack_u64(width: usize, input: &[u64; 1024], output: PackedMutU64)
    requires width { width ≤ 64 }
    requires words { length output.words.now ≡ 16 * width }
    ensures { IsPacked 64 16 width input.now output.exit.0.now }
{
    u64::at_width::<Apart<Packing<u64x8, u64x16>>, _, _>(width, input, (), output.words);
}

/// Unpacks a block: `output[i]` is packed value `i`. Accepts arbitrary words.
#[unsafe(no_mangle)]
pub extern "C" fn fl_unpack_u64(width: usize, input: PackedU64, output: &mut [u64; 1024])
    requires width { width ≤ 64 }
    requires words { length input.words.now ≡ 16 * width }
    ensures { output.new ≡ digits 64 16 width input.entry.words.now }
{
    u64::at_width::<Apart<Unpacking<u64x8, u64x16>>, _, _>(width, input.words, (), output);
}

/// Packs `count` consecutive blocks as `fl_pack_u64` does, with a single width dispatch. The packed blocks are consecutive, too.
#[unsafe(no_mangle)]
pub extern "C" fn fl_pack_blocks_u64(width: usize, count: usize, input: &[u64], output: &mut [u64])
    requires width { width ≤ 64 }
    requires input { length input.now ≡ 1024 * count }
    requires output { length output.old ≡ 16 * width * count }
    ensures { PacksBlocks 64 16 width count input.now output.new }
{
    u64::at_width::<PackingBlocks<u64x8, u64x16>, _, _>(width, input, count, output);
}

/// Unpacks `count` consecutive packed blocks as `fl_unpack_u64` does, with a single width dispatch.
#[unsafe(no_mangle)]
pub extern "C" fn fl_unpack_blocks_u64(
    width: usize,
    count: usize,
    input: &[u64],
    output: &mut [u64],
)
    requires width { width ≤ 64 }
    requires input { length input.now ≡ 16 * width * count }
    requires output { length output.old ≡ 1024 * count }
    ensures { UnpacksBlocks 64 16 width count input.now output.new }
{
    u64::at_width::<UnpackingBlocks<u64x8, u64x16>, _, _>(width, input, count, output);
}

/// Packs each value's difference from `reference`: packed value `i` is `input[i] - reference` modulo 2^`width`.
#[unsafe(no_mangle)]
pub extern "C" fn fl_for_pack_u64(
    width: usize,
    input: &[u64; 1024],
    reference: u64,
    output: PackedMutU64,
)
    requires width { width ≤ 64 }
    requires words { length output.words.now ≡ 16 * width }
    ensures { IsPacked 64 16 width (framed 64 reference input.now) output.exit.0.now }
{
    u64::at_width::<Apart<Framing<u64x8>>, _, _>(width, input, reference, output.words);
}

/// Unpacks a FOR block: `output[i]` is `reference` plus packed value `i`, modulo 2^64.
#[unsafe(no_mangle)]
pub extern "C" fn fl_unfor_pack_u64(
    width: usize,
    input: PackedU64,
    reference: u64,
    output: &mut [u64; 1024],
)
    requires width { width ≤ 64 }
    requires words { length input.words.now ≡ 16 * width }
    ensures { output.new ≡ unframed 64 reference (digits 64 16 width input.entry.words.now) }
{
    u64::at_width::<Apart<Unframing<u64x8>>, _, _>(width, input.words, reference, output);
}

/// Unpacks differences and sums them along lanes: `fl_unpack_u64` and `fl_undelta_u64` in one pass.
#[unsafe(no_mangle)]
pub extern "C" fn fl_undelta_pack_u64(
    width: usize,
    input: PackedU64,
    base: &[u64; 16],
    output: &mut [u64; 1024],
)
    requires width { width ≤ 64 }
    requires words { length input.words.now ≡ 16 * width }
    ensures { output.new ≡ undeltas 64 16 base.now (digits 64 16 width input.entry.words.now) }
{
    u64::at_width::<Apart<Summing<u64x8>>, &[u64], _>(width, input.words, base, output);
}
