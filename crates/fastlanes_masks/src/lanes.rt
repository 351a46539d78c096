//! The transposes of 1024 bits on vectors. A block is sixteen groups of eight bytes: bytes are brought together to
//! groups, eight groups at a time are transposed as one vector of eight words, and bytes are taken apart again.

ghost use Rattle.std.specs.Prelude.{◌≡◌, ℕ, ◌<◌, ◌++◌, length, slice_index};
ghost use Rattle.fastlanes_masks.specs.Bits.{IsBitBlock, Transposes8x8, TransposesBits, UntransposesBits, block_byte, swapped};
ghost use Rattle.fastlanes_masks.specs.Bytes.{
  MovesByGroups,
  TransposesGroups,
  TransposesHalf,
  gather_place,
  scatter_place,
  ungather_place,
  unscatter_place,
};

use crate::lanes::byte_tables::{
    GATHER_8_HIGH, GATHER_8_LOW, GATHER_16_HIGH, GATHER_16_LOW, GATHER_32_HIGH, GATHER_32_LOW,
    GATHER_64_HIGH, GATHER_64_LOW, SCATTER_8_HIGH, SCATTER_8_LOW, SCATTER_16_HIGH, SCATTER_16_LOW,
    SCATTER_32_HIGH, SCATTER_32_LOW, SCATTER_64_HIGH, SCATTER_64_LOW, UNGATHER_8_HIGH,
    UNGATHER_8_LOW, UNGATHER_16_HIGH, UNGATHER_16_LOW, UNGATHER_32_HIGH, UNGATHER_32_LOW,
    UNGATHER_64_HIGH, UNGATHER_64_LOW, UNSCATTER_8_HIGH, UNSCATTER_8_LOW, UNSCATTER_16_HIGH,
    UNSCATTER_16_LOW, UNSCATTER_32_HIGH, UNSCATTER_32_LOW, UNSCATTER_64_HIGH, UNSCATTER_64_LOW,
};
use fastlanes_base::{FastLanes, MachineWord};
use std::simd::prelude::*;

pub mod byte_tables;

/// Transposes each of eight words as `transpose_8x8` does, all at once.
///
/// ```rust
/// let words = fastlanes::lanes::transpose_8x8_lanes(&[2, 0xFF, 0, 2, 2, 2, 2, 2]);
/// assert!(rt; words[..3] == [0x100, 0x0101_0101_0101_0101, 0]);
/// ```
pub fn transpose_8x8_lanes(x: &[u64; 8]) -> [u64; 8]
    ensures { (j : ℕ) → j < 8 → Transposes8x8 (slice_index x.now j) (slice_index result j) }
{
    transpose_words(u64x8::from_array(*x)).to_array()
}

/// What `transpose_bits` at the root does.
///
/// ```rust
/// let mut mask = [0; 16];
/// mask[0] = 2;
/// let mut output = [0; 16];
/// fastlanes::lanes::transpose_bits_lanes::<u32>(&mask, &mut output);
/// // Row 1 of lane 0 stands at the place 128: bit 0 of word 2.
/// assert_eq!(rt; output[2], 1);
/// ```
pub fn transpose_bits_lanes<E: FastLanes>(input: &[u64; 16], output: &mut [u64; 16])
    ensures moved { TransposesBits E.T E.LANES input.now output.new }

    // `untranspose_bits_lanes::<E>` brings the input back.
    ensures undone { UntransposesBits E.T E.LANES output.new input.now }
{
    let (low, high) = bytes_of_block(input);
    let (low, high) = to_places::<E>(low, high);
    put_bytes(low, high, output);
}

/// What `untranspose_bits` at the root does.
///
/// ```rust
/// let mut input = [0; 16];
/// input[2] = 1;
/// let mut output = [0; 16];
/// fastlanes::lanes::untranspose_bits_lanes::<u32>(&input, &mut output);
/// // The place 128 is row 1 of lane 0.
/// assert_eq!(rt; output[0], 2);
/// ```
pub fn untranspose_bits_lanes<E: FastLanes>(input: &[u64; 16], output: &mut [u64; 16])
    ensures moved { UntransposesBits E.T E.LANES input.now output.new }

    // `transpose_bits_lanes::<E>` brings the input back.
    ensures undone { TransposesBits E.T E.LANES output.new input.now }
{
    let (low, high) = bytes_of_block(input);
    let (low, high) = to_lanes::<E>(low, high);
    put_bytes(low, high, output);
}

/// Two halves of bytes, brought together to groups by the two halves of a table, transposed, and taken apart by those of
/// another.
macro_rules! by_groups {
    ($low:ident $high:ident $together_low:ident $together_high:ident $apart_low:ident $apart_high:ident) => {{
        let (low, high) = transpose_groups(
            $low.shuffle($high, $together_low),
            $low.shuffle($high, $together_high),
        );
        (low.shuffle(high, $apart_low), low.shuffle(high, $apart_high))
    }};
}

// Transposes the groups of bytes that come in the order of lanes, and brings them into the order of places.
#[inline(always)]
fn to_places<E: MachineWord>(low: u8x64, high: u8x64) -> (u8x64, u8x64)
    ensures { MovesByGroups (gather_place E.T) (scatter_place E.T) (low ++ high)
        (result.0 ++ result.1) }
{
    match E::T {
        8 => by_groups! { low high GATHER_8_LOW GATHER_8_HIGH SCATTER_8_LOW SCATTER_8_HIGH },
        16 => by_groups! { low high GATHER_16_LOW GATHER_16_HIGH SCATTER_16_LOW SCATTER_16_HIGH },
        32 => by_groups! { low high GATHER_32_LOW GATHER_32_HIGH SCATTER_32_LOW SCATTER_32_HIGH },
        _ => by_groups! { low high GATHER_64_LOW GATHER_64_HIGH SCATTER_64_LOW SCATTER_64_HIGH },
    }
}

// Transposes the groups of bytes that come in the order of places, and brings them into the order of lanes.
#[inline(always)]
fn to_lanes<E: MachineWord>(low: u8x64, high: u8x64) -> (u8x64, u8x64)
    ensures { MovesByGroups (unscatter_place E.T) (ungather_place E.T) (low ++ high)
        (result.0 ++ result.1) }
{
    match E::T {
        8 =>
            by_groups! { low high UNSCATTER_8_LOW UNSCATTER_8_HIGH UNGATHER_8_LOW UNGATHER_8_HIGH },
        16 =>
            by_groups! { low high UNSCATTER_16_LOW UNSCATTER_16_HIGH UNGATHER_16_LOW UNGATHER_16_HIGH },
        32 =>
            by_groups! { low high UNSCATTER_32_LOW UNSCATTER_32_HIGH UNGATHER_32_LOW UNGATHER_32_HIGH },
        _ =>
            by_groups! { low high UNSCATTER_64_LOW UNSCATTER_64_HIGH UNGATHER_64_LOW UNGATHER_64_HIGH },
    }
}

// Transposes the sixteen groups, which are eight bytes each.
#[inline(always)]
fn transpose_groups(low: u8x64, high: u8x64) -> (u8x64, u8x64)
    ensures { TransposesGroups (low ++ high) (result.0 ++ result.1) }
{
    (transpose_half(low), transpose_half(high))
}

#[inline(always)]
fn transpose_half(bytes: u8x64) -> u8x64
    ensures long { length result ≡ 64 }
    ensures transposed { TransposesHalf bytes result }
{
    bytes_of(transpose_words(words_of(bytes)))
}

// The bytes of a block, its first half and its second.
#[inline(always)]
fn bytes_of_block(words: &[u64; 16]) -> (u8x64, u8x64)
    ensures { (n : ℕ) → n < 128 → slice_index (result.0 ++ result.1) n ≡ block_byte words.now n }
{
    let [
        a0,
        a1,
        a2,
        a3,
        a4,
        a5,
        a6,
        a7,
        b0,
        b1,
        b2,
        b3,
        b4,
        b5,
        b6,
        b7,
    ] = *words;
    (
        bytes_of(u64x8::from_array([a0, a1, a2, a3, a4, a5, a6, a7])),
        bytes_of(u64x8::from_array([b0, b1, b2, b3, b4, b5, b6, b7])),
    )
}

// Writes a block of these bytes.
#[inline(always)]
pub(crate) fn put_bytes(low: u8x64, high: u8x64, output: &mut [u64; 16])
    ensures block { IsBitBlock output.new }
    ensures bytes { (n : ℕ) → n < 128 → block_byte output.new n ≡ slice_index (low ++ high) n }
{
    put_words(words_of(low), words_of(high), output);
}

#[inline(always)]
fn put_words(first: u64x8, second: u64x8, output: &mut [u64; 16])
    ensures block { IsBitBlock output.new }
    ensures words { output.new ≡ first ++ second }
{
    let [a0, a1, a2, a3, a4, a5, a6, a7] = first.to_array();
    let [b0, b1, b2, b3, b4, b5, b6, b7] = second.to_array();
    *output = [
        a0, a1, a2, a3, a4, a5, a6, a7, b0, b1, b2, b3, b4, b5, b6, b7,
    ];
}

// The bytes of eight words, the lowest of the first word first.
#[inline(always)]
pub(crate) fn bytes_of(words: u64x8) -> u8x64
    ensures long { length result ≡ 64 }
    ensures bytes { (n : ℕ) → n < 64 → slice_index result n ≡ block_byte words n }
{
    words.to_le_bytes()
}

// The eight words of these bytes.
#[inline(always)]
fn words_of(bytes: u8x64) -> u64x8
    ensures long { length result ≡ 8 }
    ensures bytes { (n : ℕ) → n < 64 → block_byte result n ≡ slice_index bytes n }
{
    u64x8::from_le_bytes(bytes)
}

// `transpose_8x8` of each word: each swap is one of all eight.
#[inline(always)]
fn transpose_words(x: u64x8) -> u64x8
    ensures { (j : ℕ) → j < 8 → Transposes8x8 (slice_index x j) (slice_index result j) }
{
    let x = swap_lanes(x, 7, 0x00AA_00AA_00AA_00AA);
    let x = swap_lanes(x, 14, 0x0000_CCCC_0000_CCCC);
    swap_lanes(x, 28, 0x0000_0000_F0F0_F0F0)
}

// Exchanges in each word each bit that the mask names with the one `distance` above it.
#[inline(always)]
fn swap_lanes(x: u64x8, distance: u64, mask: u64) -> u64x8
    requires { distance < 64 }
    ensures { (j : ℕ) → j < 8 → slice_index result j ≡ swapped distance mask (slice_index x j) }
{
    let differing = (x ^ (x >> u64x8::splat(distance))) & u64x8::splat(mask);
    x ^ differing ^ (differing << u64x8::splat(distance))
}
