//! The transposes of 1024 bits in plain words. A block is sixteen groups, each of eight rows of eight lanes. In the
//! order of places the eight rows of a group are bytes, in the order of lanes its eight lanes: so a transpose brings the
//! eight bytes of each group together, transposes 8 by 8 bits, and takes the bytes apart.

ghost use Rattle.std.specs.Prelude.{◌≡◌, ◌+◌, ◌*◌, ◌/◌, ◌%◌, ◌<◌};
ghost use Rattle.fastlanes_masks.specs.Bits.{
  GathersBytes,
  HoldsLanes,
  HoldsRows,
  TransposesBits,
  UntransposesBits,
  block_byte,
  byte_steps,
};
ghost use Rattle.fastlanes_masks.specs.Bytes.{ungather_place};

use crate::bit_transpose::transpose_8x8;
use fastlanes_base::{FL_ORDER, FastLanes, MachineWord, lane_of, row_of};

/// The sixteen answers of a call to the numbers from 0 to 15. As literals they let the compiler work out which byte of
/// which word each shift takes.
macro_rules! sixteen {
    ($call:ident::<$e:ty>($words:expr)) => {
        [
            $call::<$e>($words, 0),
            $call::<$e>($words, 1),
            $call::<$e>($words, 2),
            $call::<$e>($words, 3),
            $call::<$e>($words, 4),
            $call::<$e>($words, 5),
            $call::<$e>($words, 6),
            $call::<$e>($words, 7),
            $call::<$e>($words, 8),
            $call::<$e>($words, 9),
            $call::<$e>($words, 10),
            $call::<$e>($words, 11),
            $call::<$e>($words, 12),
            $call::<$e>($words, 13),
            $call::<$e>($words, 14),
            $call::<$e>($words, 15),
        ]
    };
    ($call:ident($words:expr)) => {
        [
            $call($words, 0),
            $call($words, 1),
            $call($words, 2),
            $call($words, 3),
            $call($words, 4),
            $call($words, 5),
            $call($words, 6),
            $call($words, 7),
            $call($words, 8),
            $call($words, 9),
            $call($words, 10),
            $call($words, 11),
            $call($words, 12),
            $call($words, 13),
            $call($words, 14),
            $call($words, 15),
        ]
    };
}

/// What `transpose_bits` at the root does.
///
/// ```rust
/// let mut mask = [0; 16];
/// mask[0] = 2;
/// let mut output = [0; 16];
/// fastlanes::scalar::transpose_bits::<u32>(&mask, &mut output);
/// // Row 1 of lane 0 stands at the place 128: bit 0 of word 2.
/// assert_eq!(rt; output[2], 1);
/// ```
pub fn transpose_bits<E: FastLanes>(input: &[u64; 16], output: &mut [u64; 16])
    ensures moved { TransposesBits E.T E.LANES input.now output.new }

    // `untranspose_bits::<E>` brings the input back.
    ensures undone { UntransposesBits E.T E.LANES output.new input.now }
{
    let groups = sixteen!(rows_of_group::<E>(input));
    *output = sixteen!(word_of_rows(&groups));
}

/// What `untranspose_bits` at the root does.
///
/// ```rust
/// let mut input = [0; 16];
/// input[2] = 1;
/// let mut output = [0; 16];
/// fastlanes::scalar::untranspose_bits::<u32>(&input, &mut output);
/// // The place 128 is row 1 of lane 0.
/// assert_eq!(rt; output[0], 2);
/// ```
pub fn untranspose_bits<E: FastLanes>(input: &[u64; 16], output: &mut [u64; 16])
    ensures moved { UntransposesBits E.T E.LANES input.now output.new }

    // `transpose_bits::<E>` brings the input back.
    ensures undone { TransposesBits E.T E.LANES output.new input.now }
{
    let groups = sixteen!(lanes_of_group::<E>(input));
    *output = sixteen!(word_of_lanes::<E>(&groups));
}

// The rows of the group whose first place is `8 * k`, from a block in the order of lanes.
#[inline(always)]
fn rows_of_group<E: FastLanes>(input: &[u64; 16], k: usize) -> u64
    requires { k < 16 }
    ensures { HoldsRows E.T E.LANES input.now k result }
{
    let start = (lane_of::<E>(8 * k) * E::T + row_of::<E>(8 * k)) / 8;
    transpose_8x8(gathered(input, start, E::T / 8))
}

// Word `w` of a block in the order of places, from the rows of its groups.
#[inline(always)]
fn word_of_rows(groups: &[u64; 16], w: usize) -> u64
    requires { w < 16 }
    ensures { GathersBytes groups.now (byte_steps (w % 2 * 64 + w / 2) 8) 8 result }
{
    gathered(groups, w % 2 * 64 + w / 2, 8)
}

// The lanes of the group of row `8 * (k % (T / 8))` and lane `8 * (k / (T / 8))`, from a block in the order of places.
#[inline(always)]
fn lanes_of_group<E: MachineWord>(input: &[u64; 16], k: usize) -> u64
    requires { k < 16 }
    ensures { HoldsLanes E.T input.now k result }
{
    let eights = E::T / 8;
    transpose_8x8(gathered(input, FL_ORDER[k % eights] * 2 + k / eights, 16))
}

// Word `w` of a block in the order of lanes, from the lanes of its groups.
#[inline(always)]
fn word_of_lanes<E: MachineWord>(groups: &[u64; 16], w: usize) -> u64
    requires { w < 16 }
    ensures { GathersBytes groups.now (λ j. ungather_place E.T (8 * w + j)) 8 result }
{
    let mut word = 0;
    for j in 0..8 {
        word |= byte_of_lanes::<E>(groups, 8 * w + j) << (8 * j);
    }
    word
}

// Byte `n` of a block in the order of lanes, from the lanes of its groups.
#[inline(always)]
fn byte_of_lanes<E: MachineWord>(groups: &[u64; 16], n: usize) -> u64
    requires { n < 128 }
    ensures { result ≡ block_byte groups.now (ungather_place E.T n) }
{
    let eights = E::T / 8;
    byte_of(
        groups,
        (n / E::T * eights + n % eights) * 8 + n % E::T / eights,
    )
}

// Eight bytes of a block as a word, the byte `start` lowest.
#[inline(always)]
fn gathered(words: &[u64; 16], start: usize, stride: usize) -> u64
    requires { start + 7 * stride < 128 }
    ensures { GathersBytes words.now (byte_steps start stride) 8 result }
{
    let mut word = 0;
    for j in 0..8 {
        word |= byte_of(words, start + stride * j) << (8 * j);
    }
    word
}

// Byte `n` of a block.
#[inline(always)]
fn byte_of(words: &[u64; 16], n: usize) -> u64
    requires { n < 128 }
    ensures { result ≡ block_byte words.now n }
{
    words[n / 8] >> (8 * (n % 8)) & 0xFF
}
