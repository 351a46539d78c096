//! Transposes of 1024 bits, which are sixteen words. The lowest bit of the first word comes first, on every machine.

ghost use Rattle.std.specs.Prelude.{◌≡◌, ◌<◌};
ghost use Rattle.fastlanes_masks.specs.Bits.{Transposes8x8, TransposesBits, UntransposesBits, swapped};

use crate::lanes::{transpose_bits_lanes, untranspose_bits_lanes};
use fastlanes_base::FastLanes;

pub mod scalar;

/// Transposes a word that is eight rows of eight bits: bit `8 * r + c` becomes bit `8 * c + r`.
///
/// ```rust
/// assert_eq!(rt; fastlanes::transpose_8x8(2), 0x100);
/// assert_eq!(rt; fastlanes::transpose_8x8(0xFF), 0x0101_0101_0101_0101);
/// ```
#[inline(always)]
pub fn transpose_8x8(x: u64) -> u64
    ensures { Transposes8x8 x result }
{
    // In each square of two by two bits, of four by four and of eight by eight, two corners change places.
    let x = swap(x, 7, 0x00AA_00AA_00AA_00AA);
    let x = swap(x, 14, 0x0000_CCCC_0000_CCCC);
    swap(x, 28, 0x0000_0000_F0F0_F0F0)
}

/// Brings bits from the order of the lanes of `E` into the order of places: input bit `lane * T + row` becomes output
/// bit `index(row, lane)`. So the mask that a comparison of packed data gives comes into the order of the values.
///
/// ```rust
/// let mut mask = [0; 16];
/// mask[0] = 1 << 57;
/// let mut output = [0; 16];
/// fastlanes::transpose_bits::<u16>(&mask, &mut output);
/// // Row 9 of lane 3 stands at the place 195: bit 3 of word 3.
/// assert_eq!(rt; output[3], 8);
/// ```
pub fn transpose_bits<E: FastLanes>(input: &[u64; 16], output: &mut [u64; 16])
    ensures moved { TransposesBits E.T E.LANES input.now output.new }

    // `untranspose_bits::<E>` brings the input back.
    ensures undone { UntransposesBits E.T E.LANES output.new input.now }
{
    transpose_bits_lanes::<E>(input, output);
}

/// Brings bits from the order of places into the order of the lanes of `E`: input bit `index(row, lane)` becomes output
/// bit `lane * T + row`. It undoes `transpose_bits::<E>`. At 64 bits input bit `i` becomes output bit `transpose(i)`.
///
/// ```rust
/// let mut input = [0; 16];
/// input[3] = 8;
/// let mut output = [0; 16];
/// fastlanes::untranspose_bits::<u16>(&input, &mut output);
/// // The place 195 is row 9 of lane 3: bit 57 of word 0.
/// assert_eq!(rt; output[0], 1 << 57);
/// ```
pub fn untranspose_bits<E: FastLanes>(input: &[u64; 16], output: &mut [u64; 16])
    ensures moved { UntransposesBits E.T E.LANES input.now output.new }

    // `transpose_bits::<E>` brings the input back.
    ensures undone { TransposesBits E.T E.LANES output.new input.now }
{
    untranspose_bits_lanes::<E>(input, output);
}

// Exchanges each bit that the mask names with the one `distance` above it.
#[tactic(auto, unfolding(crate::specs::Bits::swapped))]
#[inline(always)]
fn swap(x: u64, distance: u32, mask: u64) -> u64
    requires { distance < 64 }
    ensures { result ≡ swapped distance mask x }
{
    let differing = (x ^ (x >> distance)) & mask;
    x ^ differing ^ (differing << distance)
}
