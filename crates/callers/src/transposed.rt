//! Places of blocks and of transposed blocks.

ghost use Rattle.std.specs.Prelude.{◌≡◌, ◌+◌, ◌*◌, ◌<◌, slice_index};
ghost use Rattle.fastlanes.specs.Order.{place, transposed_index};

use fastlanes::{FastLanes, index, transpose};

/// Where the element at a row of a lane stood before its block was transposed: as many places after the lane's first one as
/// the row's number.
pub fn stood_at<E: FastLanes>(row: usize, lane: usize) -> usize
    requires row { row < E.T }
    requires lane { lane < E.LANES }
    ensures { result ≡ transposed_index (place row lane) }
{
    transpose(lane) + row
}

/// Which of the stretches of `T` elements, side by side in a block, stands in a lane once the block is transposed.
pub fn stretch_of<E: FastLanes>(lane: usize) -> usize
    requires { lane < E.LANES }
    ensures { result * E.T ≡ transposed_index lane }
{
    transpose(lane) / E::T
}

/// The element at a row of a lane of a block of `u8`.
pub fn element_of_u8(block: &[u8; 1024], row: usize, lane: usize) -> u8
    requires row { row < 8 }
    requires lane { lane < 128 }
    ensures { result ≡ slice_index block.now (place row lane) }
{
    block[index(row, lane)]
}

/// How far from each other the elements at a row and at the next one of a lane of `u16` stood before their block was
/// transposed.
pub fn steps_between_rows_u16(row: usize, lane: usize) -> usize
    requires row { row + 1 < 16 }
    requires lane { lane < 64 }
    ensures { result ≡ 1 }
{
    transpose(index(row + 1, lane)) - transpose(index(row, lane))
}
