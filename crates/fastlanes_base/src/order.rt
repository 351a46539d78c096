//! The order of places in a block of 1024 elements, which is that of the Rust crate `fastlanes`.

ghost use Rattle.std.specs.Prelude.{◌≡◌, ℕ, ◌+◌, ◌*◌, ◌/◌, ◌%◌, ◌<◌};
ghost use Rattle.fastlanes_base.specs.Order.{place, lane_at, row_at, transposed_index};

use crate::element::FastLanes;

/// The order in which eight rows of a lane follow eight rows: entry `k` is the number whose three bits are those of `k` in
/// reverse. So it is its own inverse.
pub const FL_ORDER: [usize; 8] = [0, 4, 2, 6, 1, 5, 3, 7];

macro_rules! reverses_bits {
    ($k:literal) => {
        FL_ORDER[$k] == $k % 2 * 4 + $k / 2 % 2 * 2 + $k / 4
    };
}

// The check refuses another table.
const _: () = prove!(
    reverses_bits!(0)
        && reverses_bits!(1)
        && reverses_bits!(2)
        && reverses_bits!(3)
        && reverses_bits!(4)
        && reverses_bits!(5)
        && reverses_bits!(6)
        && reverses_bits!(7)
);

/// The place in a block of the row `row` of the lane `lane`, for any element type with that row and lane: `FL_ORDER`
/// says where eight rows stand, the row within these eight counts 128 places, and the lane one. This is the order of the
/// Rust crate, after the unified transposed layout of Afroozeh and Boncz (PVLDB 16(9), 2023); packed words are not
/// binary compatible with those of the original FastLanes.
///
/// ```rust
/// assert_eq!(rt; fastlanes::index(0, 3), 3);
/// assert_eq!(rt; fastlanes::index(1, 3), 131);
/// // FL_ORDER[1] * 16 + 1 * 128 + 3
/// assert_eq!(rt; fastlanes::index(9, 3), 195);
/// ```
#[inline(always)]
pub fn index(row: usize, lane: usize) -> usize
    requires row { row < 64 }
    requires lane { lane < 128 }
    ensures { result ≡ place row lane }
{
    FL_ORDER[row / 8] * 16 + (row % 8) * 128 + lane
}

/// The lane of the place `i` of a block of `E`.
///
/// ```rust
/// assert_eq!(rt; fastlanes::lane_of::<u16>(195), 3);
/// assert_eq!(rt; fastlanes::lane_of::<u8>(195), 67);
/// ```
#[inline(always)]
pub fn lane_of<E: FastLanes>(i: usize) -> usize
    requires { i < 1024 }
    ensures value { result ≡ lane_at E.LANES i }
    ensures below { result < E.LANES }
    // `index` gives each place by one row and one lane alone.
    ensures only { (row lane : ℕ) → row < E.T → lane < E.LANES → i ≡ place row lane
        → result ≡ lane }
{
    i % E::LANES
}

/// The row of the place `i` of a block of `E`, in that place's lane.
///
/// ```rust
/// assert_eq!(rt; fastlanes::row_of::<u16>(195), 9);
/// assert_eq!(rt; fastlanes::row_of::<u8>(195), 1);
/// ```
#[inline(always)]
pub fn row_of<E: FastLanes>(i: usize) -> usize
    requires { i < 1024 }
    ensures value { result ≡ row_at E.LANES i }
    ensures below { result < E.T }
    ensures inverse { place result (lane_at E.LANES i) ≡ i }
    ensures only { (row lane : ℕ) → row < E.T → lane < E.LANES → i ≡ place row lane → result ≡ row }
{
    FL_ORDER[(i % 128 - lane_of::<E>(i)) / 16] * 8 + i / 128
}

/// The place that the place `idx` of a transposed block is filled from, for every element type. Below 1024 it is a
/// permutation. A lane of a transposed block is `T` neighbours of the original, since
/// `transpose(index(row, lane)) = transpose(lane) + row`.
///
/// ```rust
/// assert_eq!(rt; fastlanes::transpose(1), 64);
/// // Rows 1 and 2 of lane 1, which stand at the places 129 and 257.
/// assert_eq!(rt; fastlanes::transpose(129), 65);
/// assert_eq!(rt; fastlanes::transpose(257), 66);
/// ```
#[inline(always)]
pub fn transpose(idx: usize) -> usize
    ensures { result ≡ transposed_index idx }
{
    (idx % 16) * 64 + FL_ORDER[(idx / 16) % 8] * 8 + idx / 128
}
