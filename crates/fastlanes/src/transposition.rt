//! Blocks moved so that each lane has neighbours in it.

ghost use Rattle.std.specs.Prelude.{◌≡◌, ℕ, ◌+◌, ◌*◌, ◌%◌, ◌<◌, ◌≤◌, length, map, slice_index};
ghost use Rattle.fastlanes_base.specs.Order.{place, transposed_index};
ghost use Rattle.fastlanes.specs.Transposition.{HoldsTiles, neighbours_start, original_value, rows_start, transposed, transposed_value, untransposed};

use fastlanes_base::{FL_ORDER, FastLanes};

/// Blocks whose lanes have `T` neighbours of the original each, and back.
pub trait Transpose: FastLanes {
    /// Moves each lane's neighbours into it: `output[i] = input[transpose(i)]`.
    ///
    /// ```rust
    /// use fastlanes::Transpose;
    ///
    /// let places: [u16; 1024] = std::array::from_fn(|i| (i % 1024) as u16);
    /// let mut output = [0; 1024];
    /// u16::transpose(&places, &mut output);
    /// // Rows 0, 1 and 2 of lane 1.
    /// assert_eq!(rt; (output[1], output[129], output[257]), (64, 65, 66));
    /// ```
    fn transpose(input: &[Self; 1024], output: &mut [Self; 1024])
        ensures moved { map Self.number output.new ≡ transposed (map Self.number input.now) }
        // The rows of a lane stood beside one another, from a multiple of `T` on.
        ensures neighbours { (row lane : ℕ) → row < Self.T → lane < Self.LANES
            → slice_index (map Self.number output.new) (place row lane)
            ≡ slice_index (map Self.number input.now) (transposed_index lane + row) }
        ensures index_law { (row lane : ℕ) → row < Self.T → lane < Self.LANES
            → transposed_index (place row lane) ≡ transposed_index lane + row }
        ensures multiple { (lane : ℕ) → lane < Self.LANES → transposed_index lane % Self.T ≡ 0 }
        ensures back { untransposed (map Self.number output.new) ≡ map Self.number input.now };

    /// Moves the neighbours back: `output[transpose(i)] = input[i]`.
    ///
    /// ```rust
    /// use fastlanes::Transpose;
    ///
    /// let mut input = [0u16; 1024];
    /// input[129] = 7;
    /// let mut output = [0; 1024];
    /// u16::untranspose(&input, &mut output);
    /// // transpose(129) is 65.
    /// assert_eq!(rt; output[65], 7);
    /// ```
    fn untranspose(input: &[Self; 1024], output: &mut [Self; 1024])
        ensures moved { map Self.number output.new ≡ untransposed (map Self.number input.now) }
        ensures each { (i : ℕ) → i < 1024
            → slice_index (map Self.number output.new) (transposed_index i)
            ≡ slice_index (map Self.number input.now) i }
        ensures back { transposed (map Self.number output.new) ≡ map Self.number input.now };
}

// At every type, a transposed block is sixteen lanes of 64 rows, each lane 64 neighbours of the original. Eight rows of eight
// lanes are a tile: its rows are runs of lanes in the transposed block, and its lanes runs of neighbours in the original.
impl<E: FastLanes> Transpose for E {
    #[tactic(auto, using(crate::proofs::Transposing::no_tiles))]
    #[inline(never)]
    fn transpose(input: &[E; 1024], output: &mut [E; 1024]) {
        for tile in 0..16 {
            tile_to_rows(input, output, tile);
        }
    }

    #[tactic(auto, using(crate::proofs::Transposing::no_tiles))]
    #[inline(never)]
    fn untranspose(input: &[E; 1024], output: &mut [E; 1024]) {
        for tile in 0..16 {
            tile_to_neighbours(input, output, tile);
        }
    }
}

/// Where the neighbours of a tile begin in the original.
#[inline(always)]
fn first_neighbour(tile: usize) -> usize
    requires { tile < 16 }
    ensures is { result ≡ neighbours_start tile }
    ensures below { result ≤ 568 }
{
    tile % 2 * 512 + FL_ORDER[tile / 2] * 8
}

#[inline(always)]
fn tile_to_rows<E: FastLanes>(input: &[E], output: &mut [E], tile: usize)
    requires input { length input.now ≡ 1024 }
    requires tile { tile < 16 }
    requires tiles { HoldsTiles rows_start 128 tile (transposed_value (map E.number input.now))
        (map E.number output.old) }
    ensures { HoldsTiles rows_start 128 (tile + 1) (transposed_value (map E.number input.now))
        (map E.number output.new) }
{
    E::transpose_tile(input, first_neighbour(tile), 64, output, tile * 8, 128);
}

#[inline(always)]
fn tile_to_neighbours<E: FastLanes>(input: &[E], output: &mut [E], tile: usize)
    requires input { length input.now ≡ 1024 }
    requires tile { tile < 16 }
    requires tiles { HoldsTiles neighbours_start 64 tile (original_value (map E.number input.now))
        (map E.number output.old) }
    ensures { HoldsTiles neighbours_start 64 (tile + 1) (original_value (map E.number input.now))
        (map E.number output.new) }
{
    E::transpose_tile(input, tile * 8, 128, output, first_neighbour(tile), 64);
}
