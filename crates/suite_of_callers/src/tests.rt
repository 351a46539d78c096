//! A file has the name of the module of `callers` that it tests; `blocks` and `folds` are of `fastlanes_blocks`, and of the callers
//! of folds and sources; `checksums`, published ones, `slice_in` and `slice_out` are of what columns as bytes stand on, which
//! `with_memory` tests. `assertions` is what they all assert with.

ghost use Rattle.std.specs.Prelude.{◌≡◌, ◌*◌, ◌<◌, ◌≤◌};

use fastlanes::{BitPacking, FastLanes, pack, packed_len};
use num_traits::cast;

mod assertions;
mod blocks;
mod checksums;
mod columns;
mod folds;
mod lane;
mod lane_rows;
mod masks;
mod round_trips;
mod runs;
mod slice_in;
mod slice_out;
mod streamed;
mod transposed;
mod with_memory;

/// What `pack` makes of a block.
pub(crate) fn packed_words<E: BitPacking, const W: usize, const B: usize>(
    values: &[E; 1024],
) -> [E; B]
    requires width { W ≤ E.T }
    requires words { B ≡ E.LANES * W }
{
    let mut words = [E::zero(); B];
    pack::<E, W, B>(values, &mut words);
    words
}

/// How many words a block has that is packed to a width.
pub(crate) fn words_at<E: FastLanes>(width: usize) -> usize
    requires { width ≤ E.T }
    ensures value { result ≡ E.LANES * width }
    ensures room { result ≤ 1024 }
{
    packed_len::<E>(width)
}

/// The numbers from 0 on below `period`, each of them `run` times, again and again.
pub(crate) fn ramp<E: From<u8> + Copy + Drop>(run: usize, period: usize) -> [E; 1024]
    requires run { 0 < run }
    requires some { 0 < period }
    requires bytes { period ≤ 256 }
{
    let mut values = [E::from(0); 1024];
    for place in 0..1024 {
        values[place] = E::from((place / run % period) as u8);
    }
    values
}

/// Sets words to the highest bits of as many numbers, each another.
pub(crate) fn mix<E: FastLanes>(words: &mut [E]) {
    for k in 0..words.len() {
        let mixed = (k as u64)
            .wrapping_add(1)
            .wrapping_mul(0x9E37_79B9_7F4A_7C15);
        words[k] = cast(mixed >> (64 - E::T)).unwrap_or(E::zero());
    }
}
