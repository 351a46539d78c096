//! Masks whose ones are counted, and a value of our own that packed words stand for.

ghost use Rattle.std.specs.Prelude.{◌≡◌, ℕ, ◌*◌, ◌<◌, ◌≤◌, ◌==◌, if◌then◌else◌, count_by, count_ones, nat_lt, sum_by};
ghost use Rattle.fastlanes.specs.Bits.{block_bit};
ghost use Rattle.fastlanes.specs.Digits.{digit, digits};

use crate::round_trips::places_of_equal;
use fastlanes::{FastLanesComparable, transpose_bits, unpack_cmp};

/// A mark that packed words stand for, of which the lower one is the better one.
#[derive(Clone, Copy)]
pub struct Mark {
    pub points: u8,
}

impl FastLanesComparable for Mark {
    type Bitpacked = u8;

    ghost unpacked = { λ n. record { points = n } };

    fn as_unpacked(inner: u8) -> Mark {
        Mark { points: inner }
    }
}

/// Where the marks of a block are better than one: bit `i` of the result is 1 where the mark at the place `i` is, else 0.
pub fn places_of_better<const W: usize, const B: usize>(packed: &[u8; B], mark: Mark) -> [u64; 16]
    requires width { W ≤ 8 }
    requires words { B ≡ 128 * W }
    ensures { (i : ℕ) → i < 1024
        → block_bit result i ≡ (if nat_lt (digit 8 128 W packed.now i) mark.points then 1 else 0) }
{
    let is_better = |a: Mark, b: Mark| -> bool
        ensures { result ≡ nat_lt a.points b.points }
    { a.points < b.points };
    let (mut mask, mut places) = ([0; 16], [0; 16]);
    unpack_cmp::<u8, Mark, _, W, B>(packed, &mut mask, is_better, mark);
    transpose_bits::<u8>(&mask, &mut places);
    places
}

/// How many bits of a block of bits are ones.
pub fn ones(words: &[u64; 16]) -> usize
    ensures { result ≡ sum_by count_ones words.now }
{
    let mut count = 0usize;
    for k in 0..16 {
        count += words[k].count_ones() as usize;
    }
    count
}

/// How many digits of a block equal a value.
pub fn count_equal<const W: usize, const B: usize>(packed: &[u16; B], value: u16) -> usize
    requires width { W ≤ 16 }
    requires words { B ≡ 64 * W }
    ensures { result ≡ count_by (λ x. x == value) (digits 16 64 W packed.now) }
{
    ones(&places_of_equal::<W, B>(packed, value))
}
