//! Folds of each element type at each width, callers that fold, and a packed source.

ghost use Rattle.std.specs.Prelude.{◌≤◌};

mod rows;

use crate::tests::assertions::{assert_equal, assert_so};
use crate::tests::folds::rows::ROWS;
use crate::tests::{mix, words_at};
use callers::folded::{hash_of_block, mean, spread};
use callers::lowered::pack_lowered;
use fastlanes_base::{FastLanes, number_of};
use fastlanes_blocks::{RangeTypes, unpack_range, unpack_sum};
use std::array::from_fn;
use std::process::Abort;

/// Words that are each another.
fn mixed_words<E: FastLanes, const N: usize>() -> [E; N] {
    let mut words = [E::zero(); N];
    mix(&mut words);
    words
}

/// The sum, the least and the greatest digit of words.
fn folds_at<E: RangeTypes>(width: usize, words: &[E; 1024]) -> (u64, u64, u64)
    requires { width ≤ E.T }
{
    let packed = &words[..words_at::<E>(width)];
    let (least, greatest) = unpack_range(width, packed);
    (
        unpack_sum(width, packed),
        number_of(least),
        number_of(greatest),
    )
}

/// They are as the rows of the element type have them, which are so many: one for each width.
fn assert_rows<E: RangeTypes>(rt: &impl Abort, count: usize) {
    let words = mixed_words::<E, 1024>();
    let mut found = 0usize;
    for (bits, width, sum, least, greatest) in &ROWS {
        if *bits == E::T {
            assert_so(rt, *width <= E::T, "a width", *width);
            let folds = folds_at(*width, &words);
            let is_same = folds == (*sum, *least, *greatest);
            assert_so(rt, is_same, "sum, least and greatest at a width", *width);
            found = found.saturating_add(1);
        }
    }
    assert_equal(rt, found, count);
}

#[test]
fn folds_of_mixed_words(rt: HostRuntime) {
    assert_rows::<u8>(&rt, 9);
    assert_rows::<u16>(&rt, 17);
    assert_rows::<u32>(&rt, 33);
    assert_rows::<u64>(&rt, 65);
}

/// Words of ones have the greatest digit everywhere, whose sum is the largest that there is.
#[test]
fn sums_of_ones(rt: HostRuntime) {
    assert_equal(&rt, unpack_sum::<u8>(8, &[u8::MAX; 1024]), 261_120);
    assert_equal(&rt, unpack_sum::<u16>(16, &[u16::MAX; 1024]), 67_107_840);
    assert_equal(
        &rt,
        unpack_sum::<u32>(32, &[u32::MAX; 1024]),
        4_398_046_510_080,
    );
    assert_equal(
        &rt,
        unpack_sum::<u64>(64, &[u64::MAX; 1024]),
        u64::MAX - 1023,
    );
}

/// A block of numbers from 100 to 107 in turn, less 100: what `pack` makes of 0 to 7 in turn.
#[test]
fn a_source_is_packed(rt: HostRuntime) {
    let values: [u16; 1024] = from_fn(|i| 100 + (i % 8) as u16);
    let mut words = [0; 192];
    pack_lowered(3, &values, 100, &mut words);
    assert_equal(
        &rt,
        (words[1], words[65], words[129]),
        (0x9249, 0x4924, 0x2492),
    );
    assert_equal(
        &rt,
        (words[7], words[71], words[135]),
        (0xFFFF, 0xFFFF, 0xFFFF),
    );
    assert_equal(&rt, unpack_sum::<u16>(3, &words), 3584);
}

// The hash of digits in the order of the walk is what the formulas of the layout gave.
#[test]
fn hashes_of_blocks(rt: HostRuntime) {
    assert_equal(&rt, hash_of_block(0, &[]), 0);
    assert_equal(
        &rt,
        hash_of_block(3, &mixed_words::<u8, 384>()),
        96_721_320_246_178_460,
    );
    assert_equal(
        &rt,
        hash_of_block(8, &mixed_words::<u8, 1024>()),
        7_314_694_456_902_953_807,
    );
}

#[test]
fn means_and_spreads(rt: HostRuntime) {
    assert_equal(&rt, mean(5, &mixed_words::<u16, 320>()), 15);
    assert_equal(&rt, mean(16, &mixed_words::<u16, 1024>()), 32_782);
    assert_equal(&rt, spread(7, &mixed_words::<u32, 224>()), 127);
    assert_equal(&rt, spread(32, &mixed_words::<u32, 1024>()), 4_289_872_428);
}
