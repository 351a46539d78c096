//! Comparison of packed blocks, and the mask in the order of lanes and of places.

use crate::tests::assertions::{assert_equal, assert_equal_at};
use crate::tests::bitpacking::packed_words;
use crate::tests::numbers::places;
use fastlanes::{BitPacking, BitPackingCompare, transpose_bits, unpack_cmp};
use std::process::Abort;

/// Whether just one bit of a mask is set.
pub(crate) fn only_bit(rt: &impl Abort, mask: &[u64; 16], bit: usize) {
    for (k, word) in mask.iter().enumerate() {
        let expected = if k == bit / 64 { 1u64 << (bit % 64) } else { 0 };
        assert_equal_at(rt, k, *word, expected);
    }
}

#[test]
fn one_value_of_a_ramp(rt: HostRuntime) {
    let values = places();
    let packed = packed_words::<u32, 10, 320>(&values);
    let mut mask = [u64::MAX; 16];
    unpack_cmp::<u32, u32, _, 10, 320>(&packed, &mut mask, |a: u32, b: u32| a == b, 128);
    only_bit(&rt, &mask, 1);
    let mut moved = [u64::MAX; 16];
    transpose_bits::<u32>(&mask, &mut moved);
    only_bit(&rt, &moved, 128);
}

/// A comparison may hold numbers of its own, and ask for more than one thing.
#[test]
fn between_two_bounds(rt: HostRuntime) {
    let values: [u64; 1024] = places();
    let mut packed = [0u64; 160];
    u64::unchecked_pack(10, &values, &mut packed);
    let high = 199i64;
    let mut mask = [0u64; 16];
    u64::unchecked_unpack_cmp(
        10,
        &packed,
        &mut mask,
        |a: i64, low: i64| a >= low && a <= high,
        64,
    );
    let mut moved = [0u64; 16];
    transpose_bits::<u64>(&mask, &mut moved);
    let mut expected = [0; 16];
    expected[1] = u64::MAX;
    expected[2] = u64::MAX;
    expected[3] = 255;
    assert_equal(&rt, moved, expected);
}
