//! Kernels that count and add up, an element type of our own, and words that are counted.

use crate::tests::assertions::assert_equal;
use crate::tests::{packed_words, ramp};
use callers::lane::{
    calls_left_unpacking, calls_left_walking, count_above, counted_lane_sum, digit_of_row,
    lane_sum, lane_sum_wrapping, ones_in_lane,
};
use callers::sample::Sample;
use fastlanes::{FastLanes, pack_lane, packed_len, unpack_lane};
use std::process::Abort;

/// Kernels that may be called once for each row are called so often, in every lane and at every width.
fn assert_calls<E: FastLanes>(rt: &impl Abort) {
    for lane in 0..E::LANES {
        assert_equal(rt, (lane, calls_left_walking::<E>(lane)), (lane, 0));
    }
    let words = [E::one(); 1024];
    for width in 0..=E::T {
        let packed = &words[..packed_len::<E>(width)];
        for lane in 0..E::LANES {
            let left = calls_left_unpacking(width, packed, lane);
            assert_equal(rt, (width, lane, left), (width, lane, 0));
        }
    }
}

#[test]
fn calls_once_for_each_row(rt: HostRuntime) {
    assert_calls::<u8>(&rt);
    assert_calls::<u16>(&rt);
    assert_calls::<u32>(&rt);
    assert_calls::<u64>(&rt);
}

#[test]
fn sums_and_counts(rt: HostRuntime) {
    let packed = packed_words::<u16, 3, 192>(&eighths());
    // Each lane has the numbers 0 to 7 twice.
    assert_equal(&rt, lane_sum(&packed, 5), 56);
    assert_equal(&rt, lane_sum_wrapping::<u16>(3, &packed, 5), 56);
    // Eight times 200, modulo 256.
    assert_equal(&rt, lane_sum_wrapping::<u8>(8, &[200; 1024], 5), 64);
    assert_equal(&rt, count_above::<u16>(3, &packed, 5, 4), 6);
    assert_equal(&rt, count_above::<u16>(0, &[], 5, 0), 0);
}

/// Which eighth of the block each place is in.
fn eighths() -> [u16; 1024] {
    ramp(128, 8)
}

/// These packed to three bits, as elements of a type of our own.
fn packed_samples() -> [Sample; 192] {
    let values = eighths();
    let mut packed = [Sample::new(0xFFFF); 192];
    for lane in 0..64 {
        pack_lane::<Sample, _>(
            3,
            &mut packed,
            lane,
            &mut |place: usize| Sample::new(values[place]),
        );
    }
    packed
}

#[test]
fn packs_an_element_type_of_our_own(rt: HostRuntime) {
    let packed = packed_samples();
    let words = packed_words::<u16, 3, 192>(&eighths());
    for place in 0..192 {
        assert_equal(&rt, (place, packed[place].bits()), (place, words[place]));
    }
    assert_equal(&rt, count_above::<Sample>(3, &packed, 9, Sample::new(5)), 4);
}

#[test]
fn unpacks_an_element_type_of_our_own(rt: HostRuntime) {
    let packed = packed_samples();
    let mut unpacked = [0xFFFFu16; 1024];
    for lane in 0..64 {
        unpack_lane::<Sample, _>(
            3,
            &packed,
            lane,
            &mut |place: usize, digit: Sample| unpacked[place] = digit.bits(),
        );
    }
    assert_equal(&rt, unpacked, eighths());
}

#[test]
fn counts_words_of_a_sum(rt: HostRuntime) {
    let packed = packed_words::<u16, 3, 192>(&eighths());
    assert_equal(&rt, counted_lane_sum(&packed, 5), (56, 3));
}

#[test]
fn counts_words_that_it_writes(rt: HostRuntime) {
    let mut words = [0xAAAAu16; 256];
    assert_equal(&rt, ones_in_lane::<u16>(4, &mut words, 5), 4);
    for place in 0..256 {
        let expected = if place % 64 == 5 { 0x1111 } else { 0xAAAA };
        assert_equal(&rt, (place, words[place]), (place, expected));
    }
    assert_equal(&rt, ones_in_lane::<u16>(0, &mut [], 5), 0);
}

#[test]
fn counts_words_of_one_digit(rt: HostRuntime) {
    let mut words = [0u64; 1008];
    words[0] = 7;
    words[992] = 6;
    // Row 63 has the highest 63 bits of the lane's last word.
    assert_equal(&rt, digit_of_row::<u64>(63, &words, 0, 0), (7, 1));
    assert_equal(&rt, digit_of_row::<u64>(63, &words, 0, 63), (3, 1));
}
