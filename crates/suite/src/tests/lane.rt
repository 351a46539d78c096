//! Walks of one lane: kernels by place, and words that are counted.

ghost use Rattle.std.specs.Prelude.{◌≡◌, ◌*◌, ◌<◌, ◌≤◌, length};

use crate::tests::assertions::{assert_equal, assert_equal_at};
use crate::tests::bitpacking::packed_words;
use crate::tests::numbers::{one_among, places, ramp};
use fastlanes::{
    FastLanes, LaneWords, WordProbe, iterate_lane, pack_lane, unpack_lane, unpack_lane_from,
    unpack_single_from,
};
use std::process::Abort;

/// Packs the values of a block that are those of a lane.
fn pack_values(width: usize, packed: &mut [u16], lane: usize, values: &[u16; 1024])
    requires width { width ≤ 16 }
    requires words { length packed.old ≡ 64 * width }
    requires lane { lane < 64 }
{
    pack_lane::<u16, _>(width, packed, lane, &mut |place: usize| values[place]);
}

#[test]
fn packs_one_lane_alone(rt: HostRuntime) {
    let mut packed = [0xAAAAu16; 256];
    pack_values(4, &mut packed, 5, &[0xFFFF; 1024]);
    for place in 0..256 {
        let expected = if place % 64 == 5 { 0xFFFF } else { 0xAAAA };
        assert_equal_at(&rt, place, packed[place], expected);
    }
}

#[test]
fn goes_forwards(rt: HostRuntime) {
    let mut packed = [0u8; 1024];
    for k in 0..8 {
        packed[128 * k] = k as u8 + 1;
    }
    let mut sum = 0u32;
    let mut kernel = |_place: usize, digit: u8| {
        sum = sum.wrapping_mul(3).wrapping_add(u32::from(digit));
    };
    unpack_lane::<u8, _>(8, &packed, 0, &mut kernel);
    assert_equal(&rt, sum, 4916);
}

/// Counts the calls of a kernel: those of `pack_lane` at width 0, and those of `iterate_lane`.
fn calls_without_width<E: FastLanes>() -> (usize, usize) {
    let mut packed = 0usize;
    pack_lane::<E, _>(
        0,
        &mut [],
        3,
        &mut |_place: usize| {
            packed = packed.wrapping_add(1);
            E::zero()
        },
    );
    let mut iterated = 0usize;
    iterate_lane::<E, _>(3, &mut |_place: usize| iterated = iterated.wrapping_add(1));
    (packed, iterated)
}

#[test]
fn counts_calls_without_width(rt: HostRuntime) {
    assert_equal(&rt, calls_without_width::<u8>(), (0, 8));
    assert_equal(&rt, calls_without_width::<u16>(), (0, 16));
    assert_equal(&rt, calls_without_width::<u32>(), (0, 32));
    assert_equal(&rt, calls_without_width::<u64>(), (0, 64));
}

#[test]
fn packs_as_the_block_call(rt: HostRuntime) {
    let values = places();
    let mut packed = [0xFFFFu16; 960];
    for lane in 0..64 {
        pack_values(15, &mut packed, lane, &values);
    }
    assert_equal(&rt, packed, packed_words::<u16, 15, 960>(&values));
    let mut unpacked = [0xFFFFu16; 1024];
    for lane in 0..64 {
        unpack_lane::<u16, _>(
            15,
            &packed,
            lane,
            &mut |place: usize, digit: u16| unpacked[place] = digit,
        );
    }
    assert_equal(&rt, unpacked, values);
}

/// The digit of a row, and how many reads a probe makes for it.
fn probed<E: FastLanes>(packed: &[E], width: usize, lane: usize, row: usize) -> (E, u32)
    requires width { width ≤ E.T }
    requires words { length packed.now ≡ E.LANES * width }
    requires lane { lane < E.LANES }
    requires row { row < E.T }
{
    let mut probe = WordProbe::<E>::new(packed, width, lane);
    let digit = unpack_single_from(width, &mut probe, row);
    (digit, probe.reads())
}

/// How many reads a probe makes for all rows of a lane, each asked once.
fn reads_of_all_rows<E: FastLanes>(width: usize, packed: &[E], lane: usize) -> u32
    requires width { width ≤ E.T }
    requires words { length packed.now ≡ E.LANES * width }
    requires lane { lane < E.LANES }
{
    let mut probe = WordProbe::<E>::new(packed, width, lane);
    for row in 0..E::T {
        let width = probe.width();
        if probe.reads() < 1000 {
            let _digit = unpack_single_from(width, &mut probe, row);
        }
    }
    probe.reads()
}

#[test]
fn reads_one_or_two_words(rt: HostRuntime) {
    let packed = [0u64; 1008];
    for row in 0..64 {
        let reads = if row == 0 || row == 63 { 1 } else { 2 };
        assert_equal_at(&rt, row, probed(&packed, 63, 0, row), (0, reads));
    }
    assert_equal(&rt, reads_of_all_rows(63, &packed, 0), 126);
}

#[test]
fn reads_one_word_where_none_straddles(rt: HostRuntime) {
    assert_equal(&rt, reads_of_all_rows(4, &[0u16; 256], 0), 16);
    assert_equal(&rt, reads_of_all_rows::<u16>(0, &[], 0), 0);
    // At the full width each row is a word.
    assert_equal(&rt, reads_of_all_rows(8, &[0u8; 1024], 0), 8);
    assert_equal(&rt, reads_of_all_rows(16, &[0u16; 1024], 0), 16);
    assert_equal(&rt, reads_of_all_rows(32, &[0u32; 1024], 0), 32);
    assert_equal(&rt, reads_of_all_rows(64, &[0u64; 1024], 0), 64);
}

/// The digits of a lane that straddle two words are those of these two rows.
fn assert_straddling<E: FastLanes>(
    rt: &impl Abort,
    width: usize,
    packed: &[E],
    lane: usize,
    rows: (usize, usize),
)
    requires width { width ≤ E.T }
    requires words { length packed.now ≡ E.LANES * width }
    requires lane { lane < E.LANES }
{
    for row in 0..E::T {
        let reads = if row == rows.0 || row == rows.1 { 2 } else { 1 };
        assert_equal_at(rt, row, probed(packed, width, lane, row).1, reads);
    }
}

#[test]
fn reads_two_words_where_a_digit_straddles(rt: HostRuntime) {
    assert_straddling(&rt, 3, &[0u8; 384], 0, (2, 5));
    assert_straddling(&rt, 3, &[0u16; 192], 0, (5, 10));
}

#[test]
fn takes_each_word_once(rt: HostRuntime) {
    let packed = [0u8; 384];
    let mut words = LaneWords::<u8>::new(&packed, 3, 1);
    assert_equal(&rt, words.taken(), 0);
    let mut calls = 0usize;
    let mut count = |_place: usize, _digit: u8| calls = calls.wrapping_add(1);
    unpack_lane_from::<u8, _>(3, &mut words, 1, &mut count);
    assert_equal(&rt, words.taken(), 3);
    assert_equal(&rt, calls, 8);
}

#[test]
fn reads_straddled_digits(rt: HostRuntime) {
    let packed = packed_words::<u8, 3, 384>(&one_among(0, 256, 5));
    assert_equal(&rt, (packed[0], packed[128]), (64, 1));
    // Row 2 of lane 0 stands at the place 256.
    assert_equal(&rt, probed(&packed, 3, 0, 2), (5, 2));
}

#[test]
fn reads_a_straddled_digit_twice(rt: HostRuntime) {
    let packed = packed_words::<u16, 3, 192>(&ramp(0, 1, 1, 8));
    // Row 5 of lane 1 has the bits 15 to 17 of the lane, in two words, and row 0 the bits 0 to 2.
    assert_equal(&rt, probed(&packed, 3, 1, 5), (1, 2));
    assert_equal(&rt, probed(&packed, 3, 1, 0), (1, 1));
}

#[test]
fn reads_digits_that_end_a_word(rt: HostRuntime) {
    let words: [u8; 384] = one_among(0, 261, 0x80);
    assert_equal(&rt, probed(&words, 3, 5, 7), (4, 1));
}
