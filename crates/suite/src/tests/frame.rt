//! Heads of frames, and blocks that are packed and read by them.

ghost use Rattle.std.specs.Prelude.{◌≤◌};

use crate::tests::assertions::{assert_equal, assert_equal_at};
use crate::tests::numbers::{one_among, places, ramp};
use fastlanes::{FoR, packed_len};
use fastlanes_column::{FrameHead, frame_get, frame_head, frame_read, frame_write};
use std::fmt::Debug;
use std::process::Abort;

/// A block has this head, and comes back by it.
fn assert_head<E: FoR + Debug>(rt: &impl Abort, block: &[E; 1024], width: usize, reference: E) {
    let head = frame_head(block);
    assert_equal(rt, head.width, width);
    assert_equal(rt, head.reference, reference);
    assert_written(rt, head.width, reference, block, block);
}

/// What comes back from a block's words by a head: as a whole, whatever the output held before, and each value by itself.
fn assert_written<E: FoR + Debug>(
    rt: &impl Abort,
    width: usize,
    reference: E,
    block: &[E; 1024],
    back: &[E; 1024],
)
    requires width { width ≤ E.T }
{
    let head = FrameHead { width, reference };
    let mut words = [E::one(); 1024];
    let words = &mut words[..packed_len::<E>(width)];
    frame_write(&head, block, words);
    let mut output = [E::zero(); 1024];
    frame_read(&head, words, &mut output);
    assert_equal(rt, output, *back);
    let mut output = [E::max_value(); 1024];
    frame_read(&head, words, &mut output);
    assert_equal(rt, output, *back);
    for place in 0..1024 {
        assert_equal_at(rt, place, frame_get(&head, words, place), back[place]);
    }
}

#[test]
fn equal_values_need_no_words(rt: HostRuntime) {
    assert_head::<u8>(&rt, &[255; 1024], 0, 255);
    assert_head::<u16>(&rt, &[300; 1024], 0, 300);
    assert_head::<u32>(&rt, &[0; 1024], 0, 0);
    assert_head::<u64>(&rt, &[u64::MAX; 1024], 0, u64::MAX);
}

#[test]
fn values_above_a_thousand(rt: HostRuntime) {
    assert_head::<u32>(&rt, &ramp(1000, 1, 1, 1024), 10, 1000);
}

#[test]
fn values_far_apart_need_whole_words(rt: HostRuntime) {
    assert_head(&rt, &one_among(u64::MAX, 0, 0), 64, 0);
    assert_head::<u8>(&rt, &one_among(128, 1023, 0), 8, 0);
    assert_head::<u8>(&rt, &one_among(0, 641, 127), 7, 0);
}

/// 254, 255, 0 and 1 in turn, which lie from 0 to 3 above 254.
fn near_254() -> [u8; 1024] {
    ramp(254, 1, 1, 4)
}

#[test]
fn differences_may_wrap(rt: HostRuntime) {
    assert_written(&rt, 2, 254, &near_254(), &near_254());
    // The least value is 0, and 255 is far above it.
    assert_head(&rt, &near_254(), 8, 0);
}

#[test]
fn any_reference_at_the_full_width(rt: HostRuntime) {
    let block: [u64; 1024] = places();
    assert_written(&rt, 64, 12345, &block, &block);
}

#[test]
fn a_value_too_far_from_the_reference(rt: HostRuntime) {
    let mut block = near_254();
    block[5] = 2;
    let mut back = near_254();
    back[5] = 254;
    assert_written(&rt, 2, 254, &block, &back);
}
