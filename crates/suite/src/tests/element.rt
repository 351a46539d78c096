//! Words at the edges of their arguments; widths that an element type has, and how many words they make of a block.

use crate::tests::assertions::assert_equal;
use fastlanes::{FastLanes, number_of, packed_len, supported_width};
use std::fmt::Debug;
use std::process::Abort;

/// Sums and differences wrap.
fn assert_sums<E: FastLanes + Debug>(rt: &impl Abort, largest: E, highest: E) {
    assert_equal(rt, largest.word_add(E::one()), E::zero());
    assert_equal(rt, E::zero().word_sub(E::one()), largest);
    assert_equal(rt, highest.word_add(highest), E::zero());
    assert_equal(rt, highest.word_sub(largest).word_add(largest), highest);
}

/// A shift by no bit changes nothing, and one by all bits but one leaves one bit.
fn assert_shifts<E: FastLanes + Debug>(rt: &impl Abort, largest: E, highest: E) {
    let last = E::T as u32 - 1;
    assert_equal(rt, largest.word_shl(0), largest);
    assert_equal(rt, E::one().word_shl(last), highest);
    assert_equal(rt, largest.word_shl(last), highest);
    assert_equal(rt, highest.word_shl(1), E::zero());
    assert_equal(rt, largest.word_shr(0), largest);
    assert_equal(rt, largest.word_shr(last), E::one());
    assert_equal(rt, highest.word_shr(last), E::one());
    assert_equal(rt, highest.word_shr(1).word_shl(1), highest);
}

/// The lowest bits of a word: none, all but the highest, all.
fn assert_low_bits<E: FastLanes + Debug>(rt: &impl Abort, largest: E, highest: E) {
    let bits = E::T as u32;
    assert_equal(rt, largest.word_low(0), E::zero());
    assert_equal(rt, largest.word_low(bits), largest);
    assert_equal(rt, highest.word_low(bits - 1), E::zero());
    assert_equal(rt, highest.word_low(bits), highest);
    assert_equal(rt, highest.word_or(largest.word_low(bits - 1)), largest);
    assert_equal(rt, E::zero().word_or(E::zero()), E::zero());
}

/// The largest word is above the two others, and not below itself.
fn assert_order<E: FastLanes + Debug>(rt: &impl Abort, largest: E, highest: E) {
    assert_equal(rt, E::zero().word_lt(largest), true);
    assert_equal(rt, highest.word_lt(largest), true);
    assert_equal(rt, largest.word_lt(E::zero()), false);
    assert_equal(rt, largest.word_lt(largest), false);
    assert_equal(rt, largest.word_lt(highest), false);
}

/// What holds of the type whose largest word is `largest` and whose highest bit is `highest`.
fn at_the_edges<E: FastLanes + Debug>(rt: &impl Abort, largest: E, highest: E) {
    assert_sums(rt, largest, highest);
    assert_shifts(rt, largest, highest);
    assert_low_bits(rt, largest, highest);
    assert_order(rt, largest, highest);
}

#[test]
fn words_at_the_edges(rt: HostRuntime) {
    at_the_edges(&rt, 0xFFu8, 0x80);
    at_the_edges(&rt, 0xFFFFu16, 0x8000);
    at_the_edges(&rt, 0xFFFF_FFFFu32, 0x8000_0000);
    at_the_edges(&rt, u64::MAX, 0x8000_0000_0000_0000);
    assert_equal(&rt, (number_of(0xFFu8), number_of(0x8000u16)), (255, 32768));
    assert_equal(
        &rt,
        (number_of(0xFFFF_FFFFu32), number_of(u64::MAX)),
        (4_294_967_295, u64::MAX),
    );
}

#[test]
fn packed_lengths(rt: HostRuntime) {
    assert_equal(&rt, packed_len::<u8>(3), 384);
    assert_equal(&rt, packed_len::<u16>(0), 0);
    assert_equal(&rt, packed_len::<u32>(10), 320);
    assert_equal(&rt, packed_len::<u64>(64), 1024);
    assert!(rt; supported_width::<u8>(8) && !supported_width::<u8>(9));
    assert!(rt; supported_width::<u64>(64) && !supported_width::<u64>(65));
}
