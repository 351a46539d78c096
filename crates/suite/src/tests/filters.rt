//! The masks of the six comparisons, in the order of lanes and of places.

use crate::tests::assertions::assert_equal;
use crate::tests::bitpacking::packed_words;
use crate::tests::bitpacking_cmp::only_bit;
use fastlanes_blocks::{Comparison, compare, filter};
use std::process::Abort;

/// A mask, or that of the opposite.
fn turned(mask: [u64; 16], is_opposite: bool) -> [u64; 16] {
    let mut turned = mask;
    if is_opposite {
        for word in turned.iter_mut() {
            *word = !*word;
        }
    }
    turned
}

/// Both masks of a comparison with a value have one bit alone, or all but one: 57 in the order of lanes, 195 in that of places.
fn assert_masks(
    rt: &impl Abort,
    packed: &[u16; 256],
    comparison: Comparison,
    value: u16,
    has_others: bool,
) {
    let mut lanes = [0x1234; 16];
    compare::<u16, u16>(4, packed, &mut lanes, comparison, value);
    only_bit(rt, &turned(lanes, has_others), 57);
    let mut places = [0x1234; 16];
    filter::<u16, u16>(4, packed, &mut places, comparison, value);
    only_bit(rt, &turned(places, has_others), 195);
}

/// The block is 9 at the place 195, which is bit 57 in the order of lanes, and 0 elsewhere.
#[test]
fn comparisons_of_one_value(rt: HostRuntime) {
    let mut values = [0u16; 1024];
    values[195] = 9;
    let packed = packed_words::<u16, 4, 256>(&values);
    let comparisons = [
        (Comparison::Equal, 9, false),
        (Comparison::NotEqual, 0, false),
        (Comparison::Greater, 8, false),
        (Comparison::AtLeast, 9, false),
        (Comparison::Less, 9, true),
        (Comparison::AtMost, 8, true),
    ];
    for (comparison, value, has_others) in comparisons {
        assert_masks(&rt, &packed, comparison, value, has_others);
    }
}

/// The word 255 is -1 as a number with a sign.
#[test]
fn values_with_a_sign(rt: HostRuntime) {
    let packed = packed_words::<u8, 8, 1024>(&[255; 1024]);
    let comparisons = [
        (Comparison::Equal, -1, u64::MAX),
        (Comparison::AtLeast, 0, 0),
        (Comparison::AtMost, 127, u64::MAX),
    ];
    for (comparison, value, word) in comparisons {
        let mut mask = [0x1234; 16];
        filter::<u8, i8>(8, &packed, &mut mask, comparison, value);
        assert_equal(&rt, mask, [word; 16]);
    }
    let mut mask = [0x1234; 16];
    filter::<u8, u8>(8, &packed, &mut mask, Comparison::Greater, 255);
    assert_equal(&rt, mask, [0; 16]);
}
