//! Packing and unpacking blocks.

ghost use Rattle.std.specs.Prelude.{◌≡◌, ◌*◌, ◌≤◌};

use crate::tests::assertions::{assert_equal, assert_equal_at};
use crate::tests::numbers::{one_among, ramp};
use fastlanes::{BitPacking, pack, unpack};

/// What `pack` makes of a block, written over words that no test expects.
pub(crate) fn packed_words<E: BitPacking, const W: usize, const B: usize>(
    values: &[E; 1024],
) -> [E; B]
    requires width { W ≤ E.T }
    requires words { B ≡ E.LANES * W }
{
    let mut words = [E::max_value().word_sub(E::one()); B];
    pack::<E, W, B>(values, &mut words);
    words
}

#[test]
fn ramp_of_three_bits(rt: HostRuntime) {
    let values: [u16; 1024] = ramp(0, 1, 1, 8);
    let packed = packed_words::<u16, 3, 192>(&values);
    assert_equal(&rt, (packed[0], packed[7]), (0, 0xFFFF));
    assert_equal(
        &rt,
        (packed[1], packed[65], packed[129]),
        (0x9249, 0x4924, 0x2492),
    );
    let mut unpacked = [9; 1024];
    unpack::<u16, 3, 192>(&packed, &mut unpacked);
    assert_equal(&rt, unpacked, values);
}

#[test]
fn one_value_of_five_bits(rt: HostRuntime) {
    let packed = packed_words::<u8, 5, 640>(&[21; 1024]);
    let words = [0xB5, 0xD6, 0x5A, 0x6B, 0xAD];
    for place in 0..640usize {
        assert_equal_at(&rt, place, packed[place], words[place / 128]);
    }
}

#[test]
fn drops_high_bits(rt: HostRuntime) {
    let packed = packed_words::<u16, 4, 256>(&one_among(0, 64, 0x1F));
    // The place 64 is row 8 of lane 0.
    assert_equal(&rt, packed, one_among(0, 128, 0xF));
}
