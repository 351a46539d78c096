//! Sixteen lanes of a block alone.

use crate::tests::hostile::calls::Element;
use crate::tests::hostile::worked::{Example, ramp};
use crate::vectors::{Call, GroupCall, Packer};

#[test]
fn unpacks_one_group_alone(rt: HostRuntime) {
    let example = Example::of(Element::U16, 3);
    let words = example.called(Call::Pack(Packer::Whole), &ramp(1, 8));
    let (output, taken) = Element::U16.grouped(GroupCall::Unpack(16), 3, &words, 9);
    let mut expected = [9; 1024];
    for place in 0..1024usize {
        if place % 64 / 16 == 1 {
            expected[place] = (place % 8) as u64;
        }
    }
    example.check(&rt, taken == 3 && output == expected, "unpack_group_from");
}

#[test]
fn packs_one_group_alone(rt: HostRuntime) {
    let example = Example::of(Element::U16, 3);
    let (words, put) = Element::U16.grouped(GroupCall::Pack(16), 3, &ramp(1, 8), 0xAAAA);
    example.check(&rt, put == 3, "pack_group_into");
    // Lane 17 has ones, lane 23 has sevens, and lane 1 is another group's.
    let found = [
        [words[17], words[81], words[145]],
        [words[23], words[87], words[151]],
        [words[1], words[65], words[129]],
    ];
    let expected = [
        [0x9249, 0x4924, 0x2492],
        [0xFFFF, 0xFFFF, 0xFFFF],
        [0xAAAA, 0xAAAA, 0xAAAA],
    ];
    example.check(&rt, found == expected, "pack_group_into");
}
