//! Frames of reference.

use crate::tests::assertions::{assert_equal, assert_equal_at};
use crate::tests::numbers::ramp;
use fastlanes::{FoR, for_pack, unfor_pack};

/// 254, 255, 0 and 1 in turn, which lie from 0 to 3 above 254.
fn near_254() -> [u8; 1024] {
    ramp(254, 1, 1, 4)
}

#[test]
fn values_near_the_reference(rt: HostRuntime) {
    let values = near_254();
    let mut packed = [0; 256];
    for_pack::<u8, 2, 256>(&values, 254, &mut packed);
    for j in 0..256 {
        assert_equal_at(&rt, j, packed[j], (j % 4) as u8 * 0x55);
    }
    let mut output = [9; 1024];
    unfor_pack::<u8, 2, 256>(&packed, 254, &mut output);
    assert_equal(&rt, output, values);
    let mut output = [9; 1024];
    u8::unchecked_unfor_pack(2, &packed, 254, &mut output);
    assert_equal(&rt, output, values);
}
