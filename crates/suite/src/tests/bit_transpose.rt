//! Transposes of eight rows of eight bits.

use crate::tests::assertions::assert_equal;
use fastlanes::lanes::transpose_8x8_lanes;
use fastlanes::transpose_8x8;

#[test]
fn eight_rows_of_eight_bits(rt: HostRuntime) {
    assert_equal(&rt, transpose_8x8(2), 0x100);
    assert_equal(&rt, transpose_8x8(0xFF), 0x0101_0101_0101_0101);
    assert_equal(&rt, transpose_8x8(0), 0);
}

#[test]
fn eight_words_at_once(rt: HostRuntime) {
    assert_equal(
        &rt,
        transpose_8x8_lanes(&[2, 0xFF, 0, 2, 2, 2, 2, 2]),
        [
            0x100,
            0x0101_0101_0101_0101,
            0,
            0x100,
            0x100,
            0x100,
            0x100,
            0x100,
        ],
    );
    let words = [1, 2, 3, 1 << 63, u64::MAX, 0x8040_2010_0804_0201, 97, 0];
    let turned = transpose_8x8_lanes(&words);
    for j in 0..8usize {
        assert_equal(&rt, turned[j], transpose_8x8(words[j]));
    }
}
