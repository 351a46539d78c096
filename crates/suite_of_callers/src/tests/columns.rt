//! Blocks that need not be read.

use crate::tests::assertions::assert_equal;
use callers::columns::{has_below, is_to_be_read};
use fastlanes_column::FrameHead;

#[test]
fn skips_by_heads(rt: HostRuntime) {
    let mut block = [1000; 1024];
    for place in 0..1024 {
        block[place] = 1000 + place as u32;
    }
    assert_equal(
        &rt,
        (has_below(&block, 0), has_below(&block, 1000)),
        (false, false),
    );
    assert_equal(
        &rt,
        (has_below(&block, 1001), has_below(&block, u32::MAX)),
        (true, true),
    );
    let head = FrameHead {
        width: 2,
        reference: 254u8,
    };
    assert_equal(
        &rt,
        (is_to_be_read(&head, 254), is_to_be_read(&head, 255)),
        (false, true),
    );
}
