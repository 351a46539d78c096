//! Ramps as text.

use crate::tests::with_memory::commands::bytes::{ROOM, assert_part};
use crate::tests::with_memory::commands::run::assert_run;
use std::process::Abort;

/// The text of a ramp has so many bytes, and these stand from this place on.
fn assert_ramp<R: Abort + AllocGlobal>(rt: &R, line: &str, len: usize, start: usize, part: &[u8]) {
    let mut bytes = [0; ROOM];
    assert_run(rt, line, b"unread", &mut bytes, 0, len);
    assert_part(rt, &bytes, start, part);
}

#[test]
fn ramps_are_written(rt: HostRuntime) {
    assert_ramp(&rt, "ramp u16 4", 256 * 5, 0, b"0000\n1111\n");
    assert_ramp(&rt, "ramp u16 4", 256 * 5, 15 * 5, b"ffff\n0000\n");
    assert_ramp(&rt, "ramp u8 3", 384 * 3, 0, b"00\n49\n");
    assert_ramp(&rt, "ramp u8 3", 384 * 3, 129 * 3, b"92\n");
    assert_ramp(&rt, "ramp u8 3", 384 * 3, 257 * 3, b"24\n");
    assert_ramp(
        &rt,
        "ramp u64 64",
        1024 * 17,
        16 * 17,
        b"0000000000000080\n",
    );
    assert_ramp(
        &rt,
        "ramp u64 64",
        1024 * 17,
        128 * 17,
        b"0000000000000040\n",
    );
    assert_ramp(&rt, "ramp u32 32", 1024 * 9, 9, b"00000001\n");
    assert_ramp(&rt, "ramp u32 32", 1024 * 9, 1023 * 9, b"000003ff\n");
    assert_ramp(&rt, "ramp u32 0", 0, 0, b"");
}
