//! Blocks that are packed and unpacked.

use crate::tests::with_memory::commands::bytes::{ROOM, assert_part, first, low_digits};
use crate::tests::with_memory::commands::run::assert_run;
use std::process::Abort;

#[test]
fn blocks_are_packed_and_unpacked(rt: HostRuntime) {
    let values = low_digits();
    let mut packed = [0; ROOM];
    assert_run(&rt, "pack u16 3", &values, &mut packed, 2048, 384);
    assert_part(&rt, &packed, 0, &[0, 0, 0x49, 0x92]);
    assert_part(&rt, &packed, 130, &[0x24, 0x49]);
    assert_part(&rt, &packed, 258, &[0x92, 0x24]);

    let mut bytes = [0; ROOM];
    assert_run(&rt, "unpack u16 3", &packed, &mut bytes, 384, 2048);
    assert_part(&rt, &bytes, 0, first(&rt, &values, 2048));
}

/// A block of as many bits a word as its type has comes back from its packed words.
fn assert_comes_back<R: Abort + AllocGlobal>(rt: &R, pack: &str, unpack: &str, len: usize) {
    let mut values = [0; ROOM];
    for (place, byte) in values.iter_mut().enumerate() {
        *byte = (place % 251) as u8;
    }
    let mut packed = [0; ROOM];
    assert_run(rt, pack, &values, &mut packed, len, len);
    let mut bytes = [0; ROOM];
    assert_run(rt, unpack, &packed, &mut bytes, len, len);
    assert_part(rt, &bytes, 0, first(rt, &values, len));
}

#[test]
fn whole_words_come_back(rt: HostRuntime) {
    assert_comes_back(&rt, "pack u8 8", "unpack u8 8", 1024);
    assert_comes_back(&rt, "pack u16 16", "unpack u16 16", 2048);
    assert_comes_back(&rt, "pack u32 32", "unpack u32 32", 4096);
    assert_comes_back(&rt, "pack u64 64", "unpack u64 64", 8192);
}

#[test]
fn width_zero_has_no_words(rt: HostRuntime) {
    let zeros = [0; ROOM];
    let mut bytes = [1; ROOM];
    assert_run(&rt, "pack u8 0", &zeros, &mut bytes, 1024, 0);
    assert_run(&rt, "unpack u8 0", &zeros, &mut bytes, 0, 1024);
    assert_part(&rt, &bytes, 0, first(&rt, &zeros, 1024));
    assert_part(&rt, &bytes, 1024, &[1]);
}
