//! What the operations give at each element type and each width, as digests of `vectors`: the same as the Rust crate gave, whose
//! digests are in `stored`.

mod stored;

use crate::tests::digests::stored::{ORDERS, U8, U16, U32, U64, WITHOUT_WIDTH};
use crate::vectors::{digest_at, digest_of_orders, digest_without_width};
use std::process::Abort;

/// The digest is the stored one, at a width of the element type of so many bits.
fn assert_digest(rt: &impl Abort, bits: usize, width: usize, digest: u64, stored: u64) {
    assert!(rt; digest == stored, "u{bits} at {width}");
}

/// The digest at a width of the element type of so many bits.
fn digest_of(bits: usize, width: usize) -> u64 {
    match bits {
        8 => digest_at::<u8>(width),
        16 => digest_at::<u16>(width),
        32 => digest_at::<u32>(width),
        _ => digest_at::<u64>(width),
    }
}

/// The digests of the element type of so many bits are the stored ones, from the width 0 on.
fn assert_widths(rt: &impl Abort, bits: usize, stored: &[u64]) {
    for (width, stored) in stored.iter().enumerate() {
        assert_digest(rt, bits, width, digest_of(bits, width), *stored);
    }
}

#[test]
fn every_width_gives_what_the_rust_crate_gives(rt: HostRuntime) {
    assert_widths(&rt, 8, &U8);
    assert_widths(&rt, 16, &U16);
    assert_widths(&rt, 32, &U32);
    assert_widths(&rt, 64, &U64);
}

#[test]
fn what_has_no_width_gives_what_the_rust_crate_gives(rt: HostRuntime) {
    let found = [
        digest_without_width::<u8>(),
        digest_without_width::<u16>(),
        digest_without_width::<u32>(),
        digest_without_width::<u64>(),
    ];
    assert!(rt; found == WITHOUT_WIDTH);
    assert!(rt; digest_of_orders() == ORDERS);
}
