//! Bytes that are read and written.

use std::process::Abort;

/// More bytes than any output has.
pub(crate) const ROOM: usize = 20000;

/// The values `i mod 8` in two bytes each, the lower first, and a byte more.
pub(crate) fn low_digits() -> [u8; 2049] {
    let mut bytes = [0; 2049];
    for (place, byte) in bytes.iter_mut().enumerate() {
        *byte = if place % 2 == 0 {
            (place / 2 % 8) as u8
        } else {
            0
        };
    }
    bytes
}

/// What the values `i mod 8` pack to at three bits.
pub(crate) fn packed_digits() -> [u8; 384] {
    let mut bytes = [0; 384];
    for place in 0..384 {
        // All sixteen elements of a lane are the same, so its three words have these three bits over and over.
        let lane = place / 2 % 64;
        let words = 0x2492_4924_9249 * (lane % 8) as u64;
        bytes[place] = ((words >> (place / 128 * 16 + place % 2 * 8)) % 256) as u8;
    }
    bytes
}

/// The first bytes.
pub(crate) fn first<'a>(rt: &impl Abort, bytes: &'a [u8], len: usize) -> &'a [u8] {
    bytes.get(..len).expect(rt, "a length")
}

/// What is said of this case holds.
pub(crate) fn assert_holds(rt: &impl Abort, holds: bool, case: &str) {
    assert!(rt; holds, "{case}");
}

/// The number is the expected one.
pub(crate) fn assert_number(rt: &impl Abort, number: usize, expected: usize) {
    assert!(rt; number == expected, "{number} in place of {expected}");
}

/// The byte at this place is the expected one.
pub(crate) fn assert_byte(rt: &impl Abort, place: usize, byte: u8, expected: u8) {
    assert!(rt;
        byte == expected,
        "byte {place} is {byte} in place of {expected}"
    );
}

/// These bytes stand from this place on.
pub(crate) fn assert_part(rt: &impl Abort, bytes: &[u8], start: usize, part: &[u8]) {
    let rest = bytes.get(start..).expect(rt, "a place");
    assert!(rt; rest.starts_with(part), "at {start}");
}
