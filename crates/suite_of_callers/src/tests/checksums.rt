//! Checksums that others have published, those of RFC 3720, appendix B.4, and of texts; and of long bytes.

use fastlanes_checksum::crc32c;
use std::process::Abort;

/// Ends the test where the bytes have another checksum.
fn assert_checksum(rt: &impl Abort, bytes: &[u8], expected: u32) {
    assert_eq!(rt; crc32c(bytes), expected);
}

#[test]
fn published_checksums(rt: HostRuntime) {
    let ascending: [u8; 32] = std::array::from_fn(|i| (i % 32) as u8);
    let descending: [u8; 32] = std::array::from_fn(|i| (31 - i % 32) as u8);
    assert_checksum(&rt, &[0; 32], 0x8A91_36AA);
    assert_checksum(&rt, &[0xFF; 32], 0x62A8_AB43);
    assert_checksum(&rt, &ascending, 0x46DD_794E);
    assert_checksum(&rt, &descending, 0x113F_DB5C);
    assert_checksum(&rt, b"", 0);
    assert_checksum(&rt, b"a", 0xC1D0_4330);
    assert_checksum(&rt, b"abc", 0x364B_3FB7);
    assert_checksum(&rt, b"123456789", 0xE306_9283);
    assert_checksum(&rt, b"message digest", 0x02BD_79D0);
    assert_checksum(&rt, b"abcdefghijklmnopqrstuvwxyz", 0x9EE6_EF25);
}

/// Bytes of which most are divided first, up to the borders between what is divided at a time. What is expected was computed bit by
/// bit, by six lines of Python.
#[test]
fn long_checksums(rt: HostRuntime) {
    let bytes: [u8; 40000] = std::array::from_fn(|i| ((i % 251 + i / 251) % 256) as u8);
    let rows = [
        (4095, 0x6C6A_0AED),
        (4096, 0x013F_3B65),
        (15047, 0x8704_D1C0),
        (15048, 0xC978_2456),
        (15049, 0x6E6F_B0A8),
        (16720, 0x74C5_70B2),
        (28424, 0x8B60_03E5),
        (40000, 0x7828_F875),
    ];
    for (count, expected) in rows {
        assert_eq!(rt; checksum_of_first(count, &bytes), expected);
    }
}

/// The checksum of so many of the bytes, and of none 0.
fn checksum_of_first(count: usize, bytes: &[u8]) -> u32 {
    match bytes.get(..count) {
        Some(first) => crc32c(first),
        None => 0,
    }
}
