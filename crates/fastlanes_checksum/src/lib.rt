//! The checksum CRC-32C (Castagnoli) of bytes, as in iSCSI (RFC 3720) and many formats of files.
#![tactic(auto)]

mod division;
mod tables;

ghost use Rattle.std.specs.Prelude.{◌≡◌, ◌≢◌, ℕ, List, ◌+◌, ◌*◌, ◌%◌, ◌<◌, ◌≤◌, bit_xor, length};
ghost use Rattle.fastlanes_checksum.specs.Checksum.{DifferInOneBurst, checksum, number_of_bytes, register_after, times_x_to};

use crate::division::after_division;
use crate::tables::TIMES_X_TO;

/// Of how many bytes on it is faster to divide them first.
const LEAST_DIVIDED: usize = 4096;

/// The checksum of the bytes.
///
/// ```rust
/// assert_eq!(rt; fastlanes_checksum::crc32c(b"123456789"), 0xE306_9283);
/// ```
pub fn crc32c(bytes: &[u8]) -> u32
    ensures value { result ≡ checksum bytes.now }
    // Where a burst of bits is changed, up to 32 in a row, the checksum is another one.
    ensures burst { (other : List ℕ) → DifferInOneBurst bytes.now other → result ≢ checksum other }
{
    let register = if bytes.len() < LEAST_DIVIDED {
        after_all(u32::MAX, bytes)
    } else {
        after_division(u32::MAX, bytes)
    };
    register ^ u32::MAX
}

/// The register after the bytes, by tables.
fn after_all(start: u32, bytes: &[u8]) -> u32
    ensures { result ≡ register_after start bytes.now }
{
    let sixteens = bytes.len() / 16 * 16;
    let register = after_sixteens(start, &bytes[..sixteens]);
    after_each(register, &bytes[sixteens..])
}

/// The register after the bytes, sixteen at a time.
fn after_sixteens(start: u32, bytes: &[u8]) -> u32
    requires { length bytes.now % 16 ≡ 0 }
    ensures { result ≡ register_after start bytes.now }
{
    let mut register = start;
    for k in 0..bytes.len() / 16 {
        register = after_sixteen(register, &bytes[16 * k..16 * k + 16]);
    }
    register
}

/// The register after the bytes, one at a time.
fn after_each(start: u32, bytes: &[u8]) -> u32
    ensures { result ≡ register_after start bytes.now }
{
    let mut register = start;
    for byte in bytes {
        register = after_one(register, *byte);
    }
    register
}

/// The register after one more byte.
#[inline(always)]
fn after_one(register: u32, byte: u8) -> u32
    ensures { result ≡ times_x_to 8 (bit_xor register byte) }
{
    let sum = register ^ byte as u32;
    by_table(0, (sum % 256) as usize) ^ sum / 256
}

/// The register after sixteen more bytes.
#[inline(always)]
fn after_sixteen(register: u32, bytes: &[u8]) -> u32
    requires { length bytes.now ≡ 16 }
    ensures { result ≡ register_after register bytes.now }
{
    let low = number_of_eight(&bytes[..8]) ^ register as u64;
    // What the register is part of comes last: the next one waits for less.
    product(number_of_eight(&bytes[8..]), 0) ^ product(low, 8)
}

/// Eight bytes as one number.
#[inline(always)]
fn number_of_eight(bytes: &[u8]) -> u64
    requires { length bytes.now ≡ 8 }
    ensures { result ≡ number_of_bytes bytes.now }
{
    u64::from_le_bytes([
        bytes[0], bytes[1], bytes[2], bytes[3], bytes[4], bytes[5], bytes[6], bytes[7],
    ])
}

/// A polynomial of 64 coefficients times `x^(64 + 8 * more)`: the sum of what its eights of coefficients give.
#[inline(always)]
fn product(p: u64, more: usize) -> u32
    requires { more ≤ 8 }
    ensures { result ≡ times_x_to (64 + 8 * more) p }
{
    let mut product = 0;
    let mut rest = p;
    for k in 0..8 {
        product ^= by_table(7 - k + more, (rest % 256) as usize);
        rest /= 256;
    }
    product
}

/// A polynomial of eight coefficients times `x^(8 * (k + 1))`.
#[inline(always)]
fn by_table(k: usize, byte: usize) -> u32
    requires k { k < 16 }
    requires byte { byte < 256 }
    ensures { result ≡ times_x_to (8 * (k + 1)) byte }
{
    TIMES_X_TO[k][byte]
}
