//! Numbers in bytes, the lowest byte first.

ghost use Rattle.std.specs.Prelude.{◌≡◌, ℕ, ◌+◌, ◌≤◌, ◌^◌, ◌<◌, ◌↔◌, IsTrue, drop, length, slice_index, take};
ghost use Rattle.fastlanes_format.specs.Format.{number_at};
ghost use Rattle.fastlanes_format.specs.Written.{PutsNumber};

/// The number that four bytes are, the lowest first.
#[inline(always)]
pub(crate) fn number_of_four(bytes: &[u8], at: usize) -> usize
    requires { at + 4 ≤ length bytes.now }
    ensures value { result ≡ number_at 4 bytes.now at }
    ensures below { result < 2 ^ 32 }
{
    u32::from_le_bytes([bytes[at], bytes[at + 1], bytes[at + 2], bytes[at + 3]]) as usize
}

/// The number that eight bytes are, the lowest first.
#[inline(always)]
pub(crate) fn number_of_eight(bytes: &[u8], at: usize) -> u64
    requires { at + 8 ≤ length bytes.now }
    ensures { result ≡ number_at 8 bytes.now at }
{
    u64::from_le_bytes([
        bytes[at],
        bytes[at + 1],
        bytes[at + 2],
        bytes[at + 3],
        bytes[at + 4],
        bytes[at + 5],
        bytes[at + 6],
        bytes[at + 7],
    ])
}

/// Whether a number has at most so many bits.
pub(crate) fn fits(number: u64, bits: usize) -> bool
    requires { bits ≤ 64 }
    ensures { IsTrue result ↔ (number < 2 ^ bits) }
{
    bits == 64 || number < 1 << bits
}

/// Puts these bytes into others, from a place on.
#[inline(always)]
fn put_each<const N: usize>(bytes: &mut [u8], at: usize, these: [u8; N])
    requires { at + N ≤ length bytes.old }
    ensures these { (k : ℕ) → k < N → slice_index bytes.new (at + k) ≡ slice_index these.entry k }
    ensures before { take at bytes.new ≡ take at bytes.old }
    ensures behind { drop (at + N) bytes.new ≡ drop (at + N) bytes.old }
{
    for i in 0..N {
        bytes[at + i] = these[i];
    }
}

/// Puts a number into four bytes, the lowest first.
#[inline(always)]
pub(crate) fn put_four(bytes: &mut [u8], at: usize, number: u32)
    requires { at + 4 ≤ length bytes.old }
    ensures { PutsNumber 4 at number bytes.old bytes.new }
{
    put_each(bytes, at, number.to_le_bytes());
}

/// Puts a number into eight bytes, the lowest first.
#[inline(always)]
pub(crate) fn put_eight(bytes: &mut [u8], at: usize, number: u64)
    requires { at + 8 ≤ length bytes.old }
    ensures { PutsNumber 8 at number bytes.old bytes.new }
{
    put_each(bytes, at, number.to_le_bytes());
}
