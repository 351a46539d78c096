//! Encodes columns with the options that C passes as flags.

ghost use Rattle.std.specs.Prelude.{◌≡◌, ℕ, ◌-◌, ◌*◌, ◌^◌, ◌<◌, ◌≤◌, ◌⊎◌, drop, length, map, take};
ghost use Rattle.fastlanes_c.specs.Flags.{has_checksums, is_for_only};
ghost use Rattle.fastlanes_format.specs.Format.{AreColumn, IsColumnHead, page_bytes};
ghost use Rattle.fastlanes_pages.specs.ColumnValues.{column_values};
ghost use Rattle.fastlanes_pages.specs.Encoded.{column_most, page_part};
ghost use Rattle.fastlanes_pages.specs.Shortest.{HasShortestBlocks};

use fastlanes_pages::{Stored, encode, encoded_most};

/// Returns an upper bound on the bytes of a column of `values` values, or `usize::MAX` for 2^60 values or more.
pub(crate) fn most_of<E: Stored>(values: usize) -> usize
    ensures most { values < 2 ^ 60 → result ≡ column_most E.T values }
    ensures too_many { 2 ^ 60 ≤ values → result ≡ 2 ^ 64 - 1 }
{
    if values < 1 << 60 {
        encoded_most::<E>(values)
    } else {
        usize::MAX
    }
}

/// Returns whether flag 1 is set: all blocks are FOR blocks.
fn for_only(flags: u32) -> bool
    ensures { result ≡ is_for_only flags }
{
    flags % 2 == 1
}

/// Returns whether flag 2 is not set: pages have checksums.
fn checksums(flags: u32) -> bool
    ensures { result ≡ has_checksums flags }
{
    flags / 2 % 2 == 0
}

/// Encodes values as a column and returns its length. Returns 0 and writes nothing if a flag is unknown or `bytes` is shorter than
/// the bound.
pub(crate) fn encode_within<E: Stored>(values: &[E], flags: u32, bytes: &mut [u8]) -> usize
    ensures inside { result ≤ length bytes.new }
    ensures none { result ≡ 0
        → (4 ≤ flags) ⊎ ((2 ^ 60 ≤ length values.now) ⊎ (length bytes.old < column_most E.T (length values.now))) }
    ensures unknown { 4 ≤ flags → result ≡ 0 }
    ensures most { result ≤ column_most E.T (length values.now) }
    ensures head { 0 < result → IsColumnHead E.T (has_checksums flags) (take 8 bytes.new) }
    ensures is { 0 < result → AreColumn E.T (take result bytes.new) }
    ensures values { 0 < result
        → column_values E.T E.LANES (take result bytes.new) ≡ map E.number values.now }
    ensures shortest { 0 < result → (page : ℕ) → 65536 * page < length values.now
        → HasShortestBlocks E.T (is_for_only flags) (page_bytes (take result bytes.new) page)
        (page_part (map E.number values.now) page) }
    ensures behind { drop result bytes.new ≡ drop result bytes.old }
{
    if flags >= 4 || bytes.len() < most_of::<E>(values.len()) {
        return 0;
    }
    encode(values, for_only(flags), checksums(flags), bytes)
}
