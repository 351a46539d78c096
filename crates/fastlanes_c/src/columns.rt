//! The functions of the four element types, one type after another.
//!
//! Written by `blocks/write.py` from its template, where changes are made.

ghost use Rattle.std.specs.Prelude.{◌≡◌, ℕ, ◌+◌, ◌-◌, ◌*◌, ◌/◌, ◌^◌, ◌<◌, ◌≤◌, ◌⊎◌, drop, length, slice_index, take};
ghost use Rattle.fastlanes_c.specs.Comparisons.{comparison_of};
ghost use Rattle.fastlanes_c.specs.Flags.{has_checksums, is_for_only};
ghost use Rattle.fastlanes_c.specs.Flaws.{ReportsError};
ghost use Rattle.fastlanes_format.specs.Format.{AreColumn, IsColumnHead, page_bytes};
ghost use Rattle.fastlanes_pages.specs.Blocks.{IsOpened};
ghost use Rattle.fastlanes_pages.specs.ColumnValues.{column_values};
ghost use Rattle.fastlanes_pages.specs.Encoded.{column_most, page_part};
ghost use Rattle.fastlanes_pages.specs.Heads.{column_blocks, told_blocks};
ghost use Rattle.fastlanes_pages.specs.Masks.{IsMask, count_where, holds_of};
ghost use Rattle.fastlanes_pages.specs.Shortest.{HasShortestBlocks};

use crate::comparisons::numbered;
use crate::encoding::{encode_within, most_of};
use crate::flaws::{UNKNOWN_FLAGS, report};
use fastlanes_pages::{Opened, decode};

// Columns of `u8`: numbers of 8 bits, in blocks of 128 lanes.

/// Returns an upper bound on the bytes of an encoded column of `values_len` values: 32, plus 16 per started 65536 values, plus
/// `128 * 8 + 16` per started 1024 values. The result is `SIZE_MAX` for 2^60 values or more.
#[unsafe(no_mangle)]
pub extern "C" fn fl_column_encode_bound_u8(values_len: usize) -> usize
    ensures most { values_len < 2 ^ 60 → result ≡ column_most 8 values_len }
    ensures too_many { 2 ^ 60 ≤ values_len → result ≡ 2 ^ 64 - 1 }
{
    most_of::<u8>(values_len)
}

/// Encodes values as a column, and returns its length in bytes. Returns 0 and writes nothing if `bytes_len` is less than
/// `fl_column_encode_bound_u8(values_len)` or `flags` has an unknown flag. With flags 0 each block is the shorter of the FOR block
/// at its minimum and the delta block of adjacent values, and each page has a checksum. Bytes after the column are unchanged.
#[unsafe(no_mangle)]
pub extern "C" fn fl_column_encode_u8(values: &[u8], flags: u32, bytes: &mut [u8]) -> usize
    ensures inside { result ≤ length bytes.new }
    ensures none { result ≡ 0
        → (4 ≤ flags) ⊎ ((2 ^ 60 ≤ length values.now) ⊎ (length bytes.old < column_most 8 (length values.now))) }
    ensures unknown { 4 ≤ flags → result ≡ 0 }
    ensures most { result ≤ column_most 8 (length values.now) }
    ensures head { 0 < result → IsColumnHead 8 (has_checksums flags) (take 8 bytes.new) }
    ensures is { 0 < result → AreColumn 8 (take result bytes.new) }
    ensures values { 0 < result
        → column_values 8 128 (take result bytes.new) ≡ values.now }
    ensures shortest { 0 < result → (page : ℕ) → 65536 * page < length values.now
        → HasShortestBlocks 8 (is_for_only flags) (page_bytes (take result bytes.new) page)
        (page_part values.now page) }
    ensures behind { drop result bytes.new ≡ drop result bytes.old }
{
    encode_within::<u8>(values, flags, bytes)
}

/// Decodes all values of a column. On success it returns `FL_ERR_NONE`, writes the number of values to `*count`, and leaves later
/// elements of `values` and `*error_offset` unchanged. Otherwise it returns the error, writes the offset of the malformed bytes to
/// `*error_offset`, and leaves `values` and `*count` unchanged. Accepts arbitrary bytes. `FL_ERR_BUFFER_TOO_SMALL`, at
/// offset `bytes_len`, means that `bytes` is a column of more than `values_len` values.
#[unsafe(no_mangle)]
pub extern "C" fn fl_column_decode_u8(
    bytes: &[u8],
    values: &mut [u8],
    count: &mut usize,
    error_offset: &mut usize,
) -> u32
    ensures error_number { result ≤ 16 }
    ensures column { result ≡ 0 → AreColumn 8 bytes.now }
    ensures count { result ≡ 0 → count.new ≡ length (column_values 8 128 bytes.now) }
    ensures within { result ≡ 0 → count.new ≤ length values.new }
    ensures values { result ≡ 0
        → take count.new values.new ≡ column_values 8 128 bytes.now }
    ensures rest { result ≡ 0 → drop count.new values.new ≡ drop count.new values.old }
    ensures no_offset { result ≡ 0 → error_offset.new ≡ error_offset.old }
    ensures other { 0 < result → AreColumn 8 bytes.now
        → length values.old < length (column_values 8 128 bytes.now) }
    ensures error { 0 < result → ¬ (AreColumn 8 bytes.now)
        → ReportsError 8 bytes.now result error_offset.new }
    ensures room { 0 < result → AreColumn 8 bytes.now
        → (result ≡ 16) × (error_offset.new ≡ length bytes.now) }
    ensures only_room { result ≡ 16 → AreColumn 8 bytes.now }
    ensures offset { 0 < result → error_offset.new ≤ length bytes.now }
    ensures unchanged { 0 < result → values.new ≡ values.old }
    ensures no_count { 0 < result → count.new ≡ count.old }
{
    match decode::<u8>(bytes, values) {
        Ok(found) => {
            *count = found;
            0
        }
        Err(e) => report(e, error_offset),
    }
}

/// Validates a column, including its checksums, and opens it for random access. `flags` is 0; otherwise the result is
/// `FL_ERR_FLAGS` at offset 0. On success it returns `FL_ERR_NONE`, fills `*column`, and leaves `*error_offset` unchanged. On error
/// it leaves `*column` unchanged and writes the offset of the malformed bytes to `*error_offset`. Accepts arbitrary bytes.
/// Initialize `*column` to `{0}` first. The opened column points to `bytes`, which must outlive it unchanged; it may be copied and
/// needs no closing.
#[unsafe(no_mangle)]
pub extern "C" fn fl_column_open_u8<'a>(
    bytes: &'a [u8],
    flags: u32,
    column: &mut Opened<'a>,
    error_offset: &mut usize,
) -> u32
    ensures error_number { result ≤ 17 }
    ensures opened { result ≡ 0 → IsOpened 8 column.new }
    ensures bytes { result ≡ 0 → column.new.bytes.now ≡ bytes.now }
    ensures no_offset { result ≡ 0 → error_offset.new ≡ error_offset.old }
    ensures unknown { 0 < flags → (result ≡ 17) × (error_offset.new ≡ 0) }
    ensures only_unknown { result ≡ 17 → 0 < flags }
    ensures other { 0 < result → result < 17 → ¬ (AreColumn 8 bytes.now) }
    ensures error { 0 < result → result < 17 → ReportsError 8 bytes.now result error_offset.new }
    ensures offset { 0 < result → error_offset.new ≤ length bytes.now }
    ensures unchanged { 0 < result → column.new ≡ column.old }
{
    if flags != 0 {
        *error_offset = 0;
        return UNKNOWN_FLAGS;
    }
    match column.fill::<u8>(bytes) {
        Ok(()) => 0,
        Err(e) => report(e, error_offset),
    }
}

/// Returns the number of values of an opened column.
#[unsafe(no_mangle)]
pub extern "C" fn fl_column_len_u8(column: &Opened) -> u64
    requires { IsOpened 8 column.now }
    ensures { result ≡ length (column_values 8 128 column.now.bytes.now) }
{
    column.len::<u8>()
}

/// Returns the value at `index` of an opened column. This reads one block: in constant time if it is a FOR block.
#[unsafe(no_mangle)]
pub extern "C" fn fl_column_get_u8(column: &Opened, index: u64) -> u8
    requires opened { IsOpened 8 column.now }
    requires index { index < length (column_values 8 128 column.now.bytes.now) }
    ensures { result ≡ slice_index (column_values 8 128 column.now.bytes.now) index }
{
    column.get::<u8>(index)
}

/// Decodes the `values_len` values from index `start` of an opened column.
#[unsafe(no_mangle)]
pub extern "C" fn fl_column_read_u8(column: &Opened, start: u64, values: &mut [u8])
    requires opened { IsOpened 8 column.now }
    requires inside { start + length values.old ≤ length (column_values 8 128 column.now.bytes.now) }
    ensures length { length values.new ≡ length values.old }
    ensures values { values.new ≡ take (length values.old) (drop start (column_values 8 128 column.now.bytes.now)) }
{
    column.read::<u8>(start, values);
}

/// Compares each value of an opened column with `value`: bit `i % 64` of `mask[i / 64]` is the result for value `i`, and bits after
/// the last value are 0. Returns the number of blocks that were decided from their header, or from the header and the bases of a
/// delta block.
#[unsafe(no_mangle)]
pub extern "C" fn fl_column_filter_u8(
    column: &Opened,
    comparison: u32,
    value: u8,
    mask: &mut [u64],
) -> u64
    requires opened { IsOpened 8 column.now }
    requires comparison { comparison < 6 }
    requires mask { length mask.old ≡ (length (column_values 8 128 column.now.bytes.now) + 63) / 64 }
    ensures mask { IsMask (holds_of (comparison_of comparison) value)
        (column_values 8 128 column.now.bytes.now) mask.new }
    ensures told { result
        ≡ told_blocks 8 column.now.bytes.now value (column_blocks 8 128 column.now.bytes.now) }
    ensures most { result ≤ column_blocks 8 128 column.now.bytes.now }
{
    column.filter::<u8>(numbered(comparison), value, mask)
}

/// Returns the number of values of an opened column for which the comparison with `value` holds.
#[unsafe(no_mangle)]
pub extern "C" fn fl_column_count_u8(column: &Opened, comparison: u32, value: u8) -> u64
    requires opened { IsOpened 8 column.now }
    requires comparison { comparison < 6 }
    ensures { result ≡ count_where (holds_of (comparison_of comparison) value)
        (column_values 8 128 column.now.bytes.now) }
{
    column.count::<u8>(numbered(comparison), value)
}

// Columns of `u16`: numbers of 16 bits, in blocks of 64 lanes.

/// Returns an upper bound on the bytes of an encoded column of `values_len` values: 32, plus 16 per started 65536 values, plus
/// `128 * 16 + 16` per started 1024 values. The result is `SIZE_MAX` for 2^60 values or more.
#[unsafe(no_mangle)]
pub extern "C" fn fl_column_encode_bound_u16(values_len: usize) -> usize
    ensures most { values_len < 2 ^ 60 → result ≡ column_most 16 values_len }
    ensures too_many { 2 ^ 60 ≤ values_len → result ≡ 2 ^ 64 - 1 }
{
    most_of::<u16>(values_len)
}

/// Encodes values as a column, and returns its length in bytes. Returns 0 and writes nothing if `bytes_len` is less than
/// `fl_column_encode_bound_u16(values_len)` or `flags` has an unknown flag. With flags 0 each block is the shorter of the FOR block
/// at its minimum and the delta block of adjacent values, and each page has a checksum. Bytes after the column are unchanged.
#[unsafe(no_mangle)]
pub extern "C" fn fl_column_encode_u16(values: &[u16], flags: u32, bytes: &mut [u8]) -> usize
    ensures inside { result ≤ length bytes.new }
    ensures none { result ≡ 0
        → (4 ≤ flags) ⊎ ((2 ^ 60 ≤ length values.now) ⊎ (length bytes.old < column_most 16 (length values.now))) }
    ensures unknown { 4 ≤ flags → result ≡ 0 }
    ensures most { result ≤ column_most 16 (length values.now) }
    ensures head { 0 < result → IsColumnHead 16 (has_checksums flags) (take 8 bytes.new) }
    ensures is { 0 < result → AreColumn 16 (take result bytes.new) }
    ensures values { 0 < result
        → column_values 16 64 (take result bytes.new) ≡ values.now }
    ensures shortest { 0 < result → (page : ℕ) → 65536 * page < length values.now
        → HasShortestBlocks 16 (is_for_only flags) (page_bytes (take result bytes.new) page)
        (page_part values.now page) }
    ensures behind { drop result bytes.new ≡ drop result bytes.old }
{
    encode_within::<u16>(values, flags, bytes)
}

/// Decodes all values of a column. On success it returns `FL_ERR_NONE`, writes the number of values to `*count`, and leaves later
/// elements of `values` and `*error_offset` unchanged. Otherwise it returns the error, writes the offset of the malformed bytes to
/// `*error_offset`, and leaves `values` and `*count` unchanged. Accepts arbitrary bytes. `FL_ERR_BUFFER_TOO_SMALL`, at
/// offset `bytes_len`, means that `bytes` is a column of more than `values_len` values.
#[unsafe(no_mangle)]
pub extern "C" fn fl_column_decode_u16(
    bytes: &[u8],
    values: &mut [u16],
    count: &mut usize,
    error_offset: &mut usize,
) -> u32
    ensures error_number { result ≤ 16 }
    ensures column { result ≡ 0 → AreColumn 16 bytes.now }
    ensures count { result ≡ 0 → count.new ≡ length (column_values 16 64 bytes.now) }
    ensures within { result ≡ 0 → count.new ≤ length values.new }
    ensures values { result ≡ 0
        → take count.new values.new ≡ column_values 16 64 bytes.now }
    ensures rest { result ≡ 0 → drop count.new values.new ≡ drop count.new values.old }
    ensures no_offset { result ≡ 0 → error_offset.new ≡ error_offset.old }
    ensures other { 0 < result → AreColumn 16 bytes.now
        → length values.old < length (column_values 16 64 bytes.now) }
    ensures error { 0 < result → ¬ (AreColumn 16 bytes.now)
        → ReportsError 16 bytes.now result error_offset.new }
    ensures room { 0 < result → AreColumn 16 bytes.now
        → (result ≡ 16) × (error_offset.new ≡ length bytes.now) }
    ensures only_room { result ≡ 16 → AreColumn 16 bytes.now }
    ensures offset { 0 < result → error_offset.new ≤ length bytes.now }
    ensures unchanged { 0 < result → values.new ≡ values.old }
    ensures no_count { 0 < result → count.new ≡ count.old }
{
    match decode::<u16>(bytes, values) {
        Ok(found) => {
            *count = found;
            0
        }
        Err(e) => report(e, error_offset),
    }
}

/// Validates a column, including its checksums, and opens it for random access. `flags` is 0; otherwise the result is
/// `FL_ERR_FLAGS` at offset 0. On success it returns `FL_ERR_NONE`, fills `*column`, and leaves `*error_offset` unchanged. On error
/// it leaves `*column` unchanged and writes the offset of the malformed bytes to `*error_offset`. Accepts arbitrary bytes.
/// Initialize `*column` to `{0}` first. The opened column points to `bytes`, which must outlive it unchanged; it may be copied and
/// needs no closing.
#[unsafe(no_mangle)]
pub extern "C" fn fl_column_open_u16<'a>(
    bytes: &'a [u8],
    flags: u32,
    column: &mut Opened<'a>,
    error_offset: &mut usize,
) -> u32
    ensures error_number { result ≤ 17 }
    ensures opened { result ≡ 0 → IsOpened 16 column.new }
    ensures bytes { result ≡ 0 → column.new.bytes.now ≡ bytes.now }
    ensures no_offset { result ≡ 0 → error_offset.new ≡ error_offset.old }
    ensures unknown { 0 < flags → (result ≡ 17) × (error_offset.new ≡ 0) }
    ensures only_unknown { result ≡ 17 → 0 < flags }
    ensures other { 0 < result → result < 17 → ¬ (AreColumn 16 bytes.now) }
    ensures error { 0 < result → result < 17 → ReportsError 16 bytes.now result error_offset.new }
    ensures offset { 0 < result → error_offset.new ≤ length bytes.now }
    ensures unchanged { 0 < result → column.new ≡ column.old }
{
    if flags != 0 {
        *error_offset = 0;
        return UNKNOWN_FLAGS;
    }
    match column.fill::<u16>(bytes) {
        Ok(()) => 0,
        Err(e) => report(e, error_offset),
    }
}

/// Returns the number of values of an opened column.
#[unsafe(no_mangle)]
pub extern "C" fn fl_column_len_u16(column: &Opened) -> u64
    requires { IsOpened 16 column.now }
    ensures { result ≡ length (column_values 16 64 column.now.bytes.now) }
{
    column.len::<u16>()
}

/// Returns the value at `index` of an opened column. This reads one block: in constant time if it is a FOR block.
#[unsafe(no_mangle)]
pub extern "C" fn fl_column_get_u16(column: &Opened, index: u64) -> u16
    requires opened { IsOpened 16 column.now }
    requires index { index < length (column_values 16 64 column.now.bytes.now) }
    ensures { result ≡ slice_index (column_values 16 64 column.now.bytes.now) index }
{
    column.get::<u16>(index)
}

/// Decodes the `values_len` values from index `start` of an opened column.
#[unsafe(no_mangle)]
pub extern "C" fn fl_column_read_u16(column: &Opened, start: u64, values: &mut [u16])
    requires opened { IsOpened 16 column.now }
    requires inside { start + length values.old ≤ length (column_values 16 64 column.now.bytes.now) }
    ensures length { length values.new ≡ length values.old }
    ensures values { values.new ≡ take (length values.old) (drop start (column_values 16 64 column.now.bytes.now)) }
{
    column.read::<u16>(start, values);
}

/// Compares each value of an opened column with `value`: bit `i % 64` of `mask[i / 64]` is the result for value `i`, and bits after
/// the last value are 0. Returns the number of blocks that were decided from their header, or from the header and the bases of a
/// delta block.
#[unsafe(no_mangle)]
pub extern "C" fn fl_column_filter_u16(
    column: &Opened,
    comparison: u32,
    value: u16,
    mask: &mut [u64],
) -> u64
    requires opened { IsOpened 16 column.now }
    requires comparison { comparison < 6 }
    requires mask { length mask.old ≡ (length (column_values 16 64 column.now.bytes.now) + 63) / 64 }
    ensures mask { IsMask (holds_of (comparison_of comparison) value)
        (column_values 16 64 column.now.bytes.now) mask.new }
    ensures told { result
        ≡ told_blocks 16 column.now.bytes.now value (column_blocks 16 64 column.now.bytes.now) }
    ensures most { result ≤ column_blocks 16 64 column.now.bytes.now }
{
    column.filter::<u16>(numbered(comparison), value, mask)
}

/// Returns the number of values of an opened column for which the comparison with `value` holds.
#[unsafe(no_mangle)]
pub extern "C" fn fl_column_count_u16(column: &Opened, comparison: u32, value: u16) -> u64
    requires opened { IsOpened 16 column.now }
    requires comparison { comparison < 6 }
    ensures { result ≡ count_where (holds_of (comparison_of comparison) value)
        (column_values 16 64 column.now.bytes.now) }
{
    column.count::<u16>(numbered(comparison), value)
}

// Columns of `u32`: numbers of 32 bits, in blocks of 32 lanes.

/// Returns an upper bound on the bytes of an encoded column of `values_len` values: 32, plus 16 per started 65536 values, plus
/// `128 * 32 + 16` per started 1024 values. The result is `SIZE_MAX` for 2^60 values or more.
#[unsafe(no_mangle)]
pub extern "C" fn fl_column_encode_bound_u32(values_len: usize) -> usize
    ensures most { values_len < 2 ^ 60 → result ≡ column_most 32 values_len }
    ensures too_many { 2 ^ 60 ≤ values_len → result ≡ 2 ^ 64 - 1 }
{
    most_of::<u32>(values_len)
}

/// Encodes values as a column, and returns its length in bytes. Returns 0 and writes nothing if `bytes_len` is less than
/// `fl_column_encode_bound_u32(values_len)` or `flags` has an unknown flag. With flags 0 each block is the shorter of the FOR block
/// at its minimum and the delta block of adjacent values, and each page has a checksum. Bytes after the column are unchanged.
#[unsafe(no_mangle)]
pub extern "C" fn fl_column_encode_u32(values: &[u32], flags: u32, bytes: &mut [u8]) -> usize
    ensures inside { result ≤ length bytes.new }
    ensures none { result ≡ 0
        → (4 ≤ flags) ⊎ ((2 ^ 60 ≤ length values.now) ⊎ (length bytes.old < column_most 32 (length values.now))) }
    ensures unknown { 4 ≤ flags → result ≡ 0 }
    ensures most { result ≤ column_most 32 (length values.now) }
    ensures head { 0 < result → IsColumnHead 32 (has_checksums flags) (take 8 bytes.new) }
    ensures is { 0 < result → AreColumn 32 (take result bytes.new) }
    ensures values { 0 < result
        → column_values 32 32 (take result bytes.new) ≡ values.now }
    ensures shortest { 0 < result → (page : ℕ) → 65536 * page < length values.now
        → HasShortestBlocks 32 (is_for_only flags) (page_bytes (take result bytes.new) page)
        (page_part values.now page) }
    ensures behind { drop result bytes.new ≡ drop result bytes.old }
{
    encode_within::<u32>(values, flags, bytes)
}

/// Decodes all values of a column. On success it returns `FL_ERR_NONE`, writes the number of values to `*count`, and leaves later
/// elements of `values` and `*error_offset` unchanged. Otherwise it returns the error, writes the offset of the malformed bytes to
/// `*error_offset`, and leaves `values` and `*count` unchanged. Accepts arbitrary bytes. `FL_ERR_BUFFER_TOO_SMALL`, at
/// offset `bytes_len`, means that `bytes` is a column of more than `values_len` values.
#[unsafe(no_mangle)]
pub extern "C" fn fl_column_decode_u32(
    bytes: &[u8],
    values: &mut [u32],
    count: &mut usize,
    error_offset: &mut usize,
) -> u32
    ensures error_number { result ≤ 16 }
    ensures column { result ≡ 0 → AreColumn 32 bytes.now }
    ensures count { result ≡ 0 → count.new ≡ length (column_values 32 32 bytes.now) }
    ensures within { result ≡ 0 → count.new ≤ length values.new }
    ensures values { result ≡ 0
        → take count.new values.new ≡ column_values 32 32 bytes.now }
    ensures rest { result ≡ 0 → drop count.new values.new ≡ drop count.new values.old }
    ensures no_offset { result ≡ 0 → error_offset.new ≡ error_offset.old }
    ensures other { 0 < result → AreColumn 32 bytes.now
        → length values.old < length (column_values 32 32 bytes.now) }
    ensures error { 0 < result → ¬ (AreColumn 32 bytes.now)
        → ReportsError 32 bytes.now result error_offset.new }
    ensures room { 0 < result → AreColumn 32 bytes.now
        → (result ≡ 16) × (error_offset.new ≡ length bytes.now) }
    ensures only_room { result ≡ 16 → AreColumn 32 bytes.now }
    ensures offset { 0 < result → error_offset.new ≤ length bytes.now }
    ensures unchanged { 0 < result → values.new ≡ values.old }
    ensures no_count { 0 < result → count.new ≡ count.old }
{
    match decode::<u32>(bytes, values) {
        Ok(found) => {
            *count = found;
            0
        }
        Err(e) => report(e, error_offset),
    }
}

/// Validates a column, including its checksums, and opens it for random access. `flags` is 0; otherwise the result is
/// `FL_ERR_FLAGS` at offset 0. On success it returns `FL_ERR_NONE`, fills `*column`, and leaves `*error_offset` unchanged. On error
/// it leaves `*column` unchanged and writes the offset of the malformed bytes to `*error_offset`. Accepts arbitrary bytes.
/// Initialize `*column` to `{0}` first. The opened column points to `bytes`, which must outlive it unchanged; it may be copied and
/// needs no closing.
#[unsafe(no_mangle)]
pub extern "C" fn fl_column_open_u32<'a>(
    bytes: &'a [u8],
    flags: u32,
    column: &mut Opened<'a>,
    error_offset: &mut usize,
) -> u32
    ensures error_number { result ≤ 17 }
    ensures opened { result ≡ 0 → IsOpened 32 column.new }
    ensures bytes { result ≡ 0 → column.new.bytes.now ≡ bytes.now }
    ensures no_offset { result ≡ 0 → error_offset.new ≡ error_offset.old }
    ensures unknown { 0 < flags → (result ≡ 17) × (error_offset.new ≡ 0) }
    ensures only_unknown { result ≡ 17 → 0 < flags }
    ensures other { 0 < result → result < 17 → ¬ (AreColumn 32 bytes.now) }
    ensures error { 0 < result → result < 17 → ReportsError 32 bytes.now result error_offset.new }
    ensures offset { 0 < result → error_offset.new ≤ length bytes.now }
    ensures unchanged { 0 < result → column.new ≡ column.old }
{
    if flags != 0 {
        *error_offset = 0;
        return UNKNOWN_FLAGS;
    }
    match column.fill::<u32>(bytes) {
        Ok(()) => 0,
        Err(e) => report(e, error_offset),
    }
}

/// Returns the number of values of an opened column.
#[unsafe(no_mangle)]
pub extern "C" fn fl_column_len_u32(column: &Opened) -> u64
    requires { IsOpened 32 column.now }
    ensures { result ≡ length (column_values 32 32 column.now.bytes.now) }
{
    column.len::<u32>()
}

/// Returns the value at `index` of an opened column. This reads one block: in constant time if it is a FOR block.
#[unsafe(no_mangle)]
pub extern "C" fn fl_column_get_u32(column: &Opened, index: u64) -> u32
    requires opened { IsOpened 32 column.now }
    requires index { index < length (column_values 32 32 column.now.bytes.now) }
    ensures { result ≡ slice_index (column_values 32 32 column.now.bytes.now) index }
{
    column.get::<u32>(index)
}

/// Decodes the `values_len` values from index `start` of an opened column.
#[unsafe(no_mangle)]
pub extern "C" fn fl_column_read_u32(column: &Opened, start: u64, values: &mut [u32])
    requires opened { IsOpened 32 column.now }
    requires inside { start + length values.old ≤ length (column_values 32 32 column.now.bytes.now) }
    ensures length { length values.new ≡ length values.old }
    ensures values { values.new ≡ take (length values.old) (drop start (column_values 32 32 column.now.bytes.now)) }
{
    column.read::<u32>(start, values);
}

/// Compares each value of an opened column with `value`: bit `i % 64` of `mask[i / 64]` is the result for value `i`, and bits after
/// the last value are 0. Returns the number of blocks that were decided from their header, or from the header and the bases of a
/// delta block.
#[unsafe(no_mangle)]
pub extern "C" fn fl_column_filter_u32(
    column: &Opened,
    comparison: u32,
    value: u32,
    mask: &mut [u64],
) -> u64
    requires opened { IsOpened 32 column.now }
    requires comparison { comparison < 6 }
    requires mask { length mask.old ≡ (length (column_values 32 32 column.now.bytes.now) + 63) / 64 }
    ensures mask { IsMask (holds_of (comparison_of comparison) value)
        (column_values 32 32 column.now.bytes.now) mask.new }
    ensures told { result
        ≡ told_blocks 32 column.now.bytes.now value (column_blocks 32 32 column.now.bytes.now) }
    ensures most { result ≤ column_blocks 32 32 column.now.bytes.now }
{
    column.filter::<u32>(numbered(comparison), value, mask)
}

/// Returns the number of values of an opened column for which the comparison with `value` holds.
#[unsafe(no_mangle)]
pub extern "C" fn fl_column_count_u32(column: &Opened, comparison: u32, value: u32) -> u64
    requires opened { IsOpened 32 column.now }
    requires comparison { comparison < 6 }
    ensures { result ≡ count_where (holds_of (comparison_of comparison) value)
        (column_values 32 32 column.now.bytes.now) }
{
    column.count::<u32>(numbered(comparison), value)
}

// Columns of `u64`: numbers of 64 bits, in blocks of 16 lanes.

/// Returns an upper bound on the bytes of an encoded column of `values_len` values: 32, plus 16 per started 65536 values, plus
/// `128 * 64 + 16` per started 1024 values. The result is `SIZE_MAX` for 2^60 values or more.
#[unsafe(no_mangle)]
pub extern "C" fn fl_column_encode_bound_u64(values_len: usize) -> usize
    ensures most { values_len < 2 ^ 60 → result ≡ column_most 64 values_len }
    ensures too_many { 2 ^ 60 ≤ values_len → result ≡ 2 ^ 64 - 1 }
{
    most_of::<u64>(values_len)
}

/// Encodes values as a column, and returns its length in bytes. Returns 0 and writes nothing if `bytes_len` is less than
/// `fl_column_encode_bound_u64(values_len)` or `flags` has an unknown flag. With flags 0 each block is the shorter of the FOR block
/// at its minimum and the delta block of adjacent values, and each page has a checksum. Bytes after the column are unchanged.
#[unsafe(no_mangle)]
pub extern "C" fn fl_column_encode_u64(values: &[u64], flags: u32, bytes: &mut [u8]) -> usize
    ensures inside { result ≤ length bytes.new }
    ensures none { result ≡ 0
        → (4 ≤ flags) ⊎ ((2 ^ 60 ≤ length values.now) ⊎ (length bytes.old < column_most 64 (length values.now))) }
    ensures unknown { 4 ≤ flags → result ≡ 0 }
    ensures most { result ≤ column_most 64 (length values.now) }
    ensures head { 0 < result → IsColumnHead 64 (has_checksums flags) (take 8 bytes.new) }
    ensures is { 0 < result → AreColumn 64 (take result bytes.new) }
    ensures values { 0 < result
        → column_values 64 16 (take result bytes.new) ≡ values.now }
    ensures shortest { 0 < result → (page : ℕ) → 65536 * page < length values.now
        → HasShortestBlocks 64 (is_for_only flags) (page_bytes (take result bytes.new) page)
        (page_part values.now page) }
    ensures behind { drop result bytes.new ≡ drop result bytes.old }
{
    encode_within::<u64>(values, flags, bytes)
}

/// Decodes all values of a column. On success it returns `FL_ERR_NONE`, writes the number of values to `*count`, and leaves later
/// elements of `values` and `*error_offset` unchanged. Otherwise it returns the error, writes the offset of the malformed bytes to
/// `*error_offset`, and leaves `values` and `*count` unchanged. Accepts arbitrary bytes. `FL_ERR_BUFFER_TOO_SMALL`, at
/// offset `bytes_len`, means that `bytes` is a column of more than `values_len` values.
#[unsafe(no_mangle)]
pub extern "C" fn fl_column_decode_u64(
    bytes: &[u8],
    values: &mut [u64],
    count: &mut usize,
    error_offset: &mut usize,
) -> u32
    ensures error_number { result ≤ 16 }
    ensures column { result ≡ 0 → AreColumn 64 bytes.now }
    ensures count { result ≡ 0 → count.new ≡ length (column_values 64 16 bytes.now) }
    ensures within { result ≡ 0 → count.new ≤ length values.new }
    ensures values { result ≡ 0
        → take count.new values.new ≡ column_values 64 16 bytes.now }
    ensures rest { result ≡ 0 → drop count.new values.new ≡ drop count.new values.old }
    ensures no_offset { result ≡ 0 → error_offset.new ≡ error_offset.old }
    ensures other { 0 < result → AreColumn 64 bytes.now
        → length values.old < length (column_values 64 16 bytes.now) }
    ensures error { 0 < result → ¬ (AreColumn 64 bytes.now)
        → ReportsError 64 bytes.now result error_offset.new }
    ensures room { 0 < result → AreColumn 64 bytes.now
        → (result ≡ 16) × (error_offset.new ≡ length bytes.now) }
    ensures only_room { result ≡ 16 → AreColumn 64 bytes.now }
    ensures offset { 0 < result → error_offset.new ≤ length bytes.now }
    ensures unchanged { 0 < result → values.new ≡ values.old }
    ensures no_count { 0 < result → count.new ≡ count.old }
{
    match decode::<u64>(bytes, values) {
        Ok(found) => {
            *count = found;
            0
        }
        Err(e) => report(e, error_offset),
    }
}

/// Validates a column, including its checksums, and opens it for random access. `flags` is 0; otherwise the result is
/// `FL_ERR_FLAGS` at offset 0. On success it returns `FL_ERR_NONE`, fills `*column`, and leaves `*error_offset` unchanged. On error
/// it leaves `*column` unchanged and writes the offset of the malformed bytes to `*error_offset`. Accepts arbitrary bytes.
/// Initialize `*column` to `{0}` first. The opened column points to `bytes`, which must outlive it unchanged; it may be copied and
/// needs no closing.
#[unsafe(no_mangle)]
pub extern "C" fn fl_column_open_u64<'a>(
    bytes: &'a [u8],
    flags: u32,
    column: &mut Opened<'a>,
    error_offset: &mut usize,
) -> u32
    ensures error_number { result ≤ 17 }
    ensures opened { result ≡ 0 → IsOpened 64 column.new }
    ensures bytes { result ≡ 0 → column.new.bytes.now ≡ bytes.now }
    ensures no_offset { result ≡ 0 → error_offset.new ≡ error_offset.old }
    ensures unknown { 0 < flags → (result ≡ 17) × (error_offset.new ≡ 0) }
    ensures only_unknown { result ≡ 17 → 0 < flags }
    ensures other { 0 < result → result < 17 → ¬ (AreColumn 64 bytes.now) }
    ensures error { 0 < result → result < 17 → ReportsError 64 bytes.now result error_offset.new }
    ensures offset { 0 < result → error_offset.new ≤ length bytes.now }
    ensures unchanged { 0 < result → column.new ≡ column.old }
{
    if flags != 0 {
        *error_offset = 0;
        return UNKNOWN_FLAGS;
    }
    match column.fill::<u64>(bytes) {
        Ok(()) => 0,
        Err(e) => report(e, error_offset),
    }
}

/// Returns the number of values of an opened column.
#[unsafe(no_mangle)]
pub extern "C" fn fl_column_len_u64(column: &Opened) -> u64
    requires { IsOpened 64 column.now }
    ensures { result ≡ length (column_values 64 16 column.now.bytes.now) }
{
    column.len::<u64>()
}

/// Returns the value at `index` of an opened column. This reads one block: in constant time if it is a FOR block.
#[unsafe(no_mangle)]
pub extern "C" fn fl_column_get_u64(column: &Opened, index: u64) -> u64
    requires opened { IsOpened 64 column.now }
    requires index { index < length (column_values 64 16 column.now.bytes.now) }
    ensures { result ≡ slice_index (column_values 64 16 column.now.bytes.now) index }
{
    column.get::<u64>(index)
}

/// Decodes the `values_len` values from index `start` of an opened column.
#[unsafe(no_mangle)]
pub extern "C" fn fl_column_read_u64(column: &Opened, start: u64, values: &mut [u64])
    requires opened { IsOpened 64 column.now }
    requires inside { start + length values.old ≤ length (column_values 64 16 column.now.bytes.now) }
    ensures length { length values.new ≡ length values.old }
    ensures values { values.new ≡ take (length values.old) (drop start (column_values 64 16 column.now.bytes.now)) }
{
    column.read::<u64>(start, values);
}

/// Compares each value of an opened column with `value`: bit `i % 64` of `mask[i / 64]` is the result for value `i`, and bits after
/// the last value are 0. Returns the number of blocks that were decided from their header, or from the header and the bases of a
/// delta block.
#[unsafe(no_mangle)]
pub extern "C" fn fl_column_filter_u64(
    column: &Opened,
    comparison: u32,
    value: u64,
    mask: &mut [u64],
) -> u64
    requires opened { IsOpened 64 column.now }
    requires comparison { comparison < 6 }
    requires mask { length mask.old ≡ (length (column_values 64 16 column.now.bytes.now) + 63) / 64 }
    ensures mask { IsMask (holds_of (comparison_of comparison) value)
        (column_values 64 16 column.now.bytes.now) mask.new }
    ensures told { result
        ≡ told_blocks 64 column.now.bytes.now value (column_blocks 64 16 column.now.bytes.now) }
    ensures most { result ≤ column_blocks 64 16 column.now.bytes.now }
{
    column.filter::<u64>(numbered(comparison), value, mask)
}

/// Returns the number of values of an opened column for which the comparison with `value` holds.
#[unsafe(no_mangle)]
pub extern "C" fn fl_column_count_u64(column: &Opened, comparison: u32, value: u64) -> u64
    requires opened { IsOpened 64 column.now }
    requires comparison { comparison < 6 }
    ensures { result ≡ count_where (holds_of (comparison_of comparison) value)
        (column_values 64 16 column.now.bytes.now) }
{
    column.count::<u64>(numbered(comparison), value)
}
