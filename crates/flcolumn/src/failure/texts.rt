//! What is wrong with the bytes of a column, in words.
//!
//! Written by `crates/fastlanes_format/write_errors.py` from the table beside it, where changes are made.

use fastlanes_column_streams::Flaw;

/// What is wrong with the bytes of a column.
pub(crate) fn flaw_text(flaw: Flaw) -> &'static str {
    match flaw {
        Flaw::Cut => "unexpected end of input",
        Flaw::Name => "not a fastlanes column of version 1",
        Flaw::Element => "wrong element type: not u8, u16, u32 or u64, or not the one requested",
        Flaw::Checks => "unknown kind of checksum: expected 0 (none) or 3 (CRC-32C)",
        Flaw::Values => "too many values in a page: expected at most 65536",
        Flaw::Spare => "a reserved byte is not 0",
        Flaw::Length => "the page length does not match the page's contents",
        Flaw::Form => "unknown block form: expected 0 (FOR) or 1 (delta)",
        Flaw::Width => "the bit width of a block exceeds the bits of the element type",
        Flaw::Place => "wrong block offset: expected the end of the block before it",
        Flaw::Reference => "invalid block reference: expected an element (FOR) or 0 (delta)",
        Flaw::Checksum => "checksum mismatch",
        Flaw::Behind => "unexpected page after one with fewer than 65536 values",
        Flaw::Total => "wrong total: expected the number of values in the pages",
        Flaw::Trailing => "unexpected bytes after the end of the column",
        Flaw::Room => "the output buffer is too small for the column's values",
    }
}
