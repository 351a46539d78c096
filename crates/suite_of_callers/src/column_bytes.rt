//! What a user does with columns as bytes.

ghost use Rattle.std.specs.Prelude.{◌≡◌, ◌≢◌, ℕ, ◌+◌, ◌*◌, ◌/◌, ◌<◌, ◌≤◌, IsFalse, IsSome, IsTrue, IfSome, false, length, map, slice_index, true};
ghost use Rattle.fastlanes_column.specs.LeastWidth.{IsLeastOf};
ghost use Rattle.fastlanes_format.specs.declared.flaw.FormatError.{FormatError};
ghost use Rattle.fastlanes_format.specs.Errors.{IsColumnError};
ghost use Rattle.fastlanes_pages.specs.ColumnValues.{column_values};
ghost use Rattle.fastlanes_pages.specs.Encoded.{column_most};
ghost use Rattle.fastlanes_pages.specs.Heads.{column_blocks, frame_greatest, frame_least, heads_greatest, heads_least, sums_greatest, sums_least, told_blocks};
ghost use Rattle.fastlanes_pages.specs.Masks.{IsMask, holds_of};
ghost use Rattle.fastlanes_pages.specs.Shortest.{page_most};

use fastlanes_base::MachineWord;
use fastlanes_blocks::Comparison;
use fastlanes_column_streams::{Options, encode_stream, finish};
use fastlanes_pages::{Block, Column, FormatError, Stored, decode, encode};
use fastlanes_streams::{SliceIn, SliceOut};

/// Stores values, of any number, as bytes, and reads number `i` from there.
pub fn value_of_bytes<E: Stored>(values: &[E], bytes: &mut [u8], i: usize) -> Option<E>
    requires room { column_most E.T (length values.now) ≤ length bytes.old }
    requires index { i < length values.now }
    ensures some { IsSome result }
    ensures value { IfSome result (λ value. E.number value ≡ slice_index (map E.number values.now) i) }
{
    let count = encode(values, false, true, bytes);
    match Column::<E>::open(&bytes[..count]) {
        Ok(column) => Some(column.get(i as u64)),
        Err(_) => None,
    }
}

/// Returns the minimum of the values from the headers of their column of FOR blocks, without reading a block. Returns `None` if the
/// lower bound is 0, which a block has too whose reference + 2^W is above 2^T.
pub fn minimum_of_headers<E: Stored>(values: &[E], bytes: &mut [u8]) -> Option<E>
    requires room { column_most E.T (length values.now) ≤ length bytes.old }
    requires some { 0 < length values.now }
    ensures minimum { IfSome result (λ least. IsLeastOf (E.number least) (map E.number values.now)) }
{
    let count = encode(values, true, true, bytes);
    let Ok(column) = Column::<E>::open(&bytes[..count]) else {
        return None;
    };
    let (least, _) = column.bounds();
    if E::zero().less(least) {
        Some(least)
    } else {
        None
    }
}

/// Returns whether a value is within the bounds of a column, which need no packed words. If not, no value of the column equals it.
pub fn may_have<E: Stored>(column: &Column<E>, value: E) -> bool
    ensures absent { IsFalse result → (i : ℕ) → i < length (column_values E.T E.LANES column.now)
        → slice_index (column_values E.T E.LANES column.now) i ≢ E.number value }
    ensures below { E.number value < heads_least E.T column.now (column_blocks E.T E.LANES column.now)
        → IsFalse result }
    ensures above { heads_greatest E.T column.now (column_blocks E.T E.LANES column.now) < E.number value
        → IsFalse result }
{
    let (least, greatest) = column.bounds();
    !(value.less(least) || greatest.less(value))
}

/// Returns the bounds of a block. In a FOR block they depend on its reference and width only, in a delta block on its bases and width.
pub fn block_bounds<E: Stored>(block: &Block<E>) -> (E, E)
    ensures for_least { block.now.head.differences ≡ false
        → E.number result.0 ≡ frame_least E.T block.now.head.width block.now.head.reference }
    ensures for_greatest { block.now.head.differences ≡ false
        → E.number result.1 ≡ frame_greatest E.T block.now.head.width block.now.head.reference }
    ensures delta_least { block.now.head.differences ≡ true
        → E.number result.0 ≡ sums_least E.T block.now.head.width block.now.head.bases }
    ensures delta_greatest { block.now.head.differences ≡ true
        → E.number result.1 ≡ sums_greatest E.T block.now.head.width block.now.head.bases }
{
    block.bounds()
}

/// Finds out which values a comparison holds of, and answers how many blocks' words were looked at for that.
pub fn blocks_looked_at<E: Stored>(
    column: &Column<E>,
    comparison: Comparison,
    value: E,
    mask: &mut [u64],
) -> u64
    requires { length mask.old ≡ (length (column_values E.T E.LANES column.now) + 63) / 64 }
    ensures mask { IsMask (holds_of comparison (E.number value))
        (column_values E.T E.LANES column.now) mask.new }
    ensures looked_at { result
        + told_blocks E.T column.now (E.number value) (column_blocks E.T E.LANES column.now)
        ≡ column_blocks E.T E.LANES column.now }
{
    let told = column.filter(comparison, value, mask);
    column.blocks() - told
}

/// Returns the errors of opening and of decoding the same bytes, if both fail.
pub fn both_errors<E: Stored>(bytes: &[u8], output: &mut [E]) -> Option<(FormatError, FormatError)>
    ensures { IfSome result (λ errors. errors.0 ≡ errors.1) }
{
    match Column::<E>::open(bytes) {
        Ok(_) => None,
        Err(opened) => match decode(bytes, output) {
            Ok(_) => None,
            Err(decoded) => Some((opened, decoded)),
        },
    }
}

/// Returns whether bytes that have an error by the tables of the format are rejected.
pub fn is_rejected<E: Stored>(bytes: &[u8]) -> bool
    requires { (error : FormatError) × IsColumnError E.T bytes.now error }
    ensures { IsTrue result }
{
    match Column::<E>::open(bytes) {
        Ok(_) => false,
        Err(_) => true,
    }
}

/// Writes bytes to a slice that has room for them, and flushes. Returns whether that succeeded, which it always does.
pub fn is_stored(given: &[u8], room: &mut [u8]) -> bool
    requires { length given.now ≤ length room.old }
    ensures { IsTrue result }
{
    let mut output = SliceOut::new(room);
    match finish(&mut output, given) {
        Ok(()) => true,
        Err(_) => false,
    }
}

/// Encodes the `u32` values whose bytes are given, and returns how many they are, if the column fits.
pub fn count_of_encoded(
    given: &[u8],
    column: &mut [u8],
    bytes: &mut [u8],
    values: &mut [u32],
) -> Option<u64>
    requires values { length values.old ≡ 65536 }
    requires room { page_most 32 65536 ≤ length bytes.old }
    ensures { IfSome result (λ count. count * 4 ≡ length given.now) }
{
    let mut input = SliceIn::new(given);
    let mut output = SliceOut::new(column);
    let options = Options {
        frames_only: false,
        checked: true,
    };
    match encode_stream::<u32, SliceIn, SliceOut>(&mut input, &mut output, options, bytes, values) {
        Ok(count) => Some(count),
        Err(_) => None,
    }
}
