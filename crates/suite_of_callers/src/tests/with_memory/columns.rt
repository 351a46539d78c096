//! Columns of each element type, against what the model of tests/columns makes of the same values.

ghost use Rattle.std.specs.Prelude.{◌≡◌, ◌*◌, ◌/◌, ◌≤◌, length};

use crate::column_bytes::value_of_bytes;
use crate::tests::assertions::{assert_equal, assert_so};
use crate::tests::with_memory::rows::{DECIDED, ROWS};
use fastlanes_blocks::Comparison;
use fastlanes_checksum::crc32c;
use fastlanes_pages::{Column, Stored, decode, encode, encoded_most};
use std::alloc::{AllocError, Global};
use std::process::Abort;

/// The bits of the element type, the kind of the values, how many they are, whether all blocks are frames, whether pages have
/// checksums; and of the column how many bytes it has, and their checksum.
pub(crate) type Row = (usize, u8, usize, bool, bool, usize, u32);

/// The bits of the element type, whether all blocks are FOR blocks, the bounds of the column, and values, each with the number of
/// blocks that a comparison with it decides.
pub(crate) type DecidedRow = (usize, bool, (u64, u64), [(u64, u64); 6]);

/// The greatest value of a type.
fn greatest<E: Stored>() -> E {
    E::zero().minus(E::one())
}

/// Value number `i` of a kind.
fn value_of<E: Stored>(kind: u8, i: usize) -> E {
    let i = i as u64;
    let three = i.wrapping_mul(3);
    let number = match kind {
        1 => 200,
        2 => i.wrapping_mul(i).wrapping_mul(7).wrapping_add(three) % 50 + 100,
        3 => three,
        _ => {
            let mixed = i.wrapping_add(1).wrapping_mul(2_654_435_761) % 4_294_967_296;
            mixed.wrapping_mul(4_294_967_311).wrapping_add(i)
        }
    };
    let most = greatest::<E>().to_number();
    let number = number & most;
    if number <= most {
        E::of_number(number)
    } else {
        E::zero()
    }
}

/// The first values of a kind.
fn values_of<E: Stored>(alloc: Global, kind: u8, count: usize) -> Result<Vec<E>, AllocError> {
    let mut values = vec![in alloc; E::zero(); count]?;
    for (i, value) in values.iter_mut().enumerate() {
        *value = value_of(kind, i);
    }
    Ok(values)
}

/// What is written is what the model writes, and all values come back, together and one by one.
fn assert_row<E: Stored + PartialEq>(
    rt: &impl Abort,
    alloc: Global,
    row: &Row,
) -> Result<(), AllocError> {
    let (_bits, kind, n, frames_only, checked, len, checksum) = *row;
    let values = values_of::<E>(alloc, kind, n)?;
    let values = values.as_slice();
    let is_short = values.len() < 1 << 40;
    assert_so(rt, is_short, "so many values", n);
    let mut bytes = vec![in alloc; 0u8; encoded_most::<E>(values.len())]?;
    let bytes = bytes.as_mut_slice();
    let count = encode(values, frames_only, checked, bytes);
    let bytes = &bytes[..count];
    assert_equal(rt, (count, crc32c(bytes)), (len, checksum));
    assert_read(rt, alloc, values, bytes)
}

/// Ends the test where these are not the same values.
fn assert_same<E: Stored + PartialEq>(rt: &impl Abort, found: &[E], expected: &[E], call: &str) {
    assert_so(rt, *found == *expected, call, found.len());
}

/// These values are read from a column.
fn assert_read<E: Stored + PartialEq>(
    rt: &impl Abort,
    alloc: Global,
    values: &[E],
    bytes: &[u8],
) -> Result<(), AllocError> {
    let mut back = vec![in alloc; E::one(); values.len()]?;
    assert_decoded(rt, values, bytes, back.as_mut_slice());
    let Ok(column) = Column::<E>::open(bytes) else {
        panic!(rt; "open");
    };
    let is_len = column.len() == values.len() as u64;
    assert_so(rt, is_len, "len", values.len());
    assert_got(rt, values, &column);
    assert_parts(rt, alloc, values, &column)?;
    assert_all_compared(rt, alloc, values, &column)
}

/// They are what a column is decoded to.
fn assert_decoded<E: Stored + PartialEq>(
    rt: &impl Abort,
    values: &[E],
    bytes: &[u8],
    back: &mut [E],
) {
    let count = decode::<E>(bytes, back);
    assert!(rt; count == Ok(values.len()), "decode");
    assert_same(rt, back, values, "decode");
}

/// They are read one by one: of many values only some, since one of a block of differences reads its block.
fn assert_got<E: Stored + PartialEq>(rt: &impl Abort, values: &[E], column: &Column<'_, E>) {
    let step = if values.len() <= 3000 { 1 } else { 127 };
    for (i, value) in values.iter().enumerate().step_by(step) {
        let is_same = (i as u64) < column.len() && column.get(i as u64) == *value;
        assert!(rt; is_same, "get({i})");
    }
}

/// They are read from several places on, several at a time.
fn assert_parts<E: Stored + PartialEq>(
    rt: &impl Abort,
    alloc: Global,
    values: &[E],
    column: &Column<'_, E>,
) -> Result<(), AllocError> {
    for from in [0, 1, 1023, 1024, 5000usize] {
        for len in [1, 1023, 1024, 1025, 3000usize] {
            if let Some(part) = values.get(from..from.saturating_add(len)) {
                assert_part(rt, alloc, part, column, from as u64)?;
            }
        }
    }
    Ok(())
}

/// This part is read from one value on.
fn assert_part<E: Stored + PartialEq>(
    rt: &impl Abort,
    alloc: Global,
    part: &[E],
    column: &Column<'_, E>,
    from: u64,
) -> Result<(), AllocError> {
    let mut found = vec![in alloc; E::one(); part.len()]?;
    let is_inside = from <= column.len() && found.len() as u64 <= column.len() - from;
    assert_so(rt, is_inside, "len", found.len());
    column.read(from, found.as_mut_slice());
    assert_same(rt, found.as_slice(), part, "read");
    Ok(())
}

/// They are compared with the first of them, with the last one and with the greatest number.
fn assert_all_compared<E: Stored>(
    rt: &impl Abort,
    alloc: Global,
    values: &[E],
    column: &Column<'_, E>,
) -> Result<(), AllocError> {
    if let (Some(first), Some(last)) = (values.first(), values.last()) {
        for comparison in COMPARISONS {
            for value in [*first, *last, greatest()] {
                assert_compared(rt, alloc, values, column, comparison, value)?;
            }
        }
    }
    Ok(())
}

const COMPARISONS: [Comparison; 6] = [
    Comparison::Equal,
    Comparison::NotEqual,
    Comparison::Less,
    Comparison::AtMost,
    Comparison::Greater,
    Comparison::AtLeast,
];

/// Whether a comparison holds of two numbers.
fn is_so(comparison: Comparison, x: u64, value: u64) -> bool {
    match comparison {
        Comparison::Equal => x == value,
        Comparison::NotEqual => x != value,
        Comparison::Less => x < value,
        Comparison::AtMost => x <= value,
        Comparison::Greater => x > value,
        Comparison::AtLeast => x >= value,
    }
}

/// A word of the mask that tells of each value whether a comparison holds of it.
fn mask_of<E: Stored>(values: &[E], k: usize, comparison: Comparison, value: u64) -> u64 {
    let mut mask = 0;
    for bit in 0..64u32 {
        let i = k.saturating_mul(64).saturating_add(bit as usize);
        if i < values.len() && is_so(comparison, values[i].to_number(), value) {
            mask |= 1 << bit;
        }
    }
    mask
}

/// A mask and a count tell of each value whether a comparison holds of it.
fn assert_compared<E: Stored>(
    rt: &impl Abort,
    alloc: Global,
    values: &[E],
    column: &Column<'_, E>,
    comparison: Comparison,
    value: E,
) -> Result<(), AllocError> {
    let is_len = column.len() == values.len() as u64;
    assert_so(rt, is_len, "len", values.len());
    let mut mask = vec![in alloc; u64::MAX; values.len().div_ceil(64)]?;
    column.filter(comparison, value, mask.as_mut_slice());
    let mut count = 0;
    for (k, word) in mask.iter().enumerate() {
        let expected = mask_of(values, k, comparison, value.to_number());
        count = u64::saturating_add(count, expected.count_ones() as u64);
        assert_so(rt, *word == expected, "word of a mask", k);
    }
    let is_count = column.count(comparison, value) == count;
    assert_so(rt, is_count, "count", values.len());
    Ok(())
}

/// All rows of a type, which are so many.
fn assert_rows<E: Stored + PartialEq>(
    rt: &impl Abort,
    alloc: Global,
    count: usize,
) -> Result<(), AllocError> {
    let mut found = 0usize;
    for row in &ROWS {
        if row.0 == E::T {
            assert_row::<E>(rt, alloc, row)?;
            found = found.saturating_add(1);
        }
    }
    assert_eq!(rt; found, count, "rows");
    Ok(())
}

#[test]
fn columns_of_all_kinds(rt: HostRuntime) -> Result<(), AllocError> {
    assert_rows::<u8>(&rt, rt.alloc(), 44)?;
    assert_rows::<u16>(&rt, rt.alloc(), 44)?;
    assert_rows::<u32>(&rt, rt.alloc(), 44)?;
    assert_rows::<u64>(&rt, rt.alloc(), 44)
}

/// The bounds of the column, and the number of blocks that comparisons decide, are those of the model.
fn assert_decided<E: Stored>(
    rt: &impl Abort,
    alloc: Global,
    row: &DecidedRow,
) -> Result<(), AllocError> {
    let (_bits, frames_only, bounds, decided) = *row;
    let values = values_of::<E>(alloc, 3, 66000)?;
    let values = values.as_slice();
    let is_short = values.len() < 1 << 40;
    assert_so(rt, is_short, "so many values", values.len());
    let mut bytes = vec![in alloc; 0u8; encoded_most::<E>(values.len())]?;
    let bytes = bytes.as_mut_slice();
    let count = encode(values, frames_only, true, bytes);
    let Ok(column) = Column::<E>::open(&bytes[..count]) else {
        panic!(rt; "open");
    };
    let (least, most) = column.bounds();
    assert_equal(rt, (least.to_number(), most.to_number()), bounds);
    for (value, told) in decided {
        assert_told(rt, alloc, &column, value, told)?;
    }
    Ok(())
}

/// A comparison with a value decides this number of blocks.
fn assert_told<E: Stored>(
    rt: &impl Abort,
    alloc: Global,
    column: &Column<'_, E>,
    value: u64,
    told: u64,
) -> Result<(), AllocError> {
    let is_element = value <= greatest::<E>().to_number();
    assert_so(rt, is_element, "an element", 0);
    let mut mask = vec![in alloc; 0u64; 1032]?;
    let is_len = column.len() == 66000;
    assert_so(rt, is_len, "len", 66000);
    let value = E::of_number(value);
    let found = column.filter(Comparison::Less, value, mask.as_mut_slice());
    let is_told = found == told;
    assert_so(rt, is_told, "decided blocks", told as usize);
    Ok(())
}

/// All rows of a type.
fn assert_all_decided<E: Stored>(rt: &impl Abort, alloc: Global) -> Result<(), AllocError> {
    for row in &DECIDED {
        if row.0 == E::T {
            assert_decided::<E>(rt, alloc, row)?;
        }
    }
    Ok(())
}

#[test]
fn blocks_are_decided_by_their_bounds(rt: HostRuntime) -> Result<(), AllocError> {
    assert_all_decided::<u8>(&rt, rt.alloc())?;
    assert_all_decided::<u16>(&rt, rt.alloc())?;
    assert_all_decided::<u32>(&rt, rt.alloc())?;
    assert_all_decided::<u64>(&rt, rt.alloc())
}

/// How many bytes a column of three values takes here.
const LEN: usize = 832;

/// A number that tells of these bytes whether they are a column, and of which values.
fn told<E: Stored>(rt: &impl Abort, bytes: &[u8]) -> u64 {
    let mut values = [E::zero(); 1024];
    let mut own = [0; 8192];
    match decode::<E>(bytes, &mut values) {
        Ok(count) => {
            let room = count * (E::T / 8) <= own.len();
            assert!(rt; room, "more than a block");
            let end = E::write_words(&values[..count], &mut own);
            crc32c(&own[..end]) as u64 + 1
        }
        Err(_) => 0,
    }
}

/// A number that tells of all that was told.
fn joined(total: u32, own: u64) -> u32 {
    let mut bytes = [0; 12];
    bytes[..4].copy_from_slice(&total.to_le_bytes());
    bytes[4..].copy_from_slice(&own.to_le_bytes());
    crc32c(&bytes)
}

/// Each bit turned, cut off at each place, and each byte twice.
fn told_of_changed<E: Stored>(rt: &impl Abort, column: &[u8; LEN]) -> u32 {
    let mut total = 0;
    for i in 0..LEN {
        for bit in 0..8u32 {
            let mut other = *column;
            other[i] ^= 1 << bit;
            total = joined(total, told::<E>(rt, &other));
        }
    }
    for i in 0..LEN {
        total = joined(total, told::<E>(rt, &column[..i]));
    }
    for i in 0..LEN {
        let mut other = [0; LEN + 1];
        other[..i + 1].copy_from_slice(&column[..i + 1]);
        other[i + 1..].copy_from_slice(&column[i..]);
        total = joined(total, told::<E>(rt, &other));
    }
    total
}

/// What the model says of the same bytes.
fn assert_changed<E: Stored>(rt: &impl Abort, checked: bool, expected: u32) {
    let values: [E; 3] = [value_of(2, 0), value_of(2, 1), value_of(2, 2)];
    let mut bytes = [0; 25_000];
    assert!(rt; encoded_most::<E>(3) <= bytes.len(), "room");
    let count = encode(&values, true, checked, &mut bytes);
    let Some(column) = bytes[..count].first_chunk::<LEN>() else {
        panic!(rt; "{count} bytes");
    };
    assert_eq!(rt; (count, told_of_changed::<E>(rt, column)), (LEN, expected));
}

#[test]
fn changed_columns(rt: HostRuntime) {
    assert_changed::<u8>(&rt, true, 3_859_713_841);
    assert_changed::<u8>(&rt, false, 767_847_073);
    assert_changed::<u16>(&rt, true, 3_859_713_841);
    assert_changed::<u16>(&rt, false, 2_775_979_976);
    assert_changed::<u32>(&rt, true, 3_859_713_841);
    assert_changed::<u32>(&rt, false, 2_749_147_231);
    assert_changed::<u64>(&rt, true, 3_859_713_841);
    assert_changed::<u64>(&rt, false, 2_188_802_190);
}

#[test]
fn a_value_is_stored_and_read(rt: HostRuntime) {
    let values: [u32; 5] = [7, 1_000_000, 3, 3, 4_000_000_000];
    let mut bytes = [0; 5_000];
    assert!(rt; encoded_most::<u32>(5) <= bytes.len(), "room");
    assert_eq!(rt; value_of_bytes(&values, &mut bytes, 4), Some(4_000_000_000));
}
