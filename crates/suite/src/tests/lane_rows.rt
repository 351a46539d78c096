//! Rows of sixteen lanes.

ghost use Rattle.std.specs.Prelude.{◌≡◌, ◌*◌, ◌≤◌, length};

use crate::tests::assertions::{assert_equal, assert_equal_at};
use fastlanes::{LaneRows, RowSink, RowWords};
use std::process::Abort;

#[test]
fn joins_words(rt: HostRuntime) {
    let ones = [u64::MAX; 16];
    assert_equal(
        &rt,
        u64::join_row(63, 0, &ones, &ones),
        [9_223_372_036_854_775_807; 16],
    );
    assert_equal(
        &rt,
        u64::join_row(64, 1, &[0; 16], &[1; 16]),
        [9_223_372_036_854_775_808; 16],
    );
    assert_equal(&rt, u64::join_row(64, 0, &[0; 16], &[1; 16]), [0; 16]);
    assert_equal(&rt, u8::join_row(0, 7, &[255; 16], &[255; 16]), [0; 16]);
    assert_equal(&rt, u8::join_row(3, 6, &[64; 16], &[1; 16]), [5; 16]);
}

/// A number of eight for each of sixteen lanes.
fn twice(numbers: [u8; 8]) -> [u8; 16] {
    let [a, b, c, d, e, f, g, h] = numbers;
    [a, b, c, d, e, f, g, h, a, b, c, d, e, f, g, h]
}

/// Lanes of eight rows of three bits: in every row the number 0, 1 and so on up to 7, and these twice.
const NUMBERS: [u8; 16] = [0, 1, 2, 3, 4, 5, 6, 7, 0, 1, 2, 3, 4, 5, 6, 7];

/// The three words of each of these lanes.
const FIRST: [u8; 16] = [
    0x00, 0x49, 0x92, 0xDB, 0x24, 0x6D, 0xB6, 0xFF, 0x00, 0x49, 0x92, 0xDB, 0x24, 0x6D, 0xB6, 0xFF,
];

const SECOND: [u8; 16] = [
    0x00, 0x92, 0x24, 0xB6, 0x49, 0xDB, 0x6D, 0xFF, 0x00, 0x92, 0x24, 0xB6, 0x49, 0xDB, 0x6D, 0xFF,
];

const THIRD: [u8; 16] = [
    0x00, 0x24, 0x49, 0x6D, 0x92, 0xB6, 0xDB, 0xFF, 0x00, 0x24, 0x49, 0x6D, 0x92, 0xB6, 0xDB, 0xFF,
];

/// These words, put row by row.
fn packed_numbers() -> [u8; 384] {
    let mut packed = [0xEE; 384];
    let mut sink = RowSink::<u8>::new(&mut packed, 3, 0);
    sink.put_row(&FIRST);
    sink.put_row(&SECOND);
    sink.put_row(&THIRD);
    packed
}

/// Each row of the first sixteen lanes has these digits, and after it the carry is this, row by row, from what it is before
/// the first one.
fn assert_digits(
    rt: &impl Abort,
    width: usize,
    packed: &[u8],
    digits: &[u8; 16],
    before: &[u8; 16],
    carries: &[[u8; 16]; 8],
)
    requires width { width ≤ 8 }
    requires words { length packed.now ≡ 128 * width }
{
    let mut words = RowWords::<u8>::new(packed, width, 0);
    let mut carry = *before;
    for row in 0..8 {
        let found = u8::unpack_row_from(width, row, &mut words, &mut carry);
        assert_equal_at(rt, row, (found, carry), (*digits, carries[row]));
    }
}

#[test]
fn steps_through_rows_of_digits(rt: HostRuntime) {
    // The last row ends its word, and takes none: the carry stays.
    let carries = [FIRST, FIRST, SECOND, SECOND, SECOND, THIRD, THIRD, THIRD];
    assert_digits(&rt, 3, &packed_numbers(), &NUMBERS, &[0xAA; 16], &carries);
}

#[test]
fn keeps_the_carry_where_no_words_are(rt: HostRuntime) {
    assert_digits(&rt, 0, &[], &[0; 16], &[0xAA; 16], &[[0xAA; 16]; 8]);
    // At the full width each row takes its words, and they are the carry.
    let words = [0x5A; 16];
    assert_digits(&rt, 8, &[0x5A; 1024], &words, &[0xAA; 16], &[words; 8]);
}

/// After each row of these values so many rows of words are written, and this is left: a row of the table for each.
fn assert_left(
    rt: &impl Abort,
    width: usize,
    packed: &mut [u8],
    values: &[u8; 16],
    rows: &[(usize, [u8; 16]); 8],
)
    requires width { width ≤ 8 }
    requires words { length packed.old ≡ 128 * width }
{
    let mut sink = RowSink::<u8>::new(packed, width, 0);
    let mut carry = [0; 16];
    for row in 0..8 {
        u8::pack_row_into(width, row, values, &mut sink, &mut carry);
        assert_equal_at(rt, row, (sink.written(), carry), rows[row]);
    }
}

#[test]
fn steps_through_rows_of_values(rt: HostRuntime) {
    let rows = [
        (0, NUMBERS),
        (0, twice([0, 9, 18, 27, 36, 45, 54, 63])),
        // Of each number the highest bit is left.
        (1, twice([0, 0, 0, 0, 1, 1, 1, 1])),
        (1, twice([0, 2, 4, 6, 9, 11, 13, 15])),
        (1, twice([0, 18, 36, 54, 73, 91, 109, 127])),
        (2, twice([0, 0, 1, 1, 2, 2, 3, 3])),
        (2, twice([0, 4, 9, 13, 18, 22, 27, 31])),
        (3, [0; 16]),
    ];
    let mut packed = [0xEE; 384];
    assert_left(&rt, 3, &mut packed, &NUMBERS, &rows);
    // The words of the lanes after these stay.
    assert_equal(&rt, packed, packed_numbers());
}
