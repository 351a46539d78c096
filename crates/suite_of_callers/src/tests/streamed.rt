//! Packed words that come row by row.

ghost use Rattle.std.specs.Prelude.{◌+◌, ◌≤◌, length};

use crate::tests::assertions::assert_equal;
use crate::tests::{packed_words, ramp};
use callers::streamed::unpack_streamed;
use fastlanes::{BitPacking, FastLanes, RowWords, index};
use std::fmt::Debug;
use std::process::Abort;

/// Compares the digits of the sixteen lanes from `lane` on with those of a block.
fn assert_rows<E: FastLanes + Debug>(
    rt: &impl Abort,
    rows: &[[E; 16]],
    block: &[E; 1024],
    lane: usize,
)
    requires rows { length rows.now ≤ 64 }
    requires lanes { lane + 16 ≤ 128 }
{
    for row in 0..rows.len() {
        for j in 0..16 {
            let place = index(row, lane + j);
            assert_equal(rt, (place, Some(&rows[row][j])), (place, block.get(place)));
        }
    }
}

#[test]
fn streams_bytes(rt: HostRuntime) {
    let packed = packed_words::<u8, 3, 384>(&ramp(3, 8));
    let mut unpacked = [9; 1024];
    u8::unchecked_unpack(3, &packed, &mut unpacked);
    for group in 0..8 {
        let mut words = RowWords::<u8>::new(&packed, 3, 16 * group);
        let mut rows = [[9; 16]; 8];
        unpack_streamed::<u8, RowWords<'_, u8>>(3, &mut words, &mut rows);
        assert_equal(&rt, words.taken(), 3);
        assert_rows(&rt, &rows, &unpacked, 16 * group);
    }
}

#[test]
fn streams_words_of_16_bits(rt: HostRuntime) {
    let packed = packed_words::<u16, 5, 320>(&ramp(5, 32));
    let mut words = RowWords::<u16>::new(&packed, 5, 32);
    let mut rows = [[99; 16]; 16];
    unpack_streamed::<u16, RowWords<'_, u16>>(5, &mut words, &mut rows);
    assert_equal(&rt, words.taken(), 5);
    let mut unpacked = [99; 1024];
    u16::unchecked_unpack(5, &packed, &mut unpacked);
    assert_rows(&rt, &rows, &unpacked, 32);
}
