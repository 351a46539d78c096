//! When rows of words are taken and written.

use crate::tests::assertions::assert_equal;
use callers::lane_rows::{taken_by_rows, taken_in_all, written_by_rows};

#[test]
fn takes_words_as_they_begin(rt: HostRuntime) {
    let mut taken = [9; 8];
    taken_by_rows::<u8>(3, &[0; 384], &mut [255; 16], &mut taken);
    assert_equal(&rt, taken, [1, 1, 2, 2, 2, 3, 3, 3]);
    taken_by_rows::<u8>(4, &[0; 512], &mut [255; 16], &mut taken);
    assert_equal(&rt, taken, [1, 1, 2, 2, 3, 3, 4, 4]);
    assert_equal(
        &rt,
        (
            taken_in_all::<u8>(3, &[0; 384]),
            taken_in_all::<u64>(0, &[]),
        ),
        (3, 0),
    );
}

#[test]
fn writes_words_as_they_are_full(rt: HostRuntime) {
    let mut written = [9; 8];
    written_by_rows::<u8>(3, &[255; 16], &mut [0; 384], &mut [0; 16], &mut written);
    assert_equal(&rt, written, [0, 0, 1, 1, 1, 2, 2, 3]);
    written_by_rows::<u8>(4, &[255; 16], &mut [0; 512], &mut [0; 16], &mut written);
    assert_equal(&rt, written, [0, 1, 1, 2, 2, 3, 3, 4]);
}
