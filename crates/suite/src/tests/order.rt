//! Places of rows, and of the elements of a lane that has neighbours in it.

ghost use Rattle.std.specs.Prelude.{◌<◌};

use crate::tests::assertions::{assert_equal, assert_equal_at};
use fastlanes::{FL_ORDER, index, lane_of, row_of, transpose};

#[test]
fn order_is_its_own_inverse(rt: HostRuntime) {
    for i in 0..8usize {
        let once = FL_ORDER[i];
        assert!(rt; once < 8);
        assert_equal(&rt, FL_ORDER[once], i);
    }
}

#[test]
fn places_of_first_rows(rt: HostRuntime) {
    let places = [0, 64, 32, 96, 16, 80, 48, 112];
    for k in 0..8usize {
        assert_equal_at(&rt, k, index(8 * k, 0), places[k]);
    }
    assert_equal(&rt, index(7, 127), 1023);
    assert_equal(&rt, index(15, 63), 1023);
    assert_equal(&rt, index(31, 31), 1023);
    assert_equal(&rt, index(63, 15), 1023);
}

/// The row and the lane of a place for `u8`, `u16`, `u32` and `u64`.
fn rows_and_lanes(place: usize) -> [(usize, usize); 4]
    requires { place < 1024 }
{
    [
        (row_of::<u8>(place), lane_of::<u8>(place)),
        (row_of::<u16>(place), lane_of::<u16>(place)),
        (row_of::<u32>(place), lane_of::<u32>(place)),
        (row_of::<u64>(place), lane_of::<u64>(place)),
    ]
}

#[test]
fn rows_and_lanes_of_places(rt: HostRuntime) {
    for (place, expected) in [
        (195, [(1, 67), (9, 3), (9, 3), (9, 3)]),
        (16, [(0, 16), (0, 16), (0, 16), (32, 0)]),
        (1023, [(7, 127), (15, 63), (31, 31), (63, 15)]),
    ] {
        assert!(rt; place < 1024);
        assert_equal_at(&rt, place, rows_and_lanes(place), expected);
    }
}

#[test]
fn transposed_indexes(rt: HostRuntime) {
    for (idx, wanted) in [
        (0, 0),
        (1, 64),
        (16, 32),
        (32, 16),
        (48, 48),
        (64, 8),
        (128, 1),
        (1023, 1023),
        (1024, 8),
        (usize::MAX, 144115188075856887),
    ] {
        assert_equal_at(&rt, idx, transpose(idx), wanted);
    }
}

#[test]
fn transposed_indexes_are_a_permutation(rt: HostRuntime) {
    let mut seen = [false; 1024];
    for i in 0..1024 {
        let at = transpose(i);
        assert!(rt; at < 1024 && !seen[at], "of {i}");
        seen[at] = true;
    }
    assert_equal(&rt, seen, [true; 1024]);
}
