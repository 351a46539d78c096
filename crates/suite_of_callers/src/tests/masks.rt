//! Masks whose ones are counted, and a value of our own that packed words stand for.

use crate::tests::assertions::assert_equal;
use crate::tests::{packed_words, ramp};
use callers::masks::{Mark, count_equal, ones, places_of_better};

#[test]
fn counts_ones(rt: HostRuntime) {
    assert_equal(&rt, ones(&[0; 16]), 0);
    assert_equal(&rt, ones(&[u64::MAX; 16]), 1024);
    let mut words = [0; 16];
    words[0] = 5;
    words[15] = 0x8000_0000_0000_0000;
    assert_equal(&rt, ones(&words), 3);
}

#[test]
fn counts_equal_digits(rt: HostRuntime) {
    let packed = packed_words::<u16, 3, 192>(&ramp(1, 8));
    assert_equal(&rt, count_equal::<3, 192>(&packed, 5), 128);
    assert_equal(&rt, count_equal::<3, 192>(&packed, 8), 0);
    let mut values = [0u16; 1024];
    values[195] = 9;
    let packed = packed_words::<u16, 4, 256>(&values);
    assert_equal(&rt, count_equal::<4, 256>(&packed, 9), 1);
    assert_equal(&rt, count_equal::<4, 256>(&packed, 0), 1023);
    assert_equal(&rt, count_equal::<0, 0>(&[], 0), 1024);
}

#[test]
fn compares_values_of_our_own(rt: HostRuntime) {
    let mut values = [7u8; 1024];
    values[195] = 2;
    let packed = packed_words::<u8, 3, 384>(&values);
    let mut expected = [0; 16];
    expected[3] = 8;
    assert_equal(
        &rt,
        places_of_better::<3, 384>(&packed, Mark { points: 3 }),
        expected,
    );
    assert_equal(
        &rt,
        places_of_better::<3, 384>(&packed, Mark { points: 8 }),
        [u64::MAX; 16],
    );
}
