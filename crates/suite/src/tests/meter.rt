//! Words that are moved one after another.

use crate::tests::assertions::assert_equal;
use crate::tests::numbers::ramp;
use fastlanes::{LaneSink, LaneWords, RowSink, RowWords, WordProbe};

/// Words of which each is its own place.
fn places() -> [u16; 192] {
    ramp(0, 1, 1, 192)
}

#[test]
fn gives_the_words_of_a_lane(rt: HostRuntime) {
    let packed = places();
    let mut words = LaneWords::<u16>::new(&packed, 3, 5);
    assert_equal(&rt, (words.width(), words.lane(), words.taken()), (3, 5, 0));
    assert_equal(&rt, words.next_word(), 5);
    assert_equal(&rt, words.next_word(), 69);
    assert_equal(&rt, words.next_word(), 133);
    assert_equal(&rt, words.taken(), 3);
}

#[test]
fn gives_any_word_of_a_lane(rt: HostRuntime) {
    let packed = places();
    let mut probe = WordProbe::<u16>::new(&packed, 3, 5);
    assert_equal(&rt, (probe.width(), probe.lane(), probe.reads()), (3, 5, 0));
    assert_equal(&rt, probe.word(2), 133);
    assert_equal(&rt, probe.word(0), 5);
    assert_equal(&rt, probe.word(2), 133);
    assert_equal(&rt, probe.reads(), 3);
}

#[test]
fn puts_the_words_of_a_lane(rt: HostRuntime) {
    let mut packed = [9; 192];
    let mut sink = LaneSink::<u16>::new(&mut packed, 3, 5);
    assert_equal(&rt, (sink.width(), sink.lane(), sink.written()), (3, 5, 0));
    sink.put_word(1);
    sink.put_word(2);
    assert_equal(&rt, sink.written(), 2);
    let mut expected = [9; 192];
    expected[5] = 1;
    expected[69] = 2;
    assert_equal(&rt, packed, expected);
}

#[test]
fn gives_rows_of_words(rt: HostRuntime) {
    let packed = places();
    let mut words = RowWords::<u16>::new(&packed, 3, 16);
    assert_equal(
        &rt,
        (words.width(), words.lane(), words.taken()),
        (3, 16, 0),
    );
    assert_equal(&rt, words.next_row(), ramp(16, 1, 1, 16));
    assert_equal(&rt, words.next_row(), ramp(80, 1, 1, 16));
    assert_equal(&rt, words.taken(), 2);
}

#[test]
fn puts_rows_of_words(rt: HostRuntime) {
    let mut packed = [99; 192];
    let mut sink = RowSink::<u16>::new(&mut packed, 3, 16);
    assert_equal(&rt, (sink.width(), sink.lane(), sink.written()), (3, 16, 0));
    sink.put_row(&ramp(0, 1, 1, 16));
    sink.put_row(&[77; 16]);
    assert_equal(&rt, sink.written(), 2);
    let mut expected = [99; 192];
    for j in 0..16 {
        expected[16 + j] = j as u16;
        expected[80 + j] = 77;
    }
    assert_equal(&rt, packed, expected);
}
