//! Runs there and back.

use crate::tests::assertions::assert_equal;
use callers::runs::runs_there_and_back;

#[test]
fn three_runs(rt: HostRuntime) {
    let mut values = [7u16; 1024];
    values[2] = 9;
    let mut dictionary = [0; 1024];
    let mut indexes = [0; 1024];
    let mut back = [0; 1024];
    let count = runs_there_and_back(&values, &mut dictionary, &mut indexes, &mut back);
    assert_equal(&rt, count, 3);
    assert_equal(&rt, back, values);
}
