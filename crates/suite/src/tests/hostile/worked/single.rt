//! One value.

use crate::tests::hostile::calls::Element;
use crate::tests::hostile::worked::{Example, only};
use crate::vectors::{Call, Numbers, Reader};
use std::process::Abort;

/// The value at each place of packed words is that of the block.
fn assert_each(rt: &impl Abort, example: Example, words: &Numbers, values: &Numbers) {
    example.gives(rt, Call::Unpack(Reader::Single), words, values);
}

#[test]
fn straddled_digits(rt: HostRuntime) {
    let example = Example::of(Element::U8, 3);
    let words = only(&rt, &[(0, 64), (128, 1)]);
    assert_each(&rt, example, &words, &only(&rt, &[(256, 5)]));
    let words = only(&rt, &[(261, 0x80)]);
    assert_each(&rt, example, &words, &only(&rt, &[(901, 4)]));
}
