//! Frames of reference.

use crate::tests::hostile::calls::Element;
use crate::tests::hostile::worked::{Example, places, ramp};
use crate::vectors::{Call, Packer, Reader};

/// What packs differences from a reference.
fn frame(reference: u64) -> Call {
    Call::Pack(Packer::Frame(reference))
}

/// What unpacks sums with a reference.
fn unframe(reference: u64) -> Call {
    Call::Unpack(Reader::Frame(reference))
}

#[test]
fn a_value_too_far_from_the_reference(rt: HostRuntime) {
    let example = Example::of(Element::U8, 2);
    let mut values = ramp(1, 4);
    for value in values.iter_mut() {
        *value = value.wrapping_add(254) % 256;
    }
    values[5] = 2;
    let words = example.called(frame(254), &values);
    values[5] = 254;
    example.gives(&rt, unframe(254), &words, &values);
}

#[test]
fn no_words_are_the_reference(rt: HostRuntime) {
    let example = Example::of(Element::U32, 0);
    example.gives(&rt, unframe(9), &[0; 1024], &[9; 1024]);
}

#[test]
fn digits_are_differences(rt: HostRuntime) {
    let example = Example::of(Element::U16, 15);
    let mut values = places();
    for value in values.iter_mut() {
        *value = value.wrapping_add(10);
    }
    let words = example.called(frame(10), &values);
    example.gives(&rt, frame(10), &values, &words);
    example.gives(&rt, Call::Unpack(Reader::Whole), &words, &places());
    example.gives(&rt, unframe(10), &words, &values);
}

#[test]
fn the_widest_type(rt: HostRuntime) {
    let example = Example::of(Element::U64, 1);
    let words = [u64::MAX; 1024];
    example.gives(&rt, frame(u64::MAX), &[0; 1024], &words);
    example.gives(&rt, unframe(u64::MAX), &words, &[0; 1024]);
}
