//! Comparison of packed blocks, and the mask in the order of lanes and of places.

use crate::tests::hostile::calls::Element;
use crate::tests::hostile::worked::{Example, only, only_bit, places};
use crate::vectors::{Call, Comparison, Form, Numbers, Packer, Question, Sign, with_bits};
use std::process::Abort;

/// What is asked about a value, as a number without a sign or with one.
fn asked(comparison: Comparison, sign: Sign, value: u64) -> Call {
    Call::Compare(Question {
        comparison,
        sign,
        value,
    })
}

/// An output with this mask, behind which it holds ones.
fn mask(words: &[u64; 16]) -> Numbers {
    with_bits(&[u64::MAX; 1024], words)
}

/// The mask of a question has just one bit, and in the order of places it is that of the place.
fn assert_only(
    rt: &impl Abort,
    example: Example,
    call: Call,
    words: &Numbers,
    bit: usize,
    place: usize,
) {
    let found = mask(&only_bit(bit));
    example.gives(rt, call, words, &found);
    let moved = example.called(Call::MoveBits(Form::Root, false), &found);
    example.check(rt, moved == mask(&only_bit(place)), "transpose_bits");
}

#[test]
fn each_value_of_a_ramp(rt: HostRuntime) {
    let example = Example::of(Element::U32, 10);
    let words = example.called(Call::Pack(Packer::Whole), &places());
    for lane in 0..32usize {
        for row in 0..32usize {
            let place = example.element.layout().place(row, lane);
            let call = asked(Comparison::Equal, Sign::Without, place as u64);
            assert_only(&rt, example, call, &words, lane * 32 + row, place);
        }
    }
}

#[test]
fn greater_than_a_bound(rt: HostRuntime) {
    let example = Example::of(Element::U16, 4);
    let words = example.called(Call::Pack(Packer::Whole), &only(&rt, &[(195, 9)]));
    let call = asked(Comparison::Greater, Sign::Without, 8);
    assert_only(&rt, example, call, &words, 57, 195);
}

/// A digit below the full width is extended with zeros, so that it is no negative number.
#[test]
fn signs(rt: HostRuntime) {
    let ones = [255; 1024];
    let with = asked(Comparison::Less, Sign::With, 0);
    let narrow = Example::of(Element::U8, 7);
    let words = narrow.called(Call::Pack(Packer::Whole), &ones);
    narrow.gives(&rt, with, &words, &mask(&[0; 16]));
    let wide = Example::of(Element::U8, 8);
    wide.gives(&rt, with, &ones, &mask(&[u64::MAX; 16]));
    let without = asked(Comparison::Less, Sign::Without, 0);
    wide.gives(&rt, without, &ones, &mask(&[0; 16]));
}

#[test]
fn no_words(rt: HostRuntime) {
    let example = Example::of(Element::U64, 0);
    let equal = asked(Comparison::Equal, Sign::Without, 0);
    example.gives(&rt, equal, &[7; 1024], &mask(&[u64::MAX; 16]));
    let less = asked(Comparison::Less, Sign::Without, 0);
    example.gives(&rt, less, &[7; 1024], &mask(&[0; 16]));
}
