//! Transposes of bits.

use crate::tests::hostile::calls::{ELEMENTS, Element};
use crate::tests::hostile::worked::{Example, only_bit};
use crate::vectors::{BLOCKS, Call, Form, Input, bits_of, with_bits};
use fastlanes::FL_ORDER;
use std::process::Abort;

/// What a call makes of a block.
fn moved_by(form: Form, element: Element, words: &[u64; 16], is_back: bool) -> [u64; 16] {
    let example = Example::of(element, 0);
    let output = example.called(Call::MoveBits(form, is_back), &with_bits(&[0; 1024], words));
    bits_of(&output)
}

/// What the three calls make of a block, there or back.
fn moved(rt: &impl Abort, element: Element, words: &[u64; 16], is_back: bool) -> [u64; 16] {
    let root = moved_by(Form::Root, element, words, is_back);
    let scalar = moved_by(Form::Scalar, element, words, is_back);
    let lanes = moved_by(Form::Lanes, element, words, is_back);
    let example = Example::of(element, 0);
    example.check(rt, root == scalar && root == lanes, "a transpose of bits");
    root
}

/// A bit alone in the order of lanes goes to a place, and comes back from there.
fn goes_to(rt: &impl Abort, element: Element, bit: usize, place: usize) {
    let (from, to) = (only_bit(bit), only_bit(place));
    let example = Example::of(element, 0);
    example.check(rt, moved(rt, element, &from, false) == to, "transpose_bits");
    example.check(
        rt,
        moved(rt, element, &to, true) == from,
        "untranspose_bits",
    );
}

#[test]
fn single_bits(rt: HostRuntime) {
    // The place 195 is row 9 of lane 3, and at 8 bits row 1 of lane 67.
    goes_to(&rt, Element::U8, 537, 195);
    goes_to(&rt, Element::U16, 57, 195);
    goes_to(&rt, Element::U32, 105, 195);
    goes_to(&rt, Element::U64, 201, 195);
    // Row 1 of lane 0.
    goes_to(&rt, Element::U32, 1, 128);
    // The place 1 is row 0 of lane 1. At 64 bits that is another bit.
    goes_to(&rt, Element::U8, 8, 1);
    goes_to(&rt, Element::U64, 64, 1);
}

#[test]
fn each_bit_of_a_transposed_block(rt: HostRuntime) {
    for i in 0..1024usize {
        let from = i % 16 * 64 + FL_ORDER[i / 16 % 8] * 8 + i / 128;
        assert!(rt; from < 1024);
        goes_to(&rt, Element::U64, from, i);
    }
}

/// A block comes back from where each of the two transposes brings it, and stays as it is where all its bits are equal.
fn goes_and_comes(rt: &impl Abort, element: Element, input: Input) {
    let block = bits_of(&input.numbers(64));
    let forth = moved(rt, element, &block, false);
    let back = moved(rt, element, &block, true);
    let example = Example::of(element, 0);
    example.check(
        rt,
        moved(rt, element, &forth, true) == block,
        "untranspose_bits",
    );
    example.check(
        rt,
        moved(rt, element, &back, false) == block,
        "transpose_bits",
    );
    if block == [0; 16] || block == [u64::MAX; 16] {
        example.check(
            rt,
            forth == block && back == block,
            "a transpose of equal bits",
        );
    }
}

#[test]
fn there_and_back(rt: HostRuntime) {
    for input in BLOCKS {
        for element in ELEMENTS {
            goes_and_comes(&rt, element, input);
        }
    }
}
