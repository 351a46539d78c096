//! Packing and unpacking blocks.

use crate::tests::hostile::calls::Element;
use crate::tests::hostile::worked::{Example, only, places};
use crate::vectors::{Call, Numbers, Packer, Reader};
use std::process::Abort;

const PACK: Call = Call::Pack(Packer::Whole);

const UNPACK: Call = Call::Unpack(Reader::Whole);

/// A block of only these values packs to only these words.
fn assert_packed(
    rt: &impl Abort,
    example: Example,
    values: &[(usize, u64)],
    words: &[(usize, u64)],
) {
    let words = example.words(rt, words);
    example.gives(rt, PACK, &only(rt, values), &words);
}

/// And it is what they are unpacked to.
fn assert_words(
    rt: &impl Abort,
    element: Element,
    width: usize,
    values: &[(usize, u64)],
    words: &[(usize, u64)],
) {
    let example = Example::of(element, width);
    assert_packed(rt, example, values, words);
    example.gives(rt, UNPACK, &example.words(rt, words), &only(rt, values));
}

/// What a block is packed to, of which it comes back.
fn packed_and_back(rt: &impl Abort, example: Example, values: &Numbers) -> Numbers {
    let words = example.called(PACK, values);
    example.gives(rt, PACK, values, &words);
    example.gives(rt, UNPACK, &words, values);
    words
}

#[test]
fn straddling_digits(rt: HostRuntime) {
    assert_words(&rt, Element::U8, 3, &[(256, 5)], &[(0, 64), (128, 1)]);
    assert_words(
        &rt,
        Element::U64,
        63,
        &[(128, 0x4000_0000_0000_0001)],
        &[(0, 0x8000_0000_0000_0000), (16, 0x2000_0000_0000_0000)],
    );
}

#[test]
fn high_bits_are_dropped(rt: HostRuntime) {
    let narrow = Example::of(Element::U8, 1);
    assert_packed(&rt, narrow, &[(128, 3)], &[(0, 2)]);
    let wide = Example::of(Element::U16, 4);
    assert_packed(&rt, wide, &[(64, 0x1F)], &[(128, 0xF)]);
}

#[test]
fn words_that_pack_never_wrote(rt: HostRuntime) {
    let example = Example::of(Element::U8, 3);
    example.gives(
        &rt,
        UNPACK,
        &only(&rt, &[(261, 0x80)]),
        &only(&rt, &[(901, 4)]),
    );
}

#[test]
fn no_words_at_width_zero(rt: HostRuntime) {
    let example = Example::of(Element::U32, 0);
    example.gives(&rt, PACK, &[7; 1024], &example.words(&rt, &[]));
    example.gives(&rt, UNPACK, &[7; 1024], &[0; 1024]);
}

#[test]
fn second_row_and_last_place(rt: HostRuntime) {
    // The row after row 0 of lane 0 is at the place 128 for every type.
    assert_words(&rt, Element::U8, 1, &[(128, 1)], &[(0, 2)]);
    assert_words(&rt, Element::U16, 1, &[(128, 1)], &[(0, 2)]);
    assert_words(&rt, Element::U32, 1, &[(128, 1)], &[(0, 2)]);
    assert_words(&rt, Element::U64, 1, &[(128, 1)], &[(0, 2)]);
    // The last place is the last row of the last lane for every type.
    assert_words(&rt, Element::U8, 7, &[(1023, 1)], &[(895, 2)]);
    assert_words(&rt, Element::U16, 15, &[(1023, 1)], &[(959, 2)]);
    assert_words(&rt, Element::U32, 31, &[(1023, 1)], &[(991, 2)]);
    assert_words(&rt, Element::U64, 63, &[(1023, 1)], &[(1007, 2)]);
}

#[test]
fn one_value_everywhere(rt: HostRuntime) {
    let example = Example::of(Element::U8, 5);
    let mut words = example.words(&rt, &[]);
    for place in 0..640usize {
        words[place] = [0xB5, 0xD6, 0x5A, 0x6B, 0xAD][place / 128 % 5];
    }
    example.gives(&rt, PACK, &[21; 1024], &words);
}

#[test]
fn all_places_in_fifteen_bits(rt: HostRuntime) {
    let example = Example::of(Element::U16, 15);
    let _words = packed_and_back(&rt, example, &places());
}

/// At the full width a word is an element, in the order of rows.
#[test]
fn full_width_is_a_copy_in_the_order_of_rows(rt: HostRuntime) {
    let example = Example::of(Element::U64, 64);
    let words = packed_and_back(&rt, example, &places());
    let is_in_order = words[16] == 128 && words[128] == 64 && words[1023] == 1023;
    example.check(&rt, is_in_order, "pack");
}
