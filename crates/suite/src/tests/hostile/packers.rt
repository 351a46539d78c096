//! Packing of every input, over outputs that held other words before, at each width that is known at run time and at those
//! that are constants.

use crate::tests::hostile::expected::{differences_from, digits_of, low_bits};
use crate::tests::hostile::{Case, Property, everywhere, name_of};
use crate::vectors::{Call, GroupCall, Numbers, Packer, Reader};
use std::process::Abort;

/// The words that a block is packed to have these digits, also at a constant width.
fn assert_digits(rt: &impl Abort, case: Case, by: Packer, block: &Numbers, digits: &Numbers) {
    let call = Call::Pack(by);
    let words = case.called(call, block);
    let holds = digits_of(&words, case.layout, case.width) == *digits;
    case.check(rt, holds, name_of(call));
    if case.constant().is_some() {
        let words = case.called_at(call, block);
        case.check(rt, words.is_some(), name_of(call));
        let words = words.unwrap_or([0; 1024]);
        let holds = digits_of(&words, case.layout, case.width) == *digits;
        case.check(rt, holds, name_of(call));
    }
}

/// The words of `for_pack` have as digits what is left of the elements' differences from the reference.
struct Frames;

impl Property for Frames {
    fn assert(rt: &impl Abort, case: Case, block: &Numbers) {
        for reference in case.references() {
            let differences = differences_from(block, case.layout, reference);
            let digits = low_bits(&differences, case.width);
            assert_digits(rt, case, Packer::Frame(reference), block, &digits);
        }
    }
}

/// Words that `unpack` unpacked come back.
struct PacksAgain;

impl Property for PacksAgain {
    fn assert(rt: &impl Abort, case: Case, words: &Numbers) {
        let unpacked = case.called(Call::Unpack(Reader::Whole), words);
        let packed = case.called(Call::Pack(Packer::Whole), &unpacked);
        let is_back = *case.words(&packed) == *case.words(words);
        case.check(rt, is_back, "pack of unpacked words");
    }
}

/// The words of these lanes are those of the whole packed block, and the others are what they were.
fn assert_words(
    rt: &impl Abort,
    case: Case,
    words: &Numbers,
    whole: &Numbers,
    lanes: (usize, usize),
    call: &str,
) {
    let (first, count) = lanes;
    let mut lane = 0usize;
    for (word, wanted) in case.words(words).iter().zip(whole) {
        let is_written = lane.wrapping_sub(first) < count;
        let wanted = if is_written { *wanted } else { case.filled() };
        case.check(rt, *word == wanted, call);
        lane = lane.wrapping_add(1);
        if lane == case.layout.lanes {
            lane = 0;
        }
    }
}

/// `pack_lane` writes the words that the lane has in the whole packed block, and the other lanes' words stay.
fn assert_lane(rt: &impl Abort, case: Case, block: &Numbers, whole: &Numbers, lane: usize) {
    let words = case.called(Call::Pack(Packer::Lane(lane)), block);
    assert_words(rt, case, &words, whole, (lane, 1), "pack_lane");
}

/// `pack_group_into` writes the words that its sixteen lanes have in the whole packed block, each once, and the other lanes'
/// words stay.
fn assert_group(rt: &impl Abort, case: Case, block: &Numbers, whole: &Numbers, lane: usize) {
    let (words, put) = case.grouped(GroupCall::Pack(lane), block);
    case.check(rt, put == case.width, "pack_group_into");
    assert_words(rt, case, &words, whole, (lane, 16), "pack_group_into");
}

/// Both hold of every lane and group.
fn assert_lanes(rt: &impl Abort, case: Case, block: &Numbers, whole: &Numbers) {
    for lane in 0..case.layout.lanes {
        assert_lane(rt, case, block, whole, lane);
        if lane % 16 == 0 {
            assert_group(rt, case, block, whole, lane);
        }
    }
}

/// The words of `pack` have as digits what is left of the elements at the width, and `pack_rows`, `pack_wide`, and the calls for
/// lanes write the same words.
struct Packs;

impl Property for Packs {
    fn assert(rt: &impl Abort, case: Case, block: &Numbers) {
        let digits = low_bits(block, case.width);
        assert_digits(rt, case, Packer::Whole, block, &digits);
        let whole = case.over_zeros().called(Call::Pack(Packer::Whole), block);
        for by in [Packer::Rows, Packer::Wide] {
            let words = case.called(Call::Pack(by), block);
            let is_whole = *case.words(&words) == *case.words(&whole);
            case.check(rt, is_whole, name_of(Call::Pack(by)));
        }
        assert_lanes(rt, case, block, &whole);
    }
}

#[test]
fn every_input_is_packed(rt: HostRuntime) {
    everywhere::<Packs>(&rt);
    everywhere::<Frames>(&rt);
    everywhere::<PacksAgain>(&rt);
}
