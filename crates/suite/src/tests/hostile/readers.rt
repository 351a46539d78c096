//! Words that `pack` never wrote, through every reader, at each width that is known at run time and at those that are
//! constants.

use crate::tests::hostile::expected::{compared_values, digits_of, mask_of, sums_with};
use crate::tests::hostile::{Case, Property, assert_both_give, assert_gives, everywhere};
use crate::vectors::{COMPARISONS, Call, GroupCall, Numbers, Question, Reader, Sign, with_bits};
use std::process::Abort;

/// All readers of blocks give the digits, and that of chosen places those at the first and the last one.
fn assert_digits(rt: &impl Abort, case: Case, words: &Numbers, digits: &Numbers) {
    for by in [Reader::Whole, Reader::Single] {
        assert_both_give(rt, case, Call::Unpack(by), words, digits);
    }
    let call = Call::Unpack(Reader::Ends);
    assert_both_give(rt, case, call, words, &ends(case, digits));
    for by in [Reader::Rows, Reader::Wide] {
        assert_gives(rt, case, Call::Unpack(by), words, digits);
    }
}

/// An output that has the first and the last digit in turn, five in all, and else what it held before.
fn ends(case: Case, digits: &Numbers) -> Numbers {
    let mut ends = [case.filled(); 1024];
    ends[0] = digits[0];
    ends[1] = digits[1023];
    ends[2] = digits[0];
    ends[3] = digits[1023];
    ends[4] = digits[0];
    ends
}

/// `unfor_pack` gives the sums of the digits and a reference.
fn assert_sums(rt: &impl Abort, case: Case, words: &Numbers, digits: &Numbers) {
    for reference in case.references() {
        let sums = sums_with(digits, case.layout, reference);
        let call = Call::Unpack(Reader::Frame(reference));
        assert_both_give(rt, case, call, words, &sums);
    }
}

/// `unpack_lane` calls its kernel with each row's place and digit, in the order of the rows.
fn assert_lane(rt: &impl Abort, case: Case, words: &Numbers, digits: &Numbers, lane: usize) {
    let walk = case.element.walked(case.width, words, lane);
    case.check(rt, walk.rows == case.layout.bits, "unpack_lane");
    for row in 0..case.layout.bits.min(64) {
        let place = case.layout.place(row, lane);
        let is_row = walk.places[row] == place && walk.digits[row] == digits[place];
        case.check(rt, is_row, "unpack_lane");
    }
}

/// `unpack_group_from` gives the digits of its sixteen lanes, takes each of their words once, and leaves the other places.
fn assert_group(rt: &impl Abort, case: Case, words: &Numbers, digits: &Numbers, lane: usize) {
    let (output, taken) = case.grouped(GroupCall::Unpack(lane), words);
    case.check(rt, taken == case.width, "unpack_group_from");
    let mut expected = [case.filled(); 1024];
    for row in 0..case.layout.bits {
        for j in 0..16usize {
            let place = case.layout.place(row, lane.wrapping_add(j));
            expected[place] = digits[place];
        }
    }
    case.check(rt, output == expected, "unpack_group_from");
}

/// Both hold of every lane and group.
fn assert_lanes(rt: &impl Abort, case: Case, words: &Numbers, digits: &Numbers) {
    for lane in 0..case.layout.lanes {
        assert_lane(rt, case, words, digits, lane);
        if lane % 16 == 0 {
            assert_group(rt, case, words, digits, lane);
        }
    }
}

/// `unpack_cmp` gives the mask of the answers for the digits.
fn assert_mask(rt: &impl Abort, case: Case, words: &Numbers, digits: &Numbers, question: Question) {
    let mask = mask_of(digits, case.layout, question);
    let expected = with_bits(&[case.fill; 1024], &mask);
    assert_both_give(rt, case, Call::Compare(question), words, &expected);
}

/// That holds of all comparisons and values, without a sign and with one.
fn assert_masks(rt: &impl Abort, case: Case, words: &Numbers, digits: &Numbers) {
    for value in compared_values(digits, case.width) {
        for comparison in COMPARISONS {
            for sign in [Sign::Without, Sign::With] {
                let question = Question {
                    comparison,
                    sign,
                    value,
                };
                assert_mask(rt, case, words, digits, question);
            }
        }
    }
}

/// All of these hold of any words.
struct Reads;

impl Property for Reads {
    fn assert(rt: &impl Abort, case: Case, words: &Numbers) {
        let digits = digits_of(words, case.layout, case.width);
        assert_digits(rt, case, words, &digits);
        assert_sums(rt, case, words, &digits);
        assert_lanes(rt, case, words, &digits);
        assert_masks(rt, case, words, &digits);
    }
}

#[test]
fn any_words_are_read(rt: HostRuntime) {
    everywhere::<Reads>(&rt);
}
