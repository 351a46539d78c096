//! Differences and sums along the lanes, each from a base that is the lane's number of `odd`, over outputs that held other
//! numbers before.

use crate::tests::hostile::expected::{Along, digits_of};
use crate::tests::hostile::{
    Case, Property, assert_both_give, assert_gives, everywhere, without_width,
};
use crate::vectors::{Call, Input, Numbers, Step};
use std::process::Abort;

/// `delta` gives the differences along the lanes, and `undelta` what the elements add up to.
struct Steps;

impl Property for Steps {
    fn assert(rt: &impl Abort, case: Case, block: &Numbers) {
        let base = Input::Odd.numbers(case.layout.bits);
        let differences = Along::Differences.of(block, &base, case.layout);
        let call = Call::Step(Step::Delta, Input::Odd);
        assert_gives(rt, case, call, block, &differences);
        let sums = Along::Sums.of(block, &base, case.layout);
        let call = Call::Step(Step::Undelta, Input::Odd);
        assert_gives(rt, case, call, block, &sums);
    }
}

/// `undelta_pack` gives what the digits of words add up to that `pack` never wrote, also at a constant width.
struct Sums;

impl Property for Sums {
    fn assert(rt: &impl Abort, case: Case, words: &Numbers) {
        let base = Input::Odd.numbers(case.layout.bits);
        let digits = digits_of(words, case.layout, case.width);
        let sums = Along::Sums.of(&digits, &base, case.layout);
        let call = Call::Step(Step::UndeltaPack, Input::Odd);
        assert_both_give(rt, case, call, words, &sums);
    }
}

#[test]
fn differences_and_sums(rt: HostRuntime) {
    without_width::<Steps>(&rt);
    everywhere::<Sums>(&rt);
}
