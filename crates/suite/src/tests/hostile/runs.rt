//! Runs of every input, over dictionaries that held other entries before.

use crate::tests::hostile::{Case, Property, without_width};
use crate::vectors::{Numbers, Runs};
use std::process::Abort;

/// Each change of the value starts a run, whose entry is the first value. Answers how many runs there are.
fn assert_runs(rt: &impl Abort, case: Case, block: &Numbers, runs: &Runs) -> usize {
    let mut number = 0usize;
    for place in 0..1024 {
        if place > 0 && block[place] != block[place - 1] {
            number = number.wrapping_add(1);
        }
        let is_number = runs.indexes[place] as usize == number;
        case.check(rt, is_number, "the indexes of encode_unchecked");
        let is_first = runs.entries.get(number) == block.get(place);
        case.check(rt, is_first, "the entries of encode_unchecked");
    }
    number.wrapping_add(1)
}

/// `encode_unchecked` finds the runs, and the entries past the last one stay. `decode_unchecked` gives the block back.
struct FindsRuns;

impl Property for FindsRuns {
    fn assert(rt: &impl Abort, case: Case, block: &Numbers) {
        let runs = case.element.encoded(block, case.fill);
        let is_count = runs.count == assert_runs(rt, case, block, &runs);
        case.check(rt, is_count, "the count of encode_unchecked");
        for place in 0..1024 {
            let stays = place < runs.count || runs.entries[place] == case.filled();
            case.check(rt, stays, "the entries past the count");
        }
        case.check(rt, runs.decoded == *block, "decode_unchecked");
    }
}

#[test]
fn runs_of_every_input(rt: HostRuntime) {
    without_width::<FindsRuns>(&rt);
}
