//! Calls on whole blocks that have no width, over outputs that held other numbers before.

use crate::tests::hostile::expected::is_set;
use crate::tests::hostile::{Case, Property, name_of, without_width};
use crate::vectors::{Call, Form, Mover, Numbers, bits_of, with_bits};
use fastlanes::transpose;
use std::process::Abort;

/// `transpose` takes each element from its transposed index, and `untranspose` puts it there.
struct Transposes;

impl Property for Transposes {
    fn assert(rt: &impl Abort, case: Case, block: &Numbers) {
        let taken = case.called(Call::Move(Mover::Transpose), block);
        let put = case.called(Call::Move(Mover::Untranspose), block);
        for place in 0..1024 {
            let other = transpose(place);
            case.check(rt, taken.get(place) == block.get(other), "transpose");
            case.check(rt, put.get(other) == block.get(place), "untranspose");
        }
    }
}

/// A block of bits has at the place of each row the bit `lane * T + row` of another.
fn assert_places(
    rt: &impl Abort,
    case: Case,
    call: &str,
    by_place: &[u64; 16],
    by_lane: &[u64; 16],
) {
    for lane in 0..case.layout.lanes {
        for row in 0..case.layout.bits {
            let bit = is_set(by_lane, case.layout.mask_bit(row, lane));
            let is_moved = is_set(by_place, case.layout.place(row, lane)) == bit;
            case.check(rt, is_moved, call);
        }
    }
}

/// What a form of `transpose_bits` or `untranspose_bits` makes of bits.
fn bits_moved(case: Case, form: Form, is_back: bool, bits: &[u64; 16]) -> [u64; 16] {
    let input = with_bits(&[0; 1024], bits);
    bits_of(&case.called(Call::MoveBits(form, is_back), &input))
}

/// A form of `transpose_bits` moves the bit `lane * T + row` to the place of the row, and that of `untranspose_bits` back from
/// there, and each undoes the other.
fn assert_form(rt: &impl Abort, case: Case, bits: &[u64; 16], form: Form) {
    let there = name_of(Call::MoveBits(form, false));
    let back = name_of(Call::MoveBits(form, true));
    let by_place = bits_moved(case, form, false, bits);
    assert_places(rt, case, there, &by_place, bits);
    let by_lane = bits_moved(case, form, true, bits);
    assert_places(rt, case, back, bits, &by_lane);
    let undone = bits_moved(case, form, true, &by_place);
    case.check(rt, undone == *bits, back);
    let undone = bits_moved(case, form, false, &by_lane);
    case.check(rt, undone == *bits, there);
}

/// Every form does so.
struct TransposesBits;

impl Property for TransposesBits {
    fn assert(rt: &impl Abort, case: Case, _block: &Numbers) {
        let bits = bits_of(&case.input.numbers(64));
        for form in [Form::Root, Form::Scalar, Form::Lanes] {
            assert_form(rt, case, &bits, form);
        }
    }
}

#[test]
fn every_input_is_moved(rt: HostRuntime) {
    without_width::<Transposes>(&rt);
    without_width::<TransposesBits>(&rt);
}
