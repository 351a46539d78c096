//! What is asked at each type, width and input: words that `pack` never wrote, outputs that held other numbers before, and what a
//! call has to leave as it was. What a call has to give is worked out apart (`expected`), from the layout's definitions alone. A
//! failure tells the call, the type, the width and the input. `worked` has examples that were worked by hand.

mod along_lanes;
mod blocks;
mod calls;
mod chosen;
mod columns;
mod expected;
mod packers;
mod readers;
mod runs;
mod worked;

use crate::tests::hostile::calls::{ELEMENTS, Element};
use crate::tests::hostile::expected::{Layout, low_part};
use crate::vectors::{
    BLOCKS, Call, Constant, Form, GroupCall, Input, Mover, Numbers, Packer, Reader, Sign, Step,
};
use std::process::Abort;

/// What a property is asked of, beside the first numbers of the input.
#[derive(Clone, Copy)]
struct Case {
    element: Element,
    layout: Layout,
    width: usize,
    input: Input,
    /// What outputs hold before a call: zeros or ones.
    fill: u64,
}

impl Case {
    fn of(element: Element, width: usize, input: Input, fill: u64) -> Case {
        Case {
            element,
            layout: element.layout(),
            width,
            input,
            fill,
        }
    }

    /// Ends the test where an answer of a call does not hold.
    fn check(self, rt: &impl Abort, holds: bool, call: &str) {
        let (bits, width, input) = (self.layout.bits, self.width, self.input.name());
        assert!(rt; holds, "{call} of u{bits} at width {width} on {input}");
    }

    /// What an element of an output is before a call.
    fn filled(self) -> u64 {
        low_part(self.fill, self.layout.bits)
    }

    /// What an output holds after a call.
    fn called(self, call: Call, input: &Numbers) -> Numbers {
        let before = [self.fill; 1024];
        self.element.called(call, self.width, input, &before)
    }

    /// The same of its form with a constant width. None where the width is not one of those, or the call has no such form.
    fn called_at(self, call: Call, input: &Numbers) -> Option<Numbers> {
        let before = [self.fill; 1024];
        self.element
            .called_at(call, self.constant()?, input, &before)
    }

    /// What a call gives of its sixteen lanes, and how many rows of words it puts or takes.
    fn grouped(self, call: GroupCall, input: &Numbers) -> (Numbers, usize) {
        self.element.grouped(call, self.width, input, self.fill)
    }

    /// The same case over outputs of zeros.
    fn over_zeros(self) -> Case {
        Case { fill: 0, ..self }
    }

    /// The constant width that the width is.
    fn constant(self) -> Option<Constant> {
        constant_of(self.width, self.layout.bits)
    }

    /// As many words as a block has that is packed to the width.
    fn words<'a>(self, numbers: &'a Numbers) -> &'a [u64] {
        let len = self.layout.lanes.wrapping_mul(self.width).min(1024);
        &numbers[..len]
    }

    /// References: the second number of `odd`, 0, and the largest number.
    fn references(self) -> [u64; 3] {
        let bits = self.layout.bits;
        [Input::Odd.at(1, bits), 0, low_part(u64::MAX, bits)]
    }
}

/// The constant width that a width is of an element with so many bits, if it is one.
fn constant_of(width: usize, bits: usize) -> Option<Constant> {
    if width == 0 {
        Some(Constant::Zero)
    } else if width == 1 {
        Some(Constant::One)
    } else if width == bits {
        Some(Constant::Full)
    } else if width.wrapping_add(1) == bits {
        Some(Constant::Below)
    } else {
        None
    }
}

/// What a call is named in a failure.
fn name_of(call: Call) -> &'static str {
    match call {
        Call::Pack(by) => name_of_packer(by),
        Call::Unpack(by) => name_of_reader(by),
        Call::Compare(question) => match question.sign {
            Sign::Without => "unpack_cmp",
            Sign::With => "unpack_cmp with a sign",
        },
        Call::Step(Step::Delta, _) => "delta",
        Call::Step(Step::Undelta, _) => "undelta",
        Call::Step(Step::UndeltaPack, _) => "undelta_pack",
        Call::Move(Mover::Transpose) => "transpose",
        Call::Move(Mover::Untranspose) => "untranspose",
        Call::MoveBits(Form::Root, false) => "transpose_bits",
        Call::MoveBits(Form::Root, true) => "untranspose_bits",
        Call::MoveBits(Form::Scalar, false) => "scalar::transpose_bits",
        Call::MoveBits(Form::Scalar, true) => "scalar::untranspose_bits",
        Call::MoveBits(Form::Lanes, false) => "transpose_bits_lanes",
        Call::MoveBits(Form::Lanes, true) => "untranspose_bits_lanes",
    }
}

fn name_of_packer(by: Packer) -> &'static str {
    match by {
        Packer::Whole => "pack",
        Packer::Rows => "pack_rows",
        Packer::Wide => "pack_wide",
        Packer::Frame(_) => "for_pack",
        Packer::Lane(_) | Packer::Lanes => "pack_lane",
    }
}

fn name_of_reader(by: Reader) -> &'static str {
    match by {
        Reader::Whole => "unpack",
        Reader::Rows => "unpack_rows",
        Reader::Wide => "unpack_wide",
        Reader::Single => "unpack_single",
        Reader::Ends => "unpack_indices",
        Reader::Frame(_) => "unfor_pack",
    }
}

/// A call gives these numbers.
fn assert_gives(rt: &impl Abort, case: Case, call: Call, input: &Numbers, expected: &Numbers) {
    case.check(rt, case.called(call, input) == *expected, name_of(call));
}

/// A call gives these numbers, and so does its form with a constant width, at those that there are.
fn assert_both_give(rt: &impl Abort, case: Case, call: Call, input: &Numbers, expected: &Numbers) {
    assert_gives(rt, case, call, input, expected);
    if case.constant().is_some() {
        let gives = case.called_at(call, input) == Some(*expected);
        case.check(rt, gives, name_of(call));
    }
}

/// What holds at every type, width and input, over outputs of zeros and of ones.
trait Property {
    /// Ends the test where it does not hold of the first numbers of the input.
    fn assert(rt: &impl Abort, case: Case, numbers: &Numbers);
}

/// Asserts a property at every type, width and input.
fn everywhere<P: Property>(rt: &impl Abort) {
    for element in ELEMENTS {
        for width in 0..=element.layout().bits {
            at_width::<P>(rt, element, width);
        }
    }
}

/// Asserts a property of calls that have no width at every type and input.
fn without_width<P: Property>(rt: &impl Abort) {
    for element in ELEMENTS {
        at_width::<P>(rt, element, element.layout().bits);
    }
}

/// Asserts a property at every input of a type and a width.
fn at_width<P: Property>(rt: &impl Abort, element: Element, width: usize) {
    for input in BLOCKS {
        let numbers = input.numbers(element.layout().bits);
        for fill in [0, u64::MAX] {
            P::assert(rt, Case::of(element, width, input, fill), &numbers);
        }
    }
}
