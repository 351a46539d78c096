//! Examples of calls on blocks that were worked by hand, as plain numbers: a file by the name of each of the library's modules that has
//! some here. Those that need closures, cursors or bases of their own are in `suite`.

mod bit_transpose;
mod bitpacking;
mod bitpacking_cmp;
mod ffor;
mod lane;
mod lane_rows;
mod single;
mod transposition;

ghost use Rattle.std.specs.Prelude.{◌<◌};

use crate::tests::hostile::calls::Element;
use crate::tests::hostile::{constant_of, name_of};
use crate::vectors::{Call, Input, Numbers};
use std::process::Abort;

/// An element type and a width, at which calls are made over outputs of ones.
#[derive(Clone, Copy)]
struct Example {
    element: Element,
    width: usize,
}

impl Example {
    fn of(element: Element, width: usize) -> Example {
        Example { element, width }
    }

    /// Ends the test where an answer of a call does not hold.
    fn check(self, rt: &impl Abort, holds: bool, call: &str) {
        let (bits, width) = (self.element.layout().bits, self.width);
        assert!(rt; holds, "{call} of u{bits} at width {width}");
    }

    /// What an output holds after a call.
    fn called(self, call: Call, input: &Numbers) -> Numbers {
        self.element
            .called(call, self.width, input, &[u64::MAX; 1024])
    }

    /// A call gives these numbers, and so does its form with a constant width, at those that there are.
    fn gives(self, rt: &impl Abort, call: Call, input: &Numbers, expected: &Numbers) {
        let is_given = self.called(call, input) == *expected;
        self.check(rt, is_given, name_of(call));
        if let Some(width) = constant_of(self.width, self.element.layout().bits) {
            let output = self
                .element
                .called_at(call, width, input, &[u64::MAX; 1024]);
            self.check(rt, output == Some(*expected), name_of(call));
        }
    }

    /// An output whose words are all 0, but for some, which come as pairs of a place and a number. Behind them it holds ones.
    fn words(self, rt: &impl Abort, others: &[(usize, u64)]) -> Numbers {
        let mut numbers = only(rt, others);
        let layout = self.element.layout();
        let len = layout.lanes.wrapping_mul(self.width);
        for place in 0..1024 {
            if place >= len {
                numbers[place] = u64::MAX >> (64usize.wrapping_sub(layout.bits) % 64);
            }
        }
        numbers
    }
}

/// Numbers that are all 0, but for some, which come as pairs of a place and a number.
fn only(rt: &impl Abort, others: &[(usize, u64)]) -> Numbers {
    let mut numbers = [0; 1024];
    for (place, other) in others {
        assert!(rt; *place < 1024);
        numbers[*place] = *other;
    }
    numbers
}

/// The numbers from 0 on below `period`, each of them `run` times, again and again.
fn ramp(run: usize, period: usize) -> Numbers
    requires run { 0 < run }
    requires period { 0 < period }
{
    let mut numbers = [0; 1024];
    for place in 0..1024 {
        numbers[place] = (place / run % period) as u64;
    }
    numbers
}

/// The places of a block.
fn places() -> Numbers {
    Input::Ramp.numbers(64)
}

/// A block of bits, or a mask, with just one bit.
fn only_bit(bit: usize) -> [u64; 16] {
    let mut words = [0; 16];
    words[bit / 64 % 16] = 1 << (bit % 64);
    words
}
