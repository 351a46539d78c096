//! The calls at an element type that is known at run time alone.

ghost use Rattle.std.specs.Prelude.{◌<◌, ◌≤◌, All, length};

use crate::tests::hostile::expected::Layout;
use crate::vectors::{AtType, Call, Constant, GroupCall, MOST, Numbers, Runs, Walk};

/// What a function of `vectors` answers at an element type.
macro_rules! at_element {
    ($element:ident, $call:ident($($given:ident),*)) => {
        match $element {
            Element::U8 => crate::vectors::$call::<u8>($($given),*),
            Element::U16 => crate::vectors::$call::<u16>($($given),*),
            Element::U32 => crate::vectors::$call::<u32>($($given),*),
            Element::U64 => crate::vectors::$call::<u64>($($given),*),
        }
    };
}

/// An element type.
#[derive(Clone, Copy)]
pub(super) enum Element {
    U8,
    U16,
    U32,
    U64,
}

/// All of them.
pub(super) const ELEMENTS: [Element; 4] = [Element::U8, Element::U16, Element::U32, Element::U64];

impl Element {
    pub(super) fn layout(self) -> Layout {
        let (bits, lanes) = match self {
            Element::U8 => (8, 128),
            Element::U16 => (16, 64),
            Element::U32 => (32, 32),
            Element::U64 => (64, 16),
        };
        Layout { bits, lanes }
    }

    /// What an output holds after a call, where it held these numbers before.
    pub(super) fn called(
        self,
        call: Call,
        width: usize,
        input: &Numbers,
        before: &Numbers,
    ) -> Numbers {
        at_element!(self, called(call, width, input, before))
    }

    /// The same of its form with a constant width, if it has one.
    pub(super) fn called_at(
        self,
        call: Call,
        width: Constant,
        input: &Numbers,
        before: &Numbers,
    ) -> Option<Numbers> {
        match self {
            Element::U8 => u8::call_at(width, call, input, before),
            Element::U16 => u16::call_at(width, call, input, before),
            Element::U32 => u32::call_at(width, call, input, before),
            Element::U64 => u64::call_at(width, call, input, before),
        }
    }

    /// What `unpack_lane` calls its kernel with.
    pub(super) fn walked(self, width: usize, words: &Numbers, lane: usize) -> Walk {
        at_element!(self, walked(width, words, lane))
    }

    /// What a call gives of its sixteen lanes, and how many rows of words it puts or takes.
    pub(super) fn grouped(
        self,
        call: GroupCall,
        width: usize,
        input: &Numbers,
        fill: u64,
    ) -> (Numbers, usize) {
        at_element!(self, grouped(call, width, input, fill))
    }

    /// What `unpack_indices` gives at these places.
    pub(super) fn chosen(
        self,
        width: usize,
        words: &Numbers,
        places: &[usize],
        fill: u64,
    ) -> [u64; MOST]
        requires places { All (λ place. place < 1024) places.now }
        requires few { length places.now ≤ 5000 }
    {
        at_element!(self, chosen(width, words, places, fill))
    }

    /// The runs of a block, and the block that they give.
    pub(super) fn encoded(self, block: &Numbers, fill: u64) -> Runs {
        at_element!(self, encoded(block, fill))
    }
}
