//! The element types, and the calls of the library that ask for a number of lanes which is a constant.

ghost use Rattle.std.specs.Prelude.{◌≡◌, ◌*◌, ◌^◌, ◌<◌, ◌≤◌, length};
ghost use Rattle.std.specs.Mem.{type_size};
ghost use Rattle.std.proofs.Common.{lit<};

use crate::vectors::calls::{Call, Constant};
use crate::vectors::constant_calls::at_widths;
use crate::vectors::element::{Compares, Element, Packs};
use crate::vectors::numbers::Numbers;
use fastlanes::{Delta, packed_len};

/// What is done along the lanes, each from its base.
#[derive(Clone, Copy)]
pub enum Step {
    /// The differences of a block.
    Delta,
    /// The sums of a block.
    Undelta,
    /// The sums of the digits of words.
    UndeltaPack,
}

/// An element type, with all calls of the library on its elements.
pub trait AtType: Packs + Compares + PartialEq {
    /// Takes a step along the lanes, whose bases are the first elements of these.
    fn step(
        step: Step,
        width: usize,
        input: &[Self; 1024],
        bases: &[Self; 1024],
        output: &mut [Self; 1024],
    )
        requires width { width ≤ Self.T };

    /// What a call gives in its form with a constant width, if it has one.
    fn call_at(width: Constant, call: Call, input: &Numbers, before: &Numbers) -> Option<Numbers>;

    // As many elements as are chosen at the most fit into memory.
    ghost chosen_law: { 5000 * type_size Self.row < 2 ^ 63 };
}

fn stepped<E: Delta<LANES>, const LANES: usize>(
    step: Step,
    width: usize,
    input: &[E; 1024],
    bases: &[E; 1024],
    output: &mut [E; 1024],
)
    requires lanes { LANES ≡ E.LANES }
    requires width { width ≤ E.T }
{
    let mut base = [E::zero(); LANES];
    for lane in 0..LANES {
        base[lane] = bases[lane % 1024];
    }
    match step {
        Step::Delta => E::delta(input, &base, output),
        Step::Undelta => E::undelta(input, &base, output),
        Step::UndeltaPack => {
            let words = &input[..packed_len::<E>(width)];
            E::unchecked_undelta_pack(width, words, &base, output);
        }
    }
}

impl AtType for u8 {
    fn step(
        step: Step,
        width: usize,
        input: &[u8; 1024],
        bases: &[u8; 1024],
        output: &mut [u8; 1024],
    ) {
        stepped::<u8, 128>(step, width, input, bases, output);
    }

    fn call_at(width: Constant, call: Call, input: &Numbers, before: &Numbers) -> Option<Numbers> {
        at_widths::<u8, 128, 7, 896, 8>(width, call, input, before)
    }

    ghost chosen_law = { lit< tt };
}

impl AtType for u16 {
    fn step(
        step: Step,
        width: usize,
        input: &[u16; 1024],
        bases: &[u16; 1024],
        output: &mut [u16; 1024],
    ) {
        stepped::<u16, 64>(step, width, input, bases, output);
    }

    fn call_at(width: Constant, call: Call, input: &Numbers, before: &Numbers) -> Option<Numbers> {
        at_widths::<u16, 64, 15, 960, 16>(width, call, input, before)
    }

    ghost chosen_law = { lit< tt };
}

impl AtType for u32 {
    fn step(
        step: Step,
        width: usize,
        input: &[u32; 1024],
        bases: &[u32; 1024],
        output: &mut [u32; 1024],
    ) {
        stepped::<u32, 32>(step, width, input, bases, output);
    }

    fn call_at(width: Constant, call: Call, input: &Numbers, before: &Numbers) -> Option<Numbers> {
        at_widths::<u32, 32, 31, 992, 32>(width, call, input, before)
    }

    ghost chosen_law = { lit< tt };
}

impl AtType for u64 {
    fn step(
        step: Step,
        width: usize,
        input: &[u64; 1024],
        bases: &[u64; 1024],
        output: &mut [u64; 1024],
    ) {
        stepped::<u64, 16>(step, width, input, bases, output);
    }

    fn call_at(width: Constant, call: Call, input: &Numbers, before: &Numbers) -> Option<Numbers> {
        at_widths::<u64, 16, 63, 1008, 64>(width, call, input, before)
    }

    ghost chosen_law = { lit< tt };
}
