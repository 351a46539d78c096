//! The fixed inputs.

use crate::vectors::numbers::{Numbers, low_bits};

/// A list of numbers, of which a block takes the first 1024, modulo `2^T`.
#[derive(Clone, Copy)]
pub enum Input {
    /// 0 everywhere.
    Zeros,
    /// `2^T - 1` everywhere.
    Ones,
    /// The place.
    Ramp,
    /// An odd multiple of the place, and 97.
    Odd,
    /// The place and `2^(T - 1)`.
    Top,
    /// Numbers that are not affine in the place, so that a wrong order of rows shows at small widths too.
    Mixed,
    /// A hundred times the same number, then a hundred times the next one.
    Hundreds,
    /// Three times the place, and one.
    Thrice,
}

/// The inputs of every operation.
pub const BLOCKS: [Input; 6] = [
    Input::Zeros,
    Input::Ones,
    Input::Ramp,
    Input::Odd,
    Input::Top,
    Input::Mixed,
];

impl Input {
    /// What it is called where a line of the Rust crate or a failure tells of it.
    pub fn name(self) -> &'static str {
        match self {
            Input::Zeros => "zeros",
            Input::Ones => "ones",
            Input::Ramp => "ramp",
            Input::Odd => "odd",
            Input::Top => "top",
            Input::Mixed => "mixed",
            Input::Hundreds => "hundreds",
            Input::Thrice => "thrice",
        }
    }

    /// The number at a place, modulo `2^bits`.
    pub fn at(self, place: usize, bits: usize) -> u64 {
        let place = place as u64;
        let number = match self {
            Input::Zeros => 0,
            Input::Ones => u64::MAX,
            Input::Ramp => place,
            Input::Odd => place.wrapping_mul(2_654_435_761).wrapping_add(97),
            Input::Top => (low_bits(u64::MAX, bits) / 2 + 1).wrapping_add(place),
            Input::Mixed => mixed(place),
            Input::Hundreds => place / 100 + 1,
            Input::Thrice => place.wrapping_mul(3).wrapping_add(1),
        };
        low_bits(number, bits)
    }

    /// The first numbers of the list, modulo `2^bits`.
    pub fn numbers(self, bits: usize) -> Numbers {
        let mut numbers = [0; 1024];
        for place in 0..1024 {
            numbers[place] = self.at(place, bits);
        }
        numbers
    }
}

/// The highest twenty of the 32 bits that a hash of the place has, over and over.
fn mixed(place: u64) -> u64 {
    let hash = place.wrapping_add(1).wrapping_mul(2_654_435_761) % (1 << 32) >> 12;
    hash.wrapping_mul(1 + (1 << 20) + (1 << 40) + (1 << 60))
}
