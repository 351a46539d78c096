//! What the calls have to give, worked out on numbers from the layout's definitions, with no call that packs or unpacks.

ghost use Rattle.std.specs.Prelude.{◌<◌};

use crate::vectors::{Numbers, Question, Sign};
use fastlanes::index;

/// How many bits a word has, and how many lanes a block.
#[derive(Clone, Copy)]
pub(super) struct Layout {
    pub(super) bits: usize,
    pub(super) lanes: usize,
}

impl Layout {
    /// The place of a row of a lane.
    pub(super) fn place(self, row: usize, lane: usize) -> usize
        ensures { result < 1024 }
    {
        index(row % 64, lane % 128) % 1024
    }

    /// The bit of a mask that is the answer for that place.
    pub(super) fn mask_bit(self, row: usize, lane: usize) -> usize {
        lane.wrapping_mul(self.bits).wrapping_add(row)
    }
}

/// The digits of packed words: row `row` of a lane stands in the bits `row * width` to `row * width + width - 1` of the
/// lane's words, the lowest word first.
pub(super) fn digits_of(words: &Numbers, layout: Layout, width: usize) -> Numbers {
    let mut digits = [0; 1024];
    for lane in 0..layout.lanes {
        for row in 0..layout.bits {
            let first = row.wrapping_mul(width);
            digits[layout.place(row, lane)] = low_part(
                bits_from(words, layout, lane, first),
                width,
            );
        }
    }
    digits
}

/// The 64 bits of a lane's words from this one on, or as many of these as the word after the one that it stands in ends with.
fn bits_from(words: &Numbers, layout: Layout, lane: usize, bit: usize) -> u64 {
    let Layout { bits, lanes } = layout;
    let (at, bit) = match bits {
        8 => (bit / 8, bit % 8),
        16 => (bit / 16, bit % 16),
        32 => (bit / 32, bit % 32),
        _ => (bit / 64, bit % 64),
    };
    let word = at.wrapping_mul(lanes).wrapping_add(lane);
    let low = word_at(words, word) >> (bit % 64);
    if bit == 0 {
        low
    } else {
        low | word_at(words, word.wrapping_add(lanes)) << (bits.wrapping_sub(bit) % 64)
    }
}

/// A word; one past the end has no bits.
fn word_at(words: &Numbers, at: usize) -> u64 {
    words.get(at).copied().unwrap_or(0)
}

/// The lowest bits of a number.
pub(super) fn low_part(number: u64, width: usize) -> u64 {
    if width < 64 {
        number % (1 << width)
    } else {
        number
    }
}

/// The lowest bits of each number.
pub(super) fn low_bits(numbers: &Numbers, width: usize) -> Numbers {
    let mut low = [0; 1024];
    for place in 0..1024 {
        low[place] = low_part(numbers[place], width);
    }
    low
}

/// The sums of the numbers and a reference, modulo `2^T`.
pub(super) fn sums_with(numbers: &Numbers, layout: Layout, reference: u64) -> Numbers {
    let mut sums = [0; 1024];
    for place in 0..1024 {
        sums[place] = numbers[place].wrapping_add(reference);
    }
    low_bits(&sums, layout.bits)
}

/// The differences of the numbers from a reference, modulo `2^T`.
pub(super) fn differences_from(numbers: &Numbers, layout: Layout, reference: u64) -> Numbers {
    sums_with(numbers, layout, reference.wrapping_neg())
}

/// What is worked out along the lanes, each of which begins with its base.
#[derive(Clone, Copy)]
pub(super) enum Along {
    /// What the numbers add up to, row by row.
    Sums,
    /// The differences from the row before.
    Differences,
}

impl Along {
    /// What stands in a row, and what the next row goes on from.
    fn step(self, before: u64, number: u64) -> (u64, u64) {
        match self {
            Along::Sums => {
                let sum = before.wrapping_add(number);
                (sum, sum)
            }
            Along::Differences => (number.wrapping_sub(before), number),
        }
    }

    /// These sums or differences, modulo `2^T`.
    pub(super) fn of(self, numbers: &Numbers, base: &Numbers, layout: Layout) -> Numbers {
        let mut output = [0; 1024];
        for lane in 0..layout.lanes {
            let mut before = word_at(base, lane);
            for row in 0..layout.bits {
                let place = layout.place(row, lane);
                let (found, next) = self.step(before, numbers[place]);
                output[place] = found;
                before = next;
            }
        }
        low_bits(&output, layout.bits)
    }
}

/// What the digits of a width are compared with: one of them, and the first number that has the highest bit of the width.
pub(super) fn compared_values(digits: &Numbers, width: usize) -> [u64; 2] {
    [digits[641], low_part(u64::MAX, width) / 2 + 1]
}

/// The mask of a comparison of the digits with a value, all of them as numbers without a sign or with one.
pub(super) fn mask_of(digits: &Numbers, layout: Layout, question: Question) -> [u64; 16] {
    let Question {
        comparison,
        sign,
        value,
    } = question;
    let mut mask = [0; 16];
    for lane in 0..layout.lanes {
        for row in 0..layout.bits {
            let digit = rank(digits[layout.place(row, lane)], layout, sign);
            if comparison.holds(digit, rank(value, layout, sign)) {
                set(&mut mask, layout.mask_bit(row, lane));
            }
        }
    }
    mask
}

/// Makes a bit of a block of bits 1.
fn set(bits: &mut [u64; 16], bit: usize) {
    if let Some(word) = bits.get_mut(bit / 64) {
        *word |= 1 << (bit % 64);
    }
}

/// A number by which words are ordered: their own, or where the highest bit is a sign, that with the bit turned.
fn rank(number: u64, layout: Layout, sign: Sign) -> u64 {
    match sign {
        Sign::Without => number,
        Sign::With => number ^ (low_part(u64::MAX, layout.bits) / 2 + 1),
    }
}

/// Whether a bit of a block of bits is 1.
pub(super) fn is_set(bits: &[u64; 16], bit: usize) -> bool {
    bits.get(bit / 64)
        .is_some_and(|word| word >> (bit % 64) & 1 == 1)
}
