//! Blocks as plain numbers, and as elements.

use crate::vectors::element::Element;

/// The numbers of a block, of packed words, or of a mask with others after it.
pub type Numbers = [u64; 1024];

/// The lowest bits of a number.
pub(crate) fn low_bits(number: u64, bits: usize) -> u64 {
    if bits < 64 {
        number % (1 << bits)
    } else {
        number
    }
}

/// The numbers as elements, each modulo `2^T`.
pub fn elements_of<E: Element>(numbers: &Numbers) -> [E; 1024] {
    let mut elements = [E::of_number(0); 1024];
    for place in 0..1024 {
        elements[place] = E::of_number(numbers[place]);
    }
    elements
}

/// The numbers of elements.
pub(crate) fn numbers_of<E: Element>(elements: &[E; 1024]) -> Numbers {
    let mut numbers = [0; 1024];
    for place in 0..1024 {
        numbers[place] = elements[place].number();
    }
    numbers
}

/// The sixteen words of a block of bits.
pub fn bits_of(numbers: &Numbers) -> [u64; 16] {
    let mut bits = [0; 16];
    for word in 0..16 {
        bits[word] = numbers[word];
    }
    bits
}

/// These numbers, with the words of a block of bits in place of the first ones.
pub fn with_bits(numbers: &Numbers, bits: &[u64; 16]) -> Numbers {
    let mut numbers = *numbers;
    for word in 0..16 {
        numbers[word] = bits[word];
    }
    numbers
}
