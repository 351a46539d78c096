//! Masks of packed blocks: comparison with a value, and the transposes that bring the bits of a mask into the order of
//! places and back.
#![tactic(auto)]

pub mod bit_transpose;
pub mod bitpacking_cmp;
pub mod lanes;

pub use crate::bit_transpose::{scalar, transpose_8x8, transpose_bits, untranspose_bits};
pub use crate::bitpacking_cmp::{BitPackingCompare, unpack_cmp};
