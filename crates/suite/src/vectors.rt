//! Digests of what each public operation gives, at each element type and each width, of each fixed input: of the output's bytes, the
//! lowest byte of each number first.
//!
//! `../lines` has a line `operation type width input digest` for each of them, as a program over the Rust crate printed it; `-`
//! stands where an operation has no type, width or input. The tests of `suite` hold what is computed here against them: the
//! digest of all digests of a type and a width, in the order of the lines.
//!
//! The inputs, the comparisons and the calls on plain numbers serve other tests too.

mod blocks;
mod calls;
mod comparison;
mod constant;
mod constant_calls;
mod digest;
mod element;
mod input;
mod numbers;
mod orders;
mod packed;
mod types;
mod walk;

use crate::vectors::blocks::{decoded_digests, moved_digests, runs_digest};
pub use crate::vectors::calls::{
    Call, Constant, GroupCall, MOST, Mover, Packer, Reader, Runs, called, chosen, encoded, grouped,
    walked,
};
pub use crate::vectors::comparison::{COMPARISONS, Comparison, Question, Sign};
use crate::vectors::digest::Digest;
pub use crate::vectors::element::Form;
pub use crate::vectors::input::{BLOCKS, Input};
pub use crate::vectors::numbers::{Numbers, bits_of, elements_of, with_bits};
pub use crate::vectors::orders::digest_of_orders;
use crate::vectors::orders::walk_digest;
use crate::vectors::packed::{compared_digests, packed_digests};
pub use crate::vectors::types::{AtType, Step};
pub use crate::vectors::walk::Walk;

/// The digest of the digests of all operations with a width, at an element type `E` and this width.
pub fn digest_at<E: AtType>(width: usize) -> u64 {
    let mut digests = Digest::new();
    for input in BLOCKS {
        let block = input.numbers(E::T);
        digests.add_all(&packed_digests::<E>(width, &block));
        digests.add_all(&compared_digests::<E>(width, &block));
    }
    digests.hash()
}

/// The digest of the digests of all operations without a width, at an element type `E`.
pub fn digest_without_width<E: AtType>() -> u64 {
    let mut digests = Digest::new();
    digests.add_all(&[walk_digest::<E>()]);
    for input in BLOCKS {
        let (block, bits) = (input.numbers(E::T), input.numbers(64));
        digests.add_all(&moved_digests::<E>(&block, &bits));
        digests.add_all(&decoded_digests::<E>(&block));
    }
    for input in BLOCKS {
        digests.add_all(&[runs_digest::<E>(&input.numbers(E::T))]);
    }
    digests.add_all(&[runs_digest::<E>(&Input::Hundreds.numbers(E::T))]);
    digests.hash()
}
