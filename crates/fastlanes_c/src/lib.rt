//! The calls of `fastlanes`, and of the libraries above it, as C functions. `include/fastlanes.h` declares them, and says what each
//! asks for and does.
//!
//! An array is a pointer to its first element; a slice is a pointer and then its length in elements. A packed block is a struct of
//! a slice (`PackedU8`, `PackedMutU8`, ..), and so the same two words to C. In clauses `input.entry.words.now` are the words that
//! were passed, and `output.exit.0.now` those that the call left.
#![tactic(auto)]

mod blocks;
mod columns;
mod comparisons;
mod encoding;
mod flaws;
