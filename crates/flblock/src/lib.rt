//! Commands on blocks of 1024 integers, between a source and a sink of bytes: what the program `flblock` does, which `flblock_main`
//! makes of this library.
//!
//! `ramp TYPE WIDTH` packs the block of the values `i mod 2^WIDTH` and writes its words in hexadecimal, a word a line. `TYPE` is
//! `u8`, `u16`, `u32` or `u64`. No words at all are `ramp u16 4`.
//!
//! `pack TYPE WIDTH` reads a block's 1024 values and writes its packed words; `unpack TYPE WIDTH` reads the words and writes the
//! values. Values and words are read and written with their lowest byte first.
#![tactic(auto)]

mod blocks;
pub mod column;
pub mod command;
mod element;
pub mod error;
mod ramp;
pub mod run;
pub mod slice_in;
pub mod slice_out;
pub mod stream;
