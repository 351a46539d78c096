//! A file has the name of the library's module that it tests; `assertions` is what they all assert with, and
//! `numbers` what they take lists of numbers from. `hostile` has the loops over fixed inputs, and `digests` what the Rust crate
//! gave for these.

mod assertions;
mod bit_transpose;
pub(crate) mod bitpacking;
pub(crate) mod bitpacking_cmp;
mod byte_tables;
mod column;
mod delta;
mod differences;
mod digests;
mod element;
mod ffor;
mod filters;
mod frame;
mod hostile;
mod lane;
mod lane_rows;
mod meter;
mod numbers;
mod order;
mod rle;
mod single;
