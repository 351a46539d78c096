//! Runs of equal values.
#![tactic(auto)]

pub mod rle;

pub use crate::rle::{RLE, RunIndex};
