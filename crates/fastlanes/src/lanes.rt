//! Several words at a time, on vectors.

pub use fastlanes_masks::lanes::{
    transpose_8x8_lanes, transpose_bits_lanes, untranspose_bits_lanes,
};
pub use fastlanes_packing::LaneRows;
