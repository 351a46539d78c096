//! Blocks of 1024 unsigned integers, packed to any width in an order made for vector machines.
#![tactic(auto)]

pub mod delta;
pub mod ffor;
pub mod lanes;
pub mod transposition;

pub use crate::delta::{Delta, undelta_pack};
pub use crate::ffor::{FoR, for_pack, unfor_pack};
pub use crate::transposition::Transpose;
pub use fastlanes_base::{
    FL_ORDER, FastLanes, FastLanesComparable, LaneSink, LaneWords, RowSink, RowWords, WordProbe,
    index, lane_of, number_of, packed_len, row_of, supported_width, transpose,
};
pub use fastlanes_masks::lanes::{
    transpose_8x8_lanes, transpose_bits_lanes, untranspose_bits_lanes,
};
pub use fastlanes_masks::{
    BitPackingCompare, scalar, transpose_8x8, transpose_bits, unpack_cmp, untranspose_bits,
};
pub use fastlanes_packing::{
    BitPacking, LaneRows, WideRows, iterate_lane, pack, pack_lane, pack_lane_into, unpack,
    unpack_indices, unpack_lane, unpack_lane_from, unpack_single, unpack_single_from,
};
pub use fastlanes_runs::{RLE, RunIndex};
