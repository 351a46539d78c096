//! Packing of blocks, whole, one value at a time, or by a kernel of the caller's.
#![tactic(auto)]

pub mod bitpacking;
pub mod lane;
pub mod lane_rows;
mod single;
pub mod wide_rows;

pub use crate::bitpacking::{BitPacking, pack, unpack, unpack_indices, unpack_single};
pub use crate::lane::{
    iterate_lane, pack_lane, pack_lane_into, unpack_lane, unpack_lane_from, unpack_single_from,
};
pub use crate::lane_rows::LaneRows;
pub use crate::single::JoinsWords;
pub use crate::wide_rows::WideRows;
