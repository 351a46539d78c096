//! The element types of packed blocks, the order of their places, and counted words.
#![tactic(auto)]

pub mod element;
pub mod meter;
pub mod order;
pub mod tile;

pub use crate::element::{
    FastLanes, FastLanesComparable, MachineWord, number_of, packed_len, supported_width,
};
pub use crate::meter::{LaneSink, LaneWords, RowSink, RowWords, WordProbe, place_of_word};
pub use crate::order::{FL_ORDER, index, lane_of, row_of, transpose};
