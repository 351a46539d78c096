//! Rows, one after another, and the look at a width that makes it a constant. Rows of lanes side by side, on vectors: their steps,
//! proved once for every number of lanes, and the walks of a group of lanes and of a block. The crates of the operations stand on
//! it; `fastlanes` does not pass it on.
#![tactic(auto)]

pub mod block_rows;
pub mod block_walk;
pub mod given_width;
pub mod group_walk;
pub mod lone_lane;
pub mod range;
pub mod row;
pub mod rows;
pub mod sixteen_lanes;
pub mod steps;
pub mod types;
pub mod vector;
pub mod width;
