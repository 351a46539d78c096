//! Callers of the library, and what each can conclude from its contracts.
#![tactic(auto)]

pub mod blocks;
pub mod checksums;
pub mod columns;
pub mod filters;
pub mod folded;
pub mod lane;
pub mod lane_rows;
pub mod lowered;
pub mod masks;
pub mod readings;
pub mod round_trips;
pub mod runs;
pub mod sample;
pub mod scaled;
pub mod streamed;
pub mod transposed;
