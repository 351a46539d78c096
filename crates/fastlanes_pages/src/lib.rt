//! Columns as bytes: any number of values, in pages of blocks, each the shorter of the FOR block at its minimum and the delta block of
//! adjacent values.
//!
//! `encode` writes a column, and `decode` reads it. `Column` looks at bytes once, and then reads any value, or all; whatever bytes it is
//! given, it answers or refuses them. docs/FORMAT.md says which bytes are a column.
#![tactic(auto)]

pub mod block;
pub mod bounds;
pub mod column;
pub mod element;
pub mod masks;
pub mod opened;
pub mod reading;
pub mod single;
pub mod writing;

pub use crate::block::Block;
pub use crate::column::{Column, decode};
pub use crate::element::{Packed, Stored};
pub use crate::opened::Opened;
pub use crate::reading::read_page;
pub use crate::writing::{encode, encoded_most, write_block, write_page};
pub use fastlanes_format::{Flaw, FormatError};
