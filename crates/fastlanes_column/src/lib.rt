//! A column of blocks, each packed at the least width that holds it, of which any value is read by its number.
//!
//! A block is packed as its differences from a reference of its own (`frame_head`, `frame_write`, `frame_read`,
//! `frame_get`), or as those of its neighbours (`delta_bases`, `delta_head`, `delta_width`, `delta_write`, `delta_read`). A column
//! has blocks of the first kind, one after another (`write_heads`, `column_write`, `column_read`, `column_get`).
#![tactic(auto)]

mod bits;
pub mod column;
pub mod differences;
pub mod frame;
mod minimum;

pub use crate::column::{
    column_get, column_get_at, column_len, column_read, column_starts, column_write, write_heads,
};
pub use crate::differences::{delta_bases, delta_head, delta_read, delta_width, delta_write};
pub use crate::frame::{FrameHead, frame_get, frame_head, frame_read, frame_write};
