//! Columns of blocks, for who calls the program's code: the items of `fastlanes_column`, where other crates reach them too.

pub use fastlanes_column::{
    FrameHead, column_get, column_get_at, column_len, column_read, column_starts, column_write,
    delta_bases, delta_head, delta_read, delta_write, frame_get, frame_head, frame_read,
    frame_write, write_heads,
};
