//! Where blocks come from and go to: the items of `fastlanes_streams`, where other crates reach them too.

pub use fastlanes_streams::{ByteIn, ByteOut, Failed};
