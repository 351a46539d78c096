//! A slice as a source of bytes, of `fastlanes_streams`.

pub use fastlanes_streams::SliceIn;
