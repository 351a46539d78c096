//! A slice as a sink of bytes, of `fastlanes_streams`.

pub use fastlanes_streams::SliceOut;
