//! How a column is written.

/// How a column is written.
#[derive(Clone, Copy, PartialEq, Eq, Debug)]
pub struct Options {
    /// Each block is a frame, and none has the differences of neighbours.
    pub frames_only: bool,
    /// Each page has a checksum.
    pub checked: bool,
}
