//! What a request reads and what it writes.

/// A source and a sink of bytes.
#[derive(Drop)]
pub struct Streams<I, O> {
    pub input: I,
    pub output: O,
}
