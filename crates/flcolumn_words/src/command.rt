//! What the program can be asked for.

pub mod parse;
pub mod words;

/// The type of a column's elements.
#[derive(Clone, Copy, PartialEq, Eq, Debug)]
pub enum ElementType {
    U8,
    U16,
    U32,
    U64,
}

/// One thing that the program can be asked for.
#[derive(PartialEq, Eq, Debug, Drop)]
pub enum Request {
    /// Values are read, and a column of them is written.
    Encode {
        element: ElementType,
        /// Each block is a frame.
        frames_only: bool,
        /// Each page has a checksum.
        checked: bool,
    },
    /// A column is read, and its values are written.
    Decode,
    /// A column is read, and what is in it is written as text.
    Info,
    /// A column is read, and the values of these numbers are written as text.
    Get(Vec<u64>),
}

/// The files that stand in the place of the standard streams, where there are any.
#[derive(Clone, Copy, PartialEq, Eq, Debug)]
pub struct Names<'a> {
    /// The one that is read.
    pub input: Option<&'a str>,
    /// The one that is written.
    pub output: Option<&'a str>,
}

/// What the program is asked for, and between which streams.
#[derive(PartialEq, Eq, Debug, Drop)]
pub struct Task<'a> {
    pub request: Request,
    pub names: Names<'a>,
}
