//! What the program can be asked for.

ghost use Rattle.std.specs.Prelude.{◌≡◌, ◌≤◌};
ghost use Rattle.flblock.specs.Element.{bits_of};

mod parse;

pub use crate::command::parse::parse_command;

/// The most bytes that a command reads: a block of 64-bit elements.
pub const MOST_INPUT: usize = 1024 * 8;

/// What is done with a block.
#[derive(Clone, Copy, PartialEq, Eq, Debug)]
pub(crate) enum Verb {
    /// A block of ascending values is packed, and its words are written as text.
    Ramp,
    /// A block's values are packed, and its words are written.
    Pack,
    /// A block's words are unpacked, and its values are written.
    Unpack,
}

/// The type of a block's elements.
#[derive(Clone, Copy, PartialEq, Eq, Debug)]
pub(crate) enum ElementType {
    U8,
    U16,
    U32,
    U64,
}

impl ElementType {
    /// How many bits an element has.
    pub(crate) fn bits(self) -> usize
        ensures { result ≡ bits_of self }
    {
        match self {
            ElementType::U8 => 8,
            ElementType::U16 => 16,
            ElementType::U32 => 32,
            ElementType::U64 => 64,
        }
    }
}

/// One thing that the program can be asked for.
#[derive(Clone, Copy, PartialEq, Eq, Debug)]
pub struct Command {
    verb: Verb,
    element: ElementType,
    width: usize,
    ghost width_fits: { width ≤ bits_of element },
}

impl Command {
    ghost use Rattle.flblock.specs.Command.{input_len};

    pub(crate) fn verb(self) -> Verb
        ensures { result ≡ self.verb }
    {
        self.verb
    }

    pub(crate) fn element(self) -> ElementType
        ensures { result ≡ self.element }
    {
        self.element
    }

    pub(crate) fn width(self) -> usize
        ensures value { result ≡ self.width }
        ensures fits { result ≤ bits_of self.element }
    {
        self.width
    }

    /// How many bytes it reads.
    pub fn input_len(self) -> usize
        ensures value { result ≡ input_len self }
        ensures bound { result ≤ MOST_INPUT }
    {
        match self.verb {
            Verb::Ramp => 0,
            Verb::Pack => 128 * self.element.bits(),
            Verb::Unpack => 128 * self.width,
        }
    }
}
