//! Why a command is refused.

ghost use Rattle.std.specs.Prelude.{◌≡◌};

/// Why a command is refused, in the order of the numbers.
#[derive(Clone, Copy, PartialEq, Eq, Debug)]
pub enum BlockError {
    /// The words do not have the form of a command.
    Usage,
    /// The width is greater than the type's bits.
    Width,
    /// The input ended before the block was whole.
    ShortInput,
    /// A read failed.
    ReadFailed,
    /// A write or a flush failed.
    WriteFailed,
}

impl BlockError {
    ghost use Rattle.flblock.specs.Refusal.{refusal_number, refusal_text};

    /// The number that tells this refusal, from 1 to 5.
    pub fn number(self) -> u8
        ensures { result ≡ refusal_number self }
    {
        match self {
            BlockError::Usage => 1,
            BlockError::Width => 2,
            BlockError::ShortInput => 3,
            BlockError::ReadFailed => 4,
            BlockError::WriteFailed => 5,
        }
    }

    /// What is printed about it.
    pub fn text(self) -> &'static str
        ensures { result.now ≡ refusal_text self }
    {
        match self {
            BlockError::Usage => "usage: flblock ramp|pack|unpack u8|u16|u32|u64 WIDTH",
            BlockError::Width => "width is greater than the type's bits",
            BlockError::ShortInput => "input ended before the block was whole",
            BlockError::ReadFailed => "reading failed",
            BlockError::WriteFailed => "writing failed",
        }
    }
}
