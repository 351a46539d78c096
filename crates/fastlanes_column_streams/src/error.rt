//! Why a column is not read or written to its end.

ghost use Rattle.std.specs.Prelude.{◌≡◌, ◌+◌, min};

use fastlanes_format::FormatError;

/// Why a run between a source and a sink stops before its end.
#[derive(Clone, Copy, PartialEq, Eq, Debug)]
pub enum StreamError {
    /// The bytes are no column: what is wrong, and at which byte of the source.
    Refused(FormatError),
    /// The input ended inside a value, after so many bytes.
    ShortValue(usize),
    /// There are more values than a column can count.
    TooMany,
    /// A read failed.
    ReadFailed,
    /// A write or a flush failed.
    WriteFailed,
}

/// The same error, of bytes that stand behind others: at the last place that there is a number for, where it is further.
pub(crate) fn behind(error: FormatError, place: usize) -> FormatError
    ensures flaw { result.flaw ≡ error.flaw }
    ensures at { result.at ≡ min (place + error.at) usize.MAX }
{
    FormatError {
        flaw: error.flaw,
        at: place.saturating_add(error.at),
    }
}
