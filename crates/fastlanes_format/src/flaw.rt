//! What is wrong with bytes that are no column.

ghost use Rattle.std.specs.Prelude.{◌≡◌, ◌+◌, ◌^◌, ◌<◌};

/// What bytes have that are no column.
#[derive(Clone, Copy, PartialEq, Eq, Debug)]
pub enum Flaw {
    /// The bytes end too early.
    Cut,
    /// They do not begin as columns of this version do.
    Name,
    /// The elements have another number of bits.
    Element,
    /// There is no such kind of checksum.
    Checks,
    /// A page has more than 65536 values.
    Values,
    /// A byte that has to be 0 is not.
    Spare,
    /// A page is not as long as its blocks.
    Length,
    /// A block is neither a frame nor differences.
    Form,
    /// A block has a width above the bits of an element.
    Width,
    /// A block's words are said to begin where those before them do not end.
    Place,
    /// A block's reference is no element, or differences have one.
    Reference,
    /// The checksum is that of other bytes.
    Checksum,
    /// A page follows one that has fewer than 65536 values.
    Behind,
    /// The end tells another number of values.
    Total,
    /// There is no room for so many values.
    Room,
    /// Bytes follow the end of the column.
    Trailing,
}

/// What bytes have that are no column, and at which place.
#[derive(Clone, Copy, PartialEq, Eq, Debug)]
pub struct FormatError {
    pub flaw: Flaw,
    pub at: usize,
}

impl FormatError {
    /// The same error, of bytes that stand behind others.
    pub(crate) fn behind(self, place: usize) -> FormatError
        requires { self.at + place < 2 ^ 64 }
        ensures flaw { result.flaw ≡ self.flaw }
        ensures at { result.at ≡ self.at + place }
    {
        FormatError {
            flaw: self.flaw,
            at: self.at + place,
        }
    }
}

impl Flaw {
    /// The error that the bytes have this flaw at this place.
    pub fn at(self, at: usize) -> FormatError
        ensures flaw { result.flaw ≡ self }
        ensures at { result.at ≡ at }
    {
        FormatError { flaw: self, at }
    }
}
