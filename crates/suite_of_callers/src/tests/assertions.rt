//! Assertions as functions: what a macro writes is proved again at each place where it stands, a function once.

ghost use Rattle.std.specs.Prelude.{IsTrue};

use std::fmt::Debug;
use std::process::Abort;

/// Ends the test where `found` does not equal `expected`, with both.
pub(crate) fn assert_equal<T: PartialEq + Debug + Copy>(rt: &impl Abort, found: T, expected: T) {
    assert_eq!(rt; found, expected);
}

/// Ends the test where something is not so, with what it is, and the number of the place, width or values that it is of.
pub(crate) fn assert_so(rt: &impl Abort, is_so: bool, what: &str, at: usize)
    ensures { IsTrue is_so }
{
    assert!(rt; is_so, "{what}: {at}");
}
