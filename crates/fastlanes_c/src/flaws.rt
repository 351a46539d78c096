//! The numbers of errors in C.

ghost use Rattle.std.specs.Prelude.{◌≡◌, ◌<◌, ◌≤◌};
ghost use Rattle.fastlanes_c.specs.Flaws.{flaw_number};
ghost use Rattle.fastlanes_format.specs.declared.flaw.Flaw.TheVariants.{Room};

use fastlanes_pages::{Flaw, FormatError};

/// The number in C of the error that a flag is unknown.
pub(crate) const UNKNOWN_FLAGS: u32 = 17;

/// Returns the number in C of a format error.
fn number(flaw: Flaw) -> u32
    ensures value { result ≡ flaw_number flaw }
    ensures some { 0 < result }
    ensures most { result ≤ 16 }
    ensures only_room { result ≡ 16 → flaw ≡ Room }
{
    match flaw {
        Flaw::Cut => 1,
        Flaw::Name => 2,
        Flaw::Element => 3,
        Flaw::Checks => 4,
        Flaw::Values => 5,
        Flaw::Spare => 6,
        Flaw::Length => 7,
        Flaw::Form => 8,
        Flaw::Width => 9,
        Flaw::Place => 10,
        Flaw::Reference => 11,
        Flaw::Checksum => 12,
        Flaw::Behind => 13,
        Flaw::Total => 14,
        Flaw::Trailing => 15,
        Flaw::Room => 16,
    }
}

/// Writes the offset of a format error, and returns its number in C.
pub(crate) fn report(error: FormatError, error_offset: &mut usize) -> u32
    ensures value { result ≡ flaw_number error.flaw }
    ensures offset { error_offset.new ≡ error.at }
    ensures some { 0 < result }
    ensures most { result ≤ 16 }
    ensures only_room { result ≡ 16 → error.flaw ≡ Room }
{
    *error_offset = error.at;
    number(error.flaw)
}
