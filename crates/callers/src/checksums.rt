//! Bytes whose checksum is kept beside them.

ghost use Rattle.std.specs.Prelude.{◌≡◌, ℕ, List, IsFalse, IsTrue};
ghost use Rattle.fastlanes_checksum.specs.Checksum.{DifferInOneBurst, checksum};

use fastlanes_checksum::crc32c;

/// Whether bytes may be those that this checksum was kept of: they are not, if a burst of bits was changed.
pub fn may_be_unchanged(bytes: &[u8], kept: u32) -> bool
    ensures unchanged { kept ≡ checksum bytes.now → IsTrue result }
    ensures changed { (original : List ℕ) → kept ≡ checksum original
        → DifferInOneBurst bytes.now original → IsFalse result }
{
    crc32c(bytes) == kept
}
