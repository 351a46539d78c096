//! Runs of equal values, there and back.

ghost use Rattle.std.specs.Prelude.{◌≡◌, ℕ, ◌<◌, slice_get};
ghost use Rattle.fastlanes.specs.RunLengths.{IsIdentityOn};

use fastlanes::RLE;

/// Encodes a block of values that are the same where they are equal, and decodes it; answers how many runs it has.
pub fn runs_there_and_back<V: RLE>(
    values: &[V; 1024],
    dictionary: &mut [V; 1024],
    indexes: &mut [u16; 1024],
    back: &mut [V; 1024],
) -> usize
    requires { IsIdentityOn V.eq values.now }
    ensures { (i : ℕ) → i < 1024 → slice_get back.new i ≡ slice_get values.now i }
{
    let count = V::encode_unchecked(values, dictionary, indexes);
    V::decode_unchecked(dictionary, indexes, back);
    count
}
