//! Blocks as bytes: values to packed words, and back.

ghost use Rattle.std.specs.Prelude.{◌≡◌, ◌*◌, ◌≤◌, length, take};
ghost use Rattle.flblock.specs.Bytes.{IsPackedBytes, IsUnpackedBytes};

use crate::element::{Element, packed_len};

/// The most bytes that a block has: 1024 elements of 64 bits.
const MOST_BYTES: usize = 1024 * 8;

/// Packs the values that the block's bytes are, writes the words' bytes at the start of `bytes`, and answers how many
/// these are.
pub(crate) fn write_packed<E: Element>(width: usize, block: &[u8], bytes: &mut [u8]) -> usize
    requires width { width ≤ E.T }
    requires block { length block.now ≡ 128 * E.T }
    requires room { MOST_BYTES ≤ length bytes.old }
    ensures within { result ≤ length bytes.new }
    ensures packed { IsPackedBytes E.T E.LANES width block.now (take result bytes.new) }
{
    let mut values = [E::zero(); 1024];
    E::read_words(block, &mut values);
    let mut words = [E::zero(); 1024];
    let words = &mut words[..packed_len::<E>(width)];
    E::pack(width, &values, words);
    E::write_words(words, bytes)
}

/// Unpacks the words that the block's bytes are, writes the values' bytes at the start of `bytes`, and answers how many
/// these are.
pub(crate) fn write_unpacked<E: Element>(width: usize, block: &[u8], bytes: &mut [u8]) -> usize
    requires width { width ≤ E.T }
    requires block { length block.now ≡ 128 * width }
    requires room { MOST_BYTES ≤ length bytes.old }
    ensures within { result ≤ length bytes.new }
    ensures unpacked { IsUnpackedBytes E.T E.LANES width block.now (take result bytes.new) }
{
    let mut words = [E::zero(); 1024];
    let words = &mut words[..packed_len::<E>(width)];
    E::read_words(block, words);
    let mut values = [E::zero(); 1024];
    E::unpack(width, words, &mut values);
    E::write_words(&values, bytes)
}
