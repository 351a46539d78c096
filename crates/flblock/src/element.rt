//! The element types of blocks.

ghost use Rattle.std.specs.Prelude.{◌≡◌, ◌*◌, ◌/◌, ◌≤◌, length, map, take};
ghost use Rattle.fastlanes.specs.Digits.{IsPacked, digits};
ghost use Rattle.fastlanes_bytes.specs.Bytes.{HasWords, bytes_of};

use fastlanes::{WideRows, number_of};
use fastlanes_base::MachineWord;
use fastlanes_bytes::WordBytes;

/// An element type of blocks: a word, and what a command does with blocks of words. What a command does asks for no more:
/// `WideRows` brings all laws of `num_traits` into every proof.
pub(crate) trait Element: MachineWord {
    /// The number of an element.
    fn to_number(self) -> u64
        ensures { result ≡ Self.number self };

    /// Reads each word from its bytes.
    fn read_words(bytes: &[u8], words: &mut [Self])
        requires { length bytes.now ≡ length words.old * (Self.T / 8) }
        ensures { HasWords Self.T (length words.old) (map Self.number words.new) bytes.now };

    /// Writes each word's bytes at the start of `bytes`, and answers how many these are.
    fn write_words(words: &[Self], bytes: &mut [u8]) -> usize
        requires { length words.now * (Self.T / 8) ≤ length bytes.old }
        ensures within { result ≤ length bytes.new }
        ensures bytes { take result bytes.new ≡ bytes_of Self.T (map Self.number words.now) };

    /// Packs a block.
    fn pack(width: usize, values: &[Self; 1024], words: &mut [Self])
        requires width { width ≤ Self.T }
        requires words { length words.old ≡ Self.LANES * width }
        ensures { IsPacked Self.T Self.LANES width (map Self.number values.now)
            (map Self.number words.new) };

    /// Unpacks a block.
    fn unpack(width: usize, words: &[Self], values: &mut [Self; 1024])
        requires width { width ≤ Self.T }
        requires words { length words.now ≡ Self.LANES * width }
        ensures { map Self.number values.new
            ≡ digits Self.T Self.LANES width (map Self.number words.now) };
}

impl<E: WordBytes + WideRows> Element for E {
    fn to_number(self) -> u64 {
        number_of(self)
    }

    fn read_words(bytes: &[u8], words: &mut [E]) {
        fastlanes_bytes::read_words(bytes, words);
    }

    fn write_words(words: &[E], bytes: &mut [u8]) -> usize {
        fastlanes_bytes::write_words(words, bytes)
    }

    fn pack(width: usize, values: &[E; 1024], words: &mut [E]) {
        E::pack_wide(width, values, words);
    }

    fn unpack(width: usize, words: &[E], values: &mut [E; 1024]) {
        E::unpack_wide(width, words, values);
    }
}

/// How many words a block has that is packed to the width.
pub(crate) fn packed_len<E: Element>(width: usize) -> usize
    requires { width ≤ E.T }
    ensures value { result ≡ E.LANES * width }
    ensures room { result ≤ 1024 }
{
    E::LANES * width
}
