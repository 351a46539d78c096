//! Words as bytes, the lowest byte of each first, on every machine.
#![tactic(auto)]

ghost use Rattle.std.specs.Prelude.{◌≡◌, ◌*◌, ◌/◌, ◌^◌, ◌<◌, ◌≤◌, All, drop, length, map, take};
ghost use Rattle.fastlanes_bytes.specs.Bytes.{HasWords, bytes_of, word_bytes};

use fastlanes_base::FastLanes;

/// The element types, which are read and written as bytes.
pub trait WordBytes: FastLanes {
    /// The word that has these bytes.
    fn of_bytes(bytes: &[u8]) -> Self
        requires { length bytes.now ≡ Self.T / 8 }
        ensures below { Self.number result < 2 ^ Self.T }
        ensures bytes { word_bytes Self.T (Self.number result) ≡ bytes.now };

    /// Puts the word's bytes into `bytes`.
    fn put_bytes(self, bytes: &mut [u8])
        requires { length bytes.old ≡ Self.T / 8 }
        ensures below { Self.number self < 2 ^ Self.T }
        ensures bytes { bytes.new ≡ word_bytes Self.T (Self.number self) };
}

impl WordBytes for u8 {
    #[inline(always)]
    fn of_bytes(bytes: &[u8]) -> u8 {
        bytes[0]
    }

    #[inline(always)]
    fn put_bytes(self, bytes: &mut [u8]) {
        bytes[0] = self;
    }
}

impl WordBytes for u16 {
    #[tactic(auto, using(std::proofs::lemmas::Nat::le_bytes_2))]
    #[inline(always)]
    fn of_bytes(bytes: &[u8]) -> u16 {
        u16::from_le_bytes([bytes[0], bytes[1]])
    }

    #[inline(always)]
    fn put_bytes(self, bytes: &mut [u8]) {
        put_each(self.to_le_bytes(), bytes);
    }
}

impl WordBytes for u32 {
    #[tactic(auto, using(std::proofs::lemmas::Nat::le_bytes_4))]
    #[inline(always)]
    fn of_bytes(bytes: &[u8]) -> u32 {
        u32::from_le_bytes([bytes[0], bytes[1], bytes[2], bytes[3]])
    }

    #[inline(always)]
    fn put_bytes(self, bytes: &mut [u8]) {
        put_each(self.to_le_bytes(), bytes);
    }
}

impl WordBytes for u64 {
    #[tactic(auto, using(std::proofs::lemmas::Nat::le_bytes_8))]
    #[inline(always)]
    fn of_bytes(bytes: &[u8]) -> u64 {
        u64::from_le_bytes([
            bytes[0], bytes[1], bytes[2], bytes[3], bytes[4], bytes[5], bytes[6], bytes[7],
        ])
    }

    #[inline(always)]
    fn put_bytes(self, bytes: &mut [u8]) {
        put_each(self.to_le_bytes(), bytes);
    }
}

/// Puts bytes into a slice of as many. What copies a slice looks first whether the two overlap, for each word.
#[inline(always)]
fn put_each<const N: usize>(word: [u8; N], bytes: &mut [u8])
    requires { length bytes.old ≡ N }
    ensures { bytes.new ≡ word.entry }
{
    for i in 0..N {
        bytes[i] = word[i];
    }
}

/// Reads each word from its bytes.
///
/// ```rust
/// let mut words = [0u16; 2];
/// fastlanes_bytes::read_words(&[2, 1, 4, 3], &mut words);
/// assert_eq!(rt; words, [0x0102, 0x0304]);
/// ```
pub fn read_words<E: WordBytes>(bytes: &[u8], words: &mut [E])
    requires { length bytes.now ≡ length words.old * (E.T / 8) }
    ensures length { length words.new ≡ length words.old }
    ensures words { HasWords E.T (length words.old) (map E.number words.new) bytes.now }
{
    let word_len = E::T / 8;
    let mut end = 0;
    for place in 0..words.len() {
        let start = end;
        end += word_len;
        words[place] = E::of_bytes(&bytes[start..end]);
    }
}

/// Writes each word's bytes at the start of `bytes`, and answers how many these are. The bytes after them stay.
///
/// ```rust
/// let mut bytes = [9; 5];
/// assert_eq!(rt; fastlanes_bytes::write_words(&[0x0102u16, 0x0304], &mut bytes), 4);
/// assert_eq!(rt; bytes, [2, 1, 4, 3, 9]);
/// ```
pub fn write_words<E: WordBytes>(words: &[E], bytes: &mut [u8]) -> usize
    requires { length words.now * (E.T / 8) ≤ length bytes.old }
    ensures count { result ≡ length words.now * (E.T / 8) }
    ensures within { result ≤ length bytes.new }
    ensures below { All (λ x. x < 2 ^ E.T) (map E.number words.now) }
    ensures bytes { take result bytes.new ≡ bytes_of E.T (map E.number words.now) }
    ensures rest { drop result bytes.new ≡ drop result bytes.old }
{
    let word_len = E::T / 8;
    let mut end = 0;
    for word in words {
        let start = end;
        end += word_len;
        word.put_bytes(&mut bytes[start..end]);
    }
    end
}
