//! The operations that have a width.

ghost use Rattle.std.specs.Prelude.{◌<◌, All};

use crate::vectors::calls::{Call, Packer, Reader, called, chosen, walked};
use crate::vectors::comparison::{Comparison, Question, Sign};
use crate::vectors::digest::Digest;
use crate::vectors::input::Input;
use crate::vectors::numbers::Numbers;
use crate::vectors::types::{AtType, Step};

/// What the operations of a width give, in the order of the lines. Readers of packed words read the first words of the block.
pub(crate) fn packed_digests<E: AtType>(width: usize, block: &Numbers) -> [Digest; 11] {
    let (odd, max) = (Input::Odd.at(4, 64), u64::MAX);
    [
        written::<E>(Packer::Whole, width, block),
        written::<E>(Packer::Lanes, width, block),
        read::<E>(Reader::Whole, width, block),
        lanes_walked::<E>(width, block),
        read::<E>(Reader::Single, width, block),
        chosen_read::<E>(width, block),
        written::<E>(Packer::Frame(odd), width, block),
        read::<E>(Reader::Frame(odd), width, block),
        written::<E>(Packer::Frame(max), width, block),
        read::<E>(Reader::Frame(max), width, block),
        summed::<E>(width, block),
    ]
}

/// The digest of the first words, as many as a block has that is packed to the width.
fn of_words(words: &Numbers, width: usize, bits: usize, lanes: usize) -> Digest {
    let len = lanes.wrapping_mul(width).min(1024);
    Digest::of(&words[..len], bits / 8)
}

/// The digest of the words that a block is packed to.
fn written<E: AtType>(by: Packer, width: usize, block: &Numbers) -> Digest {
    let words = called::<E>(Call::Pack(by), width, block, &[u64::MAX; 1024]);
    of_words(&words, width, E::T, E::LANES)
}

/// The digest of a block that words are read to.
fn read<E: AtType>(by: Reader, width: usize, words: &Numbers) -> Digest {
    let output = called::<E>(Call::Unpack(by), width, words, &[u64::MAX; 1024]);
    Digest::of(&output, E::T / 8)
}

/// The digest of what the digits of words add up to along the lanes.
fn summed<E: AtType>(width: usize, words: &Numbers) -> Digest {
    let call = Call::Step(Step::UndeltaPack, Input::Thrice);
    let output = called::<E>(call, width, words, &[u64::MAX; 1024]);
    Digest::of(&output, E::T / 8)
}

/// The digest of the places and digits of all lanes.
fn lanes_walked<E: AtType>(width: usize, words: &Numbers) -> Digest {
    let mut digest = Digest::new();
    for lane in 0..E::LANES {
        digest.add_walk(&walked::<E>(width, words, lane), E::T / 8);
    }
    digest
}

/// The digest of the digits at chosen places.
fn chosen_read<E: AtType>(width: usize, words: &Numbers) -> Digest {
    let values = chosen::<E>(width, words, &chosen_places(), u64::MAX);
    let mut digest = Digest::new();
    for j in 0..107 {
        digest.add(values[j], E::T / 8);
    }
    digest
}

/// Seven places, some of them twice, and then a hundred more.
fn chosen_places() -> [usize; 107]
    ensures { All (λ place. place < 1024) result }
{
    let mut places = [17; 107];
    for j in 0..100 {
        places[7 + j] = (389 * j + 7) % 1024;
    }
    places[0] = 1023;
    places[1] = 0;
    places[4] = 511;
    places[6] = 511;
    places
}

/// What comparisons with the digit at the place 777 give, as numbers without a sign and then with one.
pub(crate) fn compared_digests<E: AtType>(width: usize, words: &Numbers) -> [Digest; 6] {
    let digits = called::<E>(Call::Unpack(Reader::Whole), width, words, &[u64::MAX; 1024]);
    let value = digits[777];
    let (equal, less, greater) = (Comparison::Equal, Comparison::Less, Comparison::Greater);
    let (without, with) = (Sign::Without, Sign::With);
    let asked = |comparison, sign| {
        let question = Question {
            comparison,
            sign,
            value,
        };
        mask::<E>(question, width, words)
    };
    [
        asked(equal, without),
        asked(less, without),
        asked(greater, without),
        asked(equal, with),
        asked(less, with),
        asked(greater, with),
    ]
}

/// The digest of the mask of the answers for the digits.
fn mask<E: AtType>(question: Question, width: usize, words: &Numbers) -> Digest {
    let mask = called::<E>(Call::Compare(question), width, words, &[u64::MAX; 1024]);
    Digest::of(&mask[..16], 8)
}
