//! A ramp as text: the packed words of ascending values, a word a line.

ghost use Rattle.std.specs.Prelude.{◌≡◌, ◌+◌, ◌*◌, ◌/◌, ◌^◌, ◌<◌, ◌≤◌, length, map, take};
ghost use Rattle.fastlanes.specs.Element.{IsWordSize};
ghost use Rattle.flblock.specs.Ramp.{IsRampText, line_of, lines_of, ramp_values};

use crate::element::{Element, packed_len};
use fastlanes_base::MachineWord;

/// The most bytes that a ramp's text has: a line of 16 digits for each word of a block that is packed to 64 bits.
pub(crate) const MOST_TEXT: usize = 1024 * 17;

/// Writes the text of the ramp of this width at the start of `text`, and answers how many bytes it has.
pub(crate) fn write_ramp<E: Element>(width: usize, text: &mut [u8]) -> usize
    requires width { width ≤ E.T }
    requires room { MOST_TEXT ≤ length text.old }
    ensures within { result ≤ length text.new }
    ensures ramp { IsRampText E.T E.LANES width (take result text.new) }
{
    let values = ramp::<E>(width);
    let mut words = [E::zero(); 1024];
    let words = &mut words[..packed_len::<E>(width)];
    E::pack(width, &values, words);
    write_lines(words, text)
}

/// The block of the values `i mod 2^width`.
fn ramp<E: MachineWord>(width: usize) -> [E; 1024]
    requires width { width ≤ E.T }
    ensures { map E.number result ≡ ramp_values width }
{
    let mut values = [E::zero(); 1024];
    let mut value = E::zero();
    for place in 0..values.len() {
        values[place] = value;
        value = value.plus(E::one()).low(width as u32);
    }
    values
}

/// Writes each word as a line, and answers how many bytes these are.
fn write_lines<E: Element>(words: &[E], text: &mut [u8]) -> usize
    requires { length words.now * (E.T / 4 + 1) ≤ length text.old }
    ensures within { result ≤ length text.new }
    ensures lines { take result text.new ≡ lines_of E.T (map E.number words.now) }
{
    let line_len = E::T / 4 + 1;
    let mut end = 0;
    for word in words {
        let start = end;
        end += line_len;
        write_line(E::T, word.to_number(), &mut text[start..end]);
    }
    end
}

/// Writes the number of a word of `bits` bits in hexadecimal, with leading zeros, and a line feed.
fn write_line(bits: usize, number: u64, line: &mut [u8])
    requires size { IsWordSize bits }
    requires line { length line.old ≡ bits / 4 + 1 }
    ensures { line.new ≡ line_of bits number }
{
    let bytes = number.to_be_bytes();
    let digits = bits / 4;
    hex::encode_to_slice(&bytes[8 - digits / 2..], &mut line[..digits]).unwrap();
    line[digits] = b'\n';
}
