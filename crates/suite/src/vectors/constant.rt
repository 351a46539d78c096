//! The calls of the library on elements, at a width that is a constant.

ghost use Rattle.std.specs.Prelude.{◌≡◌, ◌*◌, ◌≤◌};

use crate::vectors::calls::{ENDS, Packer, Reader};
use crate::vectors::comparison::{Question, Sign};
use crate::vectors::element::{Element, Word};
use fastlanes::{
    BitPackingCompare, Delta, FastLanesComparable, FoR, for_pack, pack, undelta_pack, unfor_pack,
    unpack, unpack_cmp, unpack_indices, unpack_single,
};

/// The calls of the library at `W` bits, which are `B` words, where a block has `LANES` lanes.
pub trait AtConstant<const LANES: usize, const W: usize, const B: usize>: Element {
    /// Packs a block, if this way to pack has a form with a constant width.
    fn pack_at(by: Packer, block: &[Self; 1024], words: &mut [Self; B]) -> Option<()>
        requires width { W ≤ Self.T }
        requires words { B ≡ Self.LANES * W };

    /// Reads words to a block, if this way to read has such a form.
    fn unpack_at(by: Reader, words: &[Self; B], output: &mut [Self; 1024]) -> Option<()>
        requires width { W ≤ Self.T }
        requires words { B ≡ Self.LANES * W };

    /// Compares the digits of words with a value.
    fn unpack_cmp_at(question: Question, words: &[Self; B], mask: &mut [u64; 16])
        requires width { W ≤ Self.T }
        requires words { B ≡ Self.LANES * W };

    /// Adds up the digits of words along the lanes, each from its base.
    fn undelta_pack_at(words: &[Self; B], bases: &[Self; LANES], output: &mut [Self; 1024])
        requires lanes { LANES ≡ Self.LANES }
        requires width { W ≤ Self.T }
        requires words { B ≡ Self.LANES * W };
}

impl<E: Word + FoR + Delta<LANES>, const LANES: usize, const W: usize, const B: usize> AtConstant<
    LANES,
    W,
    B,
> for E {
    fn pack_at(by: Packer, block: &[E; 1024], words: &mut [E; B]) -> Option<()> {
        packed::<E, W, B>(by, block, words)
    }

    fn unpack_at(by: Reader, words: &[E; B], output: &mut [E; 1024]) -> Option<()> {
        unpacked::<E, W, B>(by, words, output)
    }

    fn unpack_cmp_at(question: Question, words: &[E; B], mask: &mut [u64; 16]) {
        compared::<E, W, B>(question, words, mask);
    }

    fn undelta_pack_at(words: &[E; B], bases: &[E; LANES], output: &mut [E; 1024]) {
        undelta_pack::<E, LANES, W, B>(words, bases, output);
    }
}

fn packed<E: FoR, const W: usize, const B: usize>(
    by: Packer,
    block: &[E; 1024],
    words: &mut [E; B],
) -> Option<()>
    requires width { W ≤ E.T }
    requires words { B ≡ E.LANES * W }
{
    match by {
        Packer::Whole => pack::<E, W, B>(block, words),
        Packer::Frame(reference) => for_pack::<E, W, B>(block, E::of_number(reference), words),
        _ => return None,
    }
    Some(())
}

fn unpacked<E: FoR, const W: usize, const B: usize>(
    by: Reader,
    words: &[E; B],
    output: &mut [E; 1024],
) -> Option<()>
    requires width { W ≤ E.T }
    requires words { B ≡ E.LANES * W }
{
    match by {
        Reader::Whole => unpack::<E, W, B>(words, output),
        Reader::Single => {
            for place in 0..1024 {
                output[place] = unpack_single::<E, W, B>(words, place);
            }
        }
        Reader::Ends => unpack_indices::<E, W, B>(words, &ENDS, &mut output[..5]),
        Reader::Frame(reference) => {
            unfor_pack::<E, W, B>(words, E::of_number(reference), output);
        }
        _ => return None,
    }
    Some(())
}

fn compared<E: Word, const W: usize, const B: usize>(
    question: Question,
    words: &[E; B],
    mask: &mut [u64; 16],
)
    requires width { W ≤ E.T }
    requires words { B ≡ E.LANES * W }
{
    match question.sign {
        Sign::Without => compared_as::<E, E, W, B>(question, words, mask),
        Sign::With => compared_as::<E, E::Signed, W, B>(question, words, mask),
    }
}

/// Compares the digits with the value, both unpacked to `V`.
fn compared_as<
    E: BitPackingCompare,
    V: FastLanesComparable<Bitpacked = E> + PartialOrd + Drop,
    const W: usize,
    const B: usize,
>(question: Question, words: &[E; B], mask: &mut [u64; 16])
    requires width { W ≤ E.T }
    requires words { B ≡ E.LANES * W }
{
    let value = V::as_unpacked(E::of_number(question.value));
    let compare = |digit: V, other: V| question.comparison.holds(digit, other);
    unpack_cmp::<E, V, _, W, B>(words, mask, compare, value);
}
