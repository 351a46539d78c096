//! The calls of the library on elements, at a width that is known at run time. The traits ask of them no more than what they ask
//! for: so what calls them has none of the laws of the library's traits to carry through its proof.

ghost use Rattle.std.specs.Prelude.{◌≡◌, ◌*◌, ◌^◌, ◌<◌, ◌≤◌, ◌%◌, ℕ, All, length};
ghost use Rattle.std.specs.Mem.{type_size};

use crate::vectors::calls::{ENDS, Mover, Packer, Reader};
use crate::vectors::comparison::{Question, Sign};
use crate::vectors::walk::Walk;
use fastlanes::{
    BitPackingCompare, FastLanes, FastLanesComparable, FoR, LaneRows, RowSink, RowWords, Transpose,
    WideRows, iterate_lane, lanes, number_of, pack_lane, packed_len, scalar, transpose_bits,
    unpack_lane, untranspose_bits,
};
use num_traits::cast;

/// An element type, as no more than its numbers.
pub trait Element: Sized + Copy {
    /// How many bits an element has.
    const T: usize;

    ghost T: { ℕ };

    /// How many lanes a block has.
    const LANES: usize;

    ghost LANES: { ℕ };

    /// The number modulo `2^T`.
    fn of_number(number: u64) -> Self;

    /// The number of an element.
    fn number(self) -> u64;

    /// How many words a block has that is packed to the width.
    fn packed_len(width: usize) -> usize
        requires width { width ≤ T }
        ensures value { result ≡ LANES * width }
        ensures room { result ≤ 1024 };

    // A block fits into memory.
    ghost memory_law: { 1024 * type_size Self.row < 2 ^ 63 };
}

impl<E: FastLanes> Element for E {
    const T: usize = E::T;

    ghost T = { E.T };

    const LANES: usize = E::LANES;

    ghost LANES = { E.LANES };

    fn of_number(number: u64) -> E {
        let low = number & number_of(E::max_value());
        cast(low).unwrap_or(E::zero())
    }

    fn number(self) -> u64 {
        number_of(self)
    }

    fn packed_len(width: usize) -> usize {
        packed_len::<E>(width)
    }

    ghost memory_law = { E.memory_law };
}

/// The forms of the transposes of a block of bits.
#[derive(Clone, Copy)]
pub enum Form {
    Root,
    Scalar,
    Lanes,
}

/// What goes lane by lane, and transposes there or back.
pub trait Moves: Element {
    /// Walks over the digits of a lane.
    fn unpack_lane(width: usize, words: &[Self], lane: usize, walk: &mut Walk)
        requires width { width ≤ Self.T }
        requires words { length words.now ≡ Self.LANES * width }
        requires lane { lane < Self.LANES };

    /// Walks over the places of a lane.
    fn iterate_lane(lane: usize, walk: &mut Walk)
        requires lane { lane < Self.LANES };

    fn transpose(to: Mover, block: &[Self; 1024], output: &mut [Self; 1024]);

    fn transpose_bits(form: Form, is_back: bool, bits: &[u64; 16], output: &mut [u64; 16]);
}

impl<E: FastLanes> Moves for E {
    fn unpack_lane(width: usize, words: &[E], lane: usize, walk: &mut Walk) {
        let mut kernel = |place: usize, digit: E| walk.add(place, number_of(digit));
        unpack_lane::<E, _>(width, words, lane, &mut kernel);
    }

    fn iterate_lane(lane: usize, walk: &mut Walk) {
        iterate_lane::<E, _>(lane, &mut |place: usize| walk.add(place, 0));
    }

    fn transpose(to: Mover, block: &[E; 1024], output: &mut [E; 1024]) {
        match to {
            Mover::Transpose => <E as Transpose>::transpose(block, output),
            Mover::Untranspose => E::untranspose(block, output),
        }
    }

    fn transpose_bits(form: Form, is_back: bool, bits: &[u64; 16], output: &mut [u64; 16]) {
        match (form, is_back) {
            (Form::Root, false) => transpose_bits::<E>(bits, output),
            (Form::Root, true) => untranspose_bits::<E>(bits, output),
            (Form::Scalar, false) => scalar::transpose_bits::<E>(bits, output),
            (Form::Scalar, true) => scalar::untranspose_bits::<E>(bits, output),
            (Form::Lanes, false) => lanes::transpose_bits_lanes::<E>(bits, output),
            (Form::Lanes, true) => lanes::untranspose_bits_lanes::<E>(bits, output),
        }
    }
}

/// Packing and reading of whole blocks, of chosen places, and of sixteen lanes that begin at a lane.
pub trait Packs: Moves {
    /// Packs a block. A lane that there is not makes no call.
    fn pack(by: Packer, width: usize, block: &[Self; 1024], words: &mut [Self])
        requires width { width ≤ Self.T }
        requires words { length words.old ≡ Self.LANES * width };

    /// Reads words to a block.
    fn unpack(by: Reader, width: usize, words: &[Self], output: &mut [Self; 1024])
        requires width { width ≤ Self.T }
        requires words { length words.now ≡ Self.LANES * width };

    fn unpack_indices(width: usize, words: &[Self], places: &[usize], output: &mut [Self])
        requires width { width ≤ Self.T }
        requires words { length words.now ≡ Self.LANES * width }
        requires places { All (λ place. place < 1024) places.now }
        requires output { length output.old ≡ length places.now };

    /// Answers how many rows of words are put.
    fn pack_group(width: usize, block: &[Self; 1024], words: &mut [Self], lane: usize) -> usize
        requires width { width ≤ Self.T }
        requires words { length words.old ≡ Self.LANES * width }
        requires lane { lane < Self.LANES }
        requires group { lane % 16 ≡ 0 };

    /// Answers how many rows of words are taken.
    fn unpack_group(width: usize, words: &[Self], output: &mut [Self; 1024], lane: usize) -> usize
        requires width { width ≤ Self.T }
        requires words { length words.now ≡ Self.LANES * width }
        requires lane { lane < Self.LANES }
        requires group { lane % 16 ≡ 0 };
}

impl<E: FoR + LaneRows + WideRows> Packs for E {
    fn pack(by: Packer, width: usize, block: &[E; 1024], words: &mut [E]) {
        match by {
            Packer::Whole => E::unchecked_pack(width, block, words),
            Packer::Rows => E::pack_rows(width, block, words),
            Packer::Wide => E::pack_wide(width, block, words),
            Packer::Frame(reference) => {
                E::unchecked_for_pack(width, block, E::of_number(reference), words);
            }
            Packer::Lane(lane) => {
                if lane < E::LANES {
                    pack_one_lane(width, block, words, lane);
                }
            }
            Packer::Lanes => {
                for lane in 0..E::LANES {
                    pack_one_lane(width, block, words, lane);
                }
            }
        }
    }

    fn unpack(by: Reader, width: usize, words: &[E], output: &mut [E; 1024]) {
        match by {
            Reader::Whole => E::unchecked_unpack(width, words, output),
            Reader::Rows => E::unpack_rows(width, words, output),
            Reader::Wide => E::unpack_wide(width, words, output),
            Reader::Single => {
                for place in 0..1024 {
                    output[place] = E::unchecked_unpack_single(width, words, place);
                }
            }
            Reader::Ends => {
                E::unchecked_unpack_indices(width, words, &ENDS, &mut output[..5]);
            }
            Reader::Frame(reference) => {
                E::unchecked_unfor_pack(width, words, E::of_number(reference), output);
            }
        }
    }

    fn unpack_indices(width: usize, words: &[E], places: &[usize], output: &mut [E]) {
        E::unchecked_unpack_indices(width, words, places, output);
    }

    fn pack_group(width: usize, block: &[E; 1024], words: &mut [E], lane: usize) -> usize {
        let mut sink = RowSink::<E>::new(words, width, lane);
        E::pack_group_into(width, block, &mut sink);
        sink.written()
    }

    fn unpack_group(width: usize, words: &[E], output: &mut [E; 1024], lane: usize) -> usize {
        let mut words = RowWords::<E>::new(words, width, lane);
        E::unpack_group_from(width, &mut words, output);
        words.taken()
    }
}

/// Packs the elements of a lane.
fn pack_one_lane<E: FastLanes>(width: usize, block: &[E; 1024], words: &mut [E], lane: usize)
    requires width { width ≤ E.T }
    requires words { length words.old ≡ E.LANES * width }
    requires lane { lane < E.LANES }
{
    pack_lane::<E, _>(width, words, lane, &mut |place: usize| block[place]);
}

/// An element type whose numbers can be compared without a sign and with one.
pub trait Word: BitPackingCompare + FastLanesComparable<Bitpacked = Self> + PartialOrd {
    /// The type of the numbers with a sign that have as many bits.
    type Signed: FastLanesComparable<Bitpacked = Self> + PartialOrd + Drop;
}

impl Word for u8 {
    type Signed = i8;
}

impl Word for u16 {
    type Signed = i16;
}

impl Word for u32 {
    type Signed = i32;
}

impl Word for u64 {
    type Signed = i64;
}

/// Comparisons of the digits with a value.
pub trait Compares: Element {
    fn unpack_cmp(question: Question, width: usize, words: &[Self], mask: &mut [u64; 16])
        requires width { width ≤ Self.T }
        requires words { length words.now ≡ Self.LANES * width };
}

impl<E: Word> Compares for E {
    fn unpack_cmp(question: Question, width: usize, words: &[E], mask: &mut [u64; 16]) {
        match question.sign {
            Sign::Without => compare::<E, E>(question, width, words, mask),
            Sign::With => compare::<E, E::Signed>(question, width, words, mask),
        }
    }
}

/// Compares the digits with the value, both unpacked to `V`.
fn compare<E: BitPackingCompare, V: FastLanesComparable<Bitpacked = E> + PartialOrd + Drop>(
    question: Question,
    width: usize,
    words: &[E],
    mask: &mut [u64; 16],
)
    requires width { width ≤ E.T }
    requires words { length words.now ≡ E.LANES * width }
{
    let value = V::as_unpacked(E::of_number(question.value));
    let compare = |digit: V, other: V| question.comparison.holds(digit, other);
    E::unchecked_unpack_cmp(width, words, mask, compare, value);
}
