//! The calls of the library on plain numbers. What each asks for is met here: a width above T is T, and what has no lane makes
//! no call. So whoever calls these has no condition to meet, but where places are chosen: these have to be there.

ghost use Rattle.std.specs.Prelude.{◌≡◌, ◌*◌, ◌<◌, ◌≤◌, All, length};

use crate::vectors::comparison::Question;
use crate::vectors::element::{Compares, Element, Form, Moves, Packs};
use crate::vectors::input::Input;
use crate::vectors::numbers::{Numbers, bits_of, elements_of, numbers_of, with_bits};
use crate::vectors::types::{AtType, Step};
use crate::vectors::walk::Walk;
use fastlanes::{RLE, RunIndex};

/// A call that makes a block, packed words or a mask of another such.
#[derive(Clone, Copy)]
pub enum Call {
    /// Packs a block to words.
    Pack(Packer),
    /// Reads words to a block.
    Unpack(Reader),
    /// The mask of the answers for the digits of words.
    Compare(Question),
    /// Takes a step along the lanes, each from its number of the input.
    Step(Step, Input),
    /// Makes another block of a block.
    Move(Mover),
    /// Transposes a block of bits, there or back.
    MoveBits(Form, bool),
}

/// How a block is packed.
#[derive(Clone, Copy)]
pub enum Packer {
    Whole,
    Rows,
    Wide,
    /// As differences from a reference.
    Frame(u64),
    /// A lane alone.
    Lane(usize),
    /// Each lane by itself.
    Lanes,
}

/// How words are read.
#[derive(Clone, Copy)]
pub enum Reader {
    Whole,
    Rows,
    Wide,
    /// One by one.
    Single,
    /// At the places 0, 1023, 0, 1023 and 0 alone.
    Ends,
    /// As sums with a reference.
    Frame(u64),
}

/// The places of `Reader::Ends`.
pub(crate) const ENDS: [usize; 5] = [0, 1023, 0, 1023, 0];

/// What a block becomes.
#[derive(Clone, Copy)]
pub enum Mover {
    Transpose,
    Untranspose,
}

/// The widths that calls with a constant width are made at: 0, 1, T - 1 and T.
#[derive(Clone, Copy)]
pub enum Constant {
    Zero,
    One,
    Below,
    Full,
}

/// What an output holds after a call, where it held these numbers before.
pub fn called<E: AtType>(call: Call, width: usize, input: &Numbers, before: &Numbers) -> Numbers {
    match call {
        Call::Pack(by) => packed::<E>(by, width, input, before),
        Call::Unpack(by) => unpacked::<E>(by, width, input, before),
        Call::Compare(question) => compared::<E>(question, width, input, before),
        Call::Step(step, bases) => stepped::<E>(step, bases, width, input, before),
        Call::Move(to) => moved::<E>(to, input, before),
        Call::MoveBits(form, is_back) => bits_moved::<E>(form, is_back, input, before),
    }
}

fn packed<E: Packs>(by: Packer, width: usize, block: &Numbers, before: &Numbers) -> Numbers {
    let width = width.min(E::T);
    let mut output = elements_of::<E>(before);
    let words = &mut output[..E::packed_len(width)];
    E::pack(by, width, &elements_of(block), words);
    numbers_of(&output)
}

fn unpacked<E: Packs>(by: Reader, width: usize, words: &Numbers, before: &Numbers) -> Numbers {
    let width = width.min(E::T);
    let words = elements_of::<E>(words);
    let mut output = elements_of::<E>(before);
    E::unpack(by, width, &words[..E::packed_len(width)], &mut output);
    numbers_of(&output)
}

fn compared<E: Compares>(
    question: Question,
    width: usize,
    words: &Numbers,
    before: &Numbers,
) -> Numbers {
    let width = width.min(E::T);
    let words = elements_of::<E>(words);
    let mut mask = bits_of(before);
    E::unpack_cmp(question, width, &words[..E::packed_len(width)], &mut mask);
    with_bits(before, &mask)
}

fn stepped<E: AtType>(
    step: Step,
    bases: Input,
    width: usize,
    input: &Numbers,
    before: &Numbers,
) -> Numbers {
    let bases = elements_of::<E>(&bases.numbers(E::T));
    let mut output = elements_of::<E>(before);
    E::step(
        step,
        width.min(E::T),
        &elements_of(input),
        &bases,
        &mut output,
    );
    numbers_of(&output)
}

fn moved<E: Moves>(to: Mover, block: &Numbers, before: &Numbers) -> Numbers {
    let mut output = elements_of::<E>(before);
    E::transpose(to, &elements_of(block), &mut output);
    numbers_of(&output)
}

fn bits_moved<E: Moves>(form: Form, is_back: bool, bits: &Numbers, before: &Numbers) -> Numbers {
    let mut output = bits_of(before);
    E::transpose_bits(form, is_back, &bits_of(bits), &mut output);
    with_bits(before, &output)
}

/// What `unpack_lane` calls its kernel with.
pub fn walked<E: Moves>(width: usize, words: &Numbers, lane: usize) -> Walk {
    let width = width.min(E::T);
    let words = elements_of::<E>(words);
    let mut walk = Walk::new();
    if lane < E::LANES {
        E::unpack_lane(width, &words[..E::packed_len(width)], lane, &mut walk);
    }
    walk
}

/// What `iterate_lane` calls its kernel with.
pub fn visited<E: Moves>(lane: usize) -> Walk {
    let mut walk = Walk::new();
    if lane < E::LANES {
        E::iterate_lane(lane, &mut walk);
    }
    walk
}

/// A call on the sixteen lanes alone that begin at a lane.
#[derive(Clone, Copy)]
pub enum GroupCall {
    /// `pack_group_into`.
    Pack(usize),
    /// `unpack_group_from`.
    Unpack(usize),
}

/// What an output holds after a call on sixteen lanes, where it held `fill` before, and how many rows of words it puts or takes.
pub fn grouped<E: Packs>(
    call: GroupCall,
    width: usize,
    input: &Numbers,
    fill: u64,
) -> (Numbers, usize) {
    let width = width.min(E::T);
    let input = elements_of::<E>(input);
    let mut output = [E::of_number(fill); 1024];
    let len = E::packed_len(width);
    let (GroupCall::Pack(lane) | GroupCall::Unpack(lane)) = call;
    if lane >= E::LANES || lane % 16 != 0 {
        return (numbers_of(&output), 0);
    }
    let rows = match call {
        GroupCall::Pack(_) => E::pack_group(width, &input, &mut output[..len], lane),
        GroupCall::Unpack(_) => E::unpack_group(width, &input[..len], &mut output, lane),
    };
    (numbers_of(&output), rows)
}

/// As many places as are chosen at the most.
pub const MOST: usize = 5000;

/// What `unpack_indices` gives at these places, behind which the numbers are 0.
pub fn chosen<E: AtType>(width: usize, words: &Numbers, places: &[usize], fill: u64) -> [u64; MOST]
    requires places { All (λ place. place < 1024) places.now }
    requires few { length places.now ≤ 5000 }
{
    let width = width.min(E::T);
    let words = elements_of::<E>(words);
    let mut output = [E::of_number(fill); MOST];
    let values = &mut output[..places.len()];
    E::unpack_indices(width, &words[..E::packed_len(width)], places, values);
    let mut numbers = [0; MOST];
    for j in 0..places.len() {
        numbers[j] = output[j].number();
    }
    numbers
}

/// What `encode_unchecked` finds in a block, and what `decode_unchecked` makes of that.
#[derive(Clone, Copy)]
pub struct Runs {
    pub entries: Numbers,
    pub indexes: [u16; 1024],
    pub count: usize,
    pub decoded: Numbers,
}

/// Finds the runs of a block, and makes the block of them, where all outputs held `fill` before.
pub fn encoded<E: Element + PartialEq>(block: &Numbers, fill: u64) -> Runs {
    let block = elements_of::<E>(block);
    let mut entries = [E::of_number(fill); 1024];
    let mut indexes = [(fill % 0x1_0000) as u16; 1024];
    let count = E::encode_unchecked(&block, &mut entries, &mut indexes);
    let mut decoded = [E::of_number(fill); 1024];
    E::decode_unchecked(&entries, &indexes, &mut decoded);
    Runs {
        entries: numbers_of(&entries),
        indexes,
        count,
        decoded: numbers_of(&decoded),
    }
}

/// The entries of a dictionary that indexes name, where the output held `fill` before.
pub(crate) fn decoded<E: Element + PartialEq, I: RunIndex>(
    entries: &Numbers,
    indexes: &[I; 1024],
    fill: u64,
) -> Numbers
    requires indexes { All (λ index. I.place index < 1024) indexes.now }
{
    let entries = elements_of::<E>(entries);
    let mut output = [E::of_number(fill); 1024];
    E::decode_unchecked(&entries, indexes, &mut output);
    numbers_of(&output)
}
