//! Columns of the fixed inputs: their heads, what comes back from their words, and every value by its number.

ghost use Rattle.std.specs.Prelude.{◌≡◌, ◌^◌, ◌<◌, ◌≤◌, All, length};
ghost use Rattle.fastlanes_column.specs.Column.{part_starts, words_of};
ghost use Rattle.fastlanes_column.specs.Heads.{widths};

use crate::tests::hostile::Case;
use crate::tests::hostile::calls::{ELEMENTS, Element};
use crate::vectors::{BLOCKS, Input, Numbers, elements_of};
use fastlanes::{Delta, FastLanes, FoR, Transpose, number_of, packed_len, transpose};
use fastlanes_column::{
    FrameHead, column_get, column_get_at, column_len, column_starts, column_write, delta_head,
    delta_read, delta_write, write_heads,
};
use std::process::Abort;

/// The width that the differences of a block's neighbours need, where those of each lane begin with its base, and whether the
/// block comes back from them. The outputs hold `fill` before.
fn differences<E: Delta<LANES> + Transpose, const LANES: usize>(
    block: &Numbers,
    bases: &Numbers,
    fill: u64,
) -> (usize, bool)
    requires lanes { LANES ≡ E.LANES }
{
    let (block, bases) = (elements_of(block), elements_of(bases));
    let mut base = [E::zero(); LANES];
    for lane in 0..LANES {
        base[lane] = bases[lane % 1024];
    }
    let width = delta_head(&block, &base);
    let mut words: [E; 1024] = elements_of(&[fill; 1024]);
    let mut output = words;
    let words = &mut words[..packed_len::<E>(width)];
    delta_write(width, &block, &base, words);
    delta_read(width, words, &base, &mut output);
    (width, output == block)
}

/// The same at a type.
fn differences_of(element: Element, block: &Numbers, bases: &Numbers, fill: u64) -> (usize, bool) {
    match element {
        Element::U8 => differences::<u8, 128>(block, bases, fill),
        Element::U16 => differences::<u16, 64>(block, bases, fill),
        Element::U32 => differences::<u32, 32>(block, bases, fill),
        Element::U64 => differences::<u64, 16>(block, bases, fill),
    }
}

/// The widths that the differences of the neighbours of all inputs need.
fn widths_of(element: Element) -> [usize; 6] {
    match element {
        Element::U8 => [0, 0, 1, 8, 1, 7],
        Element::U16 => [0, 0, 1, 15, 1, 16],
        Element::U32 => [0, 0, 1, 32, 1, 30],
        Element::U64 => [0, 0, 1, 32, 1, 64],
    }
}

/// The first one of the neighbours that each lane has.
fn first_neighbours(input: Input, bits: usize) -> Numbers {
    let mut neighbours = [0; 1024];
    for lane in 0..1024 {
        neighbours[lane] = input.at(transpose(lane), bits);
    }
    neighbours
}

/// The differences of an input's neighbours from the first one of each lane need this width, and its block comes back from them.
fn assert_neighbours(rt: &impl Abort, element: Element, input: Input, width: usize) {
    let bits = element.layout().bits;
    let (block, bases) = (input.numbers(bits), first_neighbours(input, bits));
    for fill in [0, u64::MAX] {
        let case = Case::of(element, bits, input, fill);
        let (found, is_back) = differences_of(element, &block, &bases, fill);
        case.check(rt, found == width, "delta_head");
        case.check(rt, is_back, "delta_read");
    }
}

#[test]
fn differences_of_every_input_come_back(rt: HostRuntime) {
    for element in ELEMENTS {
        let widths = widths_of(element);
        for b in 0..6 {
            assert_neighbours(&rt, element, BLOCKS[b], widths[b]);
        }
    }
}

/// The heads of six blocks, as their widths and references.
type Heads = [(usize, u64); 6];

/// The heads of the blocks of all inputs, and how many words their column has.
fn wanted_of(element: Element) -> (Heads, usize) {
    match element {
        Element::U8 => ([(0, 0), (0, 255), (8, 0), (8, 0), (8, 0), (8, 1)], 4096),
        Element::U16 => {
            let heads = [
                (0, 0),
                (0, 0xFFFF),
                (10, 0),
                (16, 70),
                (10, 0x8000),
                (16, 133),
            ];
            (heads, 3328)
        }
        Element::U32 => {
            let (ones, top) = (0xFFFF_FFFF, 0x8000_0000);
            let heads = [
                (0, 0),
                (0, ones),
                (10, 0),
                (32, 97),
                (10, top),
                (32, 1_961_985),
            ];
            (heads, 2688)
        }
        Element::U64 => {
            let (top, mixed) = (1 << 63, 8_848_878_019_288_944);
            let heads = [
                (0, 0),
                (0, u64::MAX),
                (10, 0),
                (42, 97),
                (10, top),
                (64, mixed),
            ];
            (heads, 2016)
        }
    }
}

/// The values of a block by their numbers, read from the heads alone and from the starts.
#[derive(Clone, Copy)]
struct Values {
    from_heads: Numbers,
    from_starts: Numbers,
}

/// What is found of a column: its heads, how many words it has, and each block's values.
#[derive(Clone, Copy)]
struct Found {
    heads: Heads,
    len: usize,
    values: [Values; 6],
}

/// The values of block `b`.
fn values_of<E: FoR>(heads: &[FrameHead<E>], starts: &[usize], words: &[E], b: usize) -> Values
    requires widths { All (λ w. w ≤ E.T) (widths heads.now) }
    requires count { length heads.now ≤ 2 ^ 32 }
    requires starts { starts.now ≡ part_starts E.LANES (widths heads.now) }
    requires words { length words.now ≡ words_of E.LANES (widths heads.now) }
    requires block { b < length heads.now }
{
    let (mut from_heads, mut from_starts) = ([0; 1024], [0; 1024]);
    for place in 0..1024 {
        let i = 1024 * b + place;
        from_heads[place] = number_of(column_get(heads, words, i));
        from_starts[place] = number_of(column_get_at(heads, starts, words, i));
    }
    Values {
        from_heads,
        from_starts,
    }
}

/// Writes the blocks of all inputs.
fn fill_blocks<E: FastLanes>(blocks: &mut [[E; 1024]])
    requires blocks { length blocks.old ≡ 6 }
{
    for b in 0..6 {
        blocks[b] = elements_of(&BLOCKS[b].numbers(E::T));
    }
}

/// The values of all blocks, once the column's words are written.
fn written<E: FoR>(heads: &[FrameHead<E>; 6], blocks: &[[E; 1024]], words: &mut [E]) -> [Values; 6]
    requires blocks { length blocks.now ≡ 6 }
    requires widths { All (λ w. w ≤ E.T) (widths heads.now) }
    requires words { length words.old ≡ words_of E.LANES (widths heads.now) }
{
    column_write(heads, blocks, words);
    let mut starts = [9; 6];
    column_starts(heads, &mut starts);
    let mut found = [values_of(heads, &starts, words, 0); 6];
    for b in 1..6 {
        found[b] = values_of(heads, &starts, words, b);
    }
    found
}

/// Six heads that say nothing yet.
fn no_heads<E: FastLanes>() -> [FrameHead<E>; 6] {
    let head = || FrameHead {
        width: 0,
        reference: E::zero(),
    };
    [head(), head(), head(), head(), head(), head()]
}

/// What is found of the column of the blocks of all inputs, which are written to `blocks`, its heads to
/// `heads`, and its words to `words`.
fn column<E: FoR>(blocks: &mut [[E; 1024]], heads: &mut [FrameHead<E>; 6], words: &mut [E]) -> Found
    requires blocks { length blocks.old ≡ 6 }
    requires words { length words.old ≡ 6144 }
{
    fill_blocks(blocks);
    write_heads(blocks, heads);
    let mut told = [(0, 0); 6];
    for b in 0..6 {
        told[b] = (heads[b].width, number_of(heads[b].reference));
    }
    let len = column_len(heads);
    Found {
        heads: told,
        len,
        values: written(heads, blocks, &mut words[..len]),
    }
}

/// The same at a type.
fn column_of(element: Element) -> Found {
    match element {
        Element::U8 => column::<u8>(&mut [[9; 1024]; 6], &mut no_heads(), &mut [9; 6144]),
        Element::U16 => column::<u16>(&mut [[9; 1024]; 6], &mut no_heads(), &mut [9; 6144]),
        Element::U32 => column::<u32>(&mut [[9; 1024]; 6], &mut no_heads(), &mut [9; 6144]),
        Element::U64 => column::<u64>(&mut [[9; 1024]; 6], &mut no_heads(), &mut [9; 6144]),
    }
}

/// The blocks of all inputs have these heads, and every value comes back from the column's words by its number.
fn assert_column(rt: &impl Abort, element: Element) {
    let bits = element.layout().bits;
    let found = column_of(element);
    let (heads, len) = wanted_of(element);
    for b in 0..6 {
        let block = BLOCKS[b].numbers(bits);
        let case = Case::of(element, bits, BLOCKS[b], 0);
        case.check(rt, found.heads[b] == heads[b], "frame_head");
        case.check(rt, found.len == len, "column_len");
        case.check(rt, found.values[b].from_heads == block, "column_get");
        case.check(rt, found.values[b].from_starts == block, "column_get_at");
    }
}

#[test]
fn columns_of_every_input(rt: HostRuntime) {
    for element in ELEMENTS {
        assert_column(&rt, element);
    }
}
