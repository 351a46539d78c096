//! The words of a column: those of its blocks, one after another.

ghost use Rattle.std.specs.Prelude.{◌≡◌, ℕ, ◌+◌, ◌*◌, ◌/◌, ◌%◌, ◌^◌, ◌<◌, ◌≤◌, All, List, drop, length, map, slice_index, take};
ghost use Rattle.fastlanes.specs.Digits.{IsPacked, digits};
ghost use Rattle.fastlanes.specs.Frame.{NearBlockComesBack, framed, unframed};
ghost use Rattle.fastlanes_column.specs.Heads.{references, widths};
ghost use Rattle.fastlanes_column.specs.Column.{AreNarrowestHeads, AreNear, BlocksLieAbove, NearBlocksComeBack, NearColumnComesBack, NearListComesBack, PacksColumn, held_blocks, held_value, part_starts, words_of};

use crate::frame::{FrameHead, frame_get, frame_head, frame_read, frame_write};
use fastlanes::{FoR, packed_len};

/// Writes the head of each block, as `frame_head` gives it. Among heads whose references are at most every value of their
/// blocks, and whose widths hold the differences, none make a shorter column.
///
/// ```rust
/// use fastlanes_column::{FrameHead, write_heads};
///
/// let blocks = [[300; 1024], std::array::from_fn(|i| (1000 + i % 1024) as u32)];
/// let mut heads = [FrameHead { width: 0, reference: 0 }, FrameHead { width: 0, reference: 0 }];
/// write_heads(&blocks, &mut heads);
/// assert_eq!(rt; (heads[0].reference, heads[0].width), (300, 0));
/// assert_eq!(rt; (heads[1].reference, heads[1].width), (1000, 10));
/// ```
pub fn write_heads<E: FoR>(blocks: &[[E; 1024]], heads: &mut [FrameHead<E>])
    requires heads { length heads.old ≡ length blocks.now }
    ensures widths { All (λ w. w ≤ E.T) (widths heads.new) }
    // So each block comes back when the column is packed by these heads.
    ensures near { AreNear E.T (widths heads.new) (references E.number heads.new)
        (map (map E.number) blocks.now) }
    ensures narrowest { AreNarrowestHeads (widths heads.new) (references E.number heads.new)
        (map (map E.number) blocks.now) }
{
    for b in 0..blocks.len() {
        heads[b] = frame_head(&blocks[b]);
    }
}

/// How many words a column takes whose blocks have these heads.
///
/// ```rust
/// use fastlanes_column::{column_len, frame_head};
///
/// let thousands = std::array::from_fn(|i| (1000 + i % 1024) as u32);
/// // No words for the first block, and 32 * 10 for the second.
/// assert_eq!(rt; column_len(&[frame_head(&[300; 1024]), frame_head(&thousands)]), 320);
/// ```
pub fn column_len<E: FoR>(heads: &[FrameHead<E>]) -> usize
    requires widths { All (λ w. w ≤ E.T) (widths heads.now) }
    requires count { length heads.now ≤ 2 ^ 32 }
    ensures value { result ≡ words_of E.LANES (widths heads.now) }
    ensures most { result ≤ 1024 * length heads.now }
    // Where the heads are those of `frame_head`, no others make a shorter column among those whose references are at most every
    // value of their blocks and whose widths hold the differences.
    ensures shortest { (blocks : List (List ℕ)) (ws rs : List ℕ) → length blocks ≡ length heads.now
        → length ws ≡ length heads.now
        → AreNarrowestHeads (widths heads.now) (references E.number heads.now) blocks
        → BlocksLieAbove ws rs blocks
        → result ≤ words_of E.LANES ws }
{
    let mut len = 0;
    for head in heads {
        len += packed_len::<E>(head.width);
    }
    len
}

/// Packs blocks one after another, each by its head: the words of a block follow those of the blocks before it.
///
/// ```rust
/// use fastlanes_column::{column_get, column_write, frame_head};
///
/// let blocks = [[300; 1024], std::array::from_fn(|i| (1000 + i % 1024) as u32)];
/// let heads = [frame_head(&blocks[0]), frame_head(&blocks[1])];
/// let mut words = [0; 320];
/// column_write(&heads, &blocks, &mut words);
/// assert_eq!(rt; (column_get(&heads, &words, 5), column_get(&heads, &words, 1031)), (300, 1007));
/// ```
pub fn column_write<E: FoR>(heads: &[FrameHead<E>], blocks: &[[E; 1024]], output: &mut [E])
    requires widths { All (λ w. w ≤ E.T) (widths heads.now) }
    requires count { length heads.now ≤ 2 ^ 32 }
    requires blocks { length blocks.now ≡ length heads.now }
    requires output { length output.old ≡ words_of E.LANES (widths heads.now) }
    ensures packed { PacksColumn E.T E.LANES (widths heads.now) (references E.number heads.now)
        (map (map E.number) blocks.now) (map E.number output.new) }
    // A block comes back exactly where each of its differences has at most as many bits as its width, and all blocks come
    // back exactly where all differences have.
    ensures block_comes_back { NearBlocksComeBack E.T E.LANES (widths heads.now)
        (references E.number heads.now)
        (map (map E.number) blocks.now) (map E.number output.new) }
    ensures comes_back { NearColumnComesBack E.T E.LANES (widths heads.now)
        (references E.number heads.now)
        (map (map E.number) blocks.now) (map E.number output.new) }
    // The same of the list of blocks that `column_read` reads.
    ensures list_comes_back { NearListComesBack E.T E.LANES (widths heads.now)
        (references E.number heads.now)
        (map (map E.number) blocks.now) (map E.number output.new) }
{
    let mut start = 0;
    for (b, head) in heads.iter().enumerate() {
        start = write_part(head, &blocks[b], output, start);
    }
}

/// Reads all blocks of a column by their heads, from any words of its length: each block as `frame_read` reads it from its
/// own words.
///
/// ```rust
/// use fastlanes_column::{FrameHead, column_read};
///
/// let heads = [FrameHead { width: 0, reference: 300u32 }, FrameHead { width: 1, reference: 7 }];
/// let mut blocks = [[0; 1024]; 2];
/// column_read(&heads, &[u32::MAX; 32], &mut blocks);
/// // The first block has no words, and the second has 32 words of ones: its digits are 1.
/// assert_eq!(rt; blocks, [[300; 1024], [8; 1024]]);
/// ```
pub fn column_read<E: FoR>(heads: &[FrameHead<E>], input: &[E], output: &mut [[E; 1024]])
    requires widths { All (λ w. w ≤ E.T) (widths heads.now) }
    requires count { length heads.now ≤ 2 ^ 32 }
    requires input { length input.now ≡ words_of E.LANES (widths heads.now) }
    requires output { length output.old ≡ length heads.now }
    ensures { map (map E.number) output.new
        ≡ held_blocks E.T E.LANES (widths heads.now) (references E.number heads.now)
        (map E.number input.now) }
{
    let mut start = 0;
    for (b, head) in heads.iter().enumerate() {
        start = read_part(head, input, start, &mut output[b]);
    }
}

/// Reads value number `i` of a column, without unpacking a block.
///
/// It adds up the widths of all heads before that of the value's block, which takes the longer the further back the block is:
/// on a processor of 2.5 GHz some 140 nanoseconds a value where there are 1,000 blocks, and 25 microseconds where there are
/// 100,000. `column_get_at` reads the same value in 4 to 50, from starts that the caller keeps.
///
/// ```rust
/// use fastlanes_column::{FrameHead, column_get};
///
/// let heads = [FrameHead { width: 0, reference: 300u32 }, FrameHead { width: 1, reference: 7 }];
/// // The second block has 32 words of ones: its digits are 1.
/// assert_eq!(rt; (column_get(&heads, &[u32::MAX; 32], 5), column_get(&heads, &[u32::MAX; 32], 1029)), (300, 8));
/// ```
pub fn column_get<E: FoR>(heads: &[FrameHead<E>], input: &[E], i: usize) -> E
    requires widths { All (λ w. w ≤ E.T) (widths heads.now) }
    requires count { length heads.now ≤ 2 ^ 32 }
    requires input { length input.now ≡ words_of E.LANES (widths heads.now) }
    requires index { i < 1024 * length heads.now }
    ensures { E.number result
        ≡ held_value E.T E.LANES (widths heads.now) (references E.number heads.now)
        (map E.number input.now) i }
{
    let block = i / 1024;
    let start = column_len(&heads[..block]);
    value_at(&heads[block], input, start, i % 1024)
}

/// Where the words of each block of a column begin.
///
/// ```rust
/// use fastlanes_column::{FrameHead, column_starts};
///
/// let heads = [FrameHead { width: 10, reference: 1000u32 }, FrameHead { width: 0, reference: 300 }];
/// let mut starts = [9; 2];
/// column_starts(&heads, &mut starts);
/// assert_eq!(rt; starts, [0, 320]);
/// ```
pub fn column_starts<E: FoR>(heads: &[FrameHead<E>], starts: &mut [usize])
    requires widths { All (λ w. w ≤ E.T) (widths heads.now) }
    requires count { length heads.now ≤ 2 ^ 32 }
    requires starts { length starts.old ≡ length heads.now }
    ensures { starts.new ≡ part_starts E.LANES (widths heads.now) }
{
    let mut start = 0;
    for (b, head) in heads.iter().enumerate() {
        starts[b] = start;
        start += packed_len::<E>(head.width);
    }
}

/// Reads value number `i` of a column, as `column_get` does, from the starts of its blocks, which `column_starts` wrote: it
/// takes no longer for the last block than for the first.
///
/// ```rust
/// use fastlanes_column::{FrameHead, column_get_at};
///
/// let heads = [FrameHead { width: 0, reference: 300u32 }, FrameHead { width: 1, reference: 7 }];
/// assert_eq!(rt; column_get_at(&heads, &[0, 0], &[u32::MAX; 32], 1029), 8);
/// ```
pub fn column_get_at<E: FoR>(heads: &[FrameHead<E>], starts: &[usize], input: &[E], i: usize) -> E
    requires widths { All (λ w. w ≤ E.T) (widths heads.now) }
    requires count { length heads.now ≤ 2 ^ 32 }
    requires starts { starts.now ≡ part_starts E.LANES (widths heads.now) }
    requires input { length input.now ≡ words_of E.LANES (widths heads.now) }
    requires index { i < 1024 * length heads.now }
    ensures { E.number result
        ≡ held_value E.T E.LANES (widths heads.now) (references E.number heads.now)
        (map E.number input.now) i }
{
    value_at(&heads[i / 1024], input, starts[i / 1024], i % 1024)
}

/// Packs a block by its head from one place on, and answers the place after its words.
#[inline(always)]
fn write_part<E: FoR>(
    head: &FrameHead<E>,
    block: &[E; 1024],
    output: &mut [E],
    start: usize,
) -> usize
    requires width { head.now.width ≤ E.T }
    requires room { start + E.LANES * head.now.width ≤ length output.old }
    ensures end { result ≡ start + E.LANES * head.now.width }
    ensures before { take start output.new ≡ take start output.old }
    ensures packed { IsPacked E.T E.LANES head.now.width
        (framed E.T (E.number head.now.reference) (map E.number block.now))
        (take (E.LANES * head.now.width) (drop start (map E.number output.new))) }
    ensures comes_back { NearBlockComesBack E.T E.LANES head.now.width (E.number head.now.reference)
        (map E.number block.now)
        (take (E.LANES * head.now.width) (drop start (map E.number output.new))) }
{
    let end = start + packed_len::<E>(head.width);
    frame_write(head, block, &mut output[start..end]);
    end
}

/// Reads the block whose words begin at `start` by its head, and answers the place after its words.
#[inline(always)]
fn read_part<E: FoR>(
    head: &FrameHead<E>,
    input: &[E],
    start: usize,
    output: &mut [E; 1024],
) -> usize
    requires width { head.now.width ≤ E.T }
    requires words { start + E.LANES * head.now.width ≤ length input.now }
    ensures end { result ≡ start + E.LANES * head.now.width }
    ensures block { map E.number output.new
        ≡ unframed E.T (E.number head.now.reference) (digits E.T E.LANES head.now.width
        (take (E.LANES * head.now.width) (drop start (map E.number input.now)))) }
{
    let end = start + packed_len::<E>(head.width);
    frame_read(head, &input[start..end], output);
    end
}

/// The value at a place of the block whose words begin at `start`.
#[inline(always)]
fn value_at<E: FoR>(head: &FrameHead<E>, input: &[E], start: usize, index: usize) -> E
    requires width { head.now.width ≤ E.T }
    requires words { start + E.LANES * head.now.width ≤ length input.now }
    requires index { index < 1024 }
    ensures { E.number result
        ≡ slice_index (unframed E.T (E.number head.now.reference) (digits E.T E.LANES head.now.width
        (take (E.LANES * head.now.width) (drop start (map E.number input.now))))) index }
{
    let end = start + packed_len::<E>(head.width);
    frame_get(head, &input[start..end], index)
}
