//! Callers of columns, and what they can conclude.

ghost use Rattle.std.specs.Prelude.{◌≡◌, ℕ, ◌*◌, ◌/◌, ◌%◌, ◌^◌, ◌<◌, ◌≤◌, ◌↔◌, All, IsFalse, IsTrue, List, length, map, slice_index};
ghost use Rattle.std.specs.List.{Any};
ghost use Rattle.fastlanes_column.specs.Column.{BlocksLieAbove, block_at, words_of};
ghost use Rattle.fastlanes_column.specs.Differences.{neighbour_deltas};
ghost use Rattle.fastlanes_column.specs.LeastWidth.{IsLeastOf, IsLeastWidth};

use fastlanes::{Delta, FoR, packed_len};
use fastlanes_column::{
    FrameHead, column_get, column_len, column_read, column_write, delta_bases, delta_head,
    delta_read, delta_write, frame_head, frame_read, frame_write, write_heads,
};

/// Packs a block at the least width that holds its differences from its least value, and brings it back.
pub fn frame_there_and_back<E: FoR>(block: &[E; 1024], words: &mut [E; 1024], back: &mut [E; 1024])
    ensures { map E.number back.new ≡ map E.number block.now }
{
    let head = frame_head(block);
    let words = &mut words[..packed_len::<E>(head.width)];
    frame_write(&head, block, words);
    frame_read(&head, words, back);
}

/// Packs a block at the least width that holds the differences of its neighbours, and brings it back.
pub fn neighbours_there_and_back<E: Delta<LANES>, const LANES: usize>(
    block: &[E; 1024],
    base: &[E; LANES],
    words: &mut [E; 1024],
    back: &mut [E; 1024],
)
    requires lanes { LANES ≡ E.LANES }
    ensures { map E.number back.new ≡ map E.number block.now }
{
    let width = delta_head(block, base);
    let words = &mut words[..packed_len::<E>(width)];
    delta_write(width, block, base, words);
    delta_read(width, words, base, back);
}

/// Whether a block is to be read in search of elements below a bound. Its head says so, since the reference is the least
/// element: where the answer is no, there are none.
pub fn is_to_be_read<E: FoR>(head: &FrameHead<E>, bound: E) -> bool
    ensures value { IsTrue result ↔ (E.number head.now.reference < E.number bound) }
    ensures none { (numbers : List ℕ) → IsLeastOf (E.number head.now.reference) numbers
        → IsFalse result
        → All (λ x. E.number bound ≤ x) numbers }
{
    head.reference.word_lt(bound)
}

/// Whether a block has an element below a bound, found by its head alone.
pub fn has_below<E: FoR>(block: &[E; 1024], bound: E) -> bool
    ensures none { IsFalse result → All (λ x. E.number bound ≤ x) (map E.number block.now) }
    ensures some { IsTrue result → Any (λ x. x < E.number bound) (map E.number block.now) }
{
    is_to_be_read(&frame_head(block), bound)
}

/// The width of a block whose neighbours are packed as their differences, the first from what stands before the block: the
/// least that holds these differences.
pub fn width_of_neighbours<E: Delta<LANES>, const LANES: usize>(
    before: E,
    block: &[E; 1024],
    base: &mut [E; LANES],
) -> usize
    requires lanes { LANES ≡ E.LANES }
    ensures { IsLeastWidth result (neighbour_deltas E.T (E.number before)
        (map E.number block.now)) }
{
    delta_bases(before, block, base);
    delta_head(block, base)
}

/// Stores blocks as a column, and answers how many words it has: no more than by any other heads whose references are at
/// most every value of their blocks and whose widths hold the differences.
pub fn store<E: FoR>(blocks: &[[E; 1024]], heads: &mut [FrameHead<E>], words: &mut [E]) -> usize
    requires count { length blocks.now ≤ 2 ^ 32 }
    requires heads { length heads.old ≡ length blocks.now }
    requires words { length words.old ≡ 1024 * length blocks.now }
    ensures { (ws rs : List ℕ) → length ws ≡ length blocks.now
        → BlocksLieAbove ws rs (map (map E.number) blocks.now) → result ≤ words_of E.LANES ws }
{
    write_heads(blocks, heads);
    let len = column_len(heads);
    column_write(heads, blocks, &mut words[..len]);
    len
}

/// Stores blocks as a column, and reads value number `i` from there.
pub fn value_of_a_column<E: FoR>(
    blocks: &[[E; 1024]],
    heads: &mut [FrameHead<E>],
    words: &mut [E],
    i: usize,
) -> E
    requires count { length blocks.now ≤ 2 ^ 32 }
    requires heads { length heads.old ≡ length blocks.now }
    requires words { length words.old ≡ 1024 * length blocks.now }
    requires index { i < 1024 * length blocks.now }
    ensures { E.number result
        ≡ slice_index (block_at (map (map E.number) blocks.now) (i / 1024)) (i % 1024) }
{
    write_heads(blocks, heads);
    let words = &mut words[..column_len(heads)];
    column_write(heads, blocks, words);
    column_get(heads, words, i)
}

/// Stores blocks as a column, and reads all of them from there.
pub fn column_there_and_back<E: FoR>(
    blocks: &[[E; 1024]],
    heads: &mut [FrameHead<E>],
    words: &mut [E],
    back: &mut [[E; 1024]],
)
    requires count { length blocks.now ≤ 2 ^ 32 }
    requires heads { length heads.old ≡ length blocks.now }
    requires words { length words.old ≡ 1024 * length blocks.now }
    requires back { length back.old ≡ length blocks.now }
    ensures { map (map E.number) back.new ≡ map (map E.number) blocks.now }
{
    write_heads(blocks, heads);
    let words = &mut words[..column_len(heads)];
    column_write(heads, blocks, words);
    column_read(heads, words, back);
}
