//! Packing and unpacking of blocks one after another, all at the same width.

ghost use Rattle.std.specs.Prelude.{◌≡◌, ℕ, ◌+◌, ◌*◌, ◌<◌, ◌≤◌, length, map, take};
ghost use Rattle.fastlanes_blocks.specs.Blocks.{PacksBlocks, UnpacksBlocks, block_at};
ghost use Rattle.fastlanes_packing.specs.Packing.{PacksBlock, UnpacksBlock};
ghost use Rattle.fastlanes_rows.specs.Rows.{MakesGroups};

use fastlanes_base::MachineWord;
use fastlanes_packing::bitpacking::{Packing, Unpacking};
use fastlanes_rows::types::RowTypes;
use fastlanes_rows::vector::RowVector;
use fastlanes_rows::width::{Apart, AtWidth, Width};
use std::marker::PhantomData;

/// A width once more, at which code of one block is made for many blocks by itself: LLVM leaves what two calls share a function of its
/// own, and then each of them is slower.
struct Again<N> {
    width: PhantomData<N>,
}

impl<N: Width> Width for Again<N> {
    const W: usize = N::W;

    ghost W = { N.W };
}

/// What a call does at a width for each of many blocks: where the code of a block is long, by the function that the call for one block
/// has.
struct Each<C> {
    call: PhantomData<C>,
}

impl<E: MachineWord, X, O, C: AtWidth<E, X, O>> AtWidth<E, X, O> for Each<C> {
    ghost asks = { C.asks };

    ghost gives = { C.gives };

    #[inline(always)]
    fn at<N: Width>(input: &[E], other: X, output: &mut [O]) {
        if E::T <= 16 {
            C::at::<Again<N>>(input, other, output);
        } else {
            Apart::<C>::at::<N>(input, other, output);
        }
    }
}

/// How many words each of so many blocks has: what all have, less what all others have, as a number that LLVM does not know.
#[inline(always)]
fn words_a_block<E: MachineWord, N: Width>(packed: &[E], count: usize) -> usize
    requires some { 0 < count }
    requires words { length packed.now ≡ E.LANES * N.W * count }
    ensures { result ≡ E.LANES * N.W }
{
    packed.len() - E::LANES * N::W * (count - 1)
}

/// Packs one of the blocks to the width `N`, and leaves the words of those before it as they are.
#[inline(always)]
fn pack_block<E: MachineWord, V: RowVector<E>, X: RowVector<E>, N: Width>(
    input: &[E],
    words: usize,
    block: usize,
    output: &mut [E],
)
    requires width { N.W ≤ E.T }
    requires groups { MakesGroups E.LANES V.N }
    requires widest_groups { MakesGroups E.LANES X.N }
    requires input { 1024 * block + 1024 ≤ length input.now }
    requires words { words ≡ E.LANES * N.W }
    requires output { words * block + words ≤ length output.old }
    ensures packs { PacksBlock E.T E.LANES N.W (block_at 1024 block (map E.number input.now))
        (block_at words block (map E.number output.new)) }
    ensures before { take (words * block) output.new ≡ take (words * block) output.old }
{
    let from = 1024 * block;
    let start = words * block;
    Each::<Packing<V, X>>::at::<N>(
        &input[from..from + 1024],
        (),
        &mut output[start..start + words],
    );
}

/// Unpacks one of the blocks from the width `N`, and leaves the elements of those before it as they are.
#[inline(always)]
fn unpack_block<E: MachineWord, V: RowVector<E>, X: RowVector<E>, N: Width>(
    input: &[E],
    block: usize,
    output: &mut [E],
)
    requires width { N.W ≤ E.T }
    requires groups { MakesGroups E.LANES V.N }
    requires widest_groups { MakesGroups E.LANES X.N }
    requires input { E.LANES * N.W * block + E.LANES * N.W ≤ length input.now }
    requires output { 1024 * block + 1024 ≤ length output.old }
    ensures unpacks { UnpacksBlock E.T E.LANES N.W (block_at (E.LANES * N.W) block (map E.number input.now))
        (block_at 1024 block (map E.number output.new)) }
    ensures before { take (1024 * block) output.new ≡ take (1024 * block) output.old }
{
    let words = E::LANES * N::W;
    let start = words * block;
    let from = 1024 * block;
    Each::<Unpacking<V, X>>::at::<N>(
        &input[start..start + words],
        (),
        &mut output[from..from + 1024],
    );
}

/// Packing of so many blocks to a width that is not known yet, by rows of a vector, each as `Packing` packs one.
pub struct PackingBlocks<V, X> {
    rows: PhantomData<(V, X)>,
}

impl<E: MachineWord, V: RowVector<E>, X: RowVector<E>> AtWidth<E, usize, E>
    for PackingBlocks<V, X> {
    ghost asks = { λ width input count output. (width ≤ E.T) × MakesGroups E.LANES V.N × MakesGroups E.LANES X.N
        × (length input ≡ 1024 * count) × (length output ≡ E.LANES * width * count) };

    ghost gives = { λ width input count output. PacksBlocks E.T E.LANES width count (map E.number input)
        (map E.number output) };

    #[inline(always)]
    fn at<N: Width>(input: &[E], count: usize, output: &mut [E]) {
        for block in 0..count {
            let words = words_a_block::<E, N>(output, count);
            pack_block::<E, V, X, N>(input, words, block, output);
        }
    }
}

/// Unpacking of so many blocks from a width that is not known yet, by rows of a vector, each as `Unpacking` unpacks one.
pub struct UnpackingBlocks<V, X> {
    rows: PhantomData<(V, X)>,
}

impl<E: MachineWord, V: RowVector<E>, X: RowVector<E>> AtWidth<E, usize, E>
    for UnpackingBlocks<V, X> {
    ghost asks = { λ width input count output. (width ≤ E.T) × MakesGroups E.LANES V.N × MakesGroups E.LANES X.N
        × (length input ≡ E.LANES * width * count) × (length output ≡ 1024 * count) };

    ghost gives = { λ width input count output. UnpacksBlocks E.T E.LANES width count (map E.number input)
        (map E.number output) };

    #[inline(always)]
    fn at<N: Width>(input: &[E], count: usize, output: &mut [E]) {
        for block in 0..count {
            unpack_block::<E, V, X, N>(input, block, output);
        }
    }
}

/// Packs `count` blocks of 1024 elements, which follow one another in `input`, to `width` bits each: `output` takes the
/// `LANES * width` words of each block, one block after another, with one look at the width. Any number of blocks will do, none too.
/// What a block gets is what `WideRows::pack_wide` gives it, and both slices keep their lengths.
///
/// ```rust
/// let mut values = [5u16; 2048];
/// values[1024] = 7;
/// let mut packed = [0; 384];
/// fastlanes_blocks::pack_blocks(3, 2, &values, &mut packed);
/// // The words of the second block follow the 192 of the first, and only its first element is another.
/// assert_eq!(rt; (packed[0], packed[192]), (0xDB6D, 0xDB6F));
/// assert!(rt; packed[1..192] == packed[193..]);
/// ```
pub fn pack_blocks<E: RowTypes>(width: usize, count: usize, input: &[E], output: &mut [E])
    requires width { width ≤ E.T }
    requires input { length input.now ≡ 1024 * count }
    requires output { length output.old ≡ E.LANES * width * count }
    ensures { PacksBlocks E.T E.LANES width count (map E.number input.now) (map E.number output.new) }
{
    E::at_width::<PackingBlocks<E::Wide, E::Widest>, _, _>(width, input, count, output);
}

/// Unpacks `count` blocks of `LANES * width` words, which follow one another in `input`, whether or not `pack_blocks` wrote them:
/// `output` takes the 1024 digits of each block, one block after another, with one look at the width. Any number of blocks will do,
/// none too. What a block gets is what `WideRows::unpack_wide` gives it, and both slices keep their lengths.
///
/// ```rust
/// let mut packed = [0; 768];
/// packed[384 + 261] = 0x80;
/// let mut values = [9u8; 2048];
/// fastlanes_blocks::unpack_blocks(3, 2, &packed, &mut values);
/// // Row 7 of lane 5 of the second block has the three highest bits of the lane, 4, and all other digits are 0.
/// assert_eq!(rt; (values[901], values[1024 + 901]), (0, 4));
/// ```
pub fn unpack_blocks<E: RowTypes>(width: usize, count: usize, input: &[E], output: &mut [E])
    requires width { width ≤ E.T }
    requires input { length input.now ≡ E.LANES * width * count }
    requires output { length output.old ≡ 1024 * count }
    ensures { UnpacksBlocks E.T E.LANES width count (map E.number input.now) (map E.number output.new) }
{
    E::at_width::<UnpackingBlocks<E::Wide, E::Widest>, _, _>(width, input, count, output);
}
