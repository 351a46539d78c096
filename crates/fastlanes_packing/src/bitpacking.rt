//! Packing to a width.

ghost use Rattle.std.specs.Prelude.{◌≡◌, ℕ, List, ◌+◌, ◌*◌, ◌%◌, ◌^◌, ◌<◌, ◌≤◌, All, length, map, slice_index};
ghost use Rattle.fastlanes_base.specs.Order.{place};
ghost use Rattle.fastlanes_base.specs.Digits.{IsPacked, digit, digits};
ghost use Rattle.fastlanes_rows.specs.Rows.{MakesGroups};
ghost use Rattle.fastlanes_packing.specs.Packing.{IsOnlyBlock, PacksBlock, UnpacksBlock, low_bits};

use crate::single::{JoinsWords, probe_place, row_starts, unpack_from_start, unpack_place};
use fastlanes_base::{FastLanes, MachineWord};
use fastlanes_rows::block_rows::BlockRows;
use fastlanes_rows::block_walk::{digits_of, fill_slice_with, pack_all_of};
use fastlanes_rows::given_width::OfType;
use fastlanes_rows::types::RowTypes;
use fastlanes_rows::vector::RowVector;
use fastlanes_rows::width::{Apart, AtWidth, Bits, Width};
use std::marker::PhantomData;

/// Packing of blocks to a width that is known at run time.
///
/// ```rust
/// use fastlanes::BitPacking;
///
/// let mut packed = [0u16; 192];
/// u16::unchecked_pack(3, &[5; 1024], &mut packed);
/// assert_eq!(rt; u16::unchecked_unpack_single(3, &packed, 641), 5);
/// let mut back = [0; 1024];
/// u16::unchecked_unpack(3, &packed, &mut back);
/// assert_eq!(rt; back, [5; 1024]);
/// ```
pub trait BitPacking: FastLanes {
    /// What `pack` does at a width that is known at run time:
    /// `u16::unchecked_pack(3, &values, &mut packed)` does the same as
    /// `pack::<u16, 3, 192>(&values, &mut packed)`.
    fn unchecked_pack(width: usize, input: &[Self], output: &mut [Self])
        requires width { width ≤ Self.T }
        requires input { length input.now ≡ 1024 }
        requires output { length output.old ≡ Self.LANES * width }
        ensures packed { IsPacked Self.T Self.LANES width (map Self.number input.now)
            (map Self.number output.new) }
        ensures digits { digits Self.T Self.LANES width (map Self.number output.new)
            ≡ low_bits width (map Self.number input.now) }
        ensures places { (i : ℕ) → i < 1024
            → digit Self.T Self.LANES width (map Self.number output.new) i
            ≡ slice_index (map Self.number input.now) i % 2 ^ width };

    /// What `unpack` does at a width that is known at run time:
    /// `u16::unchecked_unpack(3, &packed, &mut output)` does the same as
    /// `unpack::<u16, 3, 192>(&packed, &mut output)`.
    fn unchecked_unpack(width: usize, input: &[Self], output: &mut [Self])
        requires width { width ≤ Self.T }
        requires input { length input.now ≡ Self.LANES * width }
        requires output { length output.old ≡ 1024 }
        ensures digits { map Self.number output.new
            ≡ digits Self.T Self.LANES width (map Self.number input.now) }
        ensures places { (i : ℕ) → i < 1024 → slice_index (map Self.number output.new) i
            ≡ digit Self.T Self.LANES width (map Self.number input.now) i }
        ensures below { All (λ x. x < 2 ^ width) (map Self.number output.new) }
        ensures packs { IsPacked Self.T Self.LANES width (map Self.number output.new)
            (map Self.number input.now) }
        // No other block of numbers below `2^width` packs to the input.
        ensures only { IsOnlyBlock Self.T Self.LANES width (map Self.number input.now)
            (map Self.number output.new) };

    /// What `unpack_single` does at a width that is known at run time:
    /// `u16::unchecked_unpack_single(3, &packed, 641)` does the same as
    /// `unpack_single::<u16, 3, 192>(&packed, 641)`.
    fn unchecked_unpack_single(width: usize, input: &[Self], index: usize) -> Self
        requires width { width ≤ Self.T }
        requires input { length input.now ≡ Self.LANES * width }
        requires index { 0 < width → index < 1024 }
        ensures { Self.number result
            ≡ digit Self.T Self.LANES width (map Self.number input.now) index };

    /// What `unpack_indices` does at a width that is known at run time:
    /// `u16::unchecked_unpack_indices(3, &packed, &indices, &mut output)` does the same as
    /// `unpack_indices::<u16, 3, 192>(&packed, &indices, &mut output)`.
    fn unchecked_unpack_indices(
        width: usize,
        input: &[Self],
        indices: &[usize],
        output: &mut [Self],
    )
        requires width { width ≤ Self.T }
        requires input { length input.now ≡ Self.LANES * width }
        requires indices { 0 < width → All (λ i. i < 1024) indices.now }
        requires output { length output.old ≡ length indices.now }
        ensures { map Self.number output.new
            ≡ map (digit Self.T Self.LANES width (map Self.number input.now)) indices.now };

    /// What `pack` does: packing at the width `N`, of which alone a program gets the code.
    fn pack_at<N: Width>(input: &[Self], output: &mut [Self])
        requires width { N.W ≤ Self.T }
        requires input { length input.now ≡ 1024 }
        requires output { length output.old ≡ Self.LANES * N.W }
        ensures { PacksBlock Self.T Self.LANES N.W (map Self.number input.now)
            (map Self.number output.new) };

    /// What `unpack` does, at the width `N` alone.
    fn unpack_at<N: Width>(input: &[Self], output: &mut [Self])
        requires width { N.W ≤ Self.T }
        requires input { length input.now ≡ Self.LANES * N.W }
        requires output { length output.old ≡ 1024 }
        ensures { UnpacksBlock Self.T Self.LANES N.W (map Self.number input.now)
            (map Self.number output.new) };

    /// What `unpack_indices` does, at the width `N` alone.
    fn unpack_indices_at<N: Width>(input: &[Self], indices: &[usize], output: &mut [Self])
        requires width { N.W ≤ Self.T }
        requires input { length input.now ≡ Self.LANES * N.W }
        requires indices { 0 < N.W → All (λ i. i < 1024) indices.now }
        requires output { length output.old ≡ length indices.now }
        ensures { map Self.number output.new
            ≡ map (digit Self.T Self.LANES N.W (map Self.number input.now)) indices.now };
}

impl<E: RowTypes + JoinsWords> BitPacking for E {
    #[inline(always)]
    fn unchecked_pack(width: usize, input: &[E], output: &mut [E]) {
        E::at_width::<Apart<Packing<E::Row, E::Widest>>, _, _>(width, input, (), output);
    }

    #[inline(always)]
    fn unchecked_unpack(width: usize, input: &[E], output: &mut [E]) {
        E::at_width::<Apart<Unpacking<E::Row, E::Widest>>, _, _>(width, input, (), output);
    }

    #[inline(always)]
    fn unchecked_unpack_single(width: usize, input: &[E], index: usize) -> E {
        probe_place(width, input, index)
    }

    fn unchecked_unpack_indices(width: usize, input: &[E], indices: &[usize], output: &mut [E]) {
        E::at_width::<Choosing<E::Wide, E::Widest>, _, _>(width, input, indices, output);
    }

    #[inline(always)]
    fn pack_at<N: Width>(input: &[E], output: &mut [E]) {
        Apart::<Packing<E::Row, E::Widest>>::at::<N>(input, (), output);
    }

    #[inline(always)]
    fn unpack_at<N: Width>(input: &[E], output: &mut [E]) {
        Apart::<Unpacking<E::Row, E::Widest>>::at::<N>(input, (), output);
    }

    #[inline(always)]
    fn unpack_indices_at<N: Width>(input: &[E], indices: &[usize], output: &mut [E]) {
        Choosing::<E::Wide, E::Widest>::at::<N>(input, indices, output);
    }
}

/// Packs a block of 1024 elements to `W` bits each, of which `output` takes the `B = LANES * W` words: each lane's words,
/// lowest first, hold in the bits `row * W` to `row * W + W - 1` the lowest `W` bits of `input[index(row, lane)]`.
///
/// ```rust
/// let values: [u16; 1024] = std::array::from_fn(|i| (i % 8) as u16);
/// let mut packed = [0; 192];
/// fastlanes::pack::<u16, 3, 192>(&values, &mut packed);
/// // All sixteen elements of lane 1 are 1, and those of lane 7 are 7.
/// assert_eq!(rt; (packed[1], packed[65], packed[129]), (0x9249, 0x4924, 0x2492));
/// assert_eq!(rt; (packed[7], packed[71], packed[135]), (0xFFFF, 0xFFFF, 0xFFFF));
/// ```
pub fn pack<E: BitPacking, const W: usize, const B: usize>(input: &[E; 1024], output: &mut [E; B])
    requires width { W ≤ E.T }
    requires words { B ≡ E.LANES * W }
    ensures packed { IsPacked E.T E.LANES W (map E.number input.now) (map E.number output.new) }
    ensures digits { digits E.T E.LANES W (map E.number output.new)
        ≡ low_bits W (map E.number input.now) }
    ensures places { (i : ℕ) → i < 1024 → digit E.T E.LANES W (map E.number output.new) i
        ≡ slice_index (map E.number input.now) i % 2 ^ W }
{
    E::pack_at::<Bits<W>>(input, output);
}

/// Unpacks a block from `B = LANES * W` words, whether or not `pack` wrote them: `output[i]` is the digit at the place
/// `i`, a number below `2^W`.
///
/// ```rust
/// let values: [u16; 1024] = std::array::from_fn(|i| (i % 8) as u16);
/// let mut packed = [0; 192];
/// fastlanes::pack::<u16, 3, 192>(&values, &mut packed);
/// let mut output = [0; 1024];
/// fastlanes::unpack::<u16, 3, 192>(&packed, &mut output);
/// assert_eq!(rt; output, values);
/// ```
pub fn unpack<E: BitPacking, const W: usize, const B: usize>(input: &[E; B], output: &mut [E; 1024])
    requires width { W ≤ E.T }
    requires words { B ≡ E.LANES * W }
    ensures digits { map E.number output.new ≡ digits E.T E.LANES W (map E.number input.now) }
    ensures places { (i : ℕ) → i < 1024
        → slice_index (map E.number output.new) i ≡ digit E.T E.LANES W (map E.number input.now) i }
    ensures below { All (λ x. x < 2 ^ W) (map E.number output.new) }
    ensures packs { IsPacked E.T E.LANES W (map E.number output.new) (map E.number input.now) }
    // No other block of numbers below `2^W` packs to the input.
    ensures only { IsOnlyBlock E.T E.LANES W (map E.number input.now) (map E.number output.new) }
{
    E::unpack_at::<Bits<W>>(input, output);
}

/// Unpacks one element: the digit at the place `index`. At width 0 it is 0, and the index is not looked at.
///
/// ```rust
/// let mut packed = [0; 384];
/// packed[261] = 0x80;
/// // Row 7 of lane 5 has the bits 21 to 23 of the lane, the three highest of its third word.
/// assert_eq!(rt; fastlanes::unpack_single::<u8, 3, 384>(&packed, 901), 4);
/// ```
pub fn unpack_single<E: BitPacking, const W: usize, const B: usize>(
    packed: &[E; B],
    index: usize,
) -> E
    requires width { W ≤ E.T }
    requires words { B ≡ E.LANES * W }
    requires index { 0 < W → index < 1024 }
    ensures { E.number result ≡ digit E.T E.LANES W (map E.number packed.now) index }
{
    E::unchecked_unpack_single(W, packed, index)
}

/// Unpacks chosen elements: `output[j]` is the digit at the place `indices[j]`. The indices may come in any order, and
/// repeat. At width 0 every digit is 0, and no index is looked at.
///
/// ```rust
/// let values: [u16; 1024] = std::array::from_fn(|i| (i % 8) as u16);
/// let mut packed = [0; 192];
/// fastlanes::pack::<u16, 3, 192>(&values, &mut packed);
/// let mut output = [0; 3];
/// fastlanes::unpack_indices::<u16, 3, 192>(&packed, &[641, 7, 641], &mut output);
/// assert_eq!(rt; output, [1, 7, 1]);
/// ```
pub fn unpack_indices<E: BitPacking, const W: usize, const B: usize>(
    packed: &[E; B],
    indices: &[usize],
    output: &mut [E],
)
    requires width { W ≤ E.T }
    requires words { B ≡ E.LANES * W }
    requires indices { 0 < W → All (λ i. i < 1024) indices.now }
    requires output { length output.old ≡ length indices.now }
    ensures { map E.number output.new
        ≡ map (digit E.T E.LANES W (map E.number packed.now)) indices.now }
{
    E::unpack_indices_at::<Bits<W>>(packed, indices, output);
}

/// Unpacks a block and takes the digits at chosen places from it. It stands apart since its block is room on the stack,
/// which a call of fewer places need not make.
#[inline(never)]
fn unpack_and_take<E: MachineWord, V: RowVector<E>, X: RowVector<E>, N: Width>(
    packed: &[E],
    indices: &[usize],
    output: &mut [E],
)
    requires width { N.W ≤ E.T }
    requires groups { MakesGroups E.LANES V.N }
    requires widest { MakesGroups E.LANES X.N }
    requires words { length packed.now ≡ E.LANES * N.W }
    requires indices { All (λ i. i < 1024) indices.now }
    requires output { length output.old ≡ length indices.now }
    ensures { map E.number output.new
        ≡ map (digit E.T E.LANES N.W (map E.number packed.now)) indices.now }
{
    let mut block = [E::zero(); 1024];
    Apart::<Unpacking<V, X>>::at::<N>(packed, (), &mut block);
    take_places(&block, indices, output);
}

/// Unpacks the digits at chosen places from the width `N`. Of more than a few places it works out first where each row
/// begins, but for the widths 1 and `T`, at which that is plain.
#[inline(never)]
fn unpack_places<E: JoinsWords, N: Width>(packed: &[E], indices: &[usize], output: &mut [E])
    requires width { N.W ≤ E.T }
    requires words { length packed.now ≡ E.LANES * N.W }
    requires indices { 0 < N.W → All (λ i. i < 1024) indices.now }
    requires output { length output.old ≡ length indices.now }
    ensures { map E.number output.new
        ≡ map (digit E.T E.LANES N.W (map E.number packed.now)) indices.now }
{
    if N::W > 1 && N::W < E::T && indices.len() >= E::T / 4 {
        unpack_from_starts(N::W, packed, indices, output);
    } else {
        unpack_one_by_one(N::W, packed, indices, output);
    }
}

/// Unpacks the digits at chosen places, each by itself.
#[inline(always)]
fn unpack_one_by_one<E: JoinsWords>(width: usize, packed: &[E], indices: &[usize], output: &mut [E])
    requires width { width ≤ E.T }
    requires words { length packed.now ≡ E.LANES * width }
    requires indices { 0 < width → All (λ i. i < 1024) indices.now }
    requires output { length output.old ≡ length indices.now }
    ensures { map E.number output.new
        ≡ map (digit E.T E.LANES width (map E.number packed.now)) indices.now }
{
    for j in 0..indices.len() {
        output[j] = unpack_place(width, packed, indices[j]);
    }
}

/// Unpacks the digits at chosen places, from where each row begins.
#[inline(always)]
fn unpack_from_starts<E: MachineWord>(
    width: usize,
    packed: &[E],
    indices: &[usize],
    output: &mut [E],
)
    requires some { 0 < width }
    requires width { width ≤ E.T }
    requires words { length packed.now ≡ E.LANES * width }
    requires indices { All (λ i. i < 1024) indices.now }
    requires output { length output.old ≡ length indices.now }
    ensures { map E.number output.new
        ≡ map (digit E.T E.LANES width (map E.number packed.now)) indices.now }
{
    let mut words = [0; 64];
    let mut shifts = [0; 64];
    row_starts::<E>(width, &mut words, &mut shifts);
    for j in 0..indices.len() {
        output[j] = unpack_from_start(width, packed, indices[j], &words, &shifts);
    }
}

/// Takes the elements at chosen places of a block: the digits, where the block is what packed words were unpacked to.
fn take_places<E: MachineWord>(block: &[E], indices: &[usize], output: &mut [E])
    requires block { length block.now ≡ 1024 }
    requires indices { All (λ i. i < 1024) indices.now }
    requires output { length output.old ≡ length indices.now }
    ensures { (w : ℕ) (p : List ℕ) → map E.number block.now ≡ digits E.T E.LANES w p
        → map E.number output.new ≡ map (digit E.T E.LANES w p) indices.now }
{
    for j in 0..indices.len() {
        output[j] = block[indices[j]];
    }
}

/// How many chosen places for each row of a lane make it faster to unpack the whole block.
const MANY: usize = 4;

/// The full width of an element type.
struct Full<E> {
    element: PhantomData<E>,
}

impl<E: MachineWord> Width for Full<E> {
    const W: usize = E::T;

    ghost W = { E.T };
}

/// Packs a block to the width `N`, by rows of a vector.
#[inline(always)]
fn pack_by<E: MachineWord, V: RowVector<E>, N: Width>(input: &[E], packed: &mut [E])
    requires width { N.W ≤ E.T }
    requires groups { MakesGroups E.LANES V.N }
    requires input { length input.now ≡ 1024 }
    requires words { length packed.old ≡ E.LANES * N.W }
    ensures { PacksBlock E.T E.LANES N.W (map E.number input.now) (map E.number packed.new) }
{
    let mut elements = BlockRows { input };
    pack_all_of::<E, V, _, OfType<N>>(&mut elements, N::W, packed);
}

/// Packs a block to the full width, at which a row is only copied, by the widest rows.
#[inline(never)]
fn pack_whole<E: MachineWord, X: RowVector<E>>(input: &[E], packed: &mut [E])
    requires groups { MakesGroups E.LANES X.N }
    requires input { length input.now ≡ 1024 }
    requires words { length packed.old ≡ E.LANES * E.T }
    ensures { PacksBlock E.T E.LANES E.T (map E.number input.now) (map E.number packed.new) }
{
    pack_by::<E, X, Full<E>>(input, packed);
}

/// Unpacks a block from the width `N`, by rows of a vector.
#[inline(always)]
fn unpack_by<E: MachineWord, V: RowVector<E>, N: Width>(packed: &[E], output: &mut [E])
    requires width { N.W ≤ E.T }
    requires groups { MakesGroups E.LANES V.N }
    requires words { length packed.now ≡ E.LANES * N.W }
    requires output { length output.old ≡ 1024 }
    ensures { UnpacksBlock E.T E.LANES N.W (map E.number packed.now) (map E.number output.new) }
{
    let mut digits = digits_of::<E, V>(N::W, packed);
    fill_slice_with::<E, V, _, OfType<N>>(&mut digits, N::W, output);
}

/// Unpacks a block from the full width, at which a row is only copied, by the widest rows.
#[inline(never)]
fn unpack_whole<E: MachineWord, X: RowVector<E>>(packed: &[E], output: &mut [E])
    requires groups { MakesGroups E.LANES X.N }
    requires words { length packed.now ≡ E.LANES * E.T }
    requires output { length output.old ≡ 1024 }
    ensures { UnpacksBlock E.T E.LANES E.T (map E.number packed.now) (map E.number output.new) }
{
    unpack_by::<E, X, Full<E>>(packed, output);
}

/// Packing at a width that is not known yet, by rows of a vector, and at the full width of the widest one.
pub struct Packing<V, X> {
    rows: PhantomData<(V, X)>,
}

impl<E: MachineWord, V: RowVector<E>, X: RowVector<E>> AtWidth<E, (), E> for Packing<V, X> {
    ghost asks = { λ width input none output. (width ≤ E.T) × MakesGroups E.LANES V.N × MakesGroups E.LANES X.N
        × (length input ≡ 1024) × (length output ≡ E.LANES * width) };

    ghost gives = { λ width input none output. PacksBlock E.T E.LANES width (map E.number input)
        (map E.number output) };

    #[inline(always)]
    fn at<N: Width>(input: &[E], _none: (), output: &mut [E]) {
        if N::W == E::T {
            pack_whole::<E, X>(input, output);
        } else {
            pack_by::<E, V, N>(input, output);
        }
    }
}

/// Unpacking at a width that is not known yet, by rows of a vector, and from the full width of the widest one.
pub struct Unpacking<V, X> {
    rows: PhantomData<(V, X)>,
}

impl<E: MachineWord, V: RowVector<E>, X: RowVector<E>> AtWidth<E, (), E> for Unpacking<V, X> {
    ghost asks = { λ width input none output. (width ≤ E.T) × MakesGroups E.LANES V.N × MakesGroups E.LANES X.N
        × (length input ≡ E.LANES * width) × (length output ≡ 1024) };

    ghost gives = { λ width input none output. UnpacksBlock E.T E.LANES width (map E.number input)
        (map E.number output) };

    #[inline(always)]
    fn at<N: Width>(input: &[E], _none: (), output: &mut [E]) {
        if N::W == E::T {
            unpack_whole::<E, X>(input, output);
        } else {
            unpack_by::<E, V, N>(input, output);
        }
    }
}

/// Unpacking of chosen places at a width that is not known yet: of many, from the block, by rows of a vector.
struct Choosing<V, X> {
    rows: PhantomData<(V, X)>,
}

impl<'a, E: JoinsWords, V: RowVector<E>, X: RowVector<E>> AtWidth<E, &'a [usize], E>
    for Choosing<V, X> {
    ghost asks = { λ width input indices output. (width ≤ E.T) × MakesGroups E.LANES V.N × MakesGroups E.LANES X.N
        × (length input ≡ E.LANES * width)
        × (0 < width → All (λ i. i < 1024) indices.now) × (length output ≡ length indices.now) };

    ghost gives = { λ width input indices output. map E.number output
        ≡ map (digit E.T E.LANES width (map E.number input)) indices.now };

    #[inline(always)]
    fn at<N: Width>(input: &[E], indices: &'a [usize], output: &mut [E]) {
        if N::W > 0 && indices.len() >= MANY * E::T {
            unpack_and_take::<E, V, X, N>(input, indices, output);
        } else {
            unpack_places::<E, N>(input, indices, output);
        }
    }
}
