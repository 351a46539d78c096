//! Frames of reference: values near a reference, packed as their differences from it.

ghost use Rattle.std.specs.Prelude.{◌≡◌, ◌↔◌, ℕ, ◌*◌, ◌%◌, ◌^◌, ◌<◌, ◌≤◌, length, map, slice_index};
ghost use Rattle.fastlanes_base.specs.Digits.{IsPacked, digit, digits};
ghost use Rattle.fastlanes_packing.specs.Packing.{low_bits};
ghost use Rattle.fastlanes_rows.specs.Rows.{HasLanes, MakesGroups};
ghost use Rattle.fastlanes.specs.Frame.{FramesBlock, NearBlockComesBack, NearOnesComeBack, framed, unframed, word_difference, word_sum};

use fastlanes_base::MachineWord;
use fastlanes_packing::BitPacking;
use fastlanes_rows::block_rows::BlockRows;
use fastlanes_rows::block_walk::{BlockReader, digits_of, fill_slice_with, pack_all_of};
use fastlanes_rows::given_width::OfType;
use fastlanes_rows::group_walk::GroupReader;
use fastlanes_rows::range::know_range;
use fastlanes_rows::types::RowTypes;
use fastlanes_rows::vector::RowVector;
use fastlanes_rows::width::{Apart, AtWidth, Bits, Width};
use std::marker::PhantomData;

/// Packing of differences from a reference.
///
/// ```rust
/// use fastlanes::FoR;
///
/// let mut packed = [0; 128];
/// u16::unchecked_for_pack(2, &[1003; 1024], 1000, &mut packed);
/// assert_eq!(rt; packed, [0xFFFF; 128]);
/// let mut values = [0; 1024];
/// u16::unchecked_unfor_pack(2, &packed, 1000, &mut values);
/// assert_eq!(rt; values, [1003; 1024]);
/// ```
pub trait FoR: BitPacking {
    /// What `for_pack` does at a width that is known at run time. `output` has the `LANES * width` words of the block.
    /// `u8::unchecked_for_pack(2, &values, 254, &mut packed)` does the same as
    /// `for_pack::<u8, 2, 256>(&values, 254, &mut packed)`.
    fn unchecked_for_pack(width: usize, input: &[Self; 1024], reference: Self, output: &mut [Self])
        requires width { width ≤ Self.T }
        requires output { length output.old ≡ Self.LANES * width }
        ensures packed { IsPacked Self.T Self.LANES width
            (framed Self.T (Self.number reference) (map Self.number input.now))
            (map Self.number output.new) }
        ensures digits { digits Self.T Self.LANES width (map Self.number output.new)
            ≡ low_bits width (framed Self.T (Self.number reference) (map Self.number input.now)) }
        ensures places { (i : ℕ) → i < 1024
            → digit Self.T Self.LANES width (map Self.number output.new) i
            ≡ word_difference Self.T (slice_index (map Self.number input.now) i)
            (Self.number reference) % 2 ^ width }
        // An element is the sum of its digit and the reference exactly where its difference from the reference has at most
        // `width` bits, and the block is the sums of all digits and the reference exactly where each difference has.
        ensures comes_back { NearOnesComeBack Self.T Self.LANES width (Self.number reference)
            (map Self.number input.now)
            (map Self.number output.new) }
        ensures block_comes_back { NearBlockComesBack Self.T Self.LANES width
            (Self.number reference)
            (map Self.number input.now) (map Self.number output.new) };

    /// What `unfor_pack` does at a width that is known at run time:
    /// `u8::unchecked_unfor_pack(2, &packed, 254, &mut values)` does the same as
    /// `unfor_pack::<u8, 2, 256>(&packed, 254, &mut values)`.
    fn unchecked_unfor_pack(width: usize, input: &[Self], reference: Self, output: &mut [Self])
        requires width { width ≤ Self.T }
        requires input { length input.now ≡ Self.LANES * width }
        requires output { length output.old ≡ 1024 }
        ensures { map Self.number output.new ≡ unframed Self.T (Self.number reference)
            (digits Self.T Self.LANES width (map Self.number input.now)) };

    /// What `for_pack` does, at the width `N`, of which alone a program gets the code.
    fn for_pack_at<N: Width>(input: &[Self; 1024], reference: Self, output: &mut [Self])
        requires width { N.W ≤ Self.T }
        requires output { length output.old ≡ Self.LANES * N.W }
        ensures { FramesBlock Self.T Self.LANES N.W (Self.number reference)
            (map Self.number input.now)
            (map Self.number output.new) };

    /// What `unfor_pack` does, at the width `N` alone.
    fn unfor_pack_at<N: Width>(input: &[Self], reference: Self, output: &mut [Self])
        requires width { N.W ≤ Self.T }
        requires input { length input.now ≡ Self.LANES * N.W }
        requires output { length output.old ≡ 1024 }
        ensures { map Self.number output.new ≡ unframed Self.T (Self.number reference)
            (digits Self.T Self.LANES N.W (map Self.number input.now)) };
}

impl<E: BitPacking + RowTypes> FoR for E {
    #[inline(always)]
    fn unchecked_for_pack(width: usize, input: &[E; 1024], reference: E, output: &mut [E]) {
        E::at_width::<Apart<Framing<E::Wide>>, _, _>(width, input, reference, output);
    }

    #[inline(always)]
    fn unchecked_unfor_pack(width: usize, input: &[E], reference: E, output: &mut [E]) {
        E::at_width::<Apart<Unframing<E::Wide>>, _, _>(width, input, reference, output);
    }

    #[inline(always)]
    fn for_pack_at<N: Width>(input: &[E; 1024], reference: E, output: &mut [E]) {
        Apart::<Framing<E::Wide>>::at::<N>(input, reference, output);
    }

    #[inline(always)]
    fn unfor_pack_at<N: Width>(input: &[E], reference: E, output: &mut [E]) {
        Apart::<Unframing<E::Wide>>::at::<N>(input, reference, output);
    }
}

/// Packs the differences of a block's elements from `reference`, modulo `2^T`, to `W` bits each.
///
/// ```rust
/// // 254, 255, 0 and 1 in turn: modulo 256 they are 0 to 3 above 254.
/// let values: [u8; 1024] = std::array::from_fn(|i| ((254 + i % 4) % 256) as u8);
/// let mut packed = [0; 256];
/// fastlanes::for_pack::<u8, 2, 256>(&values, 254, &mut packed);
/// // The words of lane 1 have four digits of 1 each, and those of lane 3 four of 3.
/// assert!(rt; packed[..4] == [0x00, 0x55, 0xAA, 0xFF]);
/// ```
pub fn for_pack<E: FoR, const W: usize, const B: usize>(
    input: &[E; 1024],
    reference: E,
    output: &mut [E; B],
)
    requires width { W ≤ E.T }
    requires words { B ≡ E.LANES * W }
    ensures packed { IsPacked E.T E.LANES W
        (framed E.T (E.number reference) (map E.number input.now))
        (map E.number output.new) }
    ensures digits { digits E.T E.LANES W (map E.number output.new)
        ≡ low_bits W (framed E.T (E.number reference) (map E.number input.now)) }
    ensures places { (i : ℕ) → i < 1024 → digit E.T E.LANES W (map E.number output.new) i
        ≡ word_difference E.T (slice_index (map E.number input.now) i)
        (E.number reference) % 2 ^ W }
    // An element is the sum of its digit and the reference exactly where its difference from the reference has at most
    // `W` bits, and the block is the sums of all digits and the reference exactly where each difference has.
    ensures comes_back { NearOnesComeBack E.T E.LANES W (E.number reference)
        (map E.number input.now) (map E.number output.new) }
    ensures block_comes_back { NearBlockComesBack E.T E.LANES W (E.number reference)
        (map E.number input.now)
        (map E.number output.new) }
{
    E::for_pack_at::<Bits<W>>(input, reference, output);
}

/// Unpacks a block from `B = LANES * W` words and adds `reference` to each digit, modulo `2^T`.
///
/// ```rust
/// let mut output = [0; 1024];
/// fastlanes::unfor_pack::<u8, 2, 256>(&[0xFF; 256], 254, &mut output);
/// // 254 + 3 modulo 256
/// assert_eq!(rt; output, [1; 1024]);
/// ```
pub fn unfor_pack<E: FoR, const W: usize, const B: usize>(
    input: &[E; B],
    reference: E,
    output: &mut [E; 1024],
)
    requires width { W ≤ E.T }
    requires words { B ≡ E.LANES * W }
    ensures { map E.number output.new
        ≡ unframed E.T (E.number reference) (digits E.T E.LANES W (map E.number input.now)) }
{
    E::unfor_pack_at::<Bits<W>>(input, reference, output);
}

/// What is done with each value of a row.
trait OnValues<E: MachineWord> {
    // The number that it makes of a value.
    ghost made: { Self → ℕ → ℕ };

    /// Does it in every lane.
    fn make<V: RowVector<E>>(&self, values: V) -> V
        ensures { HasLanes V.N (V.at result) (λ j. made self.now (V.at values j)) };
}

/// The sum with a reference.
#[derive(Drop)]
struct Plus<E>(E);

impl<E: MachineWord> OnValues<E> for Plus<E> {
    ghost made = { λ s x. word_sum E.T x (E.number s.0) };

    #[inline(always)]
    fn make<V: RowVector<E>>(&self, values: V) -> V {
        values.plus(V::splat(self.0))
    }
}

/// The difference from a reference. Its opposite, added to each, would become part of the loads: slower on Skylake processors.
#[derive(Drop)]
struct Minus<E>(E);

impl<E: MachineWord> OnValues<E> for Minus<E> {
    ghost made = { λ s x. word_difference E.T x (E.number s.0) };

    #[inline(always)]
    fn make<V: RowVector<E>>(&self, values: V) -> V {
        values.minus(V::splat(self.0))
    }
}

/// What is made of the values that a reader reads.
#[derive(Drop)]
struct Made<R, O> {
    values: R,
    by: O,
}

impl<E: MachineWord, V: RowVector<E>, R: GroupReader<E, V>, O: OnValues<E>> GroupReader<E, V>
    for Made<R, O> {
    type Carry = R::Carry;

    ghost value_at = { λ s width lane row. O.made s.by (R.value_at s.values width lane row) };

    ghost stands = { λ s width lane row carry. R.stands s.values width lane row carry };

    ghost beside = { λ s u. R.beside s.values u.values };

    #[inline(always)]
    fn read(&mut self, width: usize, lane: usize, row: usize, carry: R::Carry) -> (V, R::Carry) {
        let (values, carry) = self.values.read(width, lane, row, carry);
        (self.by.make(values), carry)
    }
}

impl<E: MachineWord, V: RowVector<E>, R: BlockReader<E, V>, O: OnValues<E>> BlockReader<E, V>
    for Made<R, O> {
    ghost ready = { λ s width. R.ready s.values width };

    #[inline(always)]
    fn begin(&mut self, width: usize, lane: usize) -> R::Carry {
        self.values.begin(width, lane)
    }

    ghost ready_law = { λ s width lane row carry stands. R.ready_law s.values width lane row carry stands };
}

/// Packing of differences from a reference at a width that is not known yet. The reference is taken by value, since where it stands
/// in memory the compiler has to read it again after each word that is written.
pub struct Framing<V> {
    rows: PhantomData<V>,
}

impl<E: MachineWord, V: RowVector<E>> AtWidth<E, E, E> for Framing<V> {
    ghost asks = { λ width input reference output. (width ≤ E.T) × MakesGroups E.LANES V.N × (length input ≡ 1024)
        × (length output ≡ E.LANES * width) };

    ghost gives = { λ width input reference output. FramesBlock E.T E.LANES width
        (E.number reference) (map E.number input)
        (map E.number output) };

    #[inline(always)]
    fn at<N: Width>(input: &[E], reference: E, output: &mut [E]) {
        know_range(input);
        know_range(&[reference]);
        let values = BlockRows { input };
        let by = Minus(reference);
        let mut differences = Made { values, by };
        pack_all_of::<E, V, _, OfType<N>>(&mut differences, N::W, output);
    }
}

/// Unpacking of sums with a reference at a width that is not known yet.
pub struct Unframing<V> {
    rows: PhantomData<V>,
}

impl<E: MachineWord, V: RowVector<E>> AtWidth<E, E, E> for Unframing<V> {
    ghost asks = { λ width input reference output. (width ≤ E.T) × MakesGroups E.LANES V.N
        × (length input ≡ E.LANES * width)
        × (length output ≡ 1024) };

    ghost gives = { λ width input reference output. map E.number output
        ≡ unframed E.T (E.number reference) (digits E.T E.LANES width (map E.number input)) };

    #[inline(always)]
    fn at<N: Width>(input: &[E], reference: E, output: &mut [E]) {
        let values = digits_of::<E, V>(N::W, input);
        let by = Plus(reference);
        let mut sums = Made { values, by };
        fill_slice_with::<E, V, _, OfType<N>>(&mut sums, N::W, output);
    }
}
