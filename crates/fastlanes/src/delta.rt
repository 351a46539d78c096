//! Differences along the lanes of a block.

ghost use Rattle.std.specs.Prelude.{◌≡◌, ℕ, List, ◌+◌, ◌*◌, ◌≤◌, length, map};
ghost use Rattle.fastlanes_base.specs.Digits.{digits};
ghost use Rattle.fastlanes_packing.specs.Packing.{PacksBlock};
ghost use Rattle.fastlanes_rows.specs.Rows.{HasLanes, MakesGroups};
ghost use Rattle.fastlanes.specs.Delta.{SmallOnesComeBack, deltas, row_before, row_delta, row_undelta, undeltas};

use fastlanes_base::MachineWord;
use fastlanes_packing::{BitPacking, WideRows};
use fastlanes_rows::block_rows::BlockRows;
use fastlanes_rows::block_walk::{BlockReader, digits_of, fill_slice_with};
use fastlanes_rows::given_width::OfType;
use fastlanes_rows::group_walk::GroupReader;
use fastlanes_rows::range::know_range;
use fastlanes_rows::types::RowTypes;
use fastlanes_rows::vector::RowVector;
use fastlanes_rows::width::{Apart, AtWidth, Bits, Width};
use std::marker::PhantomData;

/// Differences along the lanes of a block, each lane from a base of its own. `LANES` is how many lanes the type has.
pub trait Delta<const LANES: usize>: BitPacking {
    /// The difference of each element from the row before it in its lane, modulo `2^T`. Before the first row stands the
    /// lane's base.
    ///
    /// ```rust
    /// use fastlanes::Delta;
    ///
    /// let mut output = [0; 1024];
    /// u8::delta(&[7; 1024], &[5; 128], &mut output);
    /// // Rows 0 and 1 of lane 3: 7 - 5, and 7 - 7.
    /// assert_eq!(rt; (output[3], output[131]), (2, 0));
    /// ```
    fn delta(input: &[Self; 1024], base: &[Self; LANES], output: &mut [Self; 1024])
        requires lanes { LANES ≡ Self.LANES }
        ensures differences { map Self.number output.new
            ≡ deltas Self.T Self.LANES (map Self.number base.now) (map Self.number input.now) }
        ensures back { undeltas Self.T Self.LANES (map Self.number base.now)
            (map Self.number output.new)
            ≡ map Self.number input.now }
        // From a packed block all elements come back exactly where every difference has at most its width's bits.
        ensures comes_back { (w : ℕ) → w ≤ Self.T
            → SmallOnesComeBack Self.T Self.LANES w (map Self.number base.now)
            (map Self.number input.now)
            (map Self.number output.new) };

    /// What the differences add up to: a row of a lane is the lane's base plus the input of the lane's rows up to that
    /// one, modulo `2^T`.
    ///
    /// ```rust
    /// use fastlanes::Delta;
    ///
    /// let mut output = [0; 1024];
    /// u8::undelta(&[1; 1024], &[5; 128], &mut output);
    /// // Rows 0, 1 and 7 of lane 3: 5 + 1, 5 + 2, and 5 + 8.
    /// assert_eq!(rt; (output[3], output[131], output[899]), (6, 7, 13));
    /// ```
    fn undelta(input: &[Self; 1024], base: &[Self; LANES], output: &mut [Self; 1024])
        requires lanes { LANES ≡ Self.LANES }
        ensures sums { map Self.number output.new
            ≡ undeltas Self.T Self.LANES (map Self.number base.now) (map Self.number input.now) }
        ensures back { deltas Self.T Self.LANES (map Self.number base.now)
            (map Self.number output.new)
            ≡ map Self.number input.now };

    /// What `unchecked_pack` does, by the rows that `delta` goes by: packs the differences of a block.
    ///
    /// ```rust
    /// use fastlanes::Delta;
    ///
    /// let mut differences = [0; 1024];
    /// u8::delta(&[7; 1024], &[5; 128], &mut differences);
    /// let mut packed = [0; 256];
    /// <u8 as Delta<128>>::pack_deltas(2, &differences, &mut packed);
    /// // A lane has the difference 2 in row 0, and then none.
    /// assert_eq!(rt; (packed[3], packed[131]), (2, 0));
    /// ```
    fn pack_deltas(width: usize, deltas: &[Self; 1024], output: &mut [Self])
        requires width { width ≤ Self.T }
        requires output { length output.old ≡ Self.LANES * width }
        ensures { PacksBlock Self.T Self.LANES width (map Self.number deltas.now)
            (map Self.number output.new) };

    /// What `undelta_pack` does at a width that is known at run time. `input` has the `LANES * width` words of the block.
    /// `u8::unchecked_undelta_pack(1, &packed, &base, &mut output)` does the same as
    /// `undelta_pack::<u8, 128, 1, 128>(&packed, &base, &mut output)`.
    fn unchecked_undelta_pack(
        width: usize,
        input: &[Self],
        base: &[Self; LANES],
        output: &mut [Self; 1024],
    )
        requires lanes { LANES ≡ Self.LANES }
        requires width { width ≤ Self.T }
        requires input { length input.now ≡ Self.LANES * width }
        ensures { map Self.number output.new ≡ undeltas Self.T Self.LANES (map Self.number base.now)
            (digits Self.T Self.LANES width (map Self.number input.now)) };

    /// What `undelta_pack` does, at the width `N`, of which alone a program gets the code.
    fn undelta_pack_at<N: Width>(input: &[Self], base: &[Self; LANES], output: &mut [Self; 1024])
        requires lanes { LANES ≡ Self.LANES }
        requires width { N.W ≤ Self.T }
        requires input { length input.now ≡ Self.LANES * N.W }
        ensures { map Self.number output.new ≡ undeltas Self.T Self.LANES (map Self.number base.now)
            (digits Self.T Self.LANES N.W (map Self.number input.now)) };
}

impl<E: BitPacking + RowTypes, const LANES: usize> Delta<LANES> for E {
    fn delta(input: &[E; 1024], base: &[E; LANES], output: &mut [E; 1024]) {
        delta_block::<E, E::Wide>(input, base, output);
    }

    fn undelta(input: &[E; 1024], base: &[E; LANES], output: &mut [E; 1024]) {
        undelta_block::<E, E::Wide>(input, base, output);
    }

    #[inline(always)]
    fn pack_deltas(width: usize, deltas: &[E; 1024], output: &mut [E]) {
        E::pack_wide(width, deltas, output);
    }

    #[inline(always)]
    fn unchecked_undelta_pack(
        width: usize,
        input: &[E],
        base: &[E; LANES],
        output: &mut [E; 1024],
    ) {
        E::at_width::<Apart<Summing<E::Wide>>, &[E], _>(width, input, base, output);
    }

    #[inline(always)]
    fn undelta_pack_at<N: Width>(input: &[E], base: &[E; LANES], output: &mut [E; 1024]) {
        Apart::<Summing<E::Wide>>::at::<N>(input, base, output);
    }
}

/// What `undelta` does with the digits of a block of `B = LANES * W` words.
///
/// ```rust
/// let mut output = [0; 1024];
/// // At one bit, words of ones have the digit 1 everywhere.
/// fastlanes::undelta_pack::<u8, 128, 1, 128>(&[0xFF; 128], &[5; 128], &mut output);
/// assert_eq!(rt; (output[3], output[131], output[899]), (6, 7, 13));
/// ```
pub fn undelta_pack<E: Delta<LANES>, const LANES: usize, const W: usize, const B: usize>(
    input: &[E; B],
    base: &[E; LANES],
    output: &mut [E; 1024],
)
    requires lanes { LANES ≡ E.LANES }
    requires width { W ≤ E.T }
    requires words { B ≡ E.LANES * W }
    ensures { map E.number output.new ≡ undeltas E.T E.LANES (map E.number base.now)
        (digits E.T E.LANES W (map E.number input.now)) }
{
    E::undelta_pack_at::<Bits<W>>(input, base, output);
}

/// What is done with the rows of a lane, each of which is told a number by the one before it, and the first one the lane's base.
trait AlongLanes<E: MachineWord> {
    // What becomes of a row's value, of these bases and values.
    ghost made: { List ℕ → (ℕ → ℕ → ℕ) → ℕ → ℕ → ℕ };

    // What the row tells the next one.
    ghost told: { List ℕ → (ℕ → ℕ → ℕ) → ℕ → ℕ → ℕ };

    /// Does it in every lane.
    fn step<V: RowVector<E>>(values: V, before: V) -> (V, V)
        ensures { (base : List ℕ) (at : ℕ → ℕ → ℕ) (lane row : ℕ)
            → HasLanes V.N (V.at values) (λ j. at (lane + j) row)
            → HasLanes V.N (V.at before) (λ j. row_before base (told base at) (lane + j) row)
            → HasLanes V.N (V.at result.0) (λ j. made base at (lane + j) row)
            × HasLanes V.N (V.at result.1) (λ j. told base at (lane + j) row) };
}

/// The differences of neighbours.
#[derive(Drop)]
struct Differences;

impl<E: MachineWord> AlongLanes<E> for Differences {
    ghost made = { row_delta E.T };

    ghost told = { λ base at. at };

    #[inline(always)]
    fn step<V: RowVector<E>>(values: V, before: V) -> (V, V) {
        (values.minus(before), values)
    }
}

/// What the values add up to.
#[derive(Drop)]
struct Sums;

impl<E: MachineWord> AlongLanes<E> for Sums {
    ghost made = { row_undelta E.T };

    ghost told = { row_undelta E.T };

    #[inline(always)]
    fn step<V: RowVector<E>>(values: V, before: V) -> (V, V) {
        let sums = before.plus(values);
        (sums, sums)
    }
}

/// What is made of the rows that a reader reads.
#[derive(Drop)]
struct Along<'a, E: MachineWord, R, O> {
    values: R,
    base: &'a [E],
    by: O,
    ghost lanes: { length base.now ≡ E.LANES },
}

impl<'a, E: MachineWord, V: RowVector<E>, R: GroupReader<E, V>, O: AlongLanes<E>> GroupReader<E, V>
    for Along<'a, E, R, O> {
    type Carry = (R::Carry, V);

    ghost value_at = { λ s width. O.made (map E.number s.base.now) (R.value_at s.values width) };

    ghost stands = { λ s width lane row carry. R.stands s.values width lane row carry.0
        × HasLanes V.N (V.at carry.1) (λ j. row_before (map E.number s.base.now)
        (O.told (map E.number s.base.now) (R.value_at s.values width)) (lane + j) row) };

    ghost beside = { λ s u. R.beside s.values u.values };

    #[inline(always)]
    fn read(
        &mut self,
        width: usize,
        lane: usize,
        row: usize,
        carry: (R::Carry, V),
    ) -> (V, (R::Carry, V)) {
        let (values, read) = self.values.read(width, lane, row, carry.0);
        let (made, told) = O::step::<V>(values, carry.1);
        (made, (read, told))
    }
}

impl<'a, E: MachineWord, V: RowVector<E>, R: BlockReader<E, V>, O: AlongLanes<E>> BlockReader<E, V>
    for Along<'a, E, R, O> {
    ghost ready = { λ s width. R.ready s.values width };

    #[inline(always)]
    fn begin(&mut self, width: usize, lane: usize) -> (R::Carry, V) {
        let before_first = V::load(self.base, lane);
        (self.values.begin(width, lane), before_first)
    }

    ghost ready_law = { λ s width lane row carry stands. R.ready_law s.values width lane row carry.0 stands.0 };
}

/// The differences of a block.
#[inline(never)]
fn delta_block<E: MachineWord, V: RowVector<E>>(input: &[E], base: &[E], output: &mut [E])
    requires groups { MakesGroups E.LANES V.N }
    requires input { length input.now ≡ 1024 }
    requires base { length base.now ≡ E.LANES }
    requires output { length output.old ≡ 1024 }
    ensures differences { map E.number output.new
        ≡ deltas E.T E.LANES (map E.number base.now) (map E.number input.now) }
    ensures back { undeltas E.T E.LANES (map E.number base.now) (map E.number output.new)
        ≡ map E.number input.now }
    ensures comes_back { (w : ℕ) → w ≤ E.T
        → SmallOnesComeBack E.T E.LANES w (map E.number base.now) (map E.number input.now)
        (map E.number output.new) }
{
    know_range(input);
    know_range(base);
    let values = BlockRows { input };
    let by = Differences;
    let mut differences = Along { values, base, by };
    fill_slice_with::<E, V, _, OfType<Bits<0>>>(&mut differences, 0, output);
}

/// What the differences of a block add up to.
#[inline(never)]
fn undelta_block<E: MachineWord, V: RowVector<E>>(input: &[E], base: &[E], output: &mut [E])
    requires groups { MakesGroups E.LANES V.N }
    requires input { length input.now ≡ 1024 }
    requires base { length base.now ≡ E.LANES }
    requires output { length output.old ≡ 1024 }
    ensures sums { map E.number output.new
        ≡ undeltas E.T E.LANES (map E.number base.now) (map E.number input.now) }
    ensures back { deltas E.T E.LANES (map E.number base.now) (map E.number output.new)
        ≡ map E.number input.now }
{
    know_range(input);
    know_range(base);
    let values = BlockRows { input };
    let by = Sums;
    let mut sums = Along { values, base, by };
    fill_slice_with::<E, V, _, OfType<Bits<0>>>(&mut sums, 0, output);
}

/// Adding up of digits, from a base for each lane, at a width that is not known yet.
pub struct Summing<V> {
    rows: PhantomData<V>,
}

impl<'a, E: MachineWord, V: RowVector<E>> AtWidth<E, &'a [E], E> for Summing<V> {
    ghost asks = { λ width input base output. (width ≤ E.T) × MakesGroups E.LANES V.N × (length input ≡ E.LANES * width)
        × (length base.now ≡ E.LANES) × (length output ≡ 1024) };

    ghost gives = { λ width input base output. map E.number output ≡ undeltas E.T E.LANES (map E.number base.now)
        (digits E.T E.LANES width (map E.number input)) };

    #[inline(always)]
    fn at<N: Width>(input: &[E], base: &'a [E], output: &mut [E]) {
        let values = digits_of::<E, V>(N::W, input);
        let by = Sums;
        let mut sums = Along { values, base, by };
        fill_slice_with::<E, V, _, OfType<N>>(&mut sums, N::W, output);
    }
}
