//! The walk of a whole block: its groups of lanes side by side, one after another. Packed words are a slice here.

ghost use Rattle.std.specs.Prelude.{◌≡◌, ℕ, ◌+◌, ◌*◌, ◌<◌, ◌≤◌, length, map, ⊤};
ghost use Rattle.fastlanes_base.specs.Digits.{row_digit};
ghost use Rattle.fastlanes_rows.specs.Block.{HasValues, IsFilled, IsHeld, PacksValues, lane_spot, row_value};
ghost use Rattle.fastlanes_rows.specs.Rows.{HoldsGroup, IsBesideWords, MakesGroups, ReadsRows};

use crate::block_rows::{BlockRows, store};
use crate::given_width::GivenWidth;
use crate::group_walk::{GroupReader, GroupWriter, walk_group};
use crate::rows::{WordCursor, WordSink, pack_group_row, unpack_step};
use crate::vector::RowVector;
use fastlanes_base::{MachineWord, place_of_word};
use std::marker::{Model, PhantomData};

/// A cursor over the rows of words of `N` lanes of a slice.
#[derive(Drop)]
pub struct SliceWords<'a, E: MachineWord, V: RowVector<E>> {
    packed: &'a [E],
    width: usize,
    lane: usize,
    taken: usize,
    rows: PhantomData<V>,
}

impl<'a, E: MachineWord, V: RowVector<E>> Model for SliceWords<'a, E, V> {
    ghost use Rattle.fastlanes_base.specs.Counted.{Counted};
    ghost use Rattle.std.specs.Prelude.{◌≡◌, ◌+◌, ◌*◌, ◌≤◌, length};

    ghost Value = { Counted E };

    ghost view = { λ s. record { words = s.packed.now; width = s.width; lane = s.lane; count = s.taken } };

    ghost invariant = { λ s. (s.width ≤ E.T) × (s.lane + V.N ≤ E.LANES) × (length s.packed.now ≡ E.LANES * s.width) };
}

impl<'a, E: MachineWord, V: RowVector<E>> WordCursor<E, V> for SliceWords<'a, E, V> {
    ghost counted = { λ s. s };

    #[inline(always)]
    fn take_row(&mut self) -> V {
        let place = place_of_word::<E>(self.width, self.lane, self.taken);
        self.taken += 1;
        V::load(self.packed, place)
    }
}

impl<'a, E: MachineWord, V: RowVector<E>> GroupReader<E, V> for SliceWords<'a, E, V> {
    type Carry = V;

    ghost value_at = { λ s width lane row. row_digit E.T E.LANES width (map E.number s.words) lane row };

    ghost beside = { λ s u. u ≡ record s { count = u.count } };

    ghost stands = { λ s width lane row carry. ReadsRows V.N E.T E.LANES width lane row E.number s (V.at carry) };

    #[inline(always)]
    fn read(&mut self, width: usize, _lane: usize, row: usize, carry: V) -> (V, V) {
        unpack_step::<E, V, SliceWords<'a, E, V>>(width, row, self, carry)
    }
}

/// A sink of the rows of words of `N` lanes of a slice.
#[derive(Drop)]
pub struct SliceSink<'a, E: MachineWord, V: RowVector<E>> {
    packed: &'a mut [E],
    width: usize,
    lane: usize,
    written: usize,
    rows: PhantomData<V>,
    ghost width_fits: { width ≤ E.T },
    ghost lanes_fit: { lane + V.N ≤ E.LANES },
    ghost whole: { length packed.now ≡ E.LANES * width },
}

impl<'a, E: MachineWord, V: RowVector<E>> WordSink<E, V> for SliceSink<'a, E, V> {
    ghost use Rattle.fastlanes_rows.specs.Sinks.{slice_sink};

    ghost written = { λ s. slice_sink s };

    #[inline(always)]
    fn bits(&self) -> usize {
        self.width
    }

    #[inline(always)]
    fn put_row(&mut self, words: V) {
        let place = place_of_word::<E>(self.width, self.lane, self.written);
        store(words, self.packed, place);
        self.written += 1;
    }
}

impl<'a, E: MachineWord, V: RowVector<E>> GroupWriter<E, V> for SliceSink<'a, E, V> {
    ghost use Rattle.fastlanes_rows.specs.Sinks.{slice_sink};

    type Carry = V;

    ghost holds = { λ s width lane row at carry. HoldsGroup V.N E.T E.LANES width lane row E.number
        at (slice_sink s) (V.at carry) };

    ghost beside = { λ lane s u. IsBesideWords V.N E.LANES lane E.number (slice_sink s) (slice_sink u) };

    #[inline(always)]
    fn write(&mut self, width: usize, lane: usize, row: usize, values: V, carry: V) -> V {
        pack_group_row::<E, V, SliceSink<'a, E, V>>(self, width, lane, row, values, carry)
    }
}

/// What is read group after group.
pub trait BlockReader<E: MachineWord, V: RowVector<E>>: GroupReader<E, V> {
    // At a width, a group may begin.
    ghost ready: { Self → ℕ → Type 0 };

    /// What the first row of the lanes from `lane` on is told.
    fn begin(&mut self, width: usize, lane: usize) -> Self::Carry
        requires width { width ≤ E.T }
        requires lane { lane < E.LANES }
        requires lanes { lane + V.N ≤ E.LANES }
        requires ready { ready self.old width }
        ensures same { Self.value_at self.new ≡ Self.value_at self.old }
        ensures stands { Self.stands self.new width lane 0 result };

    // It may begin after every row.
    ghost ready_law: { (s : Self) (width lane row : ℕ) (carry : Self.Carry)
        → Self.stands s width lane row carry → ready s width };
}

/// What is written group after group.
pub trait BlockWriter<E: MachineWord, V: RowVector<E>>: GroupWriter<E, V> {
    // At a width, the lanes below this one are written, as the values that a function gives.
    ghost done: { Self → ℕ → ℕ → (ℕ → ℕ → ℕ) → Type 0 };

    // The name of the slice that is written to, where it is a lent one.
    ghost target: { Self → ℕ };

    /// What the first row of the lanes from `lane` on is told.
    fn begin(&mut self, width: usize, lane: usize) -> Self::Carry
        requires width { width ≤ E.T }
        requires lane { lane < E.LANES }
        requires lanes { lane + V.N ≤ E.LANES }
        requires done { (at : ℕ → ℕ → ℕ) × done self.old width lane at }
        ensures holds { (at : ℕ → ℕ → ℕ) → done self.old width lane at
            → Self.holds self.new width lane 0 at result }
        ensures done { (at : ℕ → ℕ → ℕ) → done self.old width lane at
            → done self.new width lane at }
        ensures start { Self.beside lane self.new self.new }
        ensures target { target self.new ≡ target self.old };

    /// Nothing is left to write: the lanes of a group are written with all its rows.
    fn end(&mut self, width: usize, lane: usize, carry: Self::Carry)
        requires width { width ≤ E.T }
        requires lanes { lane + V.N ≤ E.LANES }
        ensures done { (start : Self) (at : ℕ → ℕ → ℕ) → done start width lane at
            → Self.holds self.old width lane E.T at carry → Self.beside lane start self.old
            → done self.new width (lane + V.N) at }
        ensures target { (start : Self) → Self.beside lane start self.old
            → target self.new ≡ target start };
}

impl<'a, E: MachineWord, V: RowVector<E>> BlockReader<E, V> for SliceWords<'a, E, V> {
    ghost ready = { λ s width. s.width ≡ width };

    #[inline(always)]
    fn begin(&mut self, width: usize, lane: usize) -> V {
        self.lane = lane;
        self.taken = 0;
        V::splat(E::zero())
    }

    ghost ready_law = { λ s width lane row carry stands. stands.same_width };
}

impl<'a, E: MachineWord, V: RowVector<E>> BlockReader<E, V> for BlockRows<'a, E> {
    ghost ready = { λ s width. ⊤ };

    #[inline(always)]
    fn begin(&mut self, _width: usize, _lane: usize) {}

    ghost ready_law = { λ s width lane row carry stands. tt };
}

impl<E: MachineWord, V: RowVector<E>> BlockWriter<E, V> for [E; 1024] {
    ghost done = { λ s width lanes at. IsFilled E.T lane_spot at lanes 0 (map E.number s) };

    ghost target = { λ s. 0 };

    #[inline(always)]
    fn begin(&mut self, _width: usize, _lane: usize) {}

    #[inline(always)]
    fn end(&mut self, _width: usize, _lane: usize, _carry: ()) {}
}

impl<'a, E: MachineWord, V: RowVector<E>> BlockWriter<E, V> for SliceSink<'a, E, V> {
    ghost use Rattle.fastlanes_rows.specs.Sinks.{slice_sink};

    ghost done = { λ s width lanes at. (s.width ≡ width)
        × IsHeld E.T E.LANES width at lanes 0 (map E.number s.packed.now) 0 };

    ghost target = { λ s. (slice_sink s).target };

    #[inline(always)]
    fn begin(&mut self, width: usize, lane: usize) -> V {
        self.lane = lane;
        self.written = 0;
        V::splat(E::zero())
    }

    #[inline(always)]
    fn end(&mut self, _width: usize, _lane: usize, _carry: V) {}
}

/// Reads all rows of a block, and writes each, one group after another.
#[inline(always)]
pub fn walk_block<
    E: MachineWord,
    V: RowVector<E>,
    R: BlockReader<E, V>,
    O: BlockWriter<E, V>,
    B: GivenWidth,
>(reader: &mut R, writer: &mut O, width: usize)
    requires given { B.may width }
    requires width { width ≤ E.T }
    requires groups { MakesGroups E.LANES V.N }
    requires ready { R.ready reader.old width }
    requires done { O.done writer.old width 0 (R.value_at reader.old width) }
    ensures done { O.done writer.new width E.LANES (R.value_at reader.old width) }
    ensures target { O.target writer.new ≡ O.target writer.old }
{
    for group in 0..E::LANES / V::N {
        let lane = V::N * group;
        let read = reader.begin(width, lane);
        let written = writer.begin(width, lane);
        let carry = walk_group::<E, V, R, O, B>(reader, writer, width, lane, (read, written));
        writer.end(width, lane, carry.1);
    }
}

/// How many words of a slice each lane has: its width, as a number that LLVM does not know.
#[inline(always)]
fn words_a_lane<E: MachineWord>(packed: &[E]) -> usize
    ensures { (width : ℕ) → length packed.now ≡ E.LANES * width → result ≡ width }
{
    packed.len() / E::LANES
}

/// Packs to a width what a reader reads.
#[inline(always)]
pub fn pack_all_of<E: MachineWord, V: RowVector<E>, R: BlockReader<E, V>, B: GivenWidth>(
    reader: &mut R,
    width: usize,
    packed: &mut [E],
)
    requires given { B.may width }
    requires width { width ≤ E.T }
    requires groups { MakesGroups E.LANES V.N }
    requires ready { R.ready reader.old width }
    requires words { length packed.old ≡ E.LANES * width }
    ensures { PacksValues E.T E.LANES width (R.value_at reader.old width)
        (map E.number packed.new) }
{
    let bits = words_a_lane(packed);
    let mut sink = SliceSink::<E, V> {
        packed,
        width: bits,
        lane: 0,
        written: 0,
        rows: PhantomData,
    };
    walk_block::<E, V, R, SliceSink<'_, E, V>, B>(reader, &mut sink, width);
}

/// Writes to a block, a slice of its length, what a reader reads.
#[inline(always)]
pub fn fill_slice_with<E: MachineWord, V: RowVector<E>, R: BlockReader<E, V>, B: GivenWidth>(
    reader: &mut R,
    width: usize,
    output: &mut [E],
)
    requires given { B.may width }
    requires width { width ≤ E.T }
    requires groups { MakesGroups E.LANES V.N }
    requires ready { R.ready reader.old width }
    requires output { length output.old ≡ 1024 }
    ensures { HasValues E.T E.LANES (R.value_at reader.old width) (map E.number output.new) }
{
    if let Some(block) = output.first_chunk_mut::<1024>() {
        walk_block::<E, V, R, [E; 1024], B>(reader, block, width);
    }
}

/// The words of a block that is packed to a width, as what a walk reads.
#[inline(always)]
pub fn digits_of<'a, E: MachineWord, V: RowVector<E>>(
    width: usize,
    packed: &'a [E],
) -> SliceWords<'a, E, V>
    requires width { width ≤ E.T }
    requires groups { MakesGroups E.LANES V.N }
    requires words { length packed.now ≡ E.LANES * width }
    ensures words { result.words ≡ packed.now }
    ensures width { result.width ≡ width }
{
    SliceWords {
        packed,
        width,
        lane: 0,
        taken: 0,
        rows: PhantomData,
    }
}
