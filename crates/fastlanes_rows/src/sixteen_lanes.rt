//! Rows of sixteen lanes, the counted words of which the steps of a row take and put.

ghost use Rattle.std.specs.Prelude.{◌≡◌, ℕ, ◌<◌, ◌≤◌, length, map, slice_index};
ghost use Rattle.fastlanes_base.specs.Digits.{row_digit};
ghost use Rattle.fastlanes_base.specs.Sinks.{row_sink};
ghost use Rattle.fastlanes_rows.specs.Rows.{HasLanes, HoldsGroup, IsBesideWords, PacksLanes, ReadsRows, UnpacksLanes};

use crate::block_rows::BlockRows;
use crate::given_width::OfRun;
use crate::group_walk::{GroupReader, GroupWriter, walk_group};
use crate::rows::{WordCursor, WordSink, pack_group_row, unpack_step};
use crate::types::RowTypes;
use crate::vector::RowVector;
use fastlanes_base::{MachineWord, RowSink, RowWords};

/// Sixteen elements, as a row of sixteen lanes.
#[inline(always)]
pub fn row_of_array<E: MachineWord, V: RowVector<E>>(values: &[E; 16]) -> V
    requires { V.N ≡ 16 }
    ensures { HasLanes 16 (V.at result) (slice_index (map E.number values.now)) }
{
    V::load(values, 0)
}

/// The values of a row of sixteen lanes, as so many elements.
#[inline(always)]
pub fn array_of_row<E: MachineWord, V: RowVector<E>>(row: V) -> [E; 16]
    requires { V.N ≡ 16 }
    ensures long { length result ≡ 16 }
    ensures each { HasLanes 16 (slice_index (map E.number result)) (V.at row) }
{
    let mut values = [E::zero(); 16];
    row.put(&mut values);
    values
}

/// Packs the rows of the sink's sixteen lanes to a width.
#[inline(always)]
pub fn pack_group<E: RowTypes>(width: usize, input: &[E], sink: &mut RowSink<'_, E>)
    requires width { width ≤ E.T }
    requires input { length input.now ≡ 1024 }
    requires same { (row_sink sink.old).width ≡ width }
    requires written { (row_sink sink.old).count ≡ 0 }
    ensures { PacksLanes 16 E.T E.LANES width E.number (map E.number input.now)
        (row_sink sink.old) (row_sink sink.new) }
{
    let lane = sink.lane();
    let mut rows = BlockRows { input };
    let none = E::Row::splat(E::zero());
    let _rest = walk_group::<E, E::Row, BlockRows<'_, E>, RowSink<'_, E>, OfRun>(
        &mut rows,
        sink,
        width,
        lane,
        ((), none),
    );
}

/// Unpacks the rows of the cursor's sixteen lanes from a width, each digit to its place.
#[inline(always)]
pub fn unpack_group<E: RowTypes>(width: usize, words: &mut RowWords<'_, E>, output: &mut [E; 1024])
    requires width { width ≤ E.T }
    requires same { words.old.width ≡ width }
    requires taken { words.old.count ≡ 0 }
    ensures digits { UnpacksLanes 16 E.T E.LANES width words.old.lane (map E.number words.old.words)
        (map E.number output.old) (map E.number output.new) }
    ensures taken { words.new ≡ record words.old { count = width } }
{
    let lane = words.lane();
    let none = E::Row::splat(E::zero());
    let _last = walk_group::<E, E::Row, RowWords<'_, E>, [E; 1024], OfRun>(
        words,
        output,
        width,
        lane,
        (none, ()),
    );
}

impl<'a, E: RowTypes> WordCursor<E, E::Row> for RowWords<'a, E> {
    ghost counted = { λ s. s };

    #[inline(always)]
    fn take_row(&mut self) -> E::Row {
        row_of_array(&self.next_row())
    }
}

impl<'a, E: RowTypes> WordSink<E, E::Row> for RowSink<'a, E> {
    ghost written = { λ s. row_sink s };

    #[inline(always)]
    fn bits(&self) -> usize {
        self.width()
    }

    #[inline(always)]
    fn put_row(&mut self, words: E::Row) {
        self.put_row(&array_of_row(words));
    }
}

impl<'a, E: RowTypes> GroupReader<E, E::Row> for RowWords<'a, E> {
    type Carry = E::Row;

    ghost value_at = { λ s width lane row. row_digit E.T E.LANES width (map E.number s.words) lane row };

    ghost beside = { λ s u. u ≡ record s { count = u.count } };

    ghost stands = { λ s width lane row carry. ReadsRows E.Row.N E.T E.LANES width lane row E.number
        s (E.Row.at carry) };

    #[inline(always)]
    fn read(&mut self, width: usize, _lane: usize, row: usize, carry: E::Row) -> (E::Row, E::Row) {
        unpack_step::<E, E::Row, RowWords<'a, E>>(width, row, self, carry)
    }
}

impl<'a, E: RowTypes> GroupWriter<E, E::Row> for RowSink<'a, E> {
    type Carry = E::Row;

    ghost holds = { λ s width lane row at carry. HoldsGroup E.Row.N E.T E.LANES width lane row
        E.number at (row_sink s) (E.Row.at carry) };

    ghost beside = { λ lane s u. IsBesideWords E.Row.N E.LANES lane E.number (row_sink s) (row_sink u) };

    #[inline(always)]
    fn write(
        &mut self,
        width: usize,
        lane: usize,
        row: usize,
        values: E::Row,
        carry: E::Row,
    ) -> E::Row {
        pack_group_row::<E, E::Row, RowSink<'a, E>>(self, width, lane, row, values, carry)
    }
}
