//! Columns as bytes: any number of values.

ghost use Rattle.std.specs.Prelude.{◌≡◌, ℕ, ◌+◌, ◌*◌, ◌/◌, ◌<◌, ◌≤◌, All, IfErr, IfOk, List, OnErr, OnOk, drop, length, map, slice_index, take};
ghost use Rattle.fastlanes_format.specs.Errors.{IsColumnError};
ghost use Rattle.fastlanes_format.specs.Format.{AreColumn};
ghost use Rattle.fastlanes_format.specs.declared.flaw.Flaw.TheVariants.{Room};
ghost use Rattle.fastlanes_pages.specs.Blocks.{IsOpened};
ghost use Rattle.fastlanes_pages.specs.ColumnValues.{column_values};
ghost use Rattle.fastlanes_pages.specs.Heads.{column_block, column_blocks, heads_greatest, heads_least, told_blocks};
ghost use Rattle.fastlanes_pages.specs.Masks.{IsMask, count_where, holds_of};

use crate::block::Block;
use crate::bounds::wider;
use crate::element::Stored;
use crate::opened::Opened;
use fastlanes_blocks::Comparison;
use fastlanes_format::{Flaw, FormatError};
use std::marker::{Model, PhantomData};

/// A column of elements, in bytes that were looked at as a whole when it was opened: no call of it refuses anything.
///
/// It keeps the places of up to 256 pages, so that a value of a column of up to sixteen million is found without a look at other
/// pages; of a longer one those between it and the next place are passed.
#[derive(Drop)]
pub struct Column<'a, E>
where
    E: Stored,
{
    opened: Opened<'a>,
    elements: PhantomData<E>,
}

impl<'a, E: Stored> Model for Column<'a, E> {
    ghost use Rattle.std.specs.Prelude.{ℕ, List};
    ghost use Rattle.fastlanes_pages.specs.Blocks.{IsOpened};

    ghost Value = { List ℕ };

    ghost view = { λ s. s.opened.bytes.now };

    ghost invariant = { λ s. IsOpened E.T s.opened };
}

impl<'a, E: Stored> Column<'a, E> {
    /// Checks all bytes: the header of the column, the headers and checksums of all pages, and the end. Fails with the first error of
    /// the tables of the format if they are not a column.
    pub fn open(bytes: &'a [u8]) -> Result<Column<'a, E>, FormatError>
        ensures column { OnOk result (AreColumn E.T bytes.now) }
        ensures bytes { IfOk result (λ column. column ≡ bytes.now) }
        ensures other { OnErr result (¬ (AreColumn E.T bytes.now)) }
        ensures error { IfErr result (IsColumnError E.T bytes.now) }
        ensures within { IfErr result (λ e. e.at ≤ length bytes.now) }
    {
        let mut opened = Opened {
            bytes,
            len: 0,
            stride: 0,
            starts: [0; 256],
        };
        opened.fill::<E>(bytes)?;
        Ok(Column {
            opened,
            elements: PhantomData,
        })
    }

    /// How many values the column has.
    #[inline(always)]
    pub fn len(&self) -> u64
        ensures { result ≡ length (column_values E.T E.LANES self.now) }
    {
        self.opened.len::<E>()
    }

    /// How many blocks the column has.
    pub fn blocks(&self) -> u64
        ensures { result ≡ column_blocks E.T E.LANES self.now }
    {
        self.opened.blocks::<E>()
    }

    /// The block of this number: 1024 values, or what is left of them.
    #[inline(always)]
    pub fn block(&self, number: u64) -> Block<'a, E>
        requires { 1024 * number < length (column_values E.T E.LANES self.now) }
        ensures { result ≡ column_block E.T E.LANES self.now number }
    {
        self.opened.block(number)
    }

    /// Reads value number `i`.
    #[inline(always)]
    pub fn get(&self, i: u64) -> E
        requires { i < length (column_values E.T E.LANES self.now) }
        ensures { E.number result ≡ slice_index (column_values E.T E.LANES self.now) i }
    {
        self.opened.get(i)
    }

    /// Reads the values from number `from` on, as many as `output` has places.
    pub fn read(&self, from: u64, output: &mut [E])
        requires { from + length output.old ≤ length (column_values E.T E.LANES self.now) }
        ensures length { length output.new ≡ length output.old }
        ensures values { map E.number output.new
            ≡ take (length output.old) (drop from (column_values E.T E.LANES self.now)) }
    {
        self.opened.read(from, output);
    }

    /// Sets bit `i % 64` of `mask[i / 64]` if value `i` satisfies the comparison with `value`, and clears all other bits. Returns the
    /// number of blocks that were decided without their packed words: `value` is outside of their `Block::bounds`.
    pub fn filter(&self, comparison: Comparison, value: E, mask: &mut [u64]) -> u64
        requires { length mask.old ≡ (length (column_values E.T E.LANES self.now) + 63) / 64 }
        ensures length { length mask.new ≡ length mask.old }
        ensures mask { IsMask (holds_of comparison (E.number value))
            (column_values E.T E.LANES self.now) mask.new }
        ensures told { result
            ≡ told_blocks E.T self.now (E.number value) (column_blocks E.T E.LANES self.now) }
        ensures most { result ≤ column_blocks E.T E.LANES self.now }
    {
        self.opened.filter(comparison, value, mask)
    }

    /// Returns bounds of all values from the headers and the bases of the blocks, without reading their packed words: the least lower
    /// bound and the greatest upper bound of `Block::bounds`. Of no values they are 2^T - 1 and 0.
    pub fn bounds(&self) -> (E, E)
        ensures least_is { E.number result.0
            ≡ heads_least E.T self.now (column_blocks E.T E.LANES self.now) }
        ensures greatest_is { E.number result.1
            ≡ heads_greatest E.T self.now (column_blocks E.T E.LANES self.now) }
        ensures least { All (λ x. E.number result.0 ≤ x) (column_values E.T E.LANES self.now) }
        ensures greatest { All (λ x. x ≤ E.number result.1) (column_values E.T E.LANES self.now) }
    {
        let mut bounds = (E::zero().minus(E::one()), E::zero());
        'parts: for number in 0..self.blocks() {
            let more = self.block(number).bounds();
            bounds = wider(bounds, more);
        }
        bounds
    }

    /// Of how many values a comparison with `value` holds.
    pub fn count(&self, comparison: Comparison, value: E) -> u64
        ensures { result ≡ count_where (holds_of comparison (E.number value))
            (column_values E.T E.LANES self.now) }
    {
        self.opened.count(comparison, value)
    }
}

/// Reads all values of a column into the first places of `output`, and returns how many they are. The other places stay. Fails with `Room`
/// at the number of bytes if they are a column of more values than `output` has places, and if they are not a column with the error of
/// `Column::open`.
pub fn decode<E: Stored>(bytes: &[u8], output: &mut [E]) -> Result<usize, FormatError>
    ensures column { OnOk result (AreColumn E.T bytes.now) }
    ensures count { IfOk result (λ count. count ≡ length (column_values E.T E.LANES bytes.now)) }
    ensures within { IfOk result (λ count. count ≤ length output.new) }
    ensures values { IfOk result (λ count. map E.number (take count output.new)
        ≡ column_values E.T E.LANES bytes.now) }
    ensures rest { IfOk result (λ count. drop count output.new ≡ drop count output.old) }
    // Where there is an error, the bytes are no column of values for which there is room.
    ensures other { OnErr result (AreColumn E.T bytes.now
        → length output.old < length (column_values E.T E.LANES bytes.now)) }
    ensures error { IfErr result (λ e. ¬ (AreColumn E.T bytes.now) → IsColumnError E.T bytes.now e) }
    ensures room { IfErr result (λ e. AreColumn E.T bytes.now
        → e ≡ record { flaw = Room; at = length bytes.now }) }
    ensures only_room { IfErr result (λ e. e.flaw ≡ Room → AreColumn E.T bytes.now) }
    ensures place { IfErr result (λ e. e.at ≤ length bytes.now) }
    ensures unchanged { OnErr result (output.new ≡ output.old) }
{
    let column = Column::<E>::open(bytes)?;
    if column.len() > output.len() as u64 {
        return Err(Flaw::Room.at(bytes.len()));
    }
    let count = column.len() as usize;
    column.read(0, &mut output[..count]);
    Ok(count)
}
