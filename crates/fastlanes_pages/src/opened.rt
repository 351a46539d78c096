//! What is kept of a column that was looked at.

ghost use Rattle.std.specs.Prelude.{◌≡◌, ◌+◌, ◌*◌, ◌/◌, ◌<◌, ◌≤◌, IfErr, OnErr, OnOk, drop, length, map, slice_index, take};
ghost use Rattle.fastlanes_format.specs.Errors.{IsColumnError};
ghost use Rattle.fastlanes_format.specs.Format.{AreColumn};
ghost use Rattle.fastlanes_pages.specs.Blocks.{IsOpened};
ghost use Rattle.fastlanes_pages.specs.ColumnValues.{column_values};
ghost use Rattle.fastlanes_pages.specs.Heads.{column_block, column_blocks, told_blocks};
ghost use Rattle.fastlanes_pages.specs.Masks.{IsMask, count_where, holds_of};

use crate::block::Block;
use crate::element::Stored;
use fastlanes_blocks::Comparison;
use fastlanes_format::{FormatError, check_behind_head, note_starts, open_head, page_of};

/// What is kept of a column that was looked at, in a struct of the caller's, of a type that is the same for all elements: the bytes,
/// how many values they are, and where pages begin. `Column` has the same calls, and no way to ask them of bytes that are none.
#[derive(Drop)]
#[repr(C)]
pub struct Opened<'a> {
    /// The bytes of the column.
    pub bytes: &'a [u8],
    /// How many values it has.
    pub len: u64,
    /// How many pages there are from one place that is noted to the next.
    pub stride: usize,
    /// Where these pages begin.
    pub starts: [usize; 256],
}

impl<'a> Opened<'a> {
    /// Checks all bytes: the header of the column, the headers and checksums of all pages, and the end. Fails with the first error of
    /// the tables of the format if they are not a column.
    pub fn fill<E: Stored>(&mut self, bytes: &'a [u8]) -> Result<(), FormatError>
        ensures opened { OnOk result (IsOpened E.T self.new) }
        ensures bytes { OnOk result (self.new.bytes.now ≡ bytes.now) }
        ensures other { OnErr result (¬ (AreColumn E.T bytes.now)) }
        ensures error { IfErr result (IsColumnError E.T bytes.now) }
        ensures within { IfErr result (λ e. e.at ≤ length bytes.now) }
        ensures unchanged { OnErr result (self.new ≡ self.old) }
    {
        let checked = open_head(bytes, E::T)?;
        let len = check_behind_head(bytes, E::T, checked)?;
        self.stride = note_starts(bytes, len, &mut self.starts);
        self.bytes = bytes;
        self.len = len;
        Ok(())
    }

    /// How many values the column has.
    #[inline(always)]
    pub fn len<E: Stored>(&self) -> u64
        requires { IsOpened E.T self.now }
        ensures { result ≡ length (column_values E.T E.LANES self.now.bytes.now) }
    {
        self.len
    }

    /// How many blocks the column has.
    pub fn blocks<E: Stored>(&self) -> u64
        requires { IsOpened E.T self.now }
        ensures { result ≡ column_blocks E.T E.LANES self.now.bytes.now }
    {
        self.len.div_ceil(1024)
    }

    /// The block of this number: 1024 values, or what is left of them.
    #[inline(always)]
    pub fn block<E: Stored>(&self, number: u64) -> Block<'a, E>
        requires opened { IsOpened E.T self.now }
        requires number { 1024 * number < length (column_values E.T E.LANES self.now.bytes.now) }
        ensures { result ≡ column_block E.T E.LANES self.now.bytes.now number }
    {
        let page = page_of(
            self.bytes,
            &self.starts,
            self.stride,
            (number / 64) as usize,
        );
        let len = (self.len - 1024 * number).min(1024);
        Block::of_page(page, (number % 64) as usize, len as usize)
    }

    /// Reads value number `i`.
    #[inline(always)]
    pub fn get<E: Stored>(&self, i: u64) -> E
        requires opened { IsOpened E.T self.now }
        requires index { i < length (column_values E.T E.LANES self.now.bytes.now) }
        ensures { E.number result ≡ slice_index (column_values E.T E.LANES self.now.bytes.now) i }
    {
        self.block::<E>(i / 1024).get((i % 1024) as usize)
    }

    /// Reads the values from number `from` on, as many as `output` has places.
    pub fn read<E: Stored>(&self, from: u64, output: &mut [E])
        requires opened { IsOpened E.T self.now }
        requires inside { from + length output.old ≤ length (column_values E.T E.LANES self.now.bytes.now) }
        ensures length { length output.new ≡ length output.old }
        ensures values { map E.number output.new
            ≡ take (length output.old) (drop from (column_values E.T E.LANES self.now.bytes.now)) }
    {
        let mut done = 0;
        'parts: while done < output.len() {
            let place = from + done as u64;
            let first = (place % 1024) as usize;
            let end = done + (1024 - first).min(output.len() - done);
            let block = self.block::<E>(place / 1024);
            block.read(first, &mut output[done..end]);
            done = end;
        }
    }

    /// Sets bit `i % 64` of `mask[i / 64]` if value `i` satisfies the comparison with `value`, and clears all other bits. Returns the
    /// number of blocks that were decided without their packed words: `value` is outside of their `Block::bounds`.
    pub fn filter<E: Stored>(&self, comparison: Comparison, value: E, mask: &mut [u64]) -> u64
        requires opened { IsOpened E.T self.now }
        requires mask { length mask.old ≡ (length (column_values E.T E.LANES self.now.bytes.now) + 63) / 64 }
        ensures length { length mask.new ≡ length mask.old }
        ensures mask { IsMask (holds_of comparison (E.number value))
            (column_values E.T E.LANES self.now.bytes.now) mask.new }
        ensures told { result ≡ told_blocks E.T self.now.bytes.now (E.number value)
            (column_blocks E.T E.LANES self.now.bytes.now) }
        ensures most { result ≤ column_blocks E.T E.LANES self.now.bytes.now }
    {
        let mut told = 0;
        'parts: for number in 0..self.blocks::<E>() {
            let mut part = [0; 16];
            let block = self.block::<E>(number);
            if block.filter(comparison, value, &mut part) {
                told += 1;
            }
            let start = 16 * number as usize;
            let end = mask.len().min(start + 16);
            mask[start..end].copy_from_slice(&part[..end - start]);
        }
        told
    }

    /// Of how many values a comparison with `value` holds.
    pub fn count<E: Stored>(&self, comparison: Comparison, value: E) -> u64
        requires { IsOpened E.T self.now }
        ensures { result ≡ count_where (holds_of comparison (E.number value))
            (column_values E.T E.LANES self.now.bytes.now) }
    {
        let mut count = 0;
        'parts: for number in 0..self.blocks::<E>() {
            let block = self.block::<E>(number);
            count += block.count(comparison, value) as u64;
        }
        count
    }
}
