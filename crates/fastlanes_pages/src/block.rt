//! Blocks of a column.

ghost use Rattle.std.specs.Prelude.{◌≡◌, ◌+◌, ◌*◌, ◌^◌, ◌<◌, ◌≤◌, All, Bool, drop, false, if◌then◌else◌, length, map, slice_index, take, true};
ghost use Rattle.fastlanes_format.specs.Format.{IsPage, blocks_of};
ghost use Rattle.fastlanes_pages.specs.Blocks.{IsBlock};
ghost use Rattle.fastlanes_pages.specs.ColumnValues.{form_values};
ghost use Rattle.fastlanes_pages.specs.Heads.{form_head, head_greatest, head_least, head_tells, page_block};
ghost use Rattle.fastlanes_pages.specs.Masks.{IsMask, count_where, holds_of};
ghost use Rattle.fastlanes_pages.specs.Values.{AreDifferences, IsFrame};

use crate::bounds::{bounds_of_frame, bounds_of_sums};
use crate::element::Stored;
use crate::masks::{count_mask, filter_between, keep_first};
use fastlanes_blocks::Comparison;
use fastlanes_format::open_block;
use std::marker::{Model, PhantomData};

/// A block of a column: up to 1024 values, in bytes that were looked at. No call of it refuses anything.
#[derive(Drop)]
pub struct Block<'a, E>
where
    E: Stored,
{
    differences: bool,
    width: usize,
    reference: u64,
    bytes: &'a [u8],
    len: usize,
    elements: PhantomData<E>,
}

impl<'a, E: Stored> Model for Block<'a, E> {
    ghost use Rattle.std.specs.Prelude.{take};
    ghost use Rattle.fastlanes_pages.specs.Blocks.{IsBlock};
    ghost use Rattle.fastlanes_pages.specs.ColumnValues.{form_values};
    ghost use Rattle.fastlanes_pages.specs.Heads.{ColumnBlock, form_head};

    ghost Value = { ColumnBlock };

    ghost view = { λ s. record {
      head = form_head E.T s.differences s.width s.reference s.bytes.now;
      values = take s.len (form_values E.T E.LANES s.differences s.width s.reference s.bytes.now);
    } };

    ghost invariant = { λ s. IsBlock E.T s.differences s.width s.reference s.bytes.now s.len };
}

impl<'a, E: Stored> Block<'a, E> {
    /// The first `len` values of a block of a page.
    #[inline(always)]
    pub(crate) fn of_page(page: &'a [u8], block: usize, len: usize) -> Block<'a, E>
        requires page { (checked : Bool) × IsPage E.T checked page.now }
        requires block { block < blocks_of page.now }
        requires len { len ≤ 1024 }
        ensures { result ≡ page_block E.T E.LANES page.now block len }
    {
        let block = open_block(page, block);
        Block {
            differences: block.differences,
            width: block.width,
            reference: block.reference,
            bytes: block.bytes,
            len,
            elements: PhantomData,
        }
    }

    /// How many values the block has.
    #[inline(always)]
    pub fn len(&self) -> usize
        ensures value { result ≡ length self.now.values }
        ensures most { result ≤ 1024 }
    {
        self.len
    }

    /// Reads all 1024 values of the block, with those behind its last one.
    fn read_whole(&self, output: &mut [E; 1024])
        ensures values { take (length self.now.values) (map E.number output.new) ≡ self.now.values }
        ensures most { length self.now.values ≤ 1024 }
        ensures whole { length output.new ≡ 1024 }
    {
        read_form(
            self.differences,
            self.width,
            self.reference,
            self.bytes,
            output,
        );
    }

    /// Reads the values from number `from` on, as many as `output` has places: few values of a frame one by one, else by way of all
    /// values.
    pub fn read(&self, from: usize, output: &mut [E])
        requires { from + length output.old ≤ length self.now.values }
        ensures length { length output.new ≡ length output.old }
        ensures values { map E.number output.new ≡ take (length output.old) (drop from self.now.values) }
    {
        if output.len() == 1024 {
            if let Some(whole) = output.first_chunk_mut::<1024>() {
                self.read_whole(whole);
            }
        } else if self.differences || output.len() > E::T {
            self.read_by_block(from, output);
        } else {
            self.read_each(from, output);
        }
    }

    /// The same, by way of all values of the block.
    fn read_by_block(&self, from: usize, output: &mut [E])
        requires { from + length output.old ≤ length self.now.values }
        ensures length { length output.new ≡ length output.old }
        ensures values { map E.number output.new
            ≡ take (length output.old) (drop from self.now.values) }
    {
        let mut block = [E::zero(); 1024];
        self.read_whole(&mut block);
        let block = &block[..];
        output.copy_from_slice(&block[from..from + output.len()]);
    }

    /// The same, one by one.
    fn read_each(&self, from: usize, output: &mut [E])
        requires { from + length output.old ≤ length self.now.values }
        ensures length { length output.new ≡ length output.old }
        ensures values { map E.number output.new
            ≡ take (length output.old) (drop from self.now.values) }
    {
        let _len = self.len();
        for k in 0..output.len() {
            output[k] = self.get(from + k);
        }
    }

    /// Reads value number `i` of the block: of a frame from the one or two words that its digit is in, of differences from the base of
    /// its lane and the digits of the lane's rows up to it.
    #[inline(always)]
    pub fn get(&self, i: usize) -> E
        requires { i < length self.now.values }
        ensures { E.number result ≡ slice_index self.now.values i }
    {
        value_of_form(self.differences, self.width, self.reference, self.bytes, i)
    }

    /// Sets bit `i % 64` of `mask[i / 64]` if value `i` satisfies the comparison with `value`, and clears all other bits. Returns
    /// whether `value` is outside of `bounds`: then the packed words are not read.
    pub fn filter(&self, comparison: Comparison, value: E, mask: &mut [u64; 16]) -> bool
        ensures mask { IsMask (holds_of comparison (E.number value)) self.now.values mask.new }
        ensures told { result ≡ head_tells E.T self.now.head (E.number value) }
    {
        let told = filter_form(
            self.differences,
            self.width,
            self.reference,
            self.bytes,
            comparison,
            value,
            mask,
        );
        keep_first(mask, self.len);
        told
    }

    /// Returns bounds of all values of the block, without reading its packed words. In a FOR block they are the reference and
    /// reference + 2^W - 1, in a delta block the minimum of the bases and their maximum + T * (2^W - 1). If the upper bound is not
    /// below 2^T, they are 0 and 2^T - 1.
    pub fn bounds(&self) -> (E, E)
        ensures least_is { E.number result.0 ≡ head_least E.T self.now.head }
        ensures greatest_is { E.number result.1 ≡ head_greatest E.T self.now.head }
        ensures least { All (λ x. E.number result.0 ≤ x) self.now.values }
        ensures greatest { All (λ x. x ≤ E.number result.1) self.now.values }
    {
        bounds_of_form(self.differences, self.width, self.reference, self.bytes)
    }

    /// Of how many values a comparison with `value` holds.
    pub fn count(&self, comparison: Comparison, value: E) -> usize
        ensures { result ≡ count_where (holds_of comparison (E.number value)) self.now.values }
    {
        let mut mask = [0; 16];
        self.filter(comparison, value, &mut mask);
        count_mask(&mask)
    }
}

/// Reads a block by what its head says: whether it has differences, how many bits each value is packed to, what is added to each
/// digit of a frame, and its bytes.
pub(crate) fn read_form<E: Stored>(
    differences: bool,
    width: usize,
    reference: u64,
    bytes: &[u8],
    output: &mut [E; 1024],
)
    requires { IsBlock E.T differences width reference bytes.now 0 }
    ensures values { map E.number output.new
        ≡ form_values E.T E.LANES differences width reference bytes.now }
    ensures frame { differences ≡ false
        → IsFrame E.T E.LANES width reference bytes.now (map E.number output.new) }
    ensures sums { differences ≡ true
        → AreDifferences E.T E.LANES width (take 128 bytes.now) (drop 128 bytes.now) (map E.number output.new) }
{
    if differences {
        E::read_sums(&bytes[..128], &bytes[128..], width, output);
    } else {
        E::read_frame(bytes, width, E::of_number(reference), output);
    }
}

/// One of the values that `read_form` reads.
#[inline(always)]
fn value_of_form<E: Stored>(
    differences: bool,
    width: usize,
    reference: u64,
    bytes: &[u8],
    i: usize,
) -> E
    requires block { IsBlock E.T differences width reference bytes.now 0 }
    requires index { i < 1024 }
    ensures { E.number result
        ≡ slice_index (form_values E.T E.LANES differences width reference bytes.now) i }
{
    if differences {
        E::value_of_sums(&bytes[..128], &bytes[128..], width, i)
    } else {
        E::value_of_frame(bytes, width, E::of_number(reference), i)
    }
}

/// Returns bounds of all values that `read_form` reads, from the header and the bases.
#[inline(always)]
fn bounds_of_form<E: Stored>(
    differences: bool,
    width: usize,
    reference: u64,
    bytes: &[u8],
) -> (E, E)
    requires { IsBlock E.T differences width reference bytes.now 0 }
    ensures least { E.number result.0
        ≡ head_least E.T (form_head E.T differences width reference bytes.now) }
    ensures greatest { E.number result.1
        ≡ head_greatest E.T (form_head E.T differences width reference bytes.now) }
    // In a FOR block the first is less than the reference if the sum is not below 2^T.
    ensures sum { differences ≡ false → reference ≤ E.number result.0 → reference + 2 ^ width ≤ 2 ^ E.T }
{
    if differences {
        bounds_of_sums(&bytes[..128], width)
    } else {
        bounds_of_frame(width, E::of_number(reference))
    }
}

/// Sets the bits of a block's 1024 values that satisfy the comparison, and clears all others. Returns whether `value` is outside of
/// the bounds by the header and the bases: then the packed words are not read.
fn filter_form<E: Stored>(
    differences: bool,
    width: usize,
    reference: u64,
    bytes: &[u8],
    comparison: Comparison,
    value: E,
    mask: &mut [u64; 16],
) -> bool
    requires { IsBlock E.T differences width reference bytes.now 0 }
    ensures mask { IsMask (holds_of comparison (E.number value))
        (form_values E.T E.LANES differences width reference bytes.now) mask.new }
    ensures told { result
        ≡ head_tells E.T (form_head E.T differences width reference bytes.now) (E.number value) }
{
    let (least, greatest) = bounds_of_form(differences, width, reference, bytes);
    if filter_between(least, greatest, comparison, value, mask) {
        return true;
    }
    let first = E::of_number(reference);
    // Digits that come to 2^T beside the reference begin again at 0: where they may, all values are read.
    if !differences && !least.less(first) {
        E::filter_digits(bytes, width, first, comparison, value, mask);
        return false;
    }
    let mut whole = [E::zero(); 1024];
    read_form(differences, width, reference, bytes, &mut whole);
    E::filter_values(&whole, comparison, value, mask);
    false
}
