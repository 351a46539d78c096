//! Blocks and pages that are written.

ghost use Rattle.std.specs.Prelude.{◌≡◌, ℕ, ◌+◌, ◌*◌, ◌/◌, ◌^◌, ◌<◌, ◌≤◌, All, List, drop, false, if◌then◌else◌, length, map, slice_range, take, true};
ghost use Rattle.fastlanes_bytes.specs.Bytes.{HasWords};
ghost use Rattle.fastlanes_column.specs.LeastWidth.{IsLeastWidth};
ghost use Rattle.fastlanes_format.specs.Format.{AreColumn, IsBlockHead, IsColumnHead, block_bytes, block_place, blocks_of, form_of, page_bytes, reference_of, values_of, width_of};
ghost use Rattle.fastlanes_pages.specs.ColumnValues.{column_values};
ghost use Rattle.fastlanes_pages.specs.Encoded.{HaveShortestBlocks, column_most, page_part, pages_most};
ghost use Rattle.fastlanes_pages.specs.Heads.{TellMinimum, column_blocks};
ghost use Rattle.fastlanes_pages.specs.Shortest.{FitsForm, HasShortestBlocks, IsShortest, filled_block, lane_deltas, own_bases, own_deltas, page_most};
ghost use Rattle.fastlanes_pages.specs.Values.{AreDifferences, BeginsBlock, HoldsBlock, HoldsPage, HoldsPages, IsFrame, IsNextPlace, PutsBlock, block_part};

use crate::element::Stored;
use fastlanes::{Delta, FastLanes};
use fastlanes_base::MachineWord;
use fastlanes_bytes::{WordBytes, write_words};
use fastlanes_column::{delta_bases, delta_width, delta_write};
use fastlanes_format::{put_block_head, put_column_head, put_end, put_values, seal_page};

/// Writes the bytes of words, of which there are as many as bytes to write.
pub(crate) fn put_words<E: WordBytes>(words: &[E], bytes: &mut [u8])
    requires { length bytes.old ≡ length words.now * (E.T / 8) }
    ensures { HasWords E.T (length words.now) (map E.number words.now) bytes.new }
{
    write_words(words, bytes);
}

/// Writes what stands before each lane of a block. Before its first value stands that value itself.
fn put_bases<E: Delta<LANES>, const LANES: usize>(block: &[E; 1024], bases: &mut [E; LANES])
    requires lanes { LANES ≡ E.LANES }
    ensures { map E.number bases.new ≡ own_bases E.LANES (map E.number block.now) }
{
    delta_bases(block[0], block, bases);
}

/// The least width that holds the differences of a block's neighbours.
pub(crate) fn differences_width<E: FastLanes>(block: &[E; 1024]) -> usize
    ensures lanes { IsLeastWidth result (lane_deltas E.T E.LANES (map E.number block.now)) }
    ensures neighbours { IsLeastWidth result (own_deltas E.T (map E.number block.now)) }
    ensures fits { result ≤ E.T }
{
    delta_width(block[0], block)
}

/// Writes the bytes of a block's bases, and those of the differences of its neighbours, each of at most so many bits.
pub(crate) fn write_differences<E: Delta<LANES> + WordBytes, const LANES: usize>(
    block: &[E; 1024],
    width: usize,
    before: &mut [u8],
    bytes: &mut [u8],
)
    requires lanes { LANES ≡ E.LANES }
    requires width { width ≤ E.T }
    requires before { length before.old ≡ 128 }
    requires bytes { length bytes.old ≡ 128 * width }
    requires near { All (λ x. x < 2 ^ width) (lane_deltas E.T E.LANES (map E.number block.now)) }
    ensures sums { AreDifferences E.T E.LANES width before.new bytes.new (map E.number block.now) }
    ensures bases { HasWords E.T E.LANES (own_bases E.LANES (map E.number block.now)) before.new }
{
    let mut bases = [E::zero(); LANES];
    put_bases(block, &mut bases);
    put_words(&bases, before);
    let mut words = [E::zero(); 1024];
    let words = &mut words[..E::LANES * width];
    delta_write(width, block, &bases, words);
    put_words(words, bytes);
}

/// A form of a block: the differences of its neighbours, or a frame above a reference, each value in so many bits.
#[derive(Clone, Copy)]
struct Form<E> {
    differences: bool,
    width: usize,
    reference: E,
}

/// Writes the bytes of a block in a form.
#[inline(always)]
fn write_form<E: Stored>(block: &[E; 1024], form: Form<E>, bytes: &mut [u8])
    requires fits { FitsForm E.T E.LANES form.differences form.width (E.number form.reference)
        (map E.number block.now) }
    requires bytes { length bytes.old ≡ 128 * ((if form.differences then 1 else 0) + form.width) }
    ensures frame { form.differences ≡ false
        → IsFrame E.T E.LANES form.width (E.number form.reference) bytes.new
        (map E.number block.now) }
    ensures sums { form.differences ≡ true
        → AreDifferences E.T E.LANES form.width (take 128 bytes.new) (drop 128 bytes.new)
        (map E.number block.now) }
    ensures bases { form.differences ≡ true
        → HasWords E.T E.LANES (own_bases E.LANES (map E.number block.now)) (take 128 bytes.new) }
{
    if form.differences {
        let (before, bytes) = bytes.split_at_mut(128);
        E::write_sums(block, form.width, before, bytes);
    } else {
        E::write_frame(block, form.width, form.reference, bytes);
    }
}

/// Writes a block in a form, its bytes from a place on, and answers the place behind them. Where the form is known, no other is
/// in the code.
#[inline(always)]
fn write_block_as<E: Stored>(
    block: &[E; 1024],
    form: Form<E>,
    page: &mut [u8],
    number: usize,
    place: usize,
) -> usize
    requires fits { FitsForm E.T E.LANES form.differences form.width (E.number form.reference)
        (map E.number block.now) }
    requires place { IsNextPlace page.old number place }
    requires room { place + 128 * ((if form.differences then 1 else 0) + form.width) ≤ length page.old }
    ensures put { PutsBlock E.T page.old page.new number place result }
    ensures form { form_of page.new number ≡ (if form.differences then 1 else 0) }
    ensures width { width_of page.new number ≡ form.width }
    ensures reference { reference_of page.new number ≡ E.number form.reference }
    ensures bases { form.differences ≡ true
        → HasWords E.T E.LANES (own_bases E.LANES (map E.number block.now))
        (take 128 (block_bytes page.new number)) }
    ensures holds { HoldsBlock E.T E.LANES page.new number (map E.number block.now) }
{
    let added = form.reference.to_number();
    put_block_head(page, number, form.differences, form.width, place, added);
    let end = place + 128 * (usize::from(form.differences) + form.width);
    write_form(block, form, &mut page[place..end]);
    end
}

/// Writes a block as the shorter of the FOR block at its minimum and the delta block of adjacent values, its bytes from an offset on,
/// and returns the offset behind them. If both are equally long, or if `frames_only` is set, it writes the FOR block.
pub fn write_block<E: Stored>(
    block: &[E; 1024],
    frames_only: bool,
    page: &mut [u8],
    number: usize,
    place: usize,
) -> usize
    requires place { IsNextPlace page.old number place }
    requires room { place + 128 * E.T ≤ length page.old }
    ensures put { PutsBlock E.T page.old page.new number place result }
    ensures most { result ≤ place + 128 * E.T }
    ensures shortest { IsShortest E.T frames_only page.new number (map E.number block.now) }
    ensures holds { HoldsBlock E.T E.LANES page.new number (map E.number block.now) }
{
    let (frame_width, reference) = E::least_frame(block);
    let frame = Form {
        differences: false,
        width: frame_width,
        reference,
    };
    if frames_only {
        return write_block_as(block, frame, page, number, place);
    }
    let width = E::sums_width(block);
    if 1 + width < frame_width {
        let sums = Form {
            differences: true,
            width,
            reference: E::zero(),
        };
        write_block_as(block, sums, page, number, place)
    } else {
        write_block_as(block, frame, page, number, place)
    }
}

/// Writes block `number` of a page's values, its bytes from offset `place` on, and returns the offset after them. Fewer than 1024
/// values are padded with the last one.
fn write_part<E: Stored>(
    values: &[E],
    frames_only: bool,
    page: &mut [u8],
    number: usize,
    place: usize,
) -> usize
    requires some { 1024 * number < length values.now }
    requires place { IsNextPlace page.old number place }
    requires room { place + 128 * E.T ≤ length page.old }
    ensures put { PutsBlock E.T page.old page.new number place result }
    ensures most { result ≤ place + 128 * E.T }
    ensures shortest { IsShortest E.T frames_only page.new number
        (filled_block (map E.number values.now) number) }
    ensures begins { BeginsBlock E.T E.LANES page.new number
        (block_part (map E.number values.now) number) }
{
    match values[1024 * number..].first_chunk::<1024>() {
        Some(block) => write_block(block, frames_only, page, number, place),
        None => write_short_part(values, frames_only, page, number, place),
    }
}

/// Writes block `number` as `write_part` does, through a block of scratch.
fn write_short_part<E: Stored>(
    values: &[E],
    frames_only: bool,
    page: &mut [u8],
    number: usize,
    place: usize,
) -> usize
    requires some { 1024 * number < length values.now }
    requires place { IsNextPlace page.old number place }
    requires room { place + 128 * E.T ≤ length page.old }
    ensures put { PutsBlock E.T page.old page.new number place result }
    ensures most { result ≤ place + 128 * E.T }
    ensures shortest { IsShortest E.T frames_only page.new number
        (filled_block (map E.number values.now) number) }
    ensures begins { BeginsBlock E.T E.LANES page.new number
        (block_part (map E.number values.now) number) }
{
    let part = &values[1024 * number..];
    let count = if part.len() < 1024 { part.len() } else { 1024 };
    let mut block = [part[count - 1]; 1024];
    block[..count].copy_from_slice(&part[..count]);
    write_block(&block, frames_only, page, number, place)
}

/// Writes how many values a page has, and the heads and the bytes of its blocks, and answers the place behind these.
fn write_blocks<E: Stored>(values: &[E], frames_only: bool, page: &mut [u8]) -> usize
    requires some { 0 < length values.now }
    requires most { length values.now ≤ 65536 }
    requires room { page_most E.T (length values.now) ≤ length page.old }
    ensures inside { result ≤ length page.new }
    ensures most { result ≤ page_most E.T (length values.now) }
    ensures count { values_of page.new ≡ length values.now }
    ensures heads { (block : ℕ) → block < blocks_of page.new → IsBlockHead E.T page.new block }
    ensures begin { (block : ℕ) → block < blocks_of page.new
        → BeginsBlock E.T E.LANES page.new block (block_part (map E.number values.now) block) }
    ensures shortest { HasShortestBlocks E.T frames_only page.new (map E.number values.now) }
    ensures end { result ≡ block_place page.new (blocks_of page.new) }
    ensures behind { drop result page.new ≡ drop result page.old }
{
    put_values(page, values.len());
    let blocks = (values.len() + 1023) / 1024;
    let mut place = 16 + 16 * blocks;
    for number in 0..blocks {
        place = write_part(values, frames_only, page, number, place);
    }
    place
}

/// Writes a page of at most 65536 values, whose blocks are as `write_block` writes them, and answers how many bytes it has.
/// The bytes behind it stay.
pub fn write_page<E: Stored>(
    values: &[E],
    frames_only: bool,
    checked: bool,
    output: &mut [u8],
) -> usize
    requires some { 0 < length values.now }
    requires most { length values.now ≤ 65536 }
    requires room { page_most E.T (length values.now) ≤ length output.old }
    ensures inside { result ≤ length output.new }
    ensures most { result ≤ page_most E.T (length values.now) }
    ensures page { HoldsPage E.T E.LANES checked (take result output.new)
        (map E.number values.now) }
    ensures shortest { HasShortestBlocks E.T frames_only (take result output.new)
        (map E.number values.now) }
    ensures behind { drop result output.new ≡ drop result output.old }
{
    let end = write_blocks(values, frames_only, output);
    seal_page(&mut output[..end], checked);
    end
}

/// The values of the page of this number.
fn values_of_page<E: MachineWord>(values: &[E], page: usize) -> &[E]
    requires { 65536 * page < length values.now }
    ensures part { result.now ≡ page_part values.now page }
    ensures some { 0 < length result.now }
    ensures most { length result.now ≤ 65536 }
{
    let rest = &values[65536 * page..];
    if rest.len() < 65536 {
        rest
    } else {
        &rest[..65536]
    }
}

/// Writes the page of this number of a column, of 65536 values or what is left of them, from a place on, and answers the
/// place behind it.
fn write_page_at<E: Stored>(
    values: &[E],
    page: usize,
    frames_only: bool,
    checked: bool,
    output: &mut [u8],
    place: usize,
) -> usize
    requires some { 65536 * page < length values.now }
    requires room { place + page_most E.T (length (page_part values.now page)) ≤ length output.old }
    ensures inside { result ≤ length output.new }
    ensures behind_place { place ≤ result }
    ensures most { result ≤ place + page_most E.T (length (page_part values.now page)) }
    ensures before { take place output.new ≡ take place output.old }
    ensures page { HoldsPage E.T E.LANES checked (slice_range output.new place result)
        (page_part (map E.number values.now) page) }
    ensures shortest { HasShortestBlocks E.T frames_only (slice_range output.new place result)
        (page_part (map E.number values.now) page) }
    ensures behind { drop result output.new ≡ drop result output.old }
{
    let part = values_of_page(values, page);
    place + write_page(part, frames_only, checked, &mut output[place..])
}

/// Writes the pages and the end of a column, and answers how many bytes these have.
fn write_pages<E: Stored>(
    values: &[E],
    frames_only: bool,
    checked: bool,
    output: &mut [u8],
) -> usize
    requires { pages_most E.T (length values.now) + 24 ≤ length output.old }
    ensures inside { result ≤ length output.new }
    ensures most { result ≤ pages_most E.T (length values.now) + 24 }
    ensures pages { (pages : List (List ℕ))
        × HoldsPages E.T E.LANES checked 0 pages (take result output.new) (map E.number values.now)
        × HaveShortestBlocks E.T frames_only pages (map E.number values.now) }
    ensures behind { drop result output.new ≡ drop result output.old }
{
    let mut place = 0;
    for page in 0..(values.len() + 65535) / 65536 {
        place = write_page_at(values, page, frames_only, checked, output, place);
    }
    put_end(&mut output[place..], values.len() as u64, checked);
    place + 24
}

/// How many bytes a column of so many values has at most.
pub fn encoded_most<E: Stored>(values: usize) -> usize
    requires { values < 2 ^ 60 }
    ensures { result ≡ column_most E.T values }
{
    32 + (16 * ((values + 65535) / 65536) + (values + 1023) / 1024 * (16 + 128 * E::T))
}

/// Writes a column: its head, pages of 65536 values, whose blocks are as `write_block` writes them, and the end. Answers how
/// many bytes these are. The bytes behind them stay.
pub fn encode<E: Stored>(values: &[E], frames_only: bool, checked: bool, output: &mut [u8]) -> usize
    requires room { column_most E.T (length values.now) ≤ length output.old }
    ensures inside { result ≤ length output.new }
    ensures most { result ≤ column_most E.T (length values.now) }
    ensures head { IsColumnHead E.T checked (take 8 output.new) }
    ensures is { AreColumn E.T (take result output.new) }
    ensures values { column_values E.T E.LANES (take result output.new) ≡ map E.number values.now }
    ensures shortest { (page : ℕ) → 65536 * page < length values.now
        → HasShortestBlocks E.T frames_only (page_bytes (take result output.new) page)
        (page_part (map E.number values.now) page) }
    // From the headers of FOR blocks alone: the minimum of the values, which `Column::bounds` returns.
    ensures minimum { frames_only ≡ true → 0 < length values.now
        → TellMinimum E.T (take result output.new)
        (column_blocks E.T E.LANES (take result output.new)) (map E.number values.now) }
    ensures behind { drop result output.new ≡ drop result output.old }
{
    put_column_head(output, E::T as u8, checked);
    8 + write_pages(values, frames_only, checked, &mut output[8..])
}
