//! Pages, and the heads of their blocks.

ghost use Rattle.std.specs.Prelude.{◌≡◌, ℕ, ◌+◌, ◌*◌, ◌≤◌, ◌<◌, IfErr, IfOk, List, OnErr, OnOk, drop, length, sum_by};
ghost use Rattle.fastlanes_format.specs.Errors.{IsErrorBehind, IsErrorFromEight, block_error, blocks_error, end_error, error_of, length_error, next_error, page_error};
ghost use Rattle.fastlanes_format.specs.Format.{ArePages, IsBlockHead, IsEnd, IsPage, block_len, block_place, blocks_of, head_len, head_of, number_at, page_checksum, values_of};
ghost use Rattle.fastlanes_format.specs.Next.{IsNext};

use crate::flaw::{Flaw, FormatError};
use crate::numbers::{fits, number_of_eight, number_of_four};
use fastlanes_checksum::crc32c;

/// Looks at the head of a block whose bytes begin at a place, and answers how many these are.
fn check_head(page: &[u8], bits: usize, block: usize, place: usize) -> Result<usize, FormatError>
    requires bits { bits ≤ 64 }
    requires inside { head_of block + 16 ≤ length page.now }
    requires place { place ≡ block_place page.now block }
    ensures head { OnOk result (IsBlockHead bits page.now block) }
    ensures len { IfOk result (λ len. len ≡ block_len page.now block) }
    ensures other { OnErr result (¬ (IsBlockHead bits page.now block)) }
    ensures error { error_of result ≡ block_error bits page.now block }
    ensures within { IfErr result (λ e. e.at ≤ length page.now) }
{
    let head = 16 + 16 * block;
    let form = page[head] as usize;
    let width = page[head + 1] as usize;
    if form > 1 {
        return Err(Flaw::Form.at(head));
    }
    if width > bits {
        return Err(Flaw::Width.at(head + 1));
    }
    if page[head + 2] != 0 || page[head + 3] != 0 {
        return Err(Flaw::Spare.at(head + 2));
    }
    if number_of_four(page, head + 4) != place {
        return Err(Flaw::Place.at(head + 4));
    }
    let reference = number_of_eight(page, head + 8);
    if !fits(reference, bits) || form == 1 && reference != 0 {
        return Err(Flaw::Reference.at(head + 8));
    }
    Ok(128 * (form + width))
}

/// Looks at the heads of a page's blocks, and answers where the last block ends.
fn check_heads(page: &[u8], bits: usize, blocks: usize) -> Result<usize, FormatError>
    requires bits { bits ≤ 64 }
    requires blocks { blocks ≡ blocks_of page.now }
    requires most { blocks ≤ 64 }
    requires inside { head_of blocks ≤ length page.now }
    ensures heads { OnOk result ((block : ℕ) → block < blocks → IsBlockHead bits page.now block) }
    ensures end { IfOk result (λ end. end ≡ block_place page.now blocks) }
    ensures other { OnErr result (¬ ((block : ℕ) → block < blocks → IsBlockHead bits page.now block)) }
    ensures error { error_of result ≡ blocks_error bits page.now blocks }
    ensures within { IfErr result (λ e. e.at ≤ length page.now) }
{
    let mut place = 16 + 16 * blocks;
    for block in 0..blocks {
        place += check_head(page, bits, block, place)?;
    }
    Ok(place)
}

/// The checksum of a page, or 0 where pages have none.
pub(crate) fn checksum_of(page: &[u8], checked: bool) -> u32
    requires { 4 ≤ length page.now }
    ensures { result ≡ page_checksum checked page.now }
{
    if checked { crc32c(&page[4..]) } else { 0 }
}

/// Looks at all that a page's head and the heads of its blocks say, and at its checksum, and answers how many values it has.
pub fn check_page(page: &[u8], bits: usize, checked: bool) -> Result<usize, FormatError>
    requires bits { bits ≤ 64 }
    ensures page { OnOk result (IsPage bits checked page.now) }
    ensures values { IfOk result (λ values. values ≡ values_of page.now) }
    ensures other { OnErr result (¬ (IsPage bits checked page.now)) }
    ensures error { error_of result ≡ page_error bits checked page.now }
    ensures within { IfErr result (λ e. e.at ≤ length page.now) }
{
    if page.len() < 16 {
        return Err(Flaw::Cut.at(page.len()));
    }
    let values = number_of_four(page, 4);
    if values == 0 || values > 65536 {
        return Err(Flaw::Values.at(4));
    }
    if number_of_four(page, 8) != page.len() - 16 {
        return Err(Flaw::Length.at(8));
    }
    if number_of_four(page, 12) != 0 {
        return Err(Flaw::Spare.at(12));
    }
    let blocks = (values + 1023) / 1024;
    if page.len() < 16 + 16 * blocks {
        return Err(Flaw::Length.at(8));
    }
    if check_heads(page, bits, blocks)? != page.len() {
        return Err(Flaw::Length.at(8));
    }
    if number_of_four(page, 0) != checksum_of(page, checked) as usize {
        return Err(Flaw::Checksum.at(0));
    }
    Ok(values)
}

/// Returns how many bytes a page or the end declares to have. Fails with `Cut` if they are not all there, and with `Length` if no page is
/// as long.
fn page_len(bytes: &[u8], bits: usize) -> Result<usize, FormatError>
    requires bits { bits ≤ 64 }
    ensures len { IfOk result (λ len. len ≡ 16 + number_at 4 bytes.now 8) }
    ensures inside { IfOk result (λ len. len ≤ length bytes.now) }
    ensures error { error_of result ≡ length_error bits bytes.now }
    ensures within { IfErr result (λ e. e.at ≤ length bytes.now) }
{
    if bytes.len() < 16 {
        return Err(Flaw::Cut.at(bytes.len()));
    }
    let len = 16 + number_of_four(bytes, 8);
    if len > 16 + 64 * (16 + 128 * (bits + 1)) {
        return Err(Flaw::Length.at(8));
    }
    if bytes.len() < len {
        return Err(Flaw::Cut.at(bytes.len()));
    }
    Ok(len)
}

/// Checks the bytes that the end of a column of so many values declares to have, and returns this number.
fn check_end(end: &[u8], values: u128, checked: bool) -> Result<u64, FormatError>
    requires declared { length end.now ≡ head_len end.now }
    requires none { values_of end.now ≡ 0 }
    ensures end { OnOk result (IsEnd checked values end.now) }
    ensures values { IfOk result (λ all. all ≡ values) }
    ensures other { OnErr result (¬ (IsEnd checked values end.now)) }
    ensures error { error_of result ≡ end_error checked values end.now }
    ensures within { IfErr result (λ e. e.at ≤ length end.now) }
{
    if end.len() != 24 {
        return Err(Flaw::Length.at(8));
    }
    if number_of_four(end, 12) != 0 {
        return Err(Flaw::Spare.at(12));
    }
    let all = number_of_eight(end, 16);
    if u128::from(all) != values {
        return Err(Flaw::Total.at(16));
    }
    if number_of_four(end, 0) != checksum_of(end, checked) as usize {
        return Err(Flaw::Checksum.at(0));
    }
    Ok(all)
}

/// What stands at the beginning of bytes.
#[derive(Clone, Copy, PartialEq, Eq, Debug)]
pub enum Next {
    /// The end of a column of so many values.
    End(u64),
    /// A page of so many bytes, and of so many values.
    Page(usize, usize),
}

/// Looks at what follows pages of so many values: another page, or the end.
pub fn check_next(
    bytes: &[u8],
    bits: usize,
    values: u128,
    checked: bool,
) -> Result<Next, FormatError>
    requires bits { bits ≤ 64 }
    ensures next { IfOk result (λ next. IsNext bits checked values bytes.now next) }
    ensures other { OnErr result ((pages : List (List ℕ)) → ¬ (ArePages bits checked values pages bytes.now)) }
    ensures error { error_of result ≡ next_error bits checked values bytes.now }
    ensures within { IfErr result (λ e. e.at ≤ length bytes.now) }
{
    let len = page_len(bytes, bits)?;
    if number_of_four(bytes, 4) == 0 {
        let all = check_end(&bytes[..len], values, checked)?;
        if bytes.len() > len {
            return Err(Flaw::Trailing.at(len));
        }
        return Ok(Next::End(all));
    }
    if values % 65536 != 0 {
        return Err(Flaw::Behind.at(0));
    }
    let count = check_page(&bytes[..len], bits, checked)?;
    Ok(Next::Page(len, count))
}

/// Looks at all pages of a column and at its end, and answers how many values it has.
fn check_pages(bytes: &[u8], bits: usize, checked: bool) -> Result<u64, FormatError>
    requires bits { bits ≤ 64 }
    ensures pages { IfOk result (λ values. (pages : List (List ℕ))
        × ArePages bits checked 0 pages bytes.now × (values ≡ sum_by values_of pages)) }
    ensures other { OnErr result ((pages : List (List ℕ)) → ¬ (ArePages bits checked 0 pages bytes.now)) }
    ensures error { IfErr result (IsErrorBehind bits checked bytes.now) }
    ensures within { IfErr result (λ e. e.at ≤ length bytes.now) }
{
    let mut place = 0;
    let mut values = 0u128;
    'pages: loop {
        match check_next(&bytes[place..], bits, values, checked) {
            Ok(Next::End(all)) => return Ok(all),
            Ok(Next::Page(len, count)) => {
                place += len;
                values += count as u128;
            }
            Err(e) => return Err(e.behind(place)),
        }
    }
}

/// Looks at what stands behind the head of a column: its pages and the end, and answers how many values it has.
pub fn check_behind_head(bytes: &[u8], bits: usize, checked: bool) -> Result<u64, FormatError>
    requires bits { bits ≤ 64 }
    requires head { 8 ≤ length bytes.now }
    ensures pages { IfOk result (λ values. (pages : List (List ℕ))
        × ArePages bits checked 0 pages (drop 8 bytes.now) × (values ≡ sum_by values_of pages)) }
    ensures other { OnErr result ((pages : List (List ℕ)) → ¬ (ArePages bits checked 0 pages (drop 8 bytes.now))) }
    ensures error { IfErr result (IsErrorFromEight bits checked bytes.now) }
    ensures within { IfErr result (λ e. e.at ≤ length bytes.now) }
{
    match check_pages(&bytes[8..], bits, checked) {
        Ok(values) => Ok(values),
        Err(e) => Err(e.behind(8)),
    }
}
