//! What is written around the values of a page: the heads of its blocks, its own head, and the end of a column.

ghost use Rattle.std.specs.Prelude.{◌≡◌, ◌+◌, ◌≤◌, ◌^◌, ◌<◌, drop, if◌then◌else◌, length, take};
ghost use Rattle.fastlanes_format.specs.Format.{IsEnd, form_of, head_of, number_at, page_checksum, reference_of, values_of, width_of};

use crate::numbers::{put_eight, put_four};
use crate::pages::checksum_of;

/// Puts the head of a block: whether it has the differences of neighbours or is a frame, how many bits each value is packed
/// to, where its bytes begin, and what is added to each digit of a frame.
pub fn put_block_head(
    page: &mut [u8],
    block: usize,
    differences: bool,
    width: usize,
    place: usize,
    reference: u64,
)
    requires inside { head_of (block + 1) ≤ length page.old }
    requires width { width < 256 }
    requires place { place < 2 ^ 32 }
    ensures form { form_of page.new block ≡ (if differences then 1 else 0) }
    ensures width { width_of page.new block ≡ width }
    ensures spare { number_at 2 page.new (head_of block + 2) ≡ 0 }
    ensures place { number_at 4 page.new (head_of block + 4) ≡ place }
    ensures reference { reference_of page.new block ≡ reference }
    ensures before { take (head_of block) page.new ≡ take (head_of block) page.old }
    ensures behind { drop (head_of (block + 1)) page.new ≡ drop (head_of (block + 1)) page.old }
{
    let head = 16 + 16 * block;
    page[head] = u8::from(differences);
    page[head + 1] = width as u8;
    page[head + 2] = 0;
    page[head + 3] = 0;
    put_four(page, head + 4, place as u32);
    put_eight(page, head + 8, reference);
}

/// Puts how many values a page has.
pub fn put_values(page: &mut [u8], values: usize)
    requires inside { 8 ≤ length page.old }
    requires values { values < 2 ^ 32 }
    ensures values { values_of page.new ≡ values }
    ensures before { take 4 page.new ≡ take 4 page.old }
    ensures behind { drop 8 page.new ≡ drop 8 page.old }
{
    put_four(page, 4, values as u32);
}

/// Puts what the head of a page says of all its bytes: how many these are, and their checksum.
pub fn seal_page(page: &mut [u8], checked: bool)
    requires head { 16 ≤ length page.old }
    requires most { length page.old < 16 + 2 ^ 32 }
    ensures len { length page.new ≡ 16 + number_at 4 page.new 8 }
    ensures spare { number_at 4 page.new 12 ≡ 0 }
    ensures check { number_at 4 page.new 0 ≡ page_checksum checked page.new }
    ensures values { values_of page.new ≡ values_of page.old }
    ensures behind { drop 16 page.new ≡ drop 16 page.old }
{
    let behind = page.len() - 16;
    put_four(page, 8, behind as u32);
    put_four(page, 12, 0);
    let check = checksum_of(page, checked);
    put_four(page, 0, check);
}

/// Puts the end of a column of so many values, of 24 bytes.
pub fn put_end(bytes: &mut [u8], values: u64, checked: bool)
    requires { 24 ≤ length bytes.old }
    ensures end { IsEnd checked values (take 24 bytes.new) }
    ensures behind { drop 24 bytes.new ≡ drop 24 bytes.old }
{
    let end = &mut bytes[..24];
    put_four(end, 4, 0);
    put_eight(end, 16, values);
    seal_page(end, checked);
}
