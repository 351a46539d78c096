//! The pages of a column by their numbers.

ghost use Rattle.std.specs.Prelude.{◌≡◌, ℕ, ◌+◌, ◌*◌, ◌<◌, ◌≤◌, ◌/◌, drop, length};
ghost use Rattle.fastlanes_format.specs.Format.{AreColumn, IsPage, count_of, head_len, page_bytes, page_place};
ghost use Rattle.fastlanes_format.specs.Starts.{HasStarts};

use crate::numbers::number_of_four;

/// How many of the places of pages are kept.
pub const STARTS: usize = 256;

/// The place behind the page that begins at a place.
#[inline(always)]
fn place_behind(bytes: &[u8], place: usize) -> usize
    requires { place + head_len (drop place bytes.now) ≤ length bytes.now }
    ensures value { result ≡ place + head_len (drop place bytes.now) }
    ensures within { result ≤ length bytes.now }
{
    place + 16 + number_of_four(&bytes[place..], 8)
}

/// The place of a page, from that of the page so many pages before it.
fn place_after(bytes: &[u8], place: usize, page: usize, count: usize) -> usize
    requires column { (bits : ℕ) × AreColumn bits bytes.now }
    requires place { place ≡ page_place bytes.now page }
    requires there { 65536 * (page + count) < count_of bytes.now }
    ensures { result ≡ page_place bytes.now (page + count) }
{
    let mut at = place;
    for _done in 0..count {
        at = place_behind(bytes, at);
    }
    at
}

/// Notes where pages of a column of so many values begin: all of them, or, where they are more than `STARTS`, each of a number
/// that the answer divides.
pub fn note_starts(bytes: &[u8], values: u64, starts: &mut [usize; 256]) -> usize
    requires column { (bits : ℕ) × AreColumn bits bytes.now }
    requires values { values ≡ count_of bytes.now }
    ensures { HasStarts bytes.now result starts.new }
{
    if values == 0 {
        return 1;
    }
    let last = ((values - 1) / 65536) as usize;
    let stride = last / STARTS + 1;
    let mut place = 8;
    let mut page = 0;
    let mut k = 0;
    'starts: while last - page >= stride {
        starts[k] = place;
        place = place_after(bytes, place, page, stride);
        page += stride;
        k += 1;
    }
    starts[k] = place;
    stride
}

/// Where a page of a column begins, by what was noted.
#[inline(always)]
fn noted_place(bytes: &[u8], starts: &[usize; 256], stride: usize, page: usize) -> usize
    requires column { (bits : ℕ) × AreColumn bits bytes.now }
    requires starts { HasStarts bytes.now stride starts.now }
    requires there { 65536 * page < count_of bytes.now }
    ensures { result ≡ page_place bytes.now page }
{
    if stride == 1 {
        return starts[page];
    }
    let past = page % stride;
    place_after(bytes, starts[page / stride], page - past, past)
}

/// The page of this number of a column, by what was noted.
#[inline(always)]
pub fn page_of<'a>(bytes: &'a [u8], starts: &[usize; 256], stride: usize, page: usize) -> &'a [u8]
    requires column { (bits : ℕ) × AreColumn bits bytes.now }
    requires starts { HasStarts bytes.now stride starts.now }
    requires there { 65536 * page < count_of bytes.now }
    ensures { result.now ≡ page_bytes bytes.now page }
{
    let place = noted_place(bytes, starts, stride, page);
    let end = place_behind(bytes, place);
    &bytes[place..end]
}
