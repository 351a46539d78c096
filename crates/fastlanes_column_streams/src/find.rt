//! Single values of a column from a source.

ghost use Rattle.std.specs.Prelude.{◌≡◌, ◌≢◌, ℕ, ◌+◌, ◌<◌, ◌≤◌, ◌⊎◌, Bool, Err, IfErr, IfNone, IfOk, IfSome, length, map};
ghost use Rattle.fastlanes_format.specs.Format.{IsPage, longest_page, values_of};
ghost use Rattle.fastlanes_column_streams.specs.Failures.{failed_reads};
ghost use Rattle.fastlanes_column_streams.specs.Refusals.{AreBytes, AreNoPages, IsFindError, RefusesPages};
ghost use Rattle.fastlanes_column_streams.specs.Single.{Finds, Picks, PicksEach, PicksPage};

use crate::error::StreamError;
use crate::next::{PAGES_MOST, next_page};
use fastlanes_format::Next;
use fastlanes_pages::{Stored, read_page};
use fastlanes_streams::ByteIn;

/// Which of so many values, behind so many others, has this number.
fn index_of(number: u64, before: u128, count: usize) -> Option<usize>
    ensures some { IfSome result (λ index. (number ≡ before + index) × (index < count)) }
    ensures none { IfNone result (before ≤ number → before + count ≤ number) }
{
    let index = u128::from(number).checked_sub(before)?;
    if index < count as u128 {
        Some(index as usize)
    } else {
        None
    }
}

/// The value of this number among these, which stand behind so many others, or where there is none the old one.
fn pick_one<E: Stored>(values: &[E], before: u128, number: u64, old: u64) -> u64
    ensures { Picks before (map E.number values.now) number old result }
{
    match index_of(number, before, values.len()) {
        Some(index) => values[index].to_number(),
        None => old,
    }
}

/// Finds those of these values, which stand behind so many others, that have the numbers. What has none stays.
fn pick<E: Stored>(values: &[E], before: u128, numbers: &[u64], found: &mut [u64])
    requires { length found.old ≡ length numbers.now }
    ensures length { length found.new ≡ length found.old }
    ensures picks { PicksEach before (map E.number values.now) numbers.now found.old found.new }
{
    for place in 0..numbers.len() {
        found[place] = pick_one(values, before, numbers[place], found[place]);
    }
}

/// Reads a page, and finds those of its values that have the numbers. `values` is for as many values as it has.
fn pick_page<E: Stored>(
    page: &[u8],
    before: u128,
    numbers: &[u64],
    values: &mut [E],
    found: &mut [u64],
)
    requires page { (checked : Bool) × IsPage E.T checked page.now }
    requires values { length values.old ≡ values_of page.now }
    requires found { length found.old ≡ length numbers.now }
    ensures length { length found.new ≡ length found.old }
    ensures picks { (checked : Bool) → IsPage E.T checked page.now
        → PicksPage E.T E.LANES checked before page.now numbers.now found.old found.new }
{
    read_page(page, values);
    pick(values, before, numbers, found);
}

/// Reads what follows the head of a column, a page at a time, and finds the values that have the numbers. Answers how many values the
/// column has: where a number is not below that, there is none of it.
pub fn find_stream<E: Stored, I: ByteIn>(
    input: &mut I,
    checked: bool,
    numbers: &[u64],
    bytes: &mut [u8],
    values: &mut [E],
    found: &mut [u64],
) -> Result<u64, StreamError>
    requires input { I.failures input.old < u32.MAX }
    requires bytes { 24 ≤ length bytes.old }
    requires values { length values.old ≡ 65536 }
    requires found { length found.old ≡ length numbers.now }
    ensures never_write_failed { result ≢ Err StreamError.WriteFailed }
    ensures failed_reads { I.failures input.new ≡ I.failures input.old + failed_reads result }
    ensures length { length found.new ≡ length found.old }
    ensures finds { I.tells → IfOk result (λ count. Finds E.T E.LANES checked count
        (I.source input.old) (I.source input.new) numbers.now found.new) }
    ensures errors { IfErr result (λ e. IsFindError e) }
    // It refuses only what is not pages and the end, and a page for which there is no room.
    ensures refuses { I.tells → IfErr result (λ e. RefusesPages e
        (AreNoPages E.T checked 0 (I.source input.old).left ⊎ (length bytes.old < longest_page E.T))
        (AreBytes (I.source input.old).left → AreNoPages E.T checked 0 (I.source input.old).left)) }
{
    let mut done = 0u128;
    let mut place = 8usize;
    // Behind all pages stands the end.
    'pages: for _ in 0..PAGES_MOST + 1 {
        match next_page(input, E::T, checked, done, place, bytes)? {
            Next::End(all) => return Ok(all),
            Next::Page(len, count) => {
                pick_page(&bytes[..len], done, numbers, &mut values[..count], found);
                place = place.saturating_add(len);
                done += count as u128;
            }
        }
    }
    // The end of a column cannot count them.
    Err(StreamError::TooMany)
}
