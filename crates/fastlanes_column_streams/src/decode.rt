//! A column from a source, as values to a sink.

ghost use Rattle.std.specs.Prelude.{◌≡◌, ℕ, ◌+◌, ◌*◌, ◌/◌, ◌<◌, ◌≤◌, [], ◌⊎◌, Bool, IfErr, IfOk, OnOk, length, take};
ghost use Rattle.fastlanes_format.specs.Format.{IsPage, longest_page, values_of};
ghost use Rattle.fastlanes_pages.specs.Shortest.{page_most};
ghost use Rattle.fastlanes_column_streams.specs.Failures.{failed_reads, failed_writes};
ghost use Rattle.fastlanes_column_streams.specs.Pages.{Decodes, WritesValues};
ghost use Rattle.fastlanes_column_streams.specs.Refusals.{AreBytes, AreNoPages, IsDecodeError, RefusesPages};

use crate::error::StreamError;
use crate::next::{PAGES_MOST, next_page};
use crate::transfer::{deliver, finish};
use fastlanes_format::Next;
use fastlanes_pages::{Stored, read_page};
use fastlanes_streams::{ByteIn, ByteOut};

/// Writes the bytes of a page's values. The page stands at the start of `bytes`, and `values` is for as many values as it has.
fn decode_page<E: Stored, O: ByteOut>(
    output: &mut O,
    len: usize,
    bytes: &mut [u8],
    values: &mut [E],
) -> Result<(), StreamError>
    requires failures { O.failures output.old < u32.MAX }
    requires inside { len ≤ length bytes.old }
    requires page { (checked : Bool) × IsPage E.T checked (take len bytes.old) }
    requires values { length values.old ≡ values_of (take len bytes.old) }
    requires room { length values.old * (E.T / 8) ≤ length bytes.old }
    ensures only_write_failed { IfErr result (λ e. e ≡ StreamError.WriteFailed) }
    ensures failed_writes { O.failures output.new ≡ O.failures output.old + failed_writes result }
    ensures values { O.tells → (checked : Bool) → IsPage E.T checked (take len bytes.old)
        → OnOk result (WritesValues E.T E.LANES checked (take len bytes.old)
        (O.sink output.old) (O.sink output.new)) }
{
    read_page(&bytes[..len], values);
    let end = E::write_words(values, bytes);
    deliver(output, &bytes[..end])
}

/// Reads what follows the head of a column, a page at a time, and writes the bytes of its values, and flushes. Answers how many values
/// they are.
pub fn decode_stream<E: Stored, I: ByteIn, O: ByteOut>(
    input: &mut I,
    output: &mut O,
    checked: bool,
    bytes: &mut [u8],
    values: &mut [E],
) -> Result<u64, StreamError>
    requires input { I.failures input.old < u32.MAX }
    requires output { O.failures output.old < u32.MAX }
    requires values { length values.old ≡ 65536 }
    requires room { page_most E.T 65536 ≤ length bytes.old }
    ensures failed_reads { I.failures input.new ≡ I.failures input.old + failed_reads result }
    ensures failed_writes { O.failures output.new ≡ O.failures output.old + failed_writes result }
    ensures decodes { I.tells → O.tells → IfOk result (λ count. Decodes E.T E.LANES checked count
        (I.source input.old) (I.source input.new) (O.sink output.old) (O.sink output.new)) }
    ensures errors { IfErr result (λ e. IsDecodeError e) }
    // It refuses only what is not pages and the end, and a page for which there is no room.
    ensures refuses { I.tells → IfErr result (λ e. RefusesPages e
        (AreNoPages E.T checked 0 (I.source input.old).left ⊎ (length bytes.old < longest_page E.T))
        (AreBytes (I.source input.old).left → AreNoPages E.T checked 0 (I.source input.old).left)) }
{
    let mut done = 0u128;
    let mut place = 8usize;
    // Behind all pages stands the end.
    'pages: for _ in 0..PAGES_MOST + 1 {
        match next_page(input, E::T, checked, done, place, bytes)? {
            Next::End(all) => {
                finish(output, &[])?;
                return Ok(all);
            }
            Next::Page(len, count) => {
                decode_page(output, len, bytes, &mut values[..count])?;
                place = place.saturating_add(len);
                done += count as u128;
            }
        }
    }
    // The end of a column cannot count them.
    Err(StreamError::TooMany)
}
