//! Values from a source, as a column to a sink.

ghost use Rattle.std.specs.Prelude.{◌≡◌, ◌≢◌, ◌+◌, ◌*◌, ◌/◌, ◌%◌, ◌<◌, ◌≤◌, [], Err, IfErr, IfNone, IfOk, IfSome, OnOk, length, take};
ghost use Rattle.fastlanes_pages.specs.Shortest.{page_most};
ghost use Rattle.fastlanes_column_streams.specs.Failures.{failed_reads, failed_writes};
ghost use Rattle.fastlanes_column_streams.specs.Pages.{Encodes, EncodesNext, WritesPage};
ghost use Rattle.fastlanes_column_streams.specs.Refusals.{IsEncodeError, StopsEncoding, StopsPage};

use crate::error::StreamError;
use crate::next::PAGES_MOST;
use crate::options::Options;
use crate::transfer::{deliver, fill, finish};
use fastlanes_format::{put_column_head, put_end};
use fastlanes_pages::{Stored, write_page};
use fastlanes_streams::{ByteIn, ByteOut};

/// Writes a page of the values whose bytes stand at the start of `bytes`, as many as `values` has.
fn encode_page<E: Stored, O: ByteOut>(
    output: &mut O,
    options: Options,
    filled: usize,
    bytes: &mut [u8],
    values: &mut [E],
) -> Result<(), StreamError>
    requires failures { O.failures output.old < u32.MAX }
    requires filled { filled ≡ length values.old * (E.T / 8) }
    requires inside { filled ≤ length bytes.old }
    requires some { 0 < length values.old }
    requires most { length values.old ≤ 65536 }
    requires room { page_most E.T (length values.old) ≤ length bytes.old }
    ensures only_write_failed { IfErr result (λ e. e ≡ StreamError.WriteFailed) }
    ensures failed_writes { O.failures output.new ≡ O.failures output.old + failed_writes result }
    ensures page { O.tells → OnOk result (WritesPage E.T E.LANES options.frames_only options.checked (length values.old)
        (take filled bytes.old) (O.sink output.old) (O.sink output.new)) }
{
    E::read_words(&bytes[..filled], values);
    let len = write_page(values, options.frames_only, options.checked, bytes);
    deliver(output, &bytes[..len])
}

/// How many values so many bytes are, where these are whole.
fn whole_values<E: Stored>(bytes: usize) -> Option<usize>
    ensures some { IfSome result (λ count. bytes ≡ count * (E.T / 8)) }
    ensures none { IfNone result (bytes % (E.T / 8) ≢ 0) }
{
    let size = E::T / 8;
    if bytes % size == 0 {
        Some(bytes / size)
    } else {
        None
    }
}

/// Reads the values of the next page, and writes it where there are some. Answers how many they are.
fn encode_next<E: Stored, I: ByteIn, O: ByteOut>(
    input: &mut I,
    output: &mut O,
    options: Options,
    place: usize,
    bytes: &mut [u8],
    values: &mut [E],
) -> Result<usize, StreamError>
    requires input { I.failures input.old < u32.MAX }
    requires output { O.failures output.old < u32.MAX }
    requires values { length values.old ≡ 65536 }
    requires room { page_most E.T 65536 ≤ length bytes.old }
    ensures failed_reads { I.failures input.new ≡ I.failures input.old + failed_reads result }
    ensures failed_writes { O.failures output.new ≡ O.failures output.old + failed_writes result }
    ensures most { IfOk result (λ count. count ≤ 65536) }
    ensures encodes { I.tells → O.tells → IfOk result (λ count.
        EncodesNext E.T E.LANES options.frames_only options.checked count
        (I.source input.old) (I.source input.new) (O.sink output.old) (O.sink output.new)) }
    ensures count { I.tells → IfOk result (λ count. length (I.source input.old).left
        ≡ count * (E.T / 8) + length (I.source input.new).left) }
    ensures ended { I.tells → IfOk result (λ count.
        count < 65536 → (I.source input.new).left ≡ []) }
    ensures stops { I.tells → IfErr result (λ e.
        StopsPage (E.T / 8) place (I.source input.old).left e) }
    ensures errors { IfErr result (λ e. IsEncodeError e × (e ≢ StreamError.TooMany)) }
{
    let filled = fill(input, &mut bytes[..65536 * (E::T / 8)])?;
    let Some(count) = whole_values::<E>(filled) else {
        return Err(StreamError::ShortValue(place.saturating_add(filled)));
    };
    if count > 0 {
        encode_page(output, options, filled, bytes, &mut values[..count])?;
    }
    Ok(count)
}

/// Reads all values that the source has, a page at a time, and writes a column of them, its end too, and flushes. Answers how many
/// values they are.
pub fn encode_stream<E: Stored, I: ByteIn, O: ByteOut>(
    input: &mut I,
    output: &mut O,
    options: Options,
    bytes: &mut [u8],
    values: &mut [E],
) -> Result<u64, StreamError>
    requires input { I.failures input.old < u32.MAX }
    requires output { O.failures output.old < u32.MAX }
    requires values { length values.old ≡ 65536 }
    requires room { page_most E.T 65536 ≤ length bytes.old }
    ensures failed_reads { I.failures input.new ≡ I.failures input.old + failed_reads result }
    ensures failed_writes { O.failures output.new ≡ O.failures output.old + failed_writes result }
    ensures encodes { I.tells → O.tells → OnOk result (Encodes E.T E.LANES options.frames_only options.checked
        (I.source input.old) (I.source input.new) (O.sink output.old) (O.sink output.new)) }
    // It returns how many values the source had.
    ensures count { I.tells → IfOk result (λ count.
        count * (E.T / 8) ≡ length (I.source input.old).left) }
    ensures errors { IfErr result (λ e. IsEncodeError e) }
    // The bytes are not whole values, or there are more values than the end of a column can count.
    ensures stops { I.tells → IfErr result (λ e.
        StopsEncoding (E.T / 8) (I.source input.old).left e) }
{
    put_column_head(bytes, E::T as u8, options.checked);
    deliver(output, &bytes[..8])?;
    let mut place = 0usize;
    'pages: for page in 0..PAGES_MOST {
        let count = encode_next(input, output, options, place, bytes, values)?;
        if count < 65536 {
            let done = 65536 * page + count as u64;
            put_end(bytes, done, options.checked);
            finish(output, &bytes[..24])?;
            return Ok(done);
        }
        place = place.saturating_add(65536 * (E::T / 8));
    }
    // The end of a column cannot count them.
    Err(StreamError::TooMany)
}
