//! What is in a column, as text.

ghost use Rattle.std.specs.Prelude.{◌≡◌, ◌+◌, ◌<◌, ◌≤◌, IfErr, OnOk, length};
ghost use Rattle.fastlanes_format.specs.Format.{IsElementSize};
ghost use Rattle.flcolumn.specs.Failures.{CountFailures, MayFail, failed_reads, failed_writes};
ghost use Rattle.flcolumn.specs.Stops.{GivesFromHead, GivesSome, StopsWhereMemory};

use crate::failure::Failure;
use crate::streams::Streams;
use crate::summary::Summary;
use fastlanes_column_streams::{
    ColumnHead, Next, PAGES_MOST, StreamError, finish, next_page, page_room, read_head,
};
use fastlanes_streams::{ByteIn, ByteOut};
use std::alloc::Global;

impl<I: ByteIn, O: ByteOut> Streams<I, O> {
    /// Reads a column, and writes what is in it as text.
    pub(crate) fn info(&mut self, alloc: Global) -> Result<(), Failure>
        requires { MayFail I.failures O.failures self.old }
        ensures failures { CountFailures I.failures O.failures result self.old self.new }
        // Memory runs out behind the head of a column, before anything is written.
        ensures stops { I.tells → IfErr result (StopsWhereMemory (GivesFromHead
            (I.source self.old.input) (I.source self.new.input)
            × (O.sink self.new.output ≡ O.sink self.old.output))) }
    {
        let summary = summarize(alloc, &mut self.input)?;
        let text = summary.text(alloc)?;
        Ok(finish(&mut self.output, text.as_bytes())?)
    }
}

/// Reads a column, and returns what is in it.
fn summarize<I: ByteIn>(alloc: Global, input: &mut I) -> Result<Summary, Failure>
    requires { I.failures input.old < u32.MAX }
    ensures failed_reads { I.failures input.new ≡ I.failures input.old + failed_reads result }
    ensures no_write { failed_writes result ≡ 0 }
    ensures gives { I.tells → OnOk result (GivesFromHead (I.source input.old) (I.source input.new)) }
    ensures stops { I.tells → IfErr result
        (StopsWhereMemory (GivesFromHead (I.source input.old) (I.source input.new))) }
{
    let head = read_head(input)?;
    let mut bytes = vec![in alloc; 0u8; page_room(head.bits)]?;
    summarize_pages(head, input, bytes.as_mut_slice())
}

/// Reads the pages behind the head of a column, and returns what is in it. Does not allocate.
fn summarize_pages<I: ByteIn>(
    head: ColumnHead,
    input: &mut I,
    bytes: &mut [u8],
) -> Result<Summary, Failure>
    requires failures { I.failures input.old < u32.MAX }
    requires size { IsElementSize head.bits }
    requires room { 24 ≤ length bytes.old }
    ensures failed_reads { I.failures input.new ≡ I.failures input.old + failed_reads result }
    ensures no_write { failed_writes result ≡ 0 }
    ensures gives { I.tells → OnOk result (GivesSome (I.source input.old) (I.source input.new)) }
    ensures never_no_memory { IfErr result (StopsWhereMemory ⊥) }
{
    let mut summary = Summary::new(head);
    let mut done = 0u128;
    let mut place = 8usize;
    // After all pages comes the end.
    'pages: for _ in 0..PAGES_MOST + 1 {
        match next_page(input, head.bits, head.checked, done, place, bytes)? {
            Next::End(_) => return Ok(summary),
            Next::Page(len, count) => {
                summary.add_page(&bytes[..len], count);
                place = place.saturating_add(len);
                done += count as u128;
            }
        }
    }
    Err(Failure::Stream(StreamError::TooMany))
}
