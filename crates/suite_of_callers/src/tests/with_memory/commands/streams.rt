//! Sources and sinks that count their calls and fail where they are told to.

ghost use Rattle.std.specs.Prelude.{◌≡◌, ◌≤◌, []};
ghost use Rattle.fastlanes_streams.specs.Slices.{slice_failures};

use crate::tests::with_memory::commands::bytes::assert_number;
use flblock::slice_in::SliceIn;
use flblock::slice_out::SliceOut;
use flblock::stream::{ByteIn, ByteOut, Failed};
use std::process::Abort;

/// A source that gives one byte a call, counts its calls, and fails at one of them and where it is asked for no bytes.
#[derive(Drop)]
pub(crate) struct SlowIn<'a> {
    input: SliceIn<'a>,
    reads: u32,
    failing_read: u32,
    failures: u32,
}

impl<'a> SlowIn<'a> {
    /// The read of this number fails: the first is 1, and at 0 none fails.
    pub(crate) fn new(bytes: &'a [u8], failing_read: u32) -> SlowIn<'a>
        ensures { result.failures ≡ 0 }
    {
        SlowIn {
            input: SliceIn::new(bytes),
            reads: 0,
            failing_read,
            failures: 0,
        }
    }

    /// It gave so many bytes in so many reads, of which so many failed.
    pub(crate) fn assert_counts(&self, rt: &impl Abort, used: usize, reads: usize, failures: u32) {
        assert_number(rt, self.input.used(), used);
        assert_number(rt, self.reads as usize, reads);
        assert_number(rt, self.failures as usize, failures as usize);
    }
}

impl ByteIn for SlowIn<'_> {
    ghost failures = { λ s. s.failures };

    ghost tells = { ⊥ };

    ghost source = { λ s. record { given = []; left = [] } };

    fn read(&mut self, buf: &mut [u8]) -> Result<usize, Failed> {
        self.reads = self.reads.saturating_add(1);
        if buf.is_empty() || self.reads == self.failing_read {
            self.failures += 1;
            return Err(Failed);
        }
        self.input.read(&mut buf[..1])
    }

    fn failures(&self) -> u32 {
        self.failures
    }
}

/// A sink that takes at most so many bytes a call, counts its calls, and fails at one of them and where no bytes come.
#[derive(Drop)]
pub(crate) struct CountingOut<'a> {
    output: SliceOut<'a>,
    most: usize,
    writes: u32,
    flushes: u32,
    /// The number of the write that fails: the first is 1, and at 0 none fails.
    pub(crate) failing_write: u32,
    pub(crate) flush_fails: bool,
    failures: u32,
    // A write that finds the slice full counts here too.
    ghost counted: { slice_failures output ≤ failures },
}

impl<'a> CountingOut<'a> {
    /// No call fails.
    pub(crate) fn new(bytes: &'a mut [u8], most: usize) -> CountingOut<'a>
        ensures { result.failures ≡ 0 }
    {
        CountingOut {
            output: SliceOut::new(bytes),
            most,
            writes: 0,
            flushes: 0,
            failing_write: 0,
            flush_fails: false,
            failures: 0,
        }
    }

    /// It took so many bytes in so many writes, and was flushed so often; so many of these calls failed.
    pub(crate) fn assert_counts(
        &self,
        rt: &impl Abort,
        used: usize,
        writes: u32,
        flushes: u32,
        failures: u32,
    ) {
        assert_number(rt, self.output.used(), used);
        assert_number(rt, self.writes as usize, writes as usize);
        assert_number(rt, self.flushes as usize, flushes as usize);
        assert_number(rt, self.failures as usize, failures as usize);
    }
}

impl ByteOut for CountingOut<'_> {
    ghost failures = { λ s. s.failures };

    ghost tells = { ⊥ };

    ghost sink = { λ s. record { taken = []; flushed = 0; left = []; target = 0 } };

    fn write(&mut self, bytes: &[u8]) -> Result<usize, Failed> {
        self.writes = self.writes.saturating_add(1);
        let part = &bytes[..bytes.len().min(self.most)];
        if !part.is_empty() && self.writes != self.failing_write {
            if let Ok(count) = self.output.write(part) {
                return Ok(count);
            }
        }
        self.failures += 1;
        Err(Failed)
    }

    fn flush(&mut self) -> Result<(), Failed> {
        self.flushes = self.flushes.saturating_add(1);
        if self.flush_fails {
            self.failures += 1;
            return Err(Failed);
        }
        Ok(())
    }

    fn failures(&self) -> u32 {
        self.failures
    }
}
