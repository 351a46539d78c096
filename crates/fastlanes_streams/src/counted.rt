//! What reads or writes, as a source or a sink: a standard stream, say, or a file. What it holds is not known, so it tells no bytes.

ghost use Rattle.std.specs.Prelude.{◌≡◌, ◌+◌, ◌<◌, [], IsErr};

use crate::stream::{ByteIn, ByteOut, Failed};
use std::io::{Read, Write};

/// A stream, and how many of its calls have failed: each that came back with an error.
#[derive(Drop)]
pub struct Counted<S> {
    stream: S,
    failures: u32,
}

impl<S> Counted<S> {
    ghost use Rattle.fastlanes_streams.specs.Counted.{counted_failures, counted_stream};

    /// The stream, of which no call has failed.
    pub fn new(stream: S) -> Counted<S>
        ensures stream { counted_stream result ≡ stream }
        ensures failures { counted_failures result ≡ 0 }
    {
        Counted {
            stream,
            failures: 0,
        }
    }

    /// Counts a call that failed.
    fn fail<T>(&mut self) -> Result<T, Failed>
        requires { counted_failures self.old < u32.MAX }
        ensures failed { IsErr result }
        ensures counted { counted_failures self.new ≡ counted_failures self.old + 1 }
    {
        self.failures += 1;
        Err(Failed)
    }
}

impl<S: Read> ByteIn for Counted<S> {
    ghost use Rattle.fastlanes_streams.specs.Counted.{counted_failures};

    ghost failures = { counted_failures };

    ghost tells = { ⊥ };

    ghost source = { λ s. record { given = []; left = [] } };

    fn read(&mut self, buf: &mut [u8]) -> Result<usize, Failed> {
        match self.stream.read(buf) {
            Ok(count) => Ok(count),
            Err(_) => self.fail(),
        }
    }

    fn failures(&self) -> u32 {
        self.failures
    }
}

impl<S: Write> ByteOut for Counted<S> {
    ghost use Rattle.fastlanes_streams.specs.Counted.{counted_failures};

    ghost failures = { counted_failures };

    ghost tells = { ⊥ };

    ghost sink = { λ s. record { taken = []; flushed = 0; left = []; target = 0 } };

    /// A write that takes nothing has failed too.
    fn write(&mut self, bytes: &[u8]) -> Result<usize, Failed> {
        match self.stream.write(bytes) {
            Ok(count) if count > 0 => Ok(count),
            _ => self.fail(),
        }
    }

    fn flush(&mut self) -> Result<(), Failed> {
        match self.stream.flush() {
            Ok(()) => Ok(()),
            Err(_) => self.fail(),
        }
    }

    fn failures(&self) -> u32 {
        self.failures
    }
}
