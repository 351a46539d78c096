//! What the program writes. What is done with it is not known, so it tells no bytes.

ghost use Rattle.std.specs.Prelude.{◌≡◌, ◌+◌, ◌<◌, [], IsErr};

use fastlanes_streams::{ByteOut, Failed};
use std::fs::File;
use std::io::{self, Write};
use std::rt::Stdout;

/// Where bytes go.
#[derive(Drop)]
pub(crate) enum Goal {
    Standard(Stdout),
    Named(File),
}

impl Write for Goal {
    fn write(&mut self, buf: &[u8]) -> io::Result<usize> {
        match self {
            Goal::Standard(stream) => stream.write(buf),
            Goal::Named(file) => file.write(buf),
        }
    }

    fn flush(&mut self) -> io::Result<()> {
        match self {
            Goal::Standard(stream) => stream.flush(),
            Goal::Named(file) => file.flush(),
        }
    }
}

/// What the program writes.
#[derive(Drop)]
pub(crate) struct Output {
    goal: Goal,
    /// How many writes and flushes have failed.
    failures: u32,
    /// Why the last of them failed, if the system told it.
    error: Option<io::Error>,
}

impl Output {
    ghost use Rattle.flcolumn_main.specs.Streams.{output_failures, output_goal};

    /// Where bytes go, of which no call has failed.
    pub(crate) fn new(goal: Goal) -> Output
        ensures goal { output_goal result ≡ goal }
        ensures failures { output_failures result ≡ 0 }
    {
        Output {
            goal,
            failures: 0,
            error: None,
        }
    }

    /// Why the last write or flush that failed did, if one did and the system told it.
    pub(crate) fn error(&self) -> Option<io::Error>
        ensures { result ≡ self.now.error }
    {
        self.error
    }

    /// Counts a call that failed.
    fn fail<T>(&mut self, error: Option<io::Error>) -> Result<T, Failed>
        requires { output_failures self.old < u32.MAX }
        ensures failed { IsErr result }
        ensures counted { output_failures self.new ≡ output_failures self.old + 1 }
        ensures kept { self.new.error ≡ error }
    {
        self.error = error;
        self.failures += 1;
        Err(Failed)
    }
}

impl ByteOut for Output {
    ghost use Rattle.flcolumn_main.specs.Streams.{output_failures};

    ghost failures = { output_failures };

    ghost tells = { ⊥ };

    ghost sink = { λ s. record { taken = []; flushed = 0; left = []; target = 0 } };

    /// A write that takes nothing has failed too.
    fn write(&mut self, bytes: &[u8]) -> Result<usize, Failed> {
        match self.goal.write(bytes) {
            Ok(count) if count > 0 => Ok(count),
            Ok(_) => self.fail(None),
            Err(error) => self.fail(Some(error)),
        }
    }

    fn flush(&mut self) -> Result<(), Failed> {
        match self.goal.flush() {
            Ok(()) => Ok(()),
            Err(error) => self.fail(Some(error)),
        }
    }

    fn failures(&self) -> u32 {
        self.failures
    }
}
