//! What the program reads. What it holds is not known, so it tells no bytes.

ghost use Rattle.std.specs.Prelude.{◌≡◌, []};

use crate::progress::Progress;
use fastlanes_streams::{ByteIn, Failed};
use std::fs::File;
use std::io::{self, Read};
use std::rt::{Stderr, Stdin};

/// Where bytes come from.
#[derive(Drop)]
pub(crate) enum Origin {
    Standard(Stdin),
    Named(File),
}

impl Read for Origin {
    fn read(&mut self, buf: &mut [u8]) -> io::Result<usize> {
        match self {
            Origin::Standard(stream) => stream.read(buf),
            Origin::Named(file) => file.read(buf),
        }
    }
}

/// What the program reads, of which a terminal is told how much it was.
#[derive(Drop)]
pub(crate) struct Input {
    origin: Origin,
    /// How many reads have failed.
    failures: u32,
    /// Why the last of them failed.
    error: Option<io::Error>,
    progress: Progress,
}

impl Input {
    ghost use Rattle.flcolumn_main.specs.Streams.{input_failures, input_origin};

    /// Where bytes come from, of which no call has failed, and where a terminal is told how many were read.
    pub(crate) fn new(origin: Origin, errors: Stderr) -> Input
        ensures origin { input_origin result ≡ origin }
        ensures failures { input_failures result ≡ 0 }
    {
        Input {
            origin,
            failures: 0,
            error: None,
            progress: Progress::new(errors),
        }
    }

    /// Ends what a terminal is told of it.
    pub(crate) fn end(&mut self)
        ensures { input_failures self.new ≡ input_failures self.old }
    {
        self.progress.end();
    }

    /// Why the last read that failed did, if one did.
    pub(crate) fn error(&self) -> Option<io::Error>
        ensures { result ≡ self.now.error }
    {
        self.error
    }
}

impl ByteIn for Input {
    ghost use Rattle.flcolumn_main.specs.Streams.{input_failures};

    ghost failures = { input_failures };

    ghost tells = { ⊥ };

    ghost source = { λ s. record { given = []; left = [] } };

    fn read(&mut self, buf: &mut [u8]) -> Result<usize, Failed> {
        match self.origin.read(buf) {
            Ok(count) => {
                self.progress.add(count);
                Ok(count)
            }
            Err(error) => {
                self.error = Some(error);
                self.failures += 1;
                Err(Failed)
            }
        }
    }

    fn failures(&self) -> u32 {
        self.failures
    }
}
