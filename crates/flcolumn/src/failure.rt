//! Why the program ends before its work is done.

ghost use Rattle.std.specs.Prelude.{◌≡◌};

use fastlanes_column_streams::StreamError;
use flcolumn_words::WordsError;
use std::alloc::AllocError;
use std::io;

pub mod report;
mod texts;

/// Why the program ends before its work is done.
#[derive(Drop)]
pub enum Failure {
    /// The words ask for nothing.
    Words(WordsError),
    /// The run between the streams stopped.
    Stream(StreamError),
    /// There is no memory.
    NoMemory,
    /// The column has no value of this number, but so many values.
    NoSuchValue(u64, u64),
    /// The file of this name cannot be opened to be read.
    NoInput(String, io::Error),
    /// The file of this name cannot be made or opened to be written.
    NoOutput(String, io::Error),
    /// The file of this name is to be written, and is the one that is read.
    SameFile(String),
}

impl From<StreamError> for Failure {
    ghost use Rattle.flcolumn.specs.declared.failure.Failure.{Failure};

    ghost from_gives = { λ error failure. failure ≡ Failure.Stream error };

    fn from(error: StreamError) -> Failure {
        Failure::Stream(error)
    }
}

impl From<AllocError> for Failure {
    ghost use Rattle.flcolumn.specs.declared.failure.Failure.{Failure};

    ghost from_gives = { λ error failure. failure ≡ Failure.NoMemory };

    fn from(_error: AllocError) -> Failure {
        Failure::NoMemory
    }
}
