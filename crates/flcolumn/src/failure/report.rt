//! What is said about a failure.

ghost use Rattle.std.specs.Prelude.{◌≡◌};
ghost use Rattle.flcolumn.specs.Failures.{status_of};

use crate::failure::Failure;
use crate::failure::texts::flaw_text;
use fastlanes_column_streams::StreamError;
use flcolumn_words::{ElementType, Request, Task, WordsError};
use std::fmt::{self, Display};
use std::io;

/// The status that the program ends with.
pub fn status(failure: &Failure) -> u8
    ensures { result ≡ status_of failure.now }
{
    match failure {
        Failure::Words(WordsError::NoMemory) => 6,
        Failure::Words(_) => 1,
        Failure::Stream(StreamError::Refused(_)) => 2,
        Failure::Stream(StreamError::ShortValue(_)) => 3,
        Failure::Stream(StreamError::ReadFailed) => 4,
        Failure::Stream(StreamError::WriteFailed) => 5,
        Failure::Stream(StreamError::TooMany) => 8,
        Failure::NoMemory => 6,
        Failure::NoSuchValue(_, _) => 7,
        Failure::NoInput(_, _) => 4,
        Failure::NoOutput(_, _) => 5,
        Failure::SameFile(_) => 9,
    }
}

impl Display for Failure {
    fn fmt<W: fmt::Write>(&self, f: &mut fmt::Formatter<W>) -> fmt::Result {
        match self {
            Failure::Words(error) => words_text(error, f),
            Failure::Stream(error) => stopped_text(error, f),
            Failure::NoMemory => f.write_str(NO_MEMORY),
            Failure::NoSuchValue(number, values) => no_value_text(*number, *values, f),
            Failure::NoInput(name, error) => file_text("read", name, Some(*error), f),
            Failure::NoOutput(name, error) => file_text("write", name, Some(*error), f),
            Failure::SameFile(name) => same_file_text(name, f),
        }
    }
}

/// A failure of what was asked for, which tells more than the failure alone.
#[derive(Clone, Copy)]
pub struct TaskFailure<'a> {
    pub failure: &'a Failure,
    /// What was asked for, and between which streams.
    pub task: &'a Task<'a>,
    /// Why a read or a write failed, where the system told it.
    pub error: Option<io::Error>,
}

impl Display for TaskFailure<'_> {
    fn fmt<W: fmt::Write>(&self, f: &mut fmt::Formatter<W>) -> fmt::Result {
        match self.failure {
            Failure::Stream(StreamError::ReadFailed) => match self.task.names.input {
                Some(name) => file_text("read", name, self.error, f),
                None => stream_text("read", "standard input", self.error, f),
            },
            Failure::Stream(StreamError::WriteFailed) => match self.task.names.output {
                Some(name) => file_text("write", name, self.error, f),
                None => stream_text("write", "standard output", self.error, f),
            },
            Failure::Stream(StreamError::ShortValue(at)) => {
                short_value_text(*at, &self.task.request, f)
            }
            failure => failure.fmt(f),
        }
    }
}

/// What is said where memory runs out.
const NO_MEMORY: &str = "out of memory";

/// That there is no value of this number.
fn no_value_text<W: fmt::Write>(
    number: u64,
    values: u64,
    f: &mut fmt::Formatter<W>,
) -> fmt::Result {
    let s = if values == 1 { "" } else { "s" };
    write!(
        f,
        "index {number} is out of range: the column has {values} value{s}"
    )
}

/// That the file of this name cannot be read or written, and why, where that is known.
fn file_text<W: fmt::Write>(
    done: &str,
    name: &str,
    error: Option<io::Error>,
    f: &mut fmt::Formatter<W>,
) -> fmt::Result {
    match error {
        Some(error) => write!(f, "cannot {done} {name:?}: {error}"),
        None => write!(f, "cannot {done} {name:?}"),
    }
}

/// The same of a stream that is no file of a name.
fn stream_text<W: fmt::Write>(
    done: &str,
    stream: &str,
    error: Option<io::Error>,
    f: &mut fmt::Formatter<W>,
) -> fmt::Result {
    match error {
        Some(error) => write!(f, "cannot {done} {stream}: {error}"),
        None => write!(f, "cannot {done} {stream}"),
    }
}

/// That the file of this name is read already.
fn same_file_text<W: fmt::Write>(name: &str, f: &mut fmt::Formatter<W>) -> fmt::Result {
    write!(f, "cannot write {name:?}: it is the input too")
}

/// What is wrong with the words.
fn words_text<W: fmt::Write>(error: &WordsError, f: &mut fmt::Formatter<W>) -> fmt::Result {
    match error {
        WordsError::Refused(error) => error.fmt(f),
        WordsError::Text => f.write_str("an argument is not UTF-8 text"),
        WordsError::Element(word) => {
            let word = word.escape_debug();
            write!(f, "invalid type '{word}': expected u8, u16, u32 or u64")
        }
        WordsError::Number(word) => {
            let word = word.escape_debug();
            write!(f, "invalid index '{word}': expected a number below 2^64")
        }
        WordsError::Incomplete => {
            f.write_str("no command: expected encode TYPE, decode, info or get N..")
        }
        WordsError::NoMemory => f.write_str(NO_MEMORY),
    }
}

/// Why a run between the streams stopped.
fn stopped_text<W: fmt::Write>(error: &StreamError, f: &mut fmt::Formatter<W>) -> fmt::Result {
    match error {
        StreamError::Refused(error) => place_text(error.at, flaw_text(error.flaw), f),
        StreamError::ShortValue(at) => place_text(*at, SHORT_VALUE, f),
        StreamError::TooMany => {
            f.write_str("too many values: expected fewer than 2^64 in a column")
        }
        StreamError::ReadFailed => stream_text("read", "the input", None, f),
        StreamError::WriteFailed => stream_text("write", "the output", None, f),
    }
}

/// What is said where values end too early.
const SHORT_VALUE: &str = "the input ends inside a value";

/// That the values which a request reads end too early.
fn short_value_text<W: fmt::Write>(
    at: usize,
    request: &Request,
    f: &mut fmt::Formatter<W>,
) -> fmt::Result {
    place_text(at, SHORT_VALUE, f)?;
    match request {
        Request::Encode { element, .. } => {
            let size = size_of_value(*element);
            write!(f, ": expected a multiple of {size} bytes")
        }
        _ => Ok(()),
    }
}

/// How many bytes a value has.
fn size_of_value(element: ElementType) -> usize {
    match element {
        ElementType::U8 => 1,
        ElementType::U16 => 2,
        ElementType::U32 => 4,
        ElementType::U64 => 8,
    }
}

/// What is wrong at a byte.
fn place_text<W: fmt::Write>(at: usize, text: &str, f: &mut fmt::Formatter<W>) -> fmt::Result {
    write!(f, "at byte {at}: {text}")
}
