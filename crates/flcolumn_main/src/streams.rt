//! What the program reads and what it writes: the standard streams, or files in their place.

pub(crate) mod input;
pub(crate) mod output;

ghost use Rattle.std.specs.Prelude.{◌≡◌, IfOk, IsOk, None, is_some};
ghost use Rattle.flcolumn_main.specs.Streams.{input_failures, is_input_file, is_output_file, output_failures};

use crate::streams::input::{Input, Origin};
use crate::streams::output::{Goal, Output};
use flcolumn::failure::Failure;
use flcolumn::streams::Streams;
use flcolumn_words::Names;
use std::fs::{self, File, Metadata};
use std::os::unix::fs::{FileTypeExt, MetadataExt};

/// Opens what is read and what is written. A file that is to be written is made, or loses what it has.
pub(crate) fn open_streams(
    rt: &HostRuntime,
    names: Names<'_>,
) -> Result<Streams<Input, Output>, Failure>
    // The standard streams are there.
    ensures standard { names.entry.input ≡ None → names.entry.output ≡ None → IsOk result }
    // A file is in the place of a standard stream just where it is named.
    ensures input_file { IfOk result (λ streams. is_input_file streams.input ≡ is_some names.entry.input) }
    ensures output_file { IfOk result (λ streams. is_output_file streams.output ≡ is_some names.entry.output) }
    // No call of them has failed.
    ensures input { IfOk result (λ streams. input_failures streams.input ≡ 0) }
    ensures output { IfOk result (λ streams. output_failures streams.output ≡ 0) }
{
    check_names(rt, names)?;
    let input = match names.input {
        Some(name) => match File::open(rt, name) {
            Ok(file) => Input::new(Origin::Named(file), rt.stderr()),
            Err(error) => return Err(Failure::NoInput(name.to_string(rt.alloc())?, error)),
        },
        None => Input::new(Origin::Standard(rt.stdin()), rt.stderr()),
    };
    let output = match names.output {
        Some(name) => Output::new(Goal::Named(make_file(rt, name)?)),
        None => Output::new(Goal::Standard(rt.stdout())),
    };
    Ok(Streams { input, output })
}

/// Fails if the file that is to be written is the one that is read. Opens neither: opening a FIFO waits for its other end.
fn check_names(rt: &HostRuntime, names: Names<'_>) -> Result<(), Failure>
    ensures { names.entry.output ≡ None → IsOk result }
{
    match names.output {
        Some(name) if is_same_file(rt, names.input.unwrap_or("/dev/stdin"), name) => {
            Err(Failure::SameFile(name.to_string(rt.alloc())?))
        }
        _ => Ok(()),
    }
}

/// Makes the file that is written.
fn make_file(rt: &HostRuntime, name: &str) -> Result<File, Failure> {
    match File::create(rt, name) {
        Ok(file) => Ok(file),
        Err(error) => Err(Failure::NoOutput(name.to_string(rt.alloc())?, error)),
    }
}

/// Whether these names lead to one file that gives what is written to it. If a name leads to none, they do not.
fn is_same_file(rt: &HostRuntime, one: &str, other: &str) -> bool {
    match (fs::metadata(rt, one), fs::metadata(rt, other)) {
        (Ok(one), Ok(other)) => {
            gives_back(&one) && one.dev() == other.dev() && one.ino() == other.ino()
        }
        _ => false,
    }
}

/// Whether a read of this file gives what was written to it: a regular file does, and a FIFO, but no terminal or other device.
fn gives_back(file: &Metadata) -> bool {
    file.is_file() || file.file_type().is_fifo()
}
