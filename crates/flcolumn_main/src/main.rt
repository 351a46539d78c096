//! `flcolumn` writes and reads columns of integers as bytes.
//!
//! `flcolumn encode TYPE` reads values and writes a column of them, `flcolumn decode` reads a column and writes its values,
//! `flcolumn info` reads a column and writes what is in it, and `flcolumn get N..` the values of these numbers, each between
//! the standard streams or between files. Values are read and written with their lowest byte first. docs/FORMAT.md says which
//! bytes are a column.
#![tactic(auto)]

mod progress;
mod streams;

use crate::streams::open_streams;
use clap::error::ErrorKind;
use fastlanes_column_streams::StreamError;
use flcolumn::failure::Failure;
use flcolumn::failure::report::{TaskFailure, status};
use flcolumn_words::{Task, WordsError, task};
use std::env;
use std::io::{self, ErrorKind as InputError};
use std::process::ExitCode;

fn main(rt: HostRuntime) -> ExitCode {
    match run_arguments(&rt) {
        Ok(ended) => ended,
        Err(Failure::Words(WordsError::Refused(error))) => words_refused(&rt, &error),
        Err(failure) => failed(&rt, &failure),
    }
}

/// Prints why the work is not done, and returns the status that tells it.
fn failed(rt: &HostRuntime, failure: &Failure) -> ExitCode {
    // If even this can't be written, the status tells.
    let _ = eprintln!(rt; "flcolumn: {failure}");
    ExitCode::from(status(failure))
}

/// Prints help, or what is wrong with the words.
fn words_refused(rt: &HostRuntime, error: &clap::Error) -> ExitCode {
    if error.kind() == ErrorKind::OutOfMemory {
        return failed(rt, &Failure::NoMemory);
    }
    match error.print(rt) {
        _ if error.exit_code() != 0 => ExitCode::from(1),
        Err(why) => help_unwritten(rt, &why),
        Ok(()) => ExitCode::SUCCESS,
    }
}

/// Prints why help could not be, and returns the status that tells it.
fn help_unwritten(rt: &HostRuntime, why: &io::Error) -> ExitCode {
    let _ = eprintln!(rt; "flcolumn: cannot write standard output: {why}");
    ExitCode::from(status(&Failure::Stream(StreamError::WriteFailed)))
}

/// Does what the program's arguments ask for, between the streams that they name, and returns the status that tells how that ended.
/// Fails if it cannot begin.
fn run_arguments(rt: &HostRuntime) -> Result<ExitCode, Failure> {
    let args = env::args(rt).map_err(arguments_failure)?;
    let words: Vec<String> = args.collect(rt.alloc())?;
    let task = task(rt.alloc(), words.as_slice()).map_err(Failure::Words)?;
    let mut streams = open_streams(rt, task.names)?;
    let done = streams.run(&task.request, rt.alloc());
    streams.input.end();
    match done {
        Ok(()) => Ok(ExitCode::SUCCESS),
        Err(failure) => {
            let error = streams.input.error().or(streams.output.error());
            Ok(task_failed(rt, &failure, &task, error))
        }
    }
}

/// Prints why a task is not done, and returns the status that tells it.
fn task_failed(
    rt: &HostRuntime,
    failure: &Failure,
    task: &Task<'_>,
    error: Option<io::Error>,
) -> ExitCode {
    let told = TaskFailure {
        failure,
        task,
        error,
    };
    let _ = eprintln!(rt; "flcolumn: {told}");
    ExitCode::from(status(failure))
}

/// Arguments that cannot be taken as text are wrong arguments.
fn arguments_failure(error: io::Error) -> Failure {
    match error.kind() {
        InputError::OutOfMemory => Failure::NoMemory,
        _ => Failure::Words(WordsError::Text),
    }
}
