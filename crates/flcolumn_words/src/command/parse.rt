//! From words to what they ask for.

ghost use Rattle.std.specs.Prelude.{◌≡◌, ◌≢◌, IfErr, IfNone, IfOk, IfSome, codes, map};
ghost use Rattle.std.specs.Str.Parse.{digits_value};
ghost use Rattle.clap.specs.Words.{found_of, rows_of, subcommand_rows_of};
ghost use Rattle.flcolumn_words.specs.declared.command.ElementType.{ElementType};
ghost use Rattle.flcolumn_words.specs.Refusals.{IsRefusalOf, Shows, ShowsElement, ShowsFirst};
ghost use Rattle.flcolumn_words.specs.Refusals.{ShowsNumber, ShowsOf, Tells};
ghost use Rattle.flcolumn_words.specs.Requests.{AreNames, AskFor, Asks, IsNumber, IsTaskOf, Write};
ghost use Rattle.flcolumn_words.specs.Requests.{element_word};

use crate::command::words::commands;
use crate::command::{ElementType, Names, Request, Task};
use clap::{ArgMatches, Error};
use std::alloc::Global;
use std::convert::AsStr;

/// Why words ask for nothing.
#[derive(Debug, Drop)]
pub enum WordsError {
    /// They have not the form of a command, or ask for help.
    Refused(Error),
    /// They are no text.
    Text,
    /// There is no element type of this name.
    Element(String),
    /// This is no number below 2^64.
    Number(String),
    /// They have no command, or not all that it needs.
    Incomplete,
    /// There is no memory for them.
    NoMemory,
}

/// Returns the task that words ask for, of which the first is the program's name. Fails if they ask for none, or if memory
/// runs out.
pub fn task<'a, S: AsStr>(alloc: Global, words: &'a [S]) -> Result<Task<'a>, WordsError>
    ensures asked { IfOk result (AskFor (map S.text words.now)) }
    ensures refused { IfErr result (IsRefusalOf (AskFor (map S.text words.now))) }
    ensures told { IfErr result (Tells (map S.text words.now)) }
{
    let commands = match commands(alloc) {
        Ok(commands) => commands,
        Err(_) => return Err(WordsError::NoMemory),
    };
    let matches = match commands.try_get_matches_from(words) {
        Ok(matches) => matches,
        Err(error) => return Err(WordsError::Refused(error)),
    };
    let task = task_of(alloc, &matches);
    drop(matches);
    task
}

/// What matches ask for.
fn task_of<'a>(alloc: Global, matches: &ArgMatches<'a>) -> Result<Task<'a>, WordsError>
    ensures asked { IfOk result (IsTaskOf (subcommand_rows_of matches.now)) }
    ensures refused { IfErr result (IsRefusalOf (IsTaskOf (subcommand_rows_of matches.now))) }
    ensures shown { IfErr result (ShowsOf (subcommand_rows_of matches.now)) }
{
    match matches.subcommand() {
        Some((name, found)) => match request_of(alloc, name, found) {
            Ok(request) => Ok(Task {
                request,
                names: names_of(found),
            }),
            Err(error) => Err(error),
        },
        None => Err(WordsError::Incomplete),
    }
}

/// The files that a subcommand names.
fn names_of<'a>(matches: &ArgMatches<'a>) -> Names<'a>
    ensures { AreNames (rows_of (found_of matches.now)) result }
{
    Names {
        input: matches.get_str("input"),
        output: matches.get_str("output"),
    }
}

/// The request of a subcommand of this name.
fn request_of(alloc: Global, name: &str, matches: &ArgMatches<'_>) -> Result<Request, WordsError>
    ensures asked { IfOk result (Asks name.now (rows_of (found_of matches.now))) }
    ensures refused { IfErr result (IsRefusalOf (Asks name.now (rows_of (found_of matches.now)))) }
    ensures shown { IfErr result (Shows name.now (rows_of (found_of matches.now))) }
{
    match name {
        "encode" => encode_request(alloc, matches),
        "decode" => Ok(Request::Decode),
        "info" => Ok(Request::Info),
        "get" => get_request(alloc, matches),
        _ => Err(WordsError::Incomplete),
    }
}

/// What `encode` is asked for.
fn encode_request(alloc: Global, matches: &ArgMatches<'_>) -> Result<Request, WordsError>
    ensures asked { IfOk result (Asks (codes "encode") (rows_of (found_of matches.now))) }
    ensures refused { IfErr result
        (IsRefusalOf (Asks (codes "encode") (rows_of (found_of matches.now)))) }
    ensures shown { IfErr result (Shows (codes "encode") (rows_of (found_of matches.now))) }
{
    let Some(name) = matches.get_str("TYPE") else {
        return Err(WordsError::Incomplete);
    };
    let Some(element) = element_of(name) else {
        return Err(no_element(alloc, name));
    };
    Ok(Request::Encode {
        element,
        frames_only: matches.get_flag("for-only"),
        checked: !matches.get_flag("no-checksums"),
    })
}

/// The element type of this name.
fn element_of(name: &str) -> Option<ElementType>
    ensures named { IfSome result (λ element. name.now ≡ element_word element) }
    ensures other { IfNone result ((element : ElementType) → name.now ≢ element_word element) }
{
    match name {
        "u8" => Some(ElementType::U8),
        "u16" => Some(ElementType::U16),
        "u32" => Some(ElementType::U32),
        "u64" => Some(ElementType::U64),
        _ => None,
    }
}

/// The error that there is no element type of this name.
fn no_element(alloc: Global, name: &str) -> WordsError
    ensures { ShowsElement name.now result }
{
    match String::from_str(alloc, name) {
        Ok(name) => WordsError::Element(name),
        Err(_) => WordsError::NoMemory,
    }
}

/// What `get` is asked for.
fn get_request(alloc: Global, matches: &ArgMatches<'_>) -> Result<Request, WordsError>
    ensures asked { IfOk result (Asks (codes "get") (rows_of (found_of matches.now))) }
    ensures refused { IfErr result
        (IsRefusalOf (Asks (codes "get") (rows_of (found_of matches.now)))) }
    ensures shown { IfErr result (Shows (codes "get") (rows_of (found_of matches.now))) }
{
    match matches.get_strs("N") {
        Some(texts) => match numbers_of(alloc, texts) {
            Ok(numbers) => Ok(Request::Get(numbers)),
            Err(error) => Err(error),
        },
        None => Err(WordsError::Incomplete),
    }
}

/// The numbers that texts write.
fn numbers_of(alloc: Global, texts: &[&str]) -> Result<Vec<u64>, WordsError>
    ensures numbers { IfOk result (λ numbers. Write (map (λ text. text.now) texts.now) numbers.items) }
    ensures refused { IfErr result
        (IsRefusalOf (Write (map (λ text. text.now) texts.now))) }
    ensures shown { IfErr result (ShowsFirst (map (λ text. text.now) texts.now)) }
{
    let mut numbers = Vec::new(alloc);
    for text in texts {
        let Some(number) = number_of(text) else {
            return Err(no_number(alloc, text));
        };
        if numbers.push(number).is_err() {
            return Err(WordsError::NoMemory);
        }
    }
    Ok(numbers)
}

/// The error that this text is no number.
fn no_number(alloc: Global, text: &str) -> WordsError
    ensures { ShowsNumber text.now result }
{
    match String::from_str(alloc, text) {
        Ok(text) => WordsError::Number(text),
        Err(_) => WordsError::NoMemory,
    }
}

/// Returns the number that decimal digits write, if it is below 2^64. Returns nothing for any other text, such as one with a sign.
fn number_of(text: &str) -> Option<u64>
    ensures number { IfSome result (λ number. IsNumber text.now × (number ≡ digits_value 10 text.now)) }
    ensures other { IfNone result (¬ (IsNumber text.now)) }
{
    if text.is_empty() || !text.bytes().all(|byte| byte.is_ascii_digit()) {
        return None;
    }
    text.parse().ok()
}
