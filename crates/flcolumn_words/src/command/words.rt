//! The words that the program takes.

ghost use Rattle.std.specs.Prelude.{◌≡◌, IfOk};
ghost use Rattle.clap.specs.Words.{App, Rule, app_of, new_app, with_rule, with_subcommand};
ghost use Rattle.flcolumn_words.specs.Commands.{IsArg, IsCommand, all_commands, decode_app};
ghost use Rattle.flcolumn_words.specs.Commands.{encode_app, file_rule, flag_rule, for_only_rule, get_app, info_app};
ghost use Rattle.flcolumn_words.specs.Commands.{numbers_rule, program_app, required_rule, with_files};

use clap::{Arg, ArgAction, Command};
use std::alloc::{AllocError, Global};

/// An argument of this name that has to be given, with what is told of it.
fn required_arg<'a>(alloc: Global, name: &'a str, help: &'a str) -> Arg<'a>
    ensures { IsArg (required_rule name.now) result }
{
    Arg::new(alloc, name).help(help).required(true)
}

/// A flag of this name, with what is told of it.
fn flag_arg<'a>(alloc: Global, name: &'a str, help: &'a str) -> Arg<'a>
    ensures { IsArg (flag_rule name.now) result }
{
    Arg::new(alloc, name)
        .long(name)
        .help(help)
        .action(ArgAction::SetTrue)
}

/// The flag `--for-only`, of which `--frames-only` is another name.
fn for_only_arg<'a>(alloc: Global) -> Result<Arg<'a>, AllocError>
    ensures { IfOk result (IsArg for_only_rule) }
{
    let help = "Use FOR for each block, and delta encoding for none";
    flag_arg(alloc, "for-only", help).alias("frames-only")
}

/// The argument N, of one value or more.
fn numbers_arg<'a>(alloc: Global) -> Arg<'a>
    ensures { IsArg numbers_rule result }
{
    required_arg(alloc, "N", "The index of a value: the first one is 0")
        .action(ArgAction::Append)
        .num_args(1..)
}

/// An option of this name that takes a FILE, with what is told of it.
fn file_arg<'a>(alloc: Global, name: &'a str, help: &'a str) -> Arg<'a>
    ensures { IsArg (file_rule name.now) result }
{
    Arg::new(alloc, name)
        .long(name)
        .value_name("FILE")
        .help(help)
}

/// A command of this name, with what is told of it.
fn new_command<'a>(alloc: Global, name: &'a str, about: &'a str) -> Command<'a>
    ensures { IsCommand (new_app name.now) result }
{
    Command::new(alloc, name).about(about)
}

/// A command, if it could be made, with an argument more.
fn with_arg<'a>(
    command: Result<Command<'a>, AllocError>,
    arg: Arg<'a>,
) -> Result<Command<'a>, AllocError>
    ensures { (app : App) (rule : Rule) → IfOk command.entry (IsCommand app)
        → IsArg rule arg.entry → IfOk result (IsCommand (with_rule app rule)) }
{
    match command {
        Ok(command) => command.arg(arg),
        Err(error) => {
            drop(arg);
            Err(error)
        }
    }
}

/// A command, if it could be made, with a subcommand more, if that could be made.
fn with_subcommand<'a>(
    command: Result<Command<'a>, AllocError>,
    more: Result<Command<'a>, AllocError>,
) -> Result<Command<'a>, AllocError>
    ensures { (app : App) (sub : App) → IfOk command.entry (IsCommand app)
        → IfOk more.entry (IsCommand sub) → IfOk result (IsCommand (with_subcommand app sub.top)) }
{
    match command {
        Ok(command) => match more {
            Ok(more) => command.subcommand(more),
            Err(error) => {
                drop(command);
                Err(error)
            }
        },
        Err(error) => {
            drop(more);
            Err(error)
        }
    }
}

/// A command that takes `[--input FILE] [--output FILE]` too.
fn with_files<'a>(
    alloc: Global,
    command: Result<Command<'a>, AllocError>,
) -> Result<Command<'a>, AllocError>
    ensures { (app : App) → IfOk command.entry (IsCommand app)
        → IfOk result (IsCommand (with_files app)) }
{
    let input = file_arg(alloc, "input", "Read this file, in place of standard input");
    let output = file_arg(
        alloc,
        "output",
        "Write this file, in place of standard output",
    );
    with_arg(with_arg(command, input), output)
}

/// `encode TYPE [--for-only] [--no-checksums]`, with files.
fn encode_command<'a>(alloc: Global) -> Result<Command<'a>, AllocError>
    ensures { IfOk result (IsCommand encode_app) }
{
    let for_only = for_only_arg(alloc)?;
    let encode = Ok(new_command(
        alloc,
        "encode",
        "Read values, lowest byte first, and write a column of them",
    ));
    let encode = with_arg(
        encode,
        required_arg(alloc, "TYPE", "The type of the values: u8, u16, u32 or u64"),
    );
    let encode = with_arg(encode, for_only);
    let encode = with_arg(
        encode,
        flag_arg(alloc, "no-checksums", "Write pages without checksums"),
    );
    with_files(alloc, encode)
}

/// `decode`, with files.
fn decode_command<'a>(alloc: Global) -> Result<Command<'a>, AllocError>
    ensures { IfOk result (IsCommand decode_app) }
{
    let about = "Read a column, and write its values, lowest byte first";
    with_files(alloc, Ok(new_command(alloc, "decode", about)))
}

/// `info`, with files.
fn info_command<'a>(alloc: Global) -> Result<Command<'a>, AllocError>
    ensures { IfOk result (IsCommand info_app) }
{
    let about = "Read a column, and write what is in it";
    with_files(alloc, Ok(new_command(alloc, "info", about)))
}

/// `get N..`, with files.
fn get_command<'a>(alloc: Global) -> Result<Command<'a>, AllocError>
    ensures { IfOk result (IsCommand get_app) }
{
    let about = "Read a column, and write the values at these indices, a line each";
    let get = with_arg(Ok(new_command(alloc, "get", about)), numbers_arg(alloc));
    with_files(alloc, get)
}

/// The program, without its subcommands.
fn program<'a>(alloc: Global) -> Command<'a>
    ensures { IsCommand program_app result }
{
    let about =
        "Columns of integers as bytes, from standard input to standard output, or between files";
    let encodings = "\
Values are packed in blocks of 1024, each by the shorter of two encodings:
  FOR    the difference of each value from the block's minimum
  delta  the difference of each value from one before it
`encode --for-only` uses FOR alone, by which any value is read without the others.
The indices of `get` start at 0.";
    new_command(alloc, "flcolumn", about)
        .after_help(encodings)
        .subcommand_required(true)
}

/// The program, with the subcommands that write bytes.
fn writing_commands<'a>(alloc: Global) -> Result<Command<'a>, AllocError>
    ensures { IfOk result (IsCommand
        (with_subcommand (with_subcommand program_app encode_app.top) decode_app.top)) }
{
    let encodes = with_subcommand(Ok(program(alloc)), encode_command(alloc));
    with_subcommand(encodes, decode_command(alloc))
}

/// All commands of the program.
pub fn commands<'a>(alloc: Global) -> Result<Command<'a>, AllocError>
    ensures { IfOk result (λ command. app_of command ≡ all_commands) }
{
    let informs = with_subcommand(writing_commands(alloc), info_command(alloc));
    with_subcommand(informs, get_command(alloc))
}
