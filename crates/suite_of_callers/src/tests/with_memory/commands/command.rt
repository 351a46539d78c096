//! Commands of words. They are written as lines, with a space between each two words.

use crate::tests::with_memory::commands::bytes::assert_holds;
use flblock::command::{Command, parse_command};
use flblock::error::BlockError::{self, Usage, Width};
use std::process::Abort;

/// What is said of the words of a line.
pub(crate) fn command_of<R: Abort + AllocGlobal>(
    rt: &R,
    line: &str,
) -> Result<Command, BlockError> {
    let words: Vec<&str> = line.split(' ').collect(rt.alloc()).expect(rt, "memory");
    parse_command(&words)
}

/// Each of these lines, with a `|` between each two, is refused for this reason.
fn assert_refused<R: Abort + AllocGlobal>(rt: &R, refusal: BlockError, lines: &str) {
    for line in lines.split('|') {
        assert_holds(rt, command_of(rt, line) == Err(refusal), line);
    }
}

/// Both lines name one command.
fn assert_same<R: Abort + AllocGlobal>(rt: &R, line: &str, same: &str) {
    let command = command_of(rt, line);
    assert_holds(rt, command.is_ok(), line);
    assert_holds(rt, command == command_of(rt, same), line);
}

#[test]
fn words_name_commands(rt: HostRuntime) {
    let none = parse_command(&[]) == command_of(&rt, "ramp u16 4");
    assert_holds(&rt, none, "no words");
    assert_same(&rt, "ramp u8 0", "ramp u8 00");
    assert_same(&rt, "ramp u8 00003", "ramp u8 3");
    assert_same(&rt, "ramp u8 000000008", "ramp u8 8");
}

#[test]
fn great_widths_are_refused(rt: HostRuntime) {
    assert_refused(&rt, Width, "ramp u8 9|ramp u16 17|ramp u32 33|ramp u64 65");
    assert_refused(&rt, Width, "pack u8 9|pack u16 17|pack u32 33|pack u64 65");
    assert_refused(
        &rt,
        Width,
        "unpack u8 9|unpack u16 17|unpack u32 33|unpack u64 65",
    );
    assert_refused(&rt, Width, "ramp u64 999999999");
}

#[test]
fn other_words_are_refused(rt: HostRuntime) {
    let numbers = "|ramp|ramp u8|ramp u8 3 3|flblock ramp u8 3|  ";
    assert_refused(&rt, Usage, numbers);
    let verbs = "Ramp u8 3|ramps u8 3| u8 3|packs u8 3|Unpack u8 3";
    assert_refused(&rt, Usage, verbs);
    // The type is looked at before the width.
    let types = "ramp U8 99|ramp u24 99|ramp u128 99|ramp  99|pack u24 3|pack u24 99";
    assert_refused(&rt, Usage, types);
    let signs = "ramp u8 +3|ramp u8 -3|pack u16 +3|ramp u8 0x3|ramp u8 3a|ramp u8 ٣";
    assert_refused(&rt, Usage, signs);
    let lengths = "ramp u8 |ramp u8 0000000003|ramp u8 9999999999";
    assert_refused(&rt, Usage, lengths);
    assert_not_a_width(&rt, " 3");
    assert_not_a_width(&rt, "3 ");
}

/// This word is no width.
fn assert_not_a_width(rt: &impl Abort, width: &str) {
    let command = parse_command(&["ramp", "u8", width]);
    assert_holds(rt, command == Err(Usage), width);
}
