//! What a run asks of its source and its sink.

ghost use Rattle.std.specs.Prelude.{◌≡◌, ℕ, ◌<◌, ◌++◌, List, OnOk, drop, length};
ghost use Rattle.flblock.specs.Command.{IsOutput, input_len};

use crate::tests::with_memory::commands::bytes::{ROOM, assert_holds, assert_number, assert_part};
use crate::tests::with_memory::commands::command::command_of;
use crate::tests::with_memory::commands::streams::{CountingOut, SlowIn};
use flblock::command::{Command, MOST_INPUT};
use flblock::error::BlockError;
use flblock::run::run_block;
use flblock::slice_in::SliceIn;
use flblock::slice_out::SliceOut;
use flblock::stream::{ByteIn, ByteOut};
use std::process::Abort;

/// A run of the command that a line names gives this answer.
pub(crate) fn assert_answer<R: Abort + AllocGlobal, I: ByteIn, O: ByteOut>(
    rt: &R,
    line: &str,
    input: &mut I,
    output: &mut O,
    answer: Result<(), BlockError>,
)
    requires input { I.failures input.old < u32.MAX }
    requires output { O.failures output.old < u32.MAX }
{
    let command = command_of(rt, line).expect(rt, "a command");
    assert_holds(rt, run_block(&command, input, output) == answer, line);
}

/// Runs a command on a block in memory. Where it succeeds, `bytes` begins with what the command writes, and the rest of
/// `bytes` stays.
fn run_in_memory(command: &Command, block: &[u8], bytes: &mut [u8]) -> Result<(), BlockError>
    requires { length block.now ≡ input_len command.now }
    ensures { OnOk result ((output : List ℕ) × IsOutput command.now block.now output
        × (bytes.new ≡ output ++ drop (length output) bytes.old)) }
{
    let mut input = SliceIn::new(block);
    let mut output = SliceOut::new(bytes);
    run_block(command, &mut input, &mut output)
}

#[test]
fn the_rest_of_a_slice_stays(rt: HostRuntime) {
    let command = command_of(&rt, "pack u16 3").expect(&rt, "a command");
    // Each value is 257, of which three bits are 1.
    let block = [1; MOST_INPUT];
    let mut bytes = [7; 400];
    let answer = run_in_memory(&command, &block[..command.input_len()], &mut bytes);
    assert_holds(&rt, answer == Ok(()), "an answer");
    assert_part(&rt, &bytes, 0, &[0x49, 0x92]);
    assert_part(&rt, &bytes, 128, &[0x24, 0x49]);
    let rest = [0x92, 0x24, 7, 7, 7, 7, 7, 7, 7, 7, 7, 7, 7, 7, 7, 7, 7, 7];
    assert_part(&rt, &bytes, 382, &rest);
}

/// A run between slices reads and writes so many bytes.
pub(crate) fn assert_run<R: Abort + AllocGlobal>(
    rt: &R,
    line: &str,
    from: &[u8],
    to: &mut [u8],
    read: usize,
    written: usize,
) {
    let mut input = SliceIn::new(from);
    let mut output = SliceOut::new(to);
    assert_answer(rt, line, &mut input, &mut output, Ok(()));
    assert_number(rt, input.used(), read);
    assert_number(rt, output.used(), written);
    assert_number(rt, output.flushed(), written);
}

/// A run from this source, where no call fails, writes so many bytes in so many calls, and flushes once.
fn assert_calls<R: Abort + AllocGlobal, I: ByteIn>(
    rt: &R,
    line: &str,
    input: &mut I,
    most: usize,
    written: usize,
    writes: u32,
)
    requires { I.failures input.old < u32.MAX }
{
    let mut bytes = [0; ROOM];
    let mut output = CountingOut::new(&mut bytes, most);
    assert_answer(rt, line, input, &mut output, Ok(()));
    output.assert_counts(rt, written, writes, 1, 0);
    assert_number(rt, input.failures() as usize, 0);
}

#[test]
fn little_is_asked(rt: HostRuntime) {
    // A block of no bytes is not read: the first read would fail.
    assert_calls(&rt, "ramp u64 64", &mut SlowIn::new(b"", 1), ROOM, 17408, 1);
    assert_calls(&rt, "ramp u32 0", &mut SlowIn::new(b"", 1), ROOM, 0, 0);
    assert_calls(&rt, "unpack u8 0", &mut SlowIn::new(b"", 1), ROOM, 1024, 1);
    assert_calls(&rt, "pack u8 0", &mut SliceIn::new(&[0; 1024]), ROOM, 0, 0);
}

#[test]
fn writes_may_be_short(rt: HostRuntime) {
    assert_calls(&rt, "ramp u16 4", &mut SlowIn::new(b"", 1), 1, 1280, 1280);
}

/// A sink that takes a byte a call, and fails at this write, has so many bytes.
fn assert_failed_write<R: Abort + AllocGlobal>(rt: &R, call: u32, written: usize) {
    let mut bytes = [0; ROOM];
    let mut input = SlowIn::new(b"", 1);
    let mut output = CountingOut::new(&mut bytes, 1);
    output.failing_write = call;
    let refusal = Err(BlockError::WriteFailed);
    assert_answer(rt, "ramp u16 4", &mut input, &mut output, refusal);
    output.assert_counts(rt, written, call, 0, 1);
}

#[test]
fn writes_may_fail(rt: HostRuntime) {
    assert_failed_write(&rt, 1, 0);
    assert_failed_write(&rt, 2, 1);
    assert_failed_write(&rt, 640, 639);
    assert_failed_write(&rt, 1280, 1279);
}

#[test]
fn a_flush_may_fail(rt: HostRuntime) {
    let mut bytes = [0; ROOM];
    let mut input = SlowIn::new(b"", 1);
    let mut output = CountingOut::new(&mut bytes, ROOM);
    output.flush_fails = true;
    let refusal = Err(BlockError::WriteFailed);
    assert_answer(&rt, "ramp u16 4", &mut input, &mut output, refusal);
    output.assert_counts(&rt, 1280, 1, 1, 1);
    assert_part(&rt, &bytes, 0, b"0000\n1111\n");
}
