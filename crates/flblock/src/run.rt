//! A run of a command between a source and a sink.

ghost use Rattle.std.specs.Prelude.{◌≡◌, ◌≢◌, ◌+◌, ◌<◌, ◌≤◌, Err, length, take, IfErr, OnErr, OnOk};
ghost use Rattle.flblock.specs.Command.{IsOutput, Writes, input_len, verb_input_len};
ghost use Rattle.flblock.specs.Run.{BreaksOff, Completes, EndsShort, failed_reads, failed_writes};
ghost use Rattle.fastlanes_streams.specs.Stream.{Delivers, Gives, StopsShort, TakesPart};

use crate::blocks::{write_packed, write_unpacked};
use crate::command::{Command, ElementType, MOST_INPUT, Verb};
use crate::element::Element;
use crate::error::BlockError;
use crate::ramp::{MOST_TEXT, write_ramp};
use crate::stream::{ByteIn, ByteOut};
use fastlanes_streams::{fill, finish};

/// Runs a command: reads its whole block, then writes its output, and flushes once. It stops at the first failure.
pub fn run_block<I: ByteIn, O: ByteOut>(
    command: &Command,
    input: &mut I,
    output: &mut O,
) -> Result<(), BlockError>
    requires input { I.failures input.old < u32.MAX }
    requires output { O.failures output.old < u32.MAX }
    ensures never_usage { result ≢ Err BlockError.Usage }
    ensures never_width { result ≢ Err BlockError.Width }
    ensures failed_reads { I.failures input.new ≡ I.failures input.old + failed_reads result }
    ensures failed_writes { O.failures output.new ≡ O.failures output.old + failed_writes result }

    // Where both ends tell their bytes, what this run moved.
    ensures whole { I.tells → O.tells → OnOk result (Completes command.now
        (I.source input.old) (I.source input.new) (O.sink output.old) (O.sink output.new)) }
    ensures short_input { I.tells → O.tells → result ≡ Err BlockError.ShortInput
        → EndsShort (input_len command.now) (I.source input.old) (I.source input.new)
        × (O.sink output.new ≡ O.sink output.old) }
    ensures read_failed { I.tells → O.tells → result ≡ Err BlockError.ReadFailed
        → StopsShort (input_len command.now) (I.source input.old) (I.source input.new)
        × (O.sink output.new ≡ O.sink output.old) }
    ensures write_failed { I.tells → O.tells → result ≡ Err BlockError.WriteFailed
        → BreaksOff command.now
        (I.source input.old) (I.source input.new) (O.sink output.old) (O.sink output.new) }
{
    let mut block = [0; MOST_INPUT];
    let block = &mut block[..command.input_len()];
    read_block(input, block)?;
    let mut text = [0; MOST_TEXT];
    let len = write_output(command, block, &mut text);
    deliver(output, &text[..len])
}

/// Fills the block from the source, and asks for no more than the block lacks.
fn read_block<I: ByteIn>(input: &mut I, block: &mut [u8]) -> Result<(), BlockError>
    requires { I.failures input.old < u32.MAX }
    ensures never_usage { result ≢ Err BlockError.Usage }
    ensures never_width { result ≢ Err BlockError.Width }
    ensures never_write_failed { result ≢ Err BlockError.WriteFailed }
    ensures failed_reads { I.failures input.new ≡ I.failures input.old + failed_reads result }
    ensures whole { I.tells → OnOk result
        (Gives (I.source input.old) block.new (I.source input.new)) }
    ensures short_input { I.tells → result ≡ Err BlockError.ShortInput
        → EndsShort (length block.new) (I.source input.old) (I.source input.new) }
    ensures read_failed { I.tells → result ≡ Err BlockError.ReadFailed
        → StopsShort (length block.new) (I.source input.old) (I.source input.new) }
{
    match fill(input, block) {
        Ok(count) if count < block.len() => Err(BlockError::ShortInput),
        Ok(_) => Ok(()),
        Err(_) => Err(BlockError::ReadFailed),
    }
}

/// Writes all of the bytes, then flushes.
fn deliver<O: ByteOut>(output: &mut O, bytes: &[u8]) -> Result<(), BlockError>
    requires { O.failures output.old < u32.MAX }
    ensures only_write_failed { IfErr result (λ e. e ≡ BlockError.WriteFailed) }
    ensures failed_writes { O.failures output.new ≡ O.failures output.old + failed_writes result }
    ensures whole { O.tells → OnOk result
        (Delivers (O.sink output.old) bytes.now (O.sink output.new)) }
    ensures part { O.tells → OnErr result
        (TakesPart (O.sink output.old) bytes.now (O.sink output.new)) }
{
    finish(output, bytes).map_err(|_| BlockError::WriteFailed)
}

/// Puts what the command writes after it read the block at the start of `text`, and answers how many bytes it is.
fn write_output(command: &Command, block: &[u8], text: &mut [u8]) -> usize
    requires block { length block.now ≡ input_len command.now }
    requires room { MOST_TEXT ≤ length text.old }
    ensures within { result ≤ length text.new }
    ensures output { IsOutput command.now block.now (take result text.new) }
{
    let (verb, width) = (command.verb(), command.width());
    match command.element() {
        ElementType::U8 => write_typed::<u8>(verb, width, block, text),
        ElementType::U16 => write_typed::<u16>(verb, width, block, text),
        ElementType::U32 => write_typed::<u32>(verb, width, block, text),
        ElementType::U64 => write_typed::<u64>(verb, width, block, text),
    }
}

/// The same for a block of `E`.
fn write_typed<E: Element>(verb: Verb, width: usize, block: &[u8], text: &mut [u8]) -> usize
    requires width { width ≤ E.T }
    requires block { length block.now ≡ verb_input_len verb E.T width }
    requires room { MOST_TEXT ≤ length text.old }
    ensures within { result ≤ length text.new }
    ensures output { Writes verb E.T E.LANES width block.now (take result text.new) }
{
    match verb {
        Verb::Ramp => write_ramp::<E>(width, text),
        Verb::Pack => write_packed::<E>(width, block, text),
        Verb::Unpack => write_unpacked::<E>(width, block, text),
    }
}
