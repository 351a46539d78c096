//! Whole buffers from a source, and whole buffers to a sink, with the errors of columns.

ghost use Rattle.std.specs.Prelude.{◌≡◌, ℕ, ◌+◌, ◌<◌, ◌≤◌, [], length, take, IfErr, IfOk, IsOk, OnOk};
ghost use Rattle.fastlanes_streams.specs.Stream.{Gives, Takes, Delivers};
ghost use Rattle.fastlanes_column_streams.specs.Failures.{failed_reads, failed_writes};

use crate::error::StreamError;
use fastlanes_streams::{ByteIn, ByteOut};

/// Fills a buffer from the source until it is full or the source ends, and answers how many bytes came.
pub fn fill<I: ByteIn>(input: &mut I, buffer: &mut [u8]) -> Result<usize, StreamError>
    requires { I.failures input.old < u32.MAX }
    ensures only_read_failed { IfErr result (λ e. e ≡ StreamError.ReadFailed) }
    ensures failed_reads { I.failures input.new ≡ I.failures input.old + failed_reads result }
    ensures within { IfOk result (λ count. count ≤ length buffer.new) }
    ensures gives { I.tells → IfOk result (λ count.
        Gives (I.source input.old) (take count buffer.new) (I.source input.new)) }
    ensures ended { I.tells → IfOk result (λ count.
        count < length buffer.new → (I.source input.new).left ≡ []) }
    ensures never_fails { I.never_fails → IsOk result }
{
    fastlanes_streams::fill(input, buffer).map_err(|_| StreamError::ReadFailed)
}

/// Writes all of the bytes, in as many calls as the sink asks for.
pub fn deliver<O: ByteOut>(output: &mut O, bytes: &[u8]) -> Result<(), StreamError>
    requires { O.failures output.old < u32.MAX }
    ensures only_write_failed { IfErr result (λ e. e ≡ StreamError.WriteFailed) }
    ensures failed_writes { O.failures output.new ≡ O.failures output.old + failed_writes result }
    ensures takes { O.tells → OnOk result
        (Takes (O.sink output.old) bytes.now (O.sink output.new)) }
    ensures room_succeeds { (n : ℕ) → O.has_room output.old (length bytes.now + n) → IsOk result }
    ensures room_left { (n : ℕ) → O.has_room output.old (length bytes.now + n)
        → O.has_room output.new n }
{
    fastlanes_streams::deliver(output, bytes).map_err(|_| StreamError::WriteFailed)
}

/// Writes the last of the bytes, and flushes.
pub fn finish<O: ByteOut>(output: &mut O, bytes: &[u8]) -> Result<(), StreamError>
    requires { O.failures output.old < u32.MAX }
    ensures only_write_failed { IfErr result (λ e. e ≡ StreamError.WriteFailed) }
    ensures failed_writes { O.failures output.new ≡ O.failures output.old + failed_writes result }
    ensures delivers { O.tells → OnOk result
        (Delivers (O.sink output.old) bytes.now (O.sink output.new)) }
    ensures room_succeeds { (n : ℕ) → O.has_room output.old (length bytes.now + n) → IsOk result }
    ensures room_left { (n : ℕ) → O.has_room output.old (length bytes.now + n)
        → O.has_room output.new n }
{
    fastlanes_streams::finish(output, bytes).map_err(|_| StreamError::WriteFailed)
}
