//! Whole buffers from a source, and whole buffers to a sink.

ghost use Rattle.std.specs.Prelude.{◌≡◌, ℕ, ◌+◌, ◌<◌, ◌≤◌, [], length, take, IfErr, IfOk, IsOk, OnErr, OnOk};
ghost use Rattle.fastlanes_streams.specs.Stream.{CountsFailure, Delivers, Gives, StopsShort, Takes, TakesPart};

use crate::stream::{ByteIn, ByteOut, Failed};

/// Fills a buffer from the source until it is full or the source ends, and answers how many bytes came. It asks for no more
/// than the buffer lacks.
pub fn fill<I: ByteIn>(input: &mut I, buffer: &mut [u8]) -> Result<usize, Failed>
    requires { I.failures input.old < u32.MAX }
    ensures failures { CountsFailure result (I.failures input.old) (I.failures input.new) }
    ensures within { IfOk result (λ count. count ≤ length buffer.new) }
    ensures gives { I.tells → IfOk result (λ count.
        Gives (I.source input.old) (take count buffer.new) (I.source input.new)) }
    ensures ended { I.tells → IfOk result (λ count.
        count < length buffer.new → (I.source input.new).left ≡ []) }
    ensures part { I.tells → OnErr result
        (StopsShort (length buffer.new) (I.source input.old) (I.source input.new)) }
    ensures never_fails { I.never_fails → IsOk result }
{
    let mut filled = 0;
    while filled < buffer.len() {
        match input.read(&mut buffer[filled..]) {
            Ok(0) => return Ok(filled),
            Ok(count) => filled += count,
            Err(_) => return Err(Failed),
        }
    }
    Ok(filled)
}

/// Writes all of the bytes, in as many calls as the sink asks for.
pub fn deliver<O: ByteOut>(output: &mut O, bytes: &[u8]) -> Result<(), Failed>
    requires { O.failures output.old < u32.MAX }
    ensures failures { CountsFailure result (O.failures output.old) (O.failures output.new) }
    ensures takes { O.tells → OnOk result
        (Takes (O.sink output.old) bytes.now (O.sink output.new)) }
    ensures part { O.tells → OnErr result
        (TakesPart (O.sink output.old) bytes.now (O.sink output.new)) }
    ensures room_succeeds { (n : ℕ) → O.has_room output.old (length bytes.now + n) → IsOk result }
    ensures room_left { (n : ℕ) → O.has_room output.old (length bytes.now + n)
        → O.has_room output.new n }
{
    let mut written = 0;
    while written < bytes.len() {
        match output.write(&bytes[written..]) {
            Ok(count) => written += count,
            Err(_) => return Err(Failed),
        }
    }
    Ok(())
}

/// Writes all of the bytes, and flushes.
pub fn finish<O: ByteOut>(output: &mut O, bytes: &[u8]) -> Result<(), Failed>
    requires { O.failures output.old < u32.MAX }
    ensures failures { CountsFailure result (O.failures output.old) (O.failures output.new) }
    ensures delivers { O.tells → OnOk result
        (Delivers (O.sink output.old) bytes.now (O.sink output.new)) }
    ensures part { O.tells → OnErr result
        (TakesPart (O.sink output.old) bytes.now (O.sink output.new)) }
    ensures room_succeeds { (n : ℕ) → O.has_room output.old (length bytes.now + n) → IsOk result }
    ensures room_left { (n : ℕ) → O.has_room output.old (length bytes.now + n)
        → O.has_room output.new n }
{
    deliver(output, bytes)?;
    output.flush()
}
