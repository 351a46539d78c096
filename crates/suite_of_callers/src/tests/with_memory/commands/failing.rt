//! Sources and sinks that fail: at every byte where the input can end, at every call, and at every room of a slice. The block
//! is one of 2048 bytes with a byte more after it, which packs to 384 bytes.

ghost use Rattle.std.specs.Prelude.{◌≤◌};

use crate::tests::with_memory::commands::bytes::{
    ROOM, assert_byte, assert_number, first, low_digits, packed_digits,
};
use crate::tests::with_memory::commands::run::assert_answer;
use crate::tests::with_memory::commands::streams::{CountingOut, SlowIn};
use flblock::error::BlockError::{self, ReadFailed, ShortInput, WriteFailed};
use flblock::slice_in::SliceIn;
use flblock::slice_out::SliceOut;
use flblock::stream::ByteOut;
use std::process::Abort;

/// A run from a source of so many bytes, which fails at this read, gives this refusal after so many reads, and writes
/// nothing. Without a failure the last read finds the end, and there is none after it.
fn assert_no_block<R: Abort + AllocGlobal>(
    rt: &R,
    line: &str,
    len: usize,
    failing_read: u32,
    refusal: BlockError,
) {
    let values = low_digits();
    let mut input = SlowIn::new(first(rt, &values, len), failing_read);
    let mut bytes = [0; ROOM];
    let mut output = CountingOut::new(&mut bytes, ROOM);
    assert_answer(rt, line, &mut input, &mut output, Err(refusal));
    output.assert_counts(rt, 0, 0, 0, 0);
    if failing_read == 0 {
        input.assert_counts(rt, len, len.saturating_add(1), 0);
    } else {
        let reads = failing_read as usize;
        input.assert_counts(rt, reads - 1, reads, 1);
    }
}

#[test]
fn input_may_end_at_every_byte(rt: HostRuntime) {
    for len in 0..2048 {
        assert_no_block(&rt, "pack u16 3", len, 0, ShortInput);
    }
    assert_no_block(&rt, "unpack u16 3", 383, 0, ShortInput);
}

#[test]
fn every_read_may_fail(rt: HostRuntime) {
    for call in 1..=2048 {
        assert_no_block(&rt, "pack u16 3", 2049, call, ReadFailed);
    }
    assert_no_block(&rt, "pack u8 1", 2049, 1, ReadFailed);
}

/// The first bytes are the first of the packed block, and the rest of them stay as they were filled.
fn assert_beginning(rt: &impl Abort, bytes: &[u8], len: usize, fill: u8) {
    let packed = packed_digits();
    for (place, byte) in bytes.iter().enumerate() {
        let expected = match packed.get(place) {
            Some(packed) if place < len => *packed,
            _ => fill,
        };
        assert_byte(rt, place, *byte, expected);
    }
}

/// What a slice of so many bytes holds where the output finds no more room in it.
fn assert_full_slice<R: Abort + AllocGlobal>(rt: &R, room: usize)
    requires { room ≤ 384 }
{
    let values = low_digits();
    let mut bytes = [0xEE; 400];
    let mut input = SliceIn::new(&values);
    let mut output = SliceOut::new(&mut bytes[..room]);
    assert_answer(rt, "pack u16 3", &mut input, &mut output, Err(WriteFailed));
    assert_number(rt, output.used(), room);
    assert_number(rt, output.flushed(), 0);
    assert_number(rt, output.failures() as usize, 1);
    assert_number(rt, input.used(), 2048);
    assert_beginning(rt, &bytes, room, 0xEE);
}

#[test]
fn slices_may_be_too_short(rt: HostRuntime) {
    for room in 0..384 {
        assert_full_slice(&rt, room);
    }
}

/// What a sink that takes one byte a call has where the write of this number fails, or at 0 none does, and where the flush
/// after the last byte may fail.
fn assert_slow_sink<R: Abort + AllocGlobal>(rt: &R, failing_write: u32, flush_fails: bool) {
    let values = low_digits();
    let mut bytes = [0xEE; 400];
    let mut input = SlowIn::new(&values, 0);
    let mut output = CountingOut::new(&mut bytes, 1);
    output.failing_write = failing_write;
    output.flush_fails = flush_fails;
    let (taken, writes, flushes) = if failing_write == 0 {
        (384, 384, 1)
    } else {
        (failing_write as usize - 1, failing_write, 0)
    };
    let fails = failing_write > 0 || flush_fails;
    let answer = if fails { Err(WriteFailed) } else { Ok(()) };
    assert_answer(rt, "pack u16 3", &mut input, &mut output, answer);
    output.assert_counts(rt, taken, writes, flushes, u32::from(fails));
    // One byte of the 2049 stays unread.
    input.assert_counts(rt, 2048, 2048, 0);
    assert_beginning(rt, &bytes, taken, 0xEE);
}

#[test]
fn every_write_may_fail(rt: HostRuntime) {
    for call in 1..=384 {
        assert_slow_sink(&rt, call, false);
    }
}

#[test]
fn a_flush_may_fail_after_the_last_byte(rt: HostRuntime) {
    assert_slow_sink(&rt, 0, true);
}

#[test]
fn bytes_may_come_and_go_one_by_one(rt: HostRuntime) {
    assert_slow_sink(&rt, 0, false);
}

#[test]
fn no_bytes_are_not_written(rt: HostRuntime) {
    let mut output = CountingOut::new(&mut [], 1);
    let mut input = SliceIn::new(&[7; 1024]);
    assert_answer(&rt, "pack u8 0", &mut input, &mut output, Ok(()));
    output.assert_counts(&rt, 0, 0, 1, 0);
}

/// The bytes are 0 below the place 8192, and from there on as they were filled.
fn assert_zeros(rt: &impl Abort, bytes: &[u8]) {
    for (place, byte) in bytes.iter().enumerate() {
        assert_byte(rt, place, *byte, if place < 8192 { 0 } else { 0xEE });
    }
}

#[test]
fn no_bytes_are_not_read(rt: HostRuntime) {
    let mut bytes = [0xEE; 8200];
    let mut output = CountingOut::new(&mut bytes, ROOM);
    let mut input = SlowIn::new(b"", 1);
    assert_answer(&rt, "unpack u64 0", &mut input, &mut output, Ok(()));
    output.assert_counts(&rt, 8192, 1, 1, 0);
    input.assert_counts(&rt, 0, 0, 0);
    assert_zeros(&rt, &bytes);
}
