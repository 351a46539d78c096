//! A slice as a sink of bytes, which is known exactly.

ghost use Rattle.std.specs.Prelude.{◌≡◌, ℕ, ◌+◌, ◌-◌, ◌<◌, ◌≤◌, ◌↔◌, [], ⊤, length, min, take, IsOk, IsErr, IfOk, OnOk, OnErr};
ghost use Rattle.fastlanes_streams.specs.Stream.{CountsFailure, Flushes, Takes};

use crate::stream::{ByteOut, Failed};

/// A sink that fills a slice, and fails where bytes come and the slice is full.
#[derive(Drop)]
pub struct SliceOut<'a> {
    bytes: &'a mut [u8],
    used: usize,
    flushed: usize,
    failures: u32,
    ghost within: { used ≤ length bytes.now },
}

impl<'a> SliceOut<'a> {
    ghost use Rattle.fastlanes_streams.specs.Slices.{slice_failures, slice_room, slice_sink};

    pub fn new(bytes: &'a mut [u8]) -> SliceOut<'a>
        ensures sink { slice_sink result
            ≡ record { taken = []; flushed = 0; left = bytes.old; target = bytes.entry.ghost_name } }
        ensures room { slice_room result ≡ length bytes.old }
        ensures failures { slice_failures result ≡ 0 }
    {
        SliceOut {
            bytes,
            used: 0,
            flushed: 0,
            failures: 0,
        }
    }

    /// How many bytes it took.
    pub fn used(&self) -> usize
        ensures { result ≡ length (slice_sink self.now).taken }
    {
        self.used
    }

    /// How many bytes it had taken at its last flush, 0 before the first.
    pub fn flushed(&self) -> usize
        ensures { result ≡ (slice_sink self.now).flushed }
    {
        self.flushed
    }
}

impl ByteOut for SliceOut<'_> {
    ghost use Rattle.fastlanes_streams.specs.Slices.{slice_failures, slice_room, slice_sink};

    ghost failures = { slice_failures };

    ghost tells = { ⊤ };

    ghost sink = { slice_sink };

    ghost has_room = { λ s n. n ≤ slice_room s };

    fn write(&mut self, bytes: &[u8]) -> Result<usize, Failed>
        requires { slice_failures self.old < u32.MAX }
        // It takes as many bytes as fit.
        ensures count { IfOk result (λ n. n ≡ min (length bytes.now) (slice_room self.old)) }
        ensures room { IfOk result (λ n. slice_room self.new + n ≡ slice_room self.old) }
        ensures full { IsErr result ↔ ((slice_room self.old ≡ 0) × (0 < length bytes.now)) }
        ensures full_room { OnErr result (slice_room self.new ≡ slice_room self.old) }
        ensures room_succeeds { (n : ℕ) → length bytes.now + n ≤ slice_room self.old → IsOk result }
        ensures room_left { (n : ℕ) → length bytes.now + n ≤ slice_room self.old
            → IfOk result (λ count. length bytes.now - count + n ≤ slice_room self.new) }
        ensures within { IfOk result (λ n. n ≤ length bytes.now) }
        ensures some { 0 < length bytes.now → IfOk result (λ n. 0 < n) }
        ensures failures { CountsFailure result (slice_failures self.old)
            (slice_failures self.new) }
        ensures takes { IfOk result
            (λ n. Takes (slice_sink self.old) (take n bytes.now) (slice_sink self.new)) }
        ensures keeps { OnErr result (slice_sink self.new ≡ slice_sink self.old) }
    {
        let count = bytes.len().min(self.bytes.len() - self.used);
        if count == 0 && !bytes.is_empty() {
            self.failures += 1;
            return Err(Failed);
        }
        let end = self.used + count;
        self.bytes[self.used..end].copy_from_slice(&bytes[..count]);
        self.used = end;
        Ok(count)
    }

    fn flush(&mut self) -> Result<(), Failed>
        ensures never_fails { IsOk result }
        ensures room { slice_room self.new ≡ slice_room self.old }
        ensures room_left { (n : ℕ) → n ≤ slice_room self.old → n ≤ slice_room self.new }
        ensures failures { CountsFailure result (slice_failures self.old)
            (slice_failures self.new) }
        ensures flushes { OnOk result (Flushes (slice_sink self.old) (slice_sink self.new)) }
        ensures keeps { OnErr result (slice_sink self.new ≡ slice_sink self.old) }
    {
        self.flushed = self.used;
        Ok(())
    }

    fn failures(&self) -> u32 {
        self.failures
    }
}
