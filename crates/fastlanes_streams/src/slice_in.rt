//! A slice as a source of bytes, which is known exactly.

ghost use Rattle.std.specs.Prelude.{◌≡◌, ◌<◌, ◌≤◌, [], ⊤, drop, length, min, take, Ok, IsOk, IfOk, OnErr};
ghost use Rattle.fastlanes_streams.specs.Stream.{CountsFailure, Gives};

use crate::stream::{ByteIn, Failed};

/// A source that gives the bytes of a slice and never fails.
#[derive(Drop)]
pub struct SliceIn<'a> {
    bytes: &'a [u8],
    used: usize,
    ghost within: { used ≤ length bytes.now },
}

impl<'a> SliceIn<'a> {
    ghost use Rattle.fastlanes_streams.specs.Slices.{slice_source};

    pub fn new(bytes: &'a [u8]) -> SliceIn<'a>
        ensures { slice_source result ≡ record { given = []; left = bytes.now } }
    {
        SliceIn { bytes, used: 0 }
    }

    /// How many bytes it gave.
    pub fn used(&self) -> usize
        ensures { result ≡ length (slice_source self.now).given }
    {
        self.used
    }
}

impl ByteIn for SliceIn<'_> {
    ghost use Rattle.fastlanes_streams.specs.Slices.{slice_source};

    ghost failures = { λ s. 0 };

    ghost tells = { ⊤ };

    ghost source = { slice_source };

    ghost never_fails = { ⊤ };

    fn read(&mut self, buf: &mut [u8]) -> Result<usize, Failed>
        ensures never_fails { IsOk result }
        // It gives as many bytes as it has, up to the buffer's length.
        ensures count { IfOk result
            (λ n. n ≡ min (length buf.new) (length (slice_source self.old).left)) }
        ensures within { IfOk result (λ n. n ≤ length buf.new) }
        // The rest of the buffer stays.
        ensures rest { IfOk result (λ n. drop n buf.new ≡ drop n buf.old) }
        ensures failures { CountsFailure result 0 0 }
        ensures gives { IfOk result
            (λ n. Gives (slice_source self.old) (take n buf.new) (slice_source self.new)) }
        ensures keeps { OnErr result (slice_source self.new ≡ slice_source self.old) }
        ensures end { 0 < length buf.new → result ≡ Ok 0 → (slice_source self.old).left ≡ [] }
    {
        let count = buf.len().min(self.bytes.len() - self.used);
        let end = self.used + count;
        buf[..count].copy_from_slice(&self.bytes[self.used..end]);
        self.used = end;
        Ok(count)
    }

    fn failures(&self) -> u32 {
        0
    }
}
