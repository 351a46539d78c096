//! Where bytes come from and go to: a source of bytes and a sink of bytes, which may fail at each call.

ghost use Rattle.std.specs.Prelude.{◌≡◌, ℕ, ◌+◌, ◌-◌, ◌<◌, ◌≤◌, [], length, take, Ok, IfOk, IsOk, OnOk, OnErr};
ghost use Rattle.fastlanes_streams.specs.Stream.{Source, Sink, CountsFailure, Gives, Takes, Flushes};

/// A call of a source or a sink failed.
#[derive(Clone, Copy, PartialEq, Eq, Debug)]
pub struct Failed;

/// A source of bytes.
pub trait ByteIn {
    // How many calls have failed.
    ghost failures: { Self → ℕ };

    // Whether such a source tells its bytes. One that does not promises nothing of them.
    ghost tells: { Type 0 };

    // The bytes that it gave, and those that it has left.
    ghost source: { Self → Source };

    // Whether no read of such a source fails. A source that does not say so may fail at each read.
    ghost never_fails: { Type 0 } = { ⊥ };

    /// Puts the next bytes at the start of `buf` and answers how many, at most its length. `Ok(0)` for a buffer
    /// that is not empty is the end of the bytes.
    fn read(&mut self, buf: &mut [u8]) -> Result<usize, Failed>
        requires { failures self.old < u32.MAX }
        ensures within { IfOk result (λ n. n ≤ length buf.new) }
        ensures failures { CountsFailure result (failures self.old) (failures self.new) }
        ensures gives { tells
            → IfOk result (λ n. Gives (source self.old) (take n buf.new) (source self.new)) }
        ensures keeps { tells → OnErr result (source self.new ≡ source self.old) }
        ensures end { tells → 0 < length buf.new → result ≡ Ok 0 → (source self.old).left ≡ [] }
        ensures never_fails { never_fails → IsOk result };

    /// How many calls have failed.
    fn failures(&self) -> u32
        ensures { result ≡ failures self.now };
}

/// A sink of bytes.
pub trait ByteOut {
    // How many calls have failed.
    ghost failures: { Self → ℕ };

    // Whether such a sink tells its bytes. One that does not promises nothing of them.
    ghost tells: { Type 0 };

    // The bytes that it took, how many it had taken at its last flush, and those that it is to write over, and where.
    ghost sink: { Self → Sink };

    // Whether the sink takes so many bytes more, and each flush, without a failure. A sink that does not say so may fail
    // at each call.
    ghost has_room: { Self → ℕ → Type 0 } = { λ s n. ⊥ };

    /// Takes the first of the bytes and answers how many: at least one, where there are any.
    fn write(&mut self, bytes: &[u8]) -> Result<usize, Failed>
        requires { failures self.old < u32.MAX }
        ensures within { IfOk result (λ n. n ≤ length bytes.now) }
        ensures some { 0 < length bytes.now → IfOk result (λ n. 0 < n) }
        ensures failures { CountsFailure result (failures self.old) (failures self.new) }
        ensures takes { tells
            → IfOk result (λ n. Takes (sink self.old) (take n bytes.now) (sink self.new)) }
        ensures keeps { tells → OnErr result (sink self.new ≡ sink self.old) }
        // With room for the bytes and for n more it does not fail, and has room for what is left of them and for n more.
        ensures room_succeeds { (n : ℕ) → has_room self.old (length bytes.now + n) → IsOk result }
        ensures room_left { (n : ℕ) → has_room self.old (length bytes.now + n)
            → IfOk result (λ count. has_room self.new (length bytes.now - count + n)) };

    /// Passes on what was taken.
    fn flush(&mut self) -> Result<(), Failed>
        requires { failures self.old < u32.MAX }
        ensures failures { CountsFailure result (failures self.old) (failures self.new) }
        ensures flushes { tells → OnOk result (Flushes (sink self.old) (sink self.new)) }
        ensures keeps { tells → OnErr result (sink self.new ≡ sink self.old) }
        ensures room_succeeds { (n : ℕ) → has_room self.old n → IsOk result }
        ensures room_left { (n : ℕ) → has_room self.old n → has_room self.new n };

    /// How many calls have failed.
    fn failures(&self) -> u32
        ensures { result ≡ failures self.now };
}
