//! Bytes divided by a multiple of the generator that has six terms. What is left of them is short and has the same checksum. A byte of
//! the quotient is the sum of a byte that is divided and of five that come before it in the quotient: the compiler computes
//! many at once, as vectors, and reads no table.

ghost use Rattle.std.specs.Prelude.{◌≡◌, ℕ, ◌+◌, ◌<◌, ◌≤◌, bit_xor, length};
ghost use Rattle.fastlanes_checksum.specs.Checksum.{register_after};
ghost use Rattle.fastlanes_checksum.specs.Multiple.{AreDivided, byte_at, pending, piece, span, sum_at};

use crate::after_all;

/// How many bytes are left of a division.
const SPAN: usize = 1672;

/// How many bytes are divided at a time, at most.
const PIECE: usize = 13376;

/// The last span of a quotient, and room for that of a piece behind it.
type Tape = [u8; 15048];

/// The register after the bytes.
pub fn after_division(start: u32, bytes: &[u8]) -> u32
    requires { span ≤ length bytes.now }
    ensures { result ≡ register_after start bytes.now }
{
    let mut tape = [0; 15048];
    put_register(&mut tape, start);
    let end = bytes.len() - SPAN;
    let pieces = end / PIECE;
    for k in 0..pieces {
        divide(&mut tape, &bytes[PIECE * k..PIECE * k + PIECE]);
    }
    divide(&mut tape, &bytes[PIECE * pieces..end]);
    after_last(&mut tape, &bytes[end..])
}

/// Begins a tape of zeros with a register, to which all bytes are added that follow.
fn put_register(tape: &mut Tape, register: u32)
    requires { (i : ℕ) → 4 ≤ i → byte_at tape.old i ≡ 0 }
    ensures { pending (byte_at tape.new) ≡ register }
{
    tape[0] = (register % 256) as u8;
    tape[1] = (register / 256 % 256) as u8;
    tape[2] = (register / 65536 % 256) as u8;
    tape[3] = (register / 16777216) as u8;
}

/// Divides more bytes.
fn divide(tape: &mut Tape, bytes: &[u8])
    requires { length bytes.now ≤ piece }
    ensures { AreDivided bytes.now (pending (byte_at tape.old)) (pending (byte_at tape.new)) }
{
    write_quotient(tape, bytes);
    are_bytes(tape);
    keep_last(tape, bytes.len());
}

/// Writes the quotient of the bytes behind the span before it.
fn write_quotient(tape: &mut Tape, bytes: &[u8])
    requires { length bytes.now ≤ piece }
    ensures each { (i : ℕ) → i < length bytes.now → byte_at bytes.now i ≡ sum_at (byte_at tape.new) i }
    ensures others { (i : ℕ) → i < span → byte_at tape.new i ≡ byte_at tape.old i }
{
    for i in 0..bytes.len() {
        tape[1672 + i] = bytes[i]
            ^ tape[i]
            ^ tape[112 + i]
            ^ tape[312 + i]
            ^ tape[432 + i]
            ^ tape[1152 + i];
    }
}

/// What a proof learns of bytes: that they are such. It does nothing.
fn are_bytes(bytes: &[u8])
    ensures { (i : ℕ) → byte_at bytes.now i < 256 }
{
    let _all = &bytes[..];
}

/// Moves the last span of a quotient of n bytes to where the tape begins.
fn keep_last(tape: &mut Tape, n: usize)
    requires { n ≤ piece }
    ensures { (i : ℕ) → i < span → byte_at tape.new i ≡ byte_at tape.old (n + i) }
{
    for i in 0..SPAN {
        tape[i] = tape[n + i];
    }
}

/// The register after the last span of bytes, which are added to what is pending.
fn after_last(tape: &mut Tape, bytes: &[u8]) -> u32
    requires { length bytes.now ≡ span }
    ensures { result ≡ register_after (pending (byte_at tape.old)) bytes.now }
{
    clear_behind(tape);
    are_bytes(tape);
    after_all(0, &remainder(tape, bytes))
}

/// Clears the span behind the first one: there the quotient has ended.
fn clear_behind(tape: &mut Tape)
    ensures behind { (i : ℕ) → i < span → byte_at tape.new (span + i) ≡ 0 }
    ensures others { (i : ℕ) → i < span → byte_at tape.new i ≡ byte_at tape.old i }
{
    for i in 0..SPAN {
        tape[SPAN + i] = 0;
    }
}

/// The last span of bytes with what the quotient adds to each.
fn remainder(tape: &Tape, bytes: &[u8]) -> [u8; 1672]
    requires bytes { length bytes.now ≡ span }
    requires ended { (i : ℕ) → i < span → byte_at tape.now (span + i) ≡ 0 }
    ensures long { length result ≡ span }
    ensures each { (i : ℕ) → i < span → byte_at result i ≡ bit_xor (byte_at bytes.now i) (sum_at (byte_at tape.now) i) }
{
    let mut left = [0; 1672];
    for i in 0..SPAN {
        left[i] = bytes[i]
            ^ tape[i]
            ^ tape[112 + i]
            ^ tape[312 + i]
            ^ tape[432 + i]
            ^ tape[1152 + i];
    }
    left
}
