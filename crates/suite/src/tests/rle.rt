//! Runs of values.

ghost use Rattle.std.specs.Prelude.{◌≡◌, ℕ, slice_get, ◌<◌, ◌≤◌};
ghost use Rattle.std.specs.Cmp.{on_per};
ghost use Rattle.std.specs.Ordering.{on};
ghost use Rattle.fastlanes.specs.Memory.{BlockFitsInMemory};
ghost use Rattle.fastlanes.specs.RunLengths.{IsIdentityOn};
ghost use Rattle.suite.specs.Equalities.{equal_but_zero, equal_but_zero-laws};

use crate::tests::assertions::{assert_equal, assert_equal_at};
use fastlanes::{RLE, RunIndex};
use std::fmt::Debug;
use std::process::Abort;

/// A number of which equality sees a part alone.
#[derive(Clone, Copy)]
#[derive_where(PartialEq)]
struct Number {
    #[derive_where(skip)]
    whole: u8,
    part: u8,
}

/// A number of which equality sees the last decimal digit.
fn by_last_digit(whole: u8) -> Number {
    Number {
        whole,
        part: whole % 10,
    }
}

/// A number of which equality sees the half.
fn by_half(whole: u8) -> Number {
    Number {
        whole,
        part: whole / 2,
    }
}

/// A number that equals itself unless it is 0, which equals nothing.
#[derive(Clone, Copy)]
struct NotZero(u8);

impl PartialEq for NotZero {
    ghost eq = { on (λ x. x.0) equal_but_zero };

    ghost laws = { on_per (λ x. x.0) equal_but_zero-laws };

    fn eq(&self, other: &NotZero) -> bool {
        self.0 == other.0 && self.0 != 0
    }
}

/// Encodes `input` into `rle_vals`, and decodes that into `output`: the values come back where equal values are one.
fn go_and_come_back<V: RLE>(input: &[V; 1024], rle_vals: &mut [V; 1024], output: &mut [V; 1024])
    ensures { IsIdentityOn V.eq input.now → (i : ℕ) → i < 1024 → slice_get output.new i ≡ slice_get input.now i }
{
    let mut rle_idxs = [u16::MAX; 1024];
    let _count = V::encode_unchecked(input, rle_vals, &mut rle_idxs);
    V::decode_unchecked(rle_vals, &rle_idxs, output);
}

/// The values come back, whatever the dictionary and the output held before.
fn assert_comes_back<V: RLE + PartialEq + Copy + Debug>(
    rt: &impl Abort,
    input: &[V; 1024],
    rle_vals: &mut [V; 1024],
    output: &mut [V; 1024],
) {
    go_and_come_back(input, rle_vals, output);
    for i in 0..1024 {
        assert_equal_at(rt, i, output[i], input[i]);
    }
}

/// The places from `from` up to `to` are in the run of this number.
fn assert_run(rt: &impl Abort, rle_idxs: &[u16; 1024], from: usize, to: usize, number: u16)
    requires { to ≤ 1024 }
{
    for i in from..to {
        assert_equal_at(rt, i, rle_idxs[i], number);
    }
}

/// Each place is in a run of its own.
fn assert_every_place_starts(rt: &impl Abort, count: usize, rle_idxs: &[u16; 1024]) {
    assert_equal(rt, count, 1024);
    for i in 0..1024u16 {
        assert_equal(rt, rle_idxs[i as usize], i);
    }
}

#[test]
fn separates_runs_of_one_value(rt: HostRuntime) {
    let mut input = [7u8; 1024];
    for i in 512..1023 {
        input[i] = 9;
    }
    let mut rle_vals = [0xEE; 1024];
    let mut rle_idxs = [u16::MAX; 1024];
    let count = u8::encode_unchecked(&input, &mut rle_vals, &mut rle_idxs);
    assert_equal(&rt, count, 3);
    let mut entries = [0xEE; 1024];
    entries[0] = 7;
    entries[1] = 9;
    entries[2] = 7;
    assert_equal(&rt, rle_vals, entries);
    assert_run(&rt, &rle_idxs, 0, 512, 0);
    assert_run(&rt, &rle_idxs, 512, 1023, 1);
    assert_run(&rt, &rle_idxs, 1023, 1024, 2);
    assert_comes_back(&rt, &input, &mut rle_vals, &mut [0xEE; 1024]);
}

#[test]
fn counts_every_change(rt: HostRuntime) {
    let mut input = [0u8; 1024];
    for i in 0..1024 {
        input[i] = (i % 256) as u8;
    }
    let mut rle_vals = [0; 1024];
    let mut rle_idxs = [u16::MAX; 1024];
    let count = u8::encode_unchecked(&input, &mut rle_vals, &mut rle_idxs);
    assert_every_place_starts(&rt, count, &rle_idxs);
    assert_comes_back(&rt, &input, &mut rle_vals, &mut [1; 1024]);
}

#[test]
fn numbers_hundreds(rt: HostRuntime) {
    let mut input = [0u32; 1024];
    for i in 0..1024u32 {
        input[i as usize] = i / 100 + 1;
    }
    let mut rle_vals = [0; 1024];
    let mut rle_idxs = [u16::MAX; 1024];
    let count = u32::encode_unchecked(&input, &mut rle_vals, &mut rle_idxs);
    assert_equal(&rt, count, 11);
    for run in 0..11 {
        assert_equal_at(&rt, run, rle_vals[run], run as u32 + 1);
    }
    assert_run(&rt, &rle_idxs, 0, 100, 0);
    assert_run(&rt, &rle_idxs, 100, 200, 1);
    assert_run(&rt, &rle_idxs, 1000, 1024, 10);
    assert_comes_back(&rt, &input, &mut rle_vals, &mut [u32::MAX; 1024]);
}

#[test]
fn finds_one_run(rt: HostRuntime) {
    let input = [42u16; 1024];
    let mut rle_vals = [0; 1024];
    let mut rle_idxs = [u16::MAX; 1024];
    let count = u16::encode_unchecked(&input, &mut rle_vals, &mut rle_idxs);
    assert_equal(&rt, count, 1);
    assert_equal(&rt, rle_vals[0], 42);
    assert_run(&rt, &rle_idxs, 0, 1024, 0);
    assert_comes_back(&rt, &input, &mut rle_vals, &mut [0; 1024]);
}

/// The block has two runs: one of `first`, and from the place `from` on one of `second`.
fn assert_two_runs(rt: &impl Abort, input: &[Number; 1024], first: u8, from: usize, second: u8)
    requires { from ≤ 1024 }
{
    let mut rle_vals = [by_half(99); 1024];
    let mut rle_idxs = [u16::MAX; 1024];
    let count = Number::encode_unchecked(input, &mut rle_vals, &mut rle_idxs);
    assert_equal(rt, count, 2);
    assert_equal(rt, rle_vals[0].whole, first);
    assert_equal(rt, rle_vals[1].whole, second);
    assert_run(rt, &rle_idxs, 0, from, 0);
    assert_run(rt, &rle_idxs, from, 1024, 1);
    let mut output = [by_half(99); 1024];
    Number::decode_unchecked(&rle_vals[..count], &rle_idxs, &mut output);
    for i in 0..1024 {
        assert_equal_at(
            rt,
            i,
            output[i].whole,
            if i < from { first } else { second },
        );
    }
}

#[test]
fn keeps_the_first_of_equal_values(rt: HostRuntime) {
    let mut input = [by_last_digit(4); 1024];
    input[0] = by_last_digit(3);
    for i in 1..512 {
        input[i] = by_last_digit(13);
    }
    assert_two_runs(&rt, &input, 3, 512, 4);
}

#[test]
fn compares_with_the_last_start(rt: HostRuntime) {
    let mut input = [by_half(2); 1024];
    input[0] = by_half(0);
    input[1] = by_half(1);
    assert_two_runs(&rt, &input, 0, 2, 2);
}

#[test]
fn starts_a_run_where_a_value_equals_nothing(rt: HostRuntime) {
    let input = [NotZero(0); 1024];
    let mut rle_vals = [NotZero(1); 1024];
    let mut rle_idxs = [u16::MAX; 1024];
    let count = NotZero::encode_unchecked(&input, &mut rle_vals, &mut rle_idxs);
    assert_every_place_starts(&rt, count, &rle_idxs);
}

/// Decodes by indexes that are `zero` at even places and `one` at odd ones.
fn assert_alternates<I: RunIndex>(rt: &impl Abort, zero: I, one: I)
    requires zero { I.place zero ≡ 0 }
    requires one { I.place one ≡ 1 }
    requires memory { BlockFitsInMemory I.row }
{
    let mut rle_idxs = [zero; 1024];
    for i in 0..512 {
        rle_idxs[2 * i + 1] = one;
    }
    assert_equal(rt, I::four_places(&rle_idxs, 7), [1, 0, 1, 0]);
    let mut output = [0; 1024];
    u8::decode_unchecked(&[5, 9], &rle_idxs, &mut output);
    for i in 0..1024 {
        assert_equal_at(rt, i, output[i], if i % 2 == 0 { 5 } else { 9 });
    }
}

#[test]
fn decodes_by_flags_bytes_words_and_sizes(rt: HostRuntime) {
    assert_alternates(&rt, false, true);
    assert_alternates(&rt, 0u8, 1);
    assert_alternates(&rt, 0u16, 1);
    assert_alternates(&rt, 0usize, 1);
}
