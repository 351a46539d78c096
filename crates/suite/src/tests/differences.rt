//! Blocks packed as the differences of their neighbours.

ghost use Rattle.std.specs.Prelude.{◌≡◌, ◌≤◌};

use crate::tests::assertions::assert_equal;
use crate::tests::numbers::ramp;
use fastlanes::{Delta, packed_len, transpose};
use fastlanes_column::{delta_bases, delta_head, delta_read, delta_write};
use std::fmt::Debug;
use std::process::Abort;

/// What comes back from a block's words of this width, whatever the output held before.
fn assert_written<E: Delta<LANES> + Debug, const LANES: usize>(
    rt: &impl Abort,
    width: usize,
    block: &[E; 1024],
    base: &[E; LANES],
    back: &[E; 1024],
)
    requires lanes { LANES ≡ E.LANES }
    requires width { width ≤ E.T }
{
    let mut words = [E::one(); 1024];
    let words = &mut words[..packed_len::<E>(width)];
    delta_write(width, block, base, words);
    let mut output = [E::zero(); 1024];
    delta_read(width, words, base, &mut output);
    assert_equal(rt, output, *back);
    let mut output = [E::max_value(); 1024];
    delta_read(width, words, base, &mut output);
    assert_equal(rt, output, *back);
}

/// The differences of a block's neighbours need this width, and the block comes back from them.
fn assert_head<E: Delta<LANES> + Debug, const LANES: usize>(
    rt: &impl Abort,
    width: usize,
    block: &[E; 1024],
    base: &[E; LANES],
)
    requires lanes { LANES ≡ E.LANES }
{
    let found = delta_head(block, base);
    assert_equal(rt, found, width);
    assert_written(rt, found, block, base, block);
}

/// The eighths of the places.
fn eighths() -> [u16; 1024] {
    ramp(0, 1, 8, 1024)
}

/// The eighth at which each lane begins.
fn first_eighths() -> [u16; 64] {
    let mut base = [0; 64];
    for lane in 0..64 {
        base[lane] = (transpose(lane) / 8) as u16;
    }
    base
}

#[test]
fn eighths_from_nothing(rt: HostRuntime) {
    assert_head(&rt, 7, &eighths(), &[0; 64]);
    // At a bit less, what a lane begins with is too great from place 512 on.
    let back = ramp(0, 1, 8, 512);
    assert_written(&rt, 6, &eighths(), &[0; 64], &back);
}

#[test]
fn eighths_from_those_before(rt: HostRuntime) {
    assert_head(&rt, 1, &eighths(), &first_eighths());
}

#[test]
fn equal_neighbours_need_no_words(rt: HostRuntime) {
    assert_head(&rt, 0, &[7u8; 1024], &[7; 128]);
    assert_head(&rt, 0, &[7u64; 1024], &[7; 16]);
}

#[test]
fn falling_values_wrap(rt: HostRuntime) {
    // Each is one less than the one before it, and so is the difference: 2^T - 1.
    assert_head(&rt, 32, &ramp(1023, u32::MAX, 1, 1024), &[0; 32]);
    assert_head(&rt, 64, &ramp(0, u64::MAX, 1, 2), &[0; 16]);
}

/// Ten to each place, from a thousand million on.
fn tens() -> [u32; 1024] {
    ramp(1_000_000_000, 10, 1, 1024)
}

#[test]
fn a_base_is_the_value_before_its_lane(rt: HostRuntime) {
    let mut base = [9; 32];
    delta_bases(7, &tens(), &mut base);
    // The lanes 1, 2, 16 and 31 begin with the values 64, 128, 32 and 992.
    let wanted = [
        7,
        1_000_000_630,
        1_000_001_270,
        1_000_000_310,
        1_000_009_910,
    ];
    assert_equal(&rt, [base[0], base[1], base[2], base[16], base[31]], wanted);
}

#[test]
fn bases_of_bytes(rt: HostRuntime) {
    let mut base = [9; 128];
    delta_bases(7, &ramp(0u8, 1, 1, 256), &mut base);
    // The lanes 16, 64 and 127 begin with the values 32, 8 and 1016.
    let found = [base[0], base[16], base[64], base[127]];
    assert_equal(&rt, found, [7, 31, 7, 247]);
}

#[test]
fn differences_of_neighbours_alone(rt: HostRuntime) {
    let block = tens();
    let mut base = [0; 32];
    // From nothing each lane begins with a whole value.
    assert_head(&rt, 30, &block, &base);
    delta_bases(block[0], &block, &mut base);
    assert_head(&rt, 4, &block, &base);
}

#[test]
fn the_first_value_less_the_last_one_before(rt: HostRuntime) {
    let block: [u64; 1024] = ramp(1024, 1, 1, 1024);
    let mut base = [0; 16];
    delta_bases(1023, &block, &mut base);
    assert_head(&rt, 1, &block, &base);
    // 1024 has eleven bits.
    delta_bases(0, &block, &mut base);
    assert_head(&rt, 11, &block, &base);
}
