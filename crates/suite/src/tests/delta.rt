//! Differences along the lanes.

ghost use Rattle.std.specs.Prelude.{◌≡◌, ◌*◌, ◌≤◌};

use crate::tests::assertions::{assert_equal, assert_equal_at};
use crate::tests::bitpacking::packed_words;
use crate::tests::numbers::{places, ramp};
use fastlanes::{Delta, Transpose, pack_lane, transpose, undelta_pack, unpack};
use std::fmt::Debug;
use std::process::Abort;

/// A block, transposed.
fn transposed(values: &[u16; 1024]) -> [u16; 1024] {
    let mut output = [9; 1024];
    u16::transpose(values, &mut output);
    output
}

/// The eighths of the places, transposed.
fn eighths() -> [u16; 1024] {
    transposed(&ramp(0, 1, 8, 1024))
}

/// The differences of these along the lanes, from bases of 0.
fn deltas_of_eighths() -> [u16; 1024] {
    let mut deltas = [9; 1024];
    u16::delta(&eighths(), &[0; 64], &mut deltas);
    deltas
}

/// The places, transposed.
fn moved_places() -> [u16; 1024] {
    transposed(&places())
}

/// Where the neighbours of each lane begin.
fn first_places() -> [u16; 64] {
    let mut base = [0; 64];
    for lane in 0..64 {
        base[lane] = transpose(lane) as u16;
    }
    base
}

/// A block is `first` in its first places, as many as a row has lanes, and `other` in all others.
fn assert_first_row<E: PartialEq + Debug + Copy>(
    rt: &impl Abort,
    block: &[E; 1024],
    lanes: usize,
    first: E,
    other: E,
) {
    for i in 0..1024 {
        let expected = if i < lanes { first } else { other };
        assert_equal_at(rt, i, block[i], expected);
    }
}

/// The differences of a block of 0 from bases of 1 are `first` in the first rows and 0 in all others, and they add up to
/// the block again.
fn assert_first_rows<E: Delta<LANES> + Debug, const LANES: usize>(rt: &impl Abort, first: E)
    requires lanes { LANES ≡ E.LANES }
{
    let (zero, one) = (E::zero(), E::one());
    let base = [one; LANES];
    let mut output = [one; 1024];
    E::delta(&[zero; 1024], &base, &mut output);
    assert_first_row(rt, &output, LANES, first, zero);
    let mut back = [one; 1024];
    E::undelta(&output, &base, &mut back);
    assert_equal(rt, back, [zero; 1024]);
}

#[test]
fn bases_above_the_first_rows(rt: HostRuntime) {
    assert_first_rows::<u8, 128>(&rt, 255);
    assert_first_rows::<u32, 32>(&rt, u32::MAX);
    assert_first_rows::<u64, 16>(&rt, u64::MAX);
}

#[test]
fn no_differences_are_the_bases(rt: HostRuntime) {
    let mut output = [9; 1024];
    undelta_pack::<u8, 128, 0, 0>(&[], &ramp(0, 1, 1, 128), &mut output);
    assert_equal(&rt, output, ramp(0, 1, 1, 128));
}

#[test]
fn differences_of_eighths(rt: HostRuntime) {
    let deltas = deltas_of_eighths();
    assert_equal(&rt, deltas[1], 8);
    assert_equal(&rt, deltas[65], 1);
    assert_equal(&rt, deltas[129], 0);
}

/// These differences, packed.
fn packed_eighths() -> [u16; 960] {
    packed_words::<u16, 15, 960>(&deltas_of_eighths())
}

#[test]
fn fused_sums_of_eighths(rt: HostRuntime) {
    let mut sums = [9; 1024];
    undelta_pack::<u16, 64, 15, 960>(&packed_eighths(), &[0; 64], &mut sums);
    assert_equal(&rt, sums, eighths());
}

#[test]
fn sums_of_unpacked_eighths(rt: HostRuntime) {
    let mut unpacked = [9; 1024];
    unpack::<u16, 15, 960>(&packed_eighths(), &mut unpacked);
    let mut sums = [9; 1024];
    u16::undelta(&unpacked, &[0; 64], &mut sums);
    assert_equal(&rt, sums, eighths());
}

/// What differences that are packed to `W` bits add up to from where the neighbours begin, in the order of the values.
fn sums_of_neighbours<const W: usize, const B: usize>(packed: &[u16; B]) -> [u16; 1024]
    requires width { W ≤ 16 }
    requires words { B ≡ 64 * W }
{
    let mut sums = [9; 1024];
    undelta_pack::<u16, 64, W, B>(packed, &first_places(), &mut sums);
    let mut values = [9; 1024];
    u16::untranspose(&sums, &mut values);
    values
}

/// The differences of the places and those before them.
fn deltas_of_places() -> [u16; 1024] {
    let mut deltas = [9; 1024];
    u16::delta(&moved_places(), &first_places(), &mut deltas);
    deltas
}

#[test]
fn differences_of_neighbours(rt: HostRuntime) {
    assert_first_row(&rt, &deltas_of_places(), 64, 0, 1);
}

#[test]
fn sums_of_differences_of_neighbours(rt: HostRuntime) {
    let packed = packed_words::<u16, 1, 64>(&deltas_of_places());
    assert_equal(&rt, sums_of_neighbours::<1, 64>(&packed), places());
    // With no differences each run of sixteen is where it begins.
    let runs = ramp(0, 16, 16, 1024);
    assert_equal(&rt, sums_of_neighbours::<0, 0>(&[]), runs);
}

/// A kernel of differences over each lane packs what `pack` gives for the block of differences.
#[test]
fn fused_by_a_kernel(rt: HostRuntime) {
    let values = eighths();
    let mut fused = [9; 960];
    for lane in 0..64 {
        let mut before = 0u16;
        pack_lane::<u16, _>(
            15,
            &mut fused,
            lane,
            &mut |place: usize| {
                let value = values[place % 1024];
                let difference = value.wrapping_sub(before);
                before = value;
                difference
            },
        );
    }
    assert_equal(&rt, fused, packed_eighths());
}
