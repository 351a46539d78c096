//! One value and chosen values.

ghost use Rattle.std.specs.Prelude.{◌≡◌, ◌*◌, ◌<◌, ◌≤◌, All};

use crate::tests::assertions::{assert_equal, assert_equal_at};
use crate::tests::bitpacking::packed_words;
use crate::tests::numbers::{all_indices, one_among, places, ramp};
use fastlanes::{BitPacking, unpack_indices, unpack_single};
use std::fmt::Debug;
use std::process::Abort;

/// Both calls give this value at a place.
fn assert_value<E: BitPacking + Debug, const W: usize, const B: usize>(
    rt: &impl Abort,
    packed: &[E; B],
    place: usize,
    value: E,
)
    requires width { W ≤ E.T }
    requires words { B ≡ E.LANES * W }
    requires place { 0 < W → place < 1024 }
{
    let single = unpack_single::<E, W, B>(packed, place);
    assert_equal_at(rt, place, single, value);
    let single = E::unchecked_unpack_single(W, packed, place);
    assert_equal_at(rt, place, single, value);
}

/// Both calls give these values at these places.
fn assert_chosen<E: BitPacking + Debug, const W: usize, const B: usize, const N: usize>(
    rt: &impl Abort,
    packed: &[E; B],
    places: &[usize; N],
    values: &[E; N],
)
    requires width { W ≤ E.T }
    requires words { B ≡ E.LANES * W }
    requires places { 0 < W → All (λ i. i < 1024) places.now }
{
    let mut output = [E::max_value(); N];
    unpack_indices::<E, W, B>(packed, places, &mut output);
    assert_equal(rt, output, *values);
    let mut output = [E::max_value(); N];
    E::unchecked_unpack_indices(W, packed, places, &mut output);
    assert_equal(rt, output, *values);
}

/// All calls return the values of a packed block, each by itself and all at once.
fn assert_each_value<E: BitPacking + Debug, const W: usize, const B: usize>(
    rt: &impl Abort,
    values: &[E; 1024],
)
    requires width { W ≤ E.T }
    requires words { B ≡ E.LANES * W }
{
    let packed = packed_words::<E, W, B>(values);
    assert_chosen::<E, W, B, 1024>(rt, &packed, &all_indices(), values);
    for place in 0..1024 {
        assert_value::<E, W, B>(rt, &packed, place, values[place]);
    }
}

/// The multiples of 17 modulo `2^13`.
fn multiples_of_17() -> [u32; 1024] {
    let mut values = places();
    for value in values.iter_mut() {
        *value = *value % 1024 * 17 % 8192;
    }
    values
}

#[test]
fn chosen_values_keep_order_and_repeat(rt: HostRuntime) {
    let packed = packed_words::<u32, 13, 416>(&multiples_of_17());
    let places = [1023, 0, 17, 17, 511, 17, 511];
    let values = [1007, 0, 289, 289, 495, 289, 495];
    assert_chosen::<u32, 13, 416, 7>(&rt, &packed, &places, &values);
    assert_value::<u32, 13, 416>(&rt, &packed, 511, 495);
    // No value may be chosen, too.
    assert_chosen::<u32, 13, 416, 0>(&rt, &packed, &[], &[]);
}

#[test]
fn each_value_of_blocks(rt: HostRuntime) {
    assert_each_value::<u16, 3, 192>(&rt, &ramp(0, 1, 1, 8));
    assert_each_value::<u32, 16, 512>(&rt, &places());
    assert_each_value::<u32, 13, 416>(&rt, &multiples_of_17());
}

#[test]
fn value_that_straddles_two_words(rt: HostRuntime) {
    let packed = packed_words::<u8, 3, 384>(&one_among(0, 256, 5));
    assert_value::<u8, 3, 384>(&rt, &packed, 256, 5);
}

#[test]
fn no_index_is_looked_at_without_width(rt: HostRuntime) {
    assert_chosen::<u32, 0, 0, 1>(&rt, &[], &[usize::MAX], &[0]);
    assert_chosen::<u32, 0, 0, 0>(&rt, &[], &[], &[]);
    assert_value::<u32, 0, 0>(&rt, &[], usize::MAX, 0);
}
