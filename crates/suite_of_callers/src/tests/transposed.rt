//! Places of blocks and of transposed blocks.

use crate::tests::assertions::assert_equal;
use crate::tests::ramp;
use callers::sample::Sample;
use callers::transposed::{element_of_u8, steps_between_rows_u16, stood_at, stretch_of};
use fastlanes::{Transpose, transpose};

#[test]
fn places_of_a_transposed_block(rt: HostRuntime) {
    // The rows of lane 1 of `u16` stood at the places 64 to 79, and those of lane 16 at 32 to 47.
    assert_equal(
        &rt,
        (stood_at::<u16>(0, 1), stood_at::<u16>(15, 1)),
        (64, 79),
    );
    assert_equal(
        &rt,
        (stood_at::<u16>(0, 16), stood_at::<u16>(15, 16)),
        (32, 47),
    );
    assert_equal(&rt, (stretch_of::<u16>(1), stretch_of::<u16>(16)), (4, 2));
    // 1 * 64 and 8 * 1, by eight.
    assert_equal(&rt, (stretch_of::<u8>(1), stretch_of::<u8>(64)), (8, 1));
    assert_equal(&rt, (stretch_of::<u64>(1), stretch_of::<u64>(15)), (1, 15));
    assert_equal(&rt, steps_between_rows_u16(7, 40), 1);
}

#[test]
fn elements_at_rows(rt: HostRuntime) {
    let block = ramp(1, 256);
    assert_equal(&rt, element_of_u8(&block, 1, 3), 131);
    assert_equal(&rt, element_of_u8(&block, 7, 127), 255);
}

#[test]
fn transposes_an_element_type_of_our_own(rt: HostRuntime) {
    let input: [Sample; 1024] = std::array::from_fn(|i| Sample::new((i % 1024) as u16));
    let mut output = [Sample::new(0); 1024];
    Sample::transpose(&input, &mut output);
    let mut back = output;
    Sample::untranspose(&output, &mut back);
    for place in 0..1024 {
        let from = output[place].bits() as usize;
        assert_equal(&rt, (place, from), (place, transpose(place)));
        assert_equal(&rt, (place, back[place].bits() as usize), (place, place));
    }
}
