//! Round trips of callers.

ghost use Rattle.std.specs.Prelude.{◌^◌, ◌<◌, All};
ghost use Rattle.fastlanes.specs.Frame.{word_difference};

use crate::tests::assertions::assert_equal;
use crate::tests::{packed_words, ramp};
use callers::round_trips::{
    places_of_about_less, untransposed_by_two_forms, value_of_a_constant_frame,
};

/// 254, 255, 0 and 1 in turn: modulo 256 they are 0 to 3 above 254.
fn near_254(place: usize) -> u8
    ensures { word_difference 8 result 254 < 2 ^ 2 }
{
    match place % 4 {
        0 => 254,
        1 => 255,
        2 => 0,
        _ => 1,
    }
}

fn block_near_254() -> [u8; 1024]
    ensures { All (λ x. word_difference 8 x 254 < 2 ^ 2) result }
{
    let mut values = [254; 1024];
    for i in 0..1024 {
        values[i] = near_254(i);
    }
    values
}

#[test]
fn one_value_of_a_frame(rt: HostRuntime) {
    let values = block_near_254();
    let mut packed = [9; 256];
    assert_equal(
        &rt,
        value_of_a_constant_frame::<u8, 2, 256>(&values, 254, &mut packed, 641),
        255,
    );
    assert_equal(
        &rt,
        value_of_a_constant_frame::<u8, 2, 256>(&values, 254, &mut packed, 2),
        0,
    );
}

#[test]
fn untransposes_alike(rt: HostRuntime) {
    let mut bits = [0; 16];
    // The place 129, which is row 1 of lane 1.
    bits[2] = 2;
    let (mut plain, mut vectors) = ([9; 16], [9; 16]);
    untransposed_by_two_forms(&bits, &mut plain, &mut vectors);
    let mut expected = [0; 16];
    // Bit 32 * 1 + 1.
    expected[0] = 0x2_0000_0000;
    assert_equal(&rt, plain, expected);
    assert_equal(&rt, vectors, expected);
}

/// A comparison may leave open what it says of a digit: that digit's bit is one of the two.
#[test]
fn either_answer_for_one_digit(rt: HostRuntime) {
    let packed = packed_words::<u16, 4, 256>(&ramp(1, 16));
    for word in places_of_about_less::<4, 256>(&packed, 5) {
        // Of sixteen places the first five are below 5, and the next one may be told to be.
        assert_equal(&rt, word & !0x0020_0020_0020_0020, 0x001F_001F_001F_001F);
    }
}
