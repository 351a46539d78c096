//! Chosen values of words that `pack` never wrote: in any order, more than once, few and many.

ghost use Rattle.std.specs.Prelude.{◌<◌, ◌≤◌, All, length};

use crate::tests::hostile::expected::digits_of;
use crate::tests::hostile::{Case, Property, everywhere};
use crate::vectors::{MOST, Numbers};
use std::process::Abort;

/// `unpack_indices` gives the digits at these places.
fn assert_chosen(rt: &impl Abort, case: Case, words: &Numbers, digits: &Numbers, places: &[usize])
    requires places { All (λ place. place < 1024) places.now }
    requires few { length places.now ≤ 5000 }
{
    let output = case.element.chosen(case.width, words, places, case.fill);
    for (value, place) in output.iter().zip(places) {
        let is_digit = digits.get(*place) == Some(value);
        case.check(rt, is_digit, "unpack_indices");
    }
}

/// Places in no order: each of 1024, and some of them again.
fn many_places() -> [usize; MOST]
    ensures { All (λ place. place < 1024) result }
{
    let mut places = [0; MOST];
    for j in 0..MOST {
        places[j] = (389 * j + 7) % 1024;
    }
    places
}

/// Few and many are chosen: from a quarter of a lane's rows on, it is worked out first where the rows begin, and from four
/// for each row on the whole block is unpacked.
struct Chooses;

impl Property for Chooses {
    fn assert(rt: &impl Abort, case: Case, words: &Numbers) {
        let digits = digits_of(words, case.layout, case.width);
        assert_chosen(rt, case, words, &digits, &[1023, 0, 17, 17, 511, 641, 511]);
        assert_chosen(rt, case, words, &digits, &[0, 1023, 0, 1023, 0]);
        let (places, bits) = (many_places(), case.layout.bits);
        for count in [0, 1, bits / 4, bits.wrapping_mul(4), MOST] {
            assert_chosen(rt, case, words, &digits, &places[..count.min(MOST)]);
        }
    }
}

#[test]
fn few_and_many_are_chosen(rt: HostRuntime) {
    everywhere::<Chooses>(&rt);
}
