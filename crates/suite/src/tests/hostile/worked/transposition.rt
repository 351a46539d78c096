//! Elements moved so that each lane has neighbours in it, and back.

use crate::tests::hostile::calls::Element;
use crate::tests::hostile::worked::{Example, ramp};
use crate::vectors::{Call, Mover};
use fastlanes::transpose;

#[test]
fn eighths_of_the_places(rt: HostRuntime) {
    let example = Example::of(Element::U16, 16);
    let values = ramp(8, 1024);
    let mut expected = [0; 1024];
    for place in 0..1024usize {
        expected[place] = (transpose(place) / 8) as u64;
    }
    let moved = example.called(Call::Move(Mover::Transpose), &values);
    example.check(&rt, moved == expected, "transpose");
    let back = example.called(Call::Move(Mover::Untranspose), &moved);
    example.check(&rt, back == values, "untranspose");
}
