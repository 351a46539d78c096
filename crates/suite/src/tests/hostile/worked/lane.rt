//! Walks of one lane.

use crate::tests::hostile::calls::Element;
use crate::tests::hostile::worked::Example;

#[test]
fn counts_calls_without_width(rt: HostRuntime) {
    for (element, rows) in [
        (Element::U8, 8),
        (Element::U16, 16),
        (Element::U32, 32),
        (Element::U64, 64),
    ] {
        let walk = element.walked(0, &[0; 1024], 3);
        let example = Example::of(element, 0);
        example.check(&rt, walk.rows == rows, "unpack_lane");
    }
}

#[test]
fn notes_places_without_width(rt: HostRuntime) {
    let walk = Element::U16.walked(0, &[u64::MAX; 1024], 0);
    let mut places = [0; 64];
    places[..16].copy_from_slice(&[
        0, 128, 256, 384, 512, 640, 768, 896, 64, 192, 320, 448, 576, 704, 832, 960,
    ]);
    let example = Example::of(Element::U16, 0);
    example.check(&rt, walk.rows == 16, "unpack_lane");
    example.check(&rt, walk.places == places, "unpack_lane");
    example.check(&rt, walk.digits == [0; 64], "unpack_lane");
}
