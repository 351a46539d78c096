//! A slice as a source.

use fastlanes_streams::{ByteIn, SliceIn};

#[test]
fn slices_give(rt: HostRuntime) {
    let mut buf = [0; 4];
    let mut input = SliceIn::new(b"abcdef");
    let reads = [
        (input.read(&mut buf), buf),
        (input.read(&mut buf), buf),
        (input.read(&mut buf), buf),
    ];
    assert!(rt; reads == [(Ok(4), *b"abcd"), (Ok(2), *b"efcd"), (Ok(0), *b"efcd")]);
    assert!(rt; (input.used(), input.failures()) == (6, 0));
}
