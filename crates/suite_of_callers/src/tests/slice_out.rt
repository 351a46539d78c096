//! A slice as a sink.

use fastlanes_streams::{ByteOut, Failed, SliceOut};

#[test]
fn slices_take(rt: HostRuntime) {
    let mut bytes = [0; 3];
    let mut output = SliceOut::new(&mut bytes);
    let first = (output.write(b"ab"), output.flush(), output.write(b"cd"));
    assert!(rt; first == (Ok(2), Ok(()), Ok(1)));
    assert!(rt; (output.used(), output.flushed()) == (3, 2));
    let full = (output.write(b""), output.write(b"d"), output.flush());
    assert!(rt; full == (Ok(0), Err(Failed), Ok(())));
    assert!(rt; (output.flushed(), output.failures()) == (3, 1));
    assert!(rt; &bytes == b"abc");
}
