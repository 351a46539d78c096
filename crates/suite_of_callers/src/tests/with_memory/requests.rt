//! Requests of `flcolumn` between slices. The columns are those that the model of tests/columns writes.

use fastlanes_column_streams::StreamError;
use fastlanes_streams::{SliceIn, SliceOut};
use flcolumn::failure::Failure;
use flcolumn::streams::Streams;
use flcolumn_words::{ElementType, Request};
use std::alloc::Global;

/// A column of `u16` without values.
const EMPTY: [u8; 32] = [
    70, 76, 67, 1, 16, 3, 0, 0, 25, 121, 32, 53, 0, 0, 0, 0, 8, 0, 0, 0, 0, 0, 0, 0, 0, 0, 0, 0, 0,
    0, 0, 0,
];

/// A column of the values 300, 300 and 300 of `u16`.
const THREE: [u8; 64] = [
    70, 76, 67, 1, 16, 3, 0, 0, 127, 87, 198, 165, 3, 0, 0, 0, 16, 0, 0, 0, 0, 0, 0, 0, 0, 0, 0, 0,
    32, 0, 0, 0, 44, 1, 0, 0, 0, 0, 0, 0, 112, 254, 100, 238, 0, 0, 0, 0, 8, 0, 0, 0, 0, 0, 0, 0,
    3, 0, 0, 0, 0, 0, 0, 0,
];

/// Those values as bytes.
const VALUES: [u8; 6] = [44, 1, 44, 1, 44, 1];

/// Does what is asked for between slices, and returns how it ended, how many bytes were written, and how many of these were flushed.
fn run_between(
    request: &Request,
    alloc: Global,
    input: &[u8],
    output: &mut [u8],
) -> (Result<(), Failure>, usize, usize) {
    let mut streams = Streams {
        input: SliceIn::new(input),
        output: SliceOut::new(output),
    };
    let done = streams.run(request, alloc);
    (done, streams.output.used(), streams.output.flushed())
}

/// Whether a request succeeds on this input and writes these bytes, and flushes all of them.
fn writes(request: &Request, alloc: Global, input: &[u8], wanted: &[u8]) -> bool {
    let mut output = [0; 256];
    let (done, used, flushed) = run_between(request, alloc, input, &mut output);
    done.is_ok() && flushed == used && output.get(..used) == Some(wanted)
}

/// What `encode u16` is asked for.
fn encode() -> Request {
    Request::Encode {
        element: ElementType::U16,
        frames_only: false,
        checked: true,
    }
}

/// What `get` is asked for, if there is memory for these numbers.
fn get(alloc: Global, numbers: &[u64]) -> Option<Request> {
    let mut wanted = Vec::new(alloc);
    for number in numbers {
        if wanted.push(*number).is_err() {
            return None;
        }
    }
    Some(Request::Get(wanted))
}

#[test]
fn encode_writes_columns(rt: HostRuntime) {
    assert!(rt; writes(&encode(), rt.alloc(), b"", &EMPTY));
    assert!(rt; writes(&encode(), rt.alloc(), &VALUES, &THREE));
}

#[test]
fn decode_writes_values(rt: HostRuntime) {
    assert!(rt; writes(&Request::Decode, rt.alloc(), &EMPTY, b""));
    assert!(rt; writes(&Request::Decode, rt.alloc(), &THREE, &VALUES));
}

#[test]
fn info_writes_text(rt: HostRuntime) {
    let empty =
        b"element bits: 16\nchecksums: yes\nvalues: 0\npages: 0\nbytes: 32\nwidths: \nscale: _.:-=+*#%@, from 0 to 16 bits\n";
    let three =
        b"element bits: 16\nchecksums: yes\nvalues: 3\npages: 1\nbytes: 64\nbytes a value: 21.333\nframes of width 0: 1\nwidths: _\nscale: _.:-=+*#%@, from 0 to 16 bits\n";
    assert!(rt; writes(&Request::Info, rt.alloc(), &EMPTY, empty));
    assert!(rt; writes(&Request::Info, rt.alloc(), &THREE, three));
}

#[test]
fn get_writes_lines(rt: HostRuntime) {
    let request = get(rt.alloc(), &[2, 0]).expect(&rt, "memory");
    assert!(rt; writes(&request, rt.alloc(), &THREE, b"300\n300\n"));
    let request = get(rt.alloc(), &[]).expect(&rt, "memory");
    assert!(rt; writes(&request, rt.alloc(), &EMPTY, b""));
}

#[test]
fn get_names_the_first_number_without_a_value(rt: HostRuntime) {
    let mut output = [0; 256];
    let request = get(rt.alloc(), &[2, 3, 7]).expect(&rt, "memory");
    let (done, used, _) = run_between(&request, rt.alloc(), &THREE, &mut output);
    assert!(rt; used == 0);
    assert!(rt; matches!(done, Err(Failure::NoSuchValue(3, 3))));
}

#[test]
fn encode_names_the_end_of_a_part_of_a_value(rt: HostRuntime) {
    let mut output = [0; 256];
    let (done, _, _) = run_between(&encode(), rt.alloc(), b"12345", &mut output);
    assert!(rt; matches!(done, Err(Failure::Stream(StreamError::ShortValue(5)))));
}

#[test]
fn a_full_sink_fails(rt: HostRuntime) {
    let mut output = [0; 5];
    let (done, used, _) = run_between(&Request::Decode, rt.alloc(), &THREE, &mut output);
    assert!(rt; used == 5);
    assert!(rt; matches!(done, Err(Failure::Stream(StreamError::WriteFailed))));
}
