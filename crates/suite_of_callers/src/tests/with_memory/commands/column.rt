//! Columns by the program's own paths. What several calls ask of an element type stands in one function for each.

ghost use Rattle.std.specs.Prelude.{◌≡◌, ◌<◌, ◌≤◌, All, length};
ghost use Rattle.fastlanes_column.specs.Column.{words_of};
ghost use Rattle.fastlanes_column.specs.Heads.{widths};

use crate::tests::with_memory::commands::bytes::assert_number;
use flblock::column::{FrameHead, column_get, column_len, column_write, frame_head};
use std::array::from_fn;
use std::process::Abort;

/// The places and a thousand.
fn thousands() -> [u32; 1024] {
    from_fn(|i| 1000 + (i % 1024) as u32)
}

/// The head of a block.
fn head_of(block: &[u32; 1024]) -> FrameHead<u32>
    ensures { result.width ≤ 32 }
{
    frame_head(block)
}

/// The value at this place of three blocks is the expected one.
fn assert_value(
    rt: &impl Abort,
    heads: &[FrameHead<u32>],
    words: &[u32],
    place: usize,
    expected: usize,
)
    requires widths { All (λ w. w ≤ 32) (widths heads.now) }
    requires count { length heads.now ≡ 3 }
    requires words { length words.now ≡ words_of 32 (widths heads.now) }
    requires place { place < 3072 }
{
    assert_number(rt, column_get(heads, words, place) as usize, expected);
}

#[test]
fn a_column_is_stored_and_read(rt: HostRuntime) {
    let blocks = [thousands(), [300; 1024], thousands()];
    let heads = [
        head_of(&blocks[0]),
        head_of(&blocks[1]),
        head_of(&blocks[2]),
    ];
    let mut words = [0; 640];
    assert_eq!(rt; column_len(&heads), 640);
    column_write(&heads, &blocks, &mut words);
    assert_value(&rt, &heads, &words, 1029, 300);
    assert_value(&rt, &heads, &words, 2055, 1007);
}
