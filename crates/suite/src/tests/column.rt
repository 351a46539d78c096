//! Columns of blocks.

ghost use Rattle.std.specs.Prelude.{◌≡◌, ◌^◌, ◌≤◌, All, length};
ghost use Rattle.fastlanes_column.specs.Column.{part_starts, words_of};
ghost use Rattle.fastlanes_column.specs.Heads.{widths};

use crate::tests::assertions::{assert_equal, assert_equal_at};
use crate::tests::numbers::ramp;
use fastlanes::FoR;
use fastlanes_column::{
    FrameHead, column_get, column_get_at, column_len, column_read, column_starts, column_write,
    write_heads,
};
use std::fmt::Debug;
use std::process::Abort;

/// The places and a thousand.
fn thousands() -> [u32; 1024] {
    ramp(1000, 1, 1, 1024)
}

/// 0 and the greatest number in turn.
fn extremes() -> [u64; 1024] {
    ramp(0, u64::MAX, 1, 2)
}

/// What stands where a head is to be written.
fn no_head<E: FoR>() -> FrameHead<E> {
    FrameHead {
        width: 3,
        reference: E::one(),
    }
}

/// The blocks have these heads: a width and a reference each.
fn assert_heads<E: FoR + Debug>(
    rt: &impl Abort,
    blocks: &[[E; 1024]],
    heads: &mut [FrameHead<E>],
    expected: &[(usize, E)],
)
    requires heads { length heads.old ≡ length blocks.now }
    requires expected { length expected.now ≡ length blocks.now }
    ensures { All (λ w. w ≤ E.T) (widths heads.new) }
{
    write_heads(blocks, heads);
    for (b, head) in heads.iter().enumerate() {
        assert_equal_at(rt, b, (head.width, head.reference), expected[b]);
    }
}

/// A column's values at these numbers, from its heads alone and from its starts.
fn assert_values<E: FoR + Debug>(
    rt: &impl Abort,
    heads: &[FrameHead<E>],
    starts: &[usize],
    words: &[E],
    values: &[(usize, E)],
)
    requires count { length heads.now ≤ 2 ^ 32 }
    requires widths { All (λ w. w ≤ E.T) (widths heads.now) }
    requires starts { starts.now ≡ part_starts E.LANES (widths heads.now) }
    requires words { length words.now ≡ words_of E.LANES (widths heads.now) }
{
    for (i, value) in values {
        assert!(rt; *i < 1024 * heads.len());
        assert_equal_at(rt, *i, column_get(heads, words, *i), *value);
        assert_equal_at(rt, *i, column_get_at(heads, starts, words, *i), *value);
    }
}

/// All blocks of a column come back, whatever the output held before.
fn assert_blocks<E: FoR + Debug, const N: usize>(
    rt: &impl Abort,
    heads: &[FrameHead<E>],
    words: &[E],
    blocks: &[[E; 1024]; N],
)
    requires count { N ≤ 4 }
    requires heads { length heads.now ≡ N }
    requires widths { All (λ w. w ≤ E.T) (widths heads.now) }
    requires words { length words.now ≡ words_of E.LANES (widths heads.now) }
{
    let mut first = [[E::zero(); 1024]; N];
    column_read(heads, words, &mut first);
    assert_equal(rt, first, *blocks);
    let mut second = [[E::max_value(); 1024]; N];
    column_read(heads, words, &mut second);
    assert_equal(rt, second, *blocks);
}

/// A column of the blocks by these heads fills `words`, the words of each block begin at these starts, and they come back
/// from it: as a whole, and these values by their numbers.
fn assert_column<E: FoR + Debug, const N: usize>(
    rt: &impl Abort,
    heads: &[FrameHead<E>; N],
    blocks: &[[E; 1024]; N],
    words: &mut [E],
    starts: [usize; N],
    values: &[(usize, E)],
)
    requires count { N ≤ 4 }
    requires widths { All (λ w. w ≤ E.T) (widths heads.now) }
{
    assert!(rt; column_len(heads) == words.len());
    column_write(heads, blocks, words);
    let mut written = [9; N];
    column_starts(heads, &mut written);
    assert_equal(rt, written, starts);
    assert_values(rt, heads, &written, words, values);
    assert_blocks(rt, heads, words, blocks);
}

#[test]
fn two_blocks(rt: HostRuntime) {
    let blocks = [[300; 1024], thousands()];
    let mut heads = [no_head(), no_head()];
    assert_heads(&rt, &blocks, &mut heads, &[(0, 300), (10, 1000)]);
    let values = [(5, 300), (1031, 1007)];
    assert_column(&rt, &heads, &blocks, &mut [9; 320], [0, 0], &values);
}

#[test]
fn three_blocks(rt: HostRuntime) {
    let blocks = [thousands(), [300; 1024], thousands()];
    let mut heads = [no_head(), no_head(), no_head()];
    let expected = [(10, 1000), (0, 300), (10, 1000)];
    assert_heads(&rt, &blocks, &mut heads, &expected);
    let values = [(1029, 300), (2055, 1007)];
    assert_column(&rt, &heads, &blocks, &mut [9; 640], [0, 320, 320], &values);
}

#[test]
fn no_blocks(rt: HostRuntime) {
    assert_heads::<u32>(&rt, &[], &mut [], &[]);
    assert_column::<u32, 0>(&rt, &[], &[], &mut [], [], &[]);
}

#[test]
fn widest_and_narrowest_blocks(rt: HostRuntime) {
    let blocks = [[u64::MAX; 1024], extremes(), [0; 1024], [7; 1024]];
    let mut heads = [no_head(), no_head(), no_head(), no_head()];
    let expected = [(0, u64::MAX), (64, 0), (0, 0), (0, 7)];
    assert_heads(&rt, &blocks, &mut heads, &expected);
    let starts = [0, 0, 1024, 1024];
    let values = [(1023, u64::MAX), (1024, 0), (2047, u64::MAX), (2048, 0)];
    assert_column(&rt, &heads, &blocks, &mut [9; 1024], starts, &values);
}

#[test]
fn any_words_are_read(rt: HostRuntime) {
    let heads = [
        FrameHead {
            width: 2,
            reference: 254u8,
        },
        FrameHead {
            width: 0,
            reference: 7,
        },
        FrameHead {
            width: 1,
            reference: 9,
        },
    ];
    // The words of the first block are ones, and those of the last one zeros.
    let mut words = [0; 384];
    for i in 0..256 {
        words[i] = 255;
    }
    assert_equal(&rt, column_len(&heads), 384);
    let mut blocks = [[5; 1024]; 3];
    column_read(&heads, &words, &mut blocks);
    // 254 + 3 modulo 256, the reference, and 9 + 0.
    assert_equal(&rt, blocks, [[1; 1024], [7; 1024], [9; 1024]]);
}
