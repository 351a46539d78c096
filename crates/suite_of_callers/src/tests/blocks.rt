//! Three blocks at once against three blocks one by one, of each element type.

ghost use Rattle.std.specs.Prelude.{◌≡◌, ◌*◌, ◌<◌, ◌≤◌, length};

use crate::tests::assertions::assert_so;
use crate::tests::{mix, words_at};
use fastlanes_blocks::{pack_blocks, unpack_blocks};
use fastlanes_packing::WideRows;
use fastlanes_rows::types::RowTypes;
use std::process::Abort;

/// One of three parts that are equally long.
fn third<E>(parts: &[E], number: usize, len: usize) -> &[E]
    requires number { number < 3 }
    requires parts { length parts.now ≡ 3 * len }
    ensures { length result.now ≡ len }
{
    match number {
        0 => &parts[..len],
        1 => &parts[len..2 * len],
        _ => &parts[2 * len..],
    }
}

/// A block that is packed by itself has the words that were found at once.
fn assert_words<E: WideRows>(rt: &impl Abort, width: usize, values: &[E], found: &[E])
    requires width { width ≤ E.T }
    requires values { length values.now ≡ 1024 }
{
    let mut block = [E::zero(); 1024];
    block.copy_from_slice(values);
    let mut single = [E::zero(); 1024];
    let single = &mut single[..words_at::<E>(width)];
    E::pack_wide(width, &block, single);
    assert_so(rt, *found == *single, "packed at a width", width);
}

/// A block that is unpacked by itself has the digits that were found at once.
fn assert_digits<E: WideRows>(rt: &impl Abort, width: usize, packed: &[E], found: &[E])
    requires width { width ≤ E.T }
    requires packed { length packed.now ≡ E.LANES * width }
{
    let mut single = [E::max_value(); 1024];
    E::unpack_wide(width, packed, &mut single);
    let whole = &single[..];
    assert_so(rt, *found == *whole, "unpacked at a width", width);
}

/// The blocks packed at once have the words that each of them has by itself, and words of any kind, unpacked at once, the digits.
fn assert_width<E: RowTypes + WideRows>(
    rt: &impl Abort,
    width: usize,
    input: &[E],
    output: &mut [E],
)
    requires width { width ≤ E.T }
    requires input { length input.now ≡ 3072 }
    requires output { length output.old ≡ 3072 }
{
    let words = words_at::<E>(width);
    let packed = &mut output[..3 * words];
    pack_blocks(width, 3, input, packed);
    for b in 0..3 {
        assert_words(rt, width, third(input, b, 1024), third(packed, b, words));
    }
    let packed = &input[..3 * words];
    unpack_blocks(width, 3, packed, output);
    for b in 0..3 {
        assert_digits(rt, width, third(packed, b, words), third(output, b, 1024));
    }
}

/// So it is at each of these widths, of three blocks and over an output that has other numbers.
fn assert_widths<E: RowTypes + WideRows>(rt: &impl Abort, widths: &[usize], blocks: &mut [E])
    requires { length blocks.old ≡ 6144 }
{
    mix(blocks);
    let (input, output) = blocks.split_at_mut(3072);
    for width in widths {
        assert_so(rt, *width <= E::T, "a width", *width);
        assert_width(rt, *width, input, output);
    }
}

#[test]
fn three_blocks(rt: HostRuntime) {
    assert_widths(&rt, &[0, 1, 3, 7, 8], &mut [0u8; 6144]);
    assert_widths(&rt, &[0, 1, 5, 11, 15, 16], &mut [0u16; 6144]);
    assert_widths(&rt, &[0, 1, 7, 17, 31, 32], &mut [0u32; 6144]);
    assert_widths(&rt, &[0, 1, 9, 33, 63, 64], &mut [0u64; 6144]);
}

/// No blocks have no words.
#[test]
fn no_blocks(_rt: HostRuntime) {
    pack_blocks::<u32>(7, 0, &[], &mut []);
    unpack_blocks::<u32>(7, 0, &[], &mut []);
}
