//! What `bench/` times beside the C functions: blocks by rows of sixteen lanes, and kernels of a caller's. At the widths 3 and
//! 5/8 of the element type's bits a kernel's width is a constant, at others it is a number of the run. Each of these has a
//! kernel of its own (`CALLER`), as a user's closures are: the compiler writes the walk of a lane into the code around it where
//! no other code walks with that kernel.
//!
//! An array is a pointer to its first element; a slice is a pointer and then its length in elements.
#![tactic(auto)]

ghost use Rattle.std.specs.Prelude.{◌≡◌, ◌*◌, ◌≤◌, length};

use fastlanes::{FastLanes, LaneRows, iterate_lane, pack_lane, unpack_lane};

/// Puts every digit to its place, by a kernel in each lane.
#[inline(always)]
fn put_digits<E: FastLanes, const CALLER: usize>(width: usize, input: &[E], output: &mut [E; 1024])
    requires width { width ≤ E.T }
    requires words { length input.now ≡ E.LANES * width }
{
    for lane in 0..E::LANES {
        let mut put = |place: usize, digit: E| {
            let _caller = CALLER;
            output[place] = digit;
        };
        unpack_lane::<E, _>(width, input, lane, &mut put);
    }
}

/// The same at a width that is a constant.
#[inline(never)]
fn put_digits_by<E: FastLanes, const W: usize>(input: &[E], output: &mut [E; 1024])
    requires width { W ≤ E.T }
    requires words { length input.now ≡ E.LANES * W }
{
    put_digits::<E, W>(W, input, output);
}

/// The same at a width that is a number of the run.
#[inline(never)]
fn put_digits_at<E: FastLanes>(width: usize, input: &[E], output: &mut [E; 1024])
    requires width { width ≤ E.T }
    requires words { length input.now ≡ E.LANES * width }
{
    put_digits::<E, 0>(width, input, output);
}

/// The same at any width: by the code of that width alone where it is `A` or `B`.
#[inline(always)]
fn put_digits_of<E: FastLanes, const A: usize, const B: usize>(
    width: usize,
    input: &[E],
    output: &mut [E; 1024],
)
    requires width { width ≤ E.T }
    requires words { length input.now ≡ E.LANES * width }
{
    if width == A {
        put_digits_by::<E, A>(input, output);
    } else if width == B {
        put_digits_by::<E, B>(input, output);
    } else {
        put_digits_at(width, input, output);
    }
}

/// The sum of all digits, by a kernel in each lane. At a width that is a number of the run it is not timed: the compiler takes
/// minutes for 64 rows of it.
#[inline(always)]
fn sum_digits<E: FastLanes, const CALLER: usize>(width: usize, input: &[E]) -> E
    requires width { width ≤ E.T }
    requires words { length input.now ≡ E.LANES * width }
{
    let mut sum = E::zero();
    for lane in 0..E::LANES {
        let mut add = |_place: usize, digit: E| {
            let _caller = CALLER;
            sum = sum.word_add(digit);
        };
        unpack_lane::<E, _>(width, input, lane, &mut add);
    }
    sum
}

/// The same at a width that is a constant.
#[inline(never)]
fn sum_digits_by<E: FastLanes, const W: usize>(input: &[E]) -> E
    requires width { W ≤ E.T }
    requires words { length input.now ≡ E.LANES * W }
{
    sum_digits::<E, W>(W, input)
}

/// The same at the widths `A` and `B`, by the code of each alone, and 0 at any other.
#[inline(always)]
fn sum_digits_of<E: FastLanes, const A: usize, const B: usize>(width: usize, input: &[E]) -> E
    requires width { width ≤ E.T }
    requires words { length input.now ≡ E.LANES * width }
{
    if width == A {
        sum_digits_by::<E, A>(input)
    } else if width == B {
        sum_digits_by::<E, B>(input)
    } else {
        E::zero()
    }
}

/// Packs the differences of each lane's elements, by a kernel in each lane.
#[inline(always)]
fn pack_differences<E: FastLanes, const CALLER: usize>(
    width: usize,
    input: &[E; 1024],
    output: &mut [E],
)
    requires width { width ≤ E.T }
    requires words { length output.old ≡ E.LANES * width }
{
    for lane in 0..E::LANES {
        let mut before = E::zero();
        let mut less = |place: usize| {
            let _caller = CALLER;
            let value = input[place];
            let difference = value.word_sub(before);
            before = value;
            difference
        };
        pack_lane::<E, _>(width, output, lane, &mut less);
    }
}

/// The same at a width that is a constant.
#[inline(never)]
fn pack_differences_by<E: FastLanes, const W: usize>(input: &[E; 1024], output: &mut [E])
    requires width { W ≤ E.T }
    requires words { length output.old ≡ E.LANES * W }
{
    pack_differences::<E, W>(W, input, output);
}

/// The same at a width that is a number of the run.
#[inline(never)]
fn pack_differences_at<E: FastLanes>(width: usize, input: &[E; 1024], output: &mut [E])
    requires width { width ≤ E.T }
    requires words { length output.old ≡ E.LANES * width }
{
    pack_differences::<E, 0>(width, input, output);
}

/// The same at any width: by the code of that width alone where it is `A` or `B`.
#[inline(always)]
fn pack_differences_of<E: FastLanes, const A: usize, const B: usize>(
    width: usize,
    input: &[E; 1024],
    output: &mut [E],
)
    requires width { width ≤ E.T }
    requires words { length output.old ≡ E.LANES * width }
{
    if width == A {
        pack_differences_by::<E, A>(input, output);
    } else if width == B {
        pack_differences_by::<E, B>(input, output);
    } else {
        pack_differences_at(width, input, output);
    }
}

/// The sum of all elements, by a kernel in each lane.
#[inline(always)]
fn sum_places<E: FastLanes>(input: &[E; 1024]) -> E {
    let mut sum = E::zero();
    for lane in 0..E::LANES {
        let mut add = |place: usize| sum = sum.word_add(input[place]);
        iterate_lane::<E, _>(lane, &mut add);
    }
    sum
}

// Blocks of `u8`.

#[unsafe(no_mangle)]
pub extern "C" fn timed_pack_rows_u8(width: usize, input: &[u8; 1024], output: &mut [u8])
    requires width { width ≤ 8 }
    requires words { length output.old ≡ 128 * width }
{
    u8::pack_rows(width, input, output);
}

#[unsafe(no_mangle)]
pub extern "C" fn timed_unpack_rows_u8(width: usize, input: &[u8], output: &mut [u8; 1024])
    requires width { width ≤ 8 }
    requires words { length input.now ≡ 128 * width }
{
    u8::unpack_rows(width, input, output);
}

#[unsafe(no_mangle)]
pub extern "C" fn timed_put_digits_u8(width: usize, input: &[u8], output: &mut [u8; 1024])
    requires width { width ≤ 8 }
    requires words { length input.now ≡ 128 * width }
{
    put_digits_of::<u8, 3, 5>(width, input, output);
}

#[unsafe(no_mangle)]
pub extern "C" fn timed_sum_digits_u8(width: usize, input: &[u8]) -> u8
    requires width { width ≤ 8 }
    requires words { length input.now ≡ 128 * width }
{
    sum_digits_of::<u8, 3, 5>(width, input)
}

#[unsafe(no_mangle)]
pub extern "C" fn timed_pack_differences_u8(width: usize, input: &[u8; 1024], output: &mut [u8])
    requires width { width ≤ 8 }
    requires words { length output.old ≡ 128 * width }
{
    pack_differences_of::<u8, 3, 5>(width, input, output);
}

#[unsafe(no_mangle)]
pub extern "C" fn timed_sum_places_u8(input: &[u8; 1024]) -> u8 {
    sum_places(input)
}

// Blocks of `u16`.

#[unsafe(no_mangle)]
pub extern "C" fn timed_pack_rows_u16(width: usize, input: &[u16; 1024], output: &mut [u16])
    requires width { width ≤ 16 }
    requires words { length output.old ≡ 64 * width }
{
    u16::pack_rows(width, input, output);
}

#[unsafe(no_mangle)]
pub extern "C" fn timed_unpack_rows_u16(width: usize, input: &[u16], output: &mut [u16; 1024])
    requires width { width ≤ 16 }
    requires words { length input.now ≡ 64 * width }
{
    u16::unpack_rows(width, input, output);
}

#[unsafe(no_mangle)]
pub extern "C" fn timed_put_digits_u16(width: usize, input: &[u16], output: &mut [u16; 1024])
    requires width { width ≤ 16 }
    requires words { length input.now ≡ 64 * width }
{
    put_digits_of::<u16, 3, 10>(width, input, output);
}

#[unsafe(no_mangle)]
pub extern "C" fn timed_sum_digits_u16(width: usize, input: &[u16]) -> u16
    requires width { width ≤ 16 }
    requires words { length input.now ≡ 64 * width }
{
    sum_digits_of::<u16, 3, 10>(width, input)
}

#[unsafe(no_mangle)]
pub extern "C" fn timed_pack_differences_u16(width: usize, input: &[u16; 1024], output: &mut [u16])
    requires width { width ≤ 16 }
    requires words { length output.old ≡ 64 * width }
{
    pack_differences_of::<u16, 3, 10>(width, input, output);
}

#[unsafe(no_mangle)]
pub extern "C" fn timed_sum_places_u16(input: &[u16; 1024]) -> u16 {
    sum_places(input)
}

// Blocks of `u32`.

#[unsafe(no_mangle)]
pub extern "C" fn timed_pack_rows_u32(width: usize, input: &[u32; 1024], output: &mut [u32])
    requires width { width ≤ 32 }
    requires words { length output.old ≡ 32 * width }
{
    u32::pack_rows(width, input, output);
}

#[unsafe(no_mangle)]
pub extern "C" fn timed_unpack_rows_u32(width: usize, input: &[u32], output: &mut [u32; 1024])
    requires width { width ≤ 32 }
    requires words { length input.now ≡ 32 * width }
{
    u32::unpack_rows(width, input, output);
}

#[unsafe(no_mangle)]
pub extern "C" fn timed_put_digits_u32(width: usize, input: &[u32], output: &mut [u32; 1024])
    requires width { width ≤ 32 }
    requires words { length input.now ≡ 32 * width }
{
    put_digits_of::<u32, 3, 20>(width, input, output);
}

#[unsafe(no_mangle)]
pub extern "C" fn timed_sum_digits_u32(width: usize, input: &[u32]) -> u32
    requires width { width ≤ 32 }
    requires words { length input.now ≡ 32 * width }
{
    sum_digits_of::<u32, 3, 20>(width, input)
}

#[unsafe(no_mangle)]
pub extern "C" fn timed_pack_differences_u32(width: usize, input: &[u32; 1024], output: &mut [u32])
    requires width { width ≤ 32 }
    requires words { length output.old ≡ 32 * width }
{
    pack_differences_of::<u32, 3, 20>(width, input, output);
}

#[unsafe(no_mangle)]
pub extern "C" fn timed_sum_places_u32(input: &[u32; 1024]) -> u32 {
    sum_places(input)
}

// Blocks of `u64`.

#[unsafe(no_mangle)]
pub extern "C" fn timed_pack_rows_u64(width: usize, input: &[u64; 1024], output: &mut [u64])
    requires width { width ≤ 64 }
    requires words { length output.old ≡ 16 * width }
{
    u64::pack_rows(width, input, output);
}

#[unsafe(no_mangle)]
pub extern "C" fn timed_unpack_rows_u64(width: usize, input: &[u64], output: &mut [u64; 1024])
    requires width { width ≤ 64 }
    requires words { length input.now ≡ 16 * width }
{
    u64::unpack_rows(width, input, output);
}

#[unsafe(no_mangle)]
pub extern "C" fn timed_put_digits_u64(width: usize, input: &[u64], output: &mut [u64; 1024])
    requires width { width ≤ 64 }
    requires words { length input.now ≡ 16 * width }
{
    put_digits_of::<u64, 3, 40>(width, input, output);
}

#[unsafe(no_mangle)]
pub extern "C" fn timed_sum_digits_u64(width: usize, input: &[u64]) -> u64
    requires width { width ≤ 64 }
    requires words { length input.now ≡ 16 * width }
{
    sum_digits_of::<u64, 3, 40>(width, input)
}

#[unsafe(no_mangle)]
pub extern "C" fn timed_pack_differences_u64(width: usize, input: &[u64; 1024], output: &mut [u64])
    requires width { width ≤ 64 }
    requires words { length output.old ≡ 16 * width }
{
    pack_differences_of::<u64, 3, 40>(width, input, output);
}

#[unsafe(no_mangle)]
pub extern "C" fn timed_sum_places_u64(input: &[u64; 1024]) -> u64 {
    sum_places(input)
}
