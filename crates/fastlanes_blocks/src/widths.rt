//! The one look at a width that a fold takes.

ghost use Rattle.std.proofs.Common.{lit<, lit≤};
ghost use Rattle.std.specs.Prelude.{◌≡◌, ℕ, ◌*◌, ◌/◌, ◌^◌, ◌≤◌, List, [], length, map, refl};
ghost use Rattle.fastlanes_blocks.specs.Walks.{walk_digits};
ghost use Rattle.fastlanes_rows.specs.Rows.{MakesGroups};

use crate::fold::{RowKernel, fold_by};
use crate::order::OrderedRow;
use fastlanes_base::MachineWord;
use fastlanes_rows::types::RowTypes;
use fastlanes_rows::vector::RowVector;
use fastlanes_rows::width::{Bits, Width};
use std::marker::PhantomData;
use std::simd::prelude::*;

/// What is done with a kernel at a width.
pub trait KernelAtWidth<E, K> {
    // What the width, the words and the kernel have to be.
    ghost asks: { ℕ → List E → K → Type 0 };

    // What is said of the width, the words and the kernel as it is then.
    ghost gives: { ℕ → List E → K → Type 0 };

    /// Takes the kernel through the words at the width `N`.
    fn at<N: Width>(packed: &[E], kernel: K) -> K
        requires { asks N.W packed.now kernel }
        ensures { gives N.W packed.now result };
}

/// A kernel at the one of these widths that it is, or what is done at another one.
macro_rules! kernel_at_one_of {
    ([$($constant:literal)*], $call:ident, $width:ident, $packed:ident, $kernel:ident, $else:expr) => {
        match $width {
            $($constant => $call::at::<Bits<$constant>>($packed, $kernel),)*
            _ => $else
        }
    };
}

/// Takes the kernel through the words at a width of up to 8.
#[inline(always)]
fn kernel_at_most_8<E, K, C: KernelAtWidth<E, K>>(width: usize, packed: &[E], kernel: K) -> K
    requires width { width ≤ 8 }
    requires asks { C.asks width packed.now kernel }
    ensures { C.gives width packed.now result }
{
    kernel_at_one_of!(
        [0 1 2 3 4 5 6 7 8],
        C, width, packed, kernel, kernel
    )
}

/// Takes the kernel through the words at a width of up to 16.
#[inline(always)]
fn kernel_at_most_16<E, K, C: KernelAtWidth<E, K>>(width: usize, packed: &[E], kernel: K) -> K
    requires width { width ≤ 16 }
    requires asks { C.asks width packed.now kernel }
    ensures { C.gives width packed.now result }
{
    kernel_at_one_of!(
        [9 10 11 12 13 14 15 16],
        C, width, packed, kernel, kernel_at_most_8::<E, K, C>(width, packed, kernel)
    )
}

/// Takes the kernel through the words at a width of up to 32.
#[inline(always)]
fn kernel_at_most_32<E, K, C: KernelAtWidth<E, K>>(width: usize, packed: &[E], kernel: K) -> K
    requires width { width ≤ 32 }
    requires asks { C.asks width packed.now kernel }
    ensures { C.gives width packed.now result }
{
    kernel_at_one_of!(
        [17 18 19 20 21 22 23 24 25 26 27 28 29 30 31 32],
        C, width, packed, kernel, kernel_at_most_16::<E, K, C>(width, packed, kernel)
    )
}

/// Takes the kernel through the words at a width of up to 64.
#[inline(always)]
fn kernel_at_most_64<E, K, C: KernelAtWidth<E, K>>(width: usize, packed: &[E], kernel: K) -> K
    requires width { width ≤ 64 }
    requires asks { C.asks width packed.now kernel }
    ensures { C.gives width packed.now result }
{
    kernel_at_one_of!(
        [33 34 35 36 37 38 39 40 41 42 43 44 45 46 47 48 49 50 51 52 53 54 55 56 57 58 59 60 61 62 63 64],
        C, width, packed, kernel, kernel_at_most_32::<E, K, C>(width, packed, kernel)
    )
}

/// Element types, each with the vector by whose rows kernels take digits and sources give values.
pub trait FoldTypes: RowTypes {
    /// The vector of such a row: 64 bytes of `u8`, `u16` and `u64`, 32 of `u32`.
    type Taken: OrderedRow<Self>;

    /// Takes a kernel through words at a width that is known at run time: the look at the width that a call takes once.
    fn kernel_at_width<C: KernelAtWidth<Self, K>, K>(width: usize, packed: &[Self], kernel: K) -> K
        requires width { width ≤ Self.T }
        requires asks { C.asks width packed.now kernel }
        ensures { C.gives width packed.now result };

    ghost groups_law: { MakesGroups Self.LANES Self.Taken.N };

    // A word of a lane holds the sum of half as many bits of all its digits.
    ghost halves_law: { 1024 ≤ Self.Taken.N * 2 ^ (Self.T / 2) };
}

impl FoldTypes for u8 {
    type Taken = u8x64;

    #[inline(always)]
    fn kernel_at_width<C: KernelAtWidth<u8, K>, K>(width: usize, packed: &[u8], kernel: K) -> K {
        kernel_at_most_8::<u8, K, C>(width, packed, kernel)
    }

    ghost groups_law = { (lit< tt, lit≤ tt, refl) };

    ghost halves_law = { lit≤ tt };
}

impl FoldTypes for u16 {
    type Taken = u16x32;

    #[inline(always)]
    fn kernel_at_width<C: KernelAtWidth<u16, K>, K>(width: usize, packed: &[u16], kernel: K) -> K {
        kernel_at_most_16::<u16, K, C>(width, packed, kernel)
    }

    ghost groups_law = { (lit< tt, lit≤ tt, refl) };

    ghost halves_law = { lit≤ tt };
}

impl FoldTypes for u32 {
    type Taken = u32x8;

    #[inline(always)]
    fn kernel_at_width<C: KernelAtWidth<u32, K>, K>(width: usize, packed: &[u32], kernel: K) -> K {
        kernel_at_most_32::<u32, K, C>(width, packed, kernel)
    }

    ghost groups_law = { (lit< tt, lit≤ tt, refl) };

    ghost halves_law = { lit≤ tt };
}

impl FoldTypes for u64 {
    type Taken = u64x8;

    #[inline(always)]
    fn kernel_at_width<C: KernelAtWidth<u64, K>, K>(width: usize, packed: &[u64], kernel: K) -> K {
        kernel_at_most_64::<u64, K, C>(width, packed, kernel)
    }

    ghost groups_law = { (lit< tt, lit≤ tt, refl) };

    ghost halves_law = { lit≤ tt };
}

/// Folding of digits at a width that is not known yet, by rows of a vector: as a function of its own where the code of a block at one
/// width is long.
struct Folding<V> {
    rows: PhantomData<V>,
}

impl<E: MachineWord, V: RowVector<E>, K: RowKernel<E, V>> KernelAtWidth<E, K> for Folding<V> {
    ghost asks = { λ width packed kernel. (width ≤ E.T) × MakesGroups E.LANES V.N
        × (length packed ≡ E.LANES * width) × K.took width kernel [] };

    ghost gives = { λ width packed kernel. K.took width kernel
        (walk_digits E.T V.N E.LANES width (map E.number packed)) };

    #[inline(always)]
    fn at<N: Width>(packed: &[E], kernel: K) -> K {
        if E::T <= 16 {
            fold_by::<E, V, K, N>(packed, kernel)
        } else {
            fold_apart::<E, V, K, N>(packed, kernel)
        }
    }
}

#[inline(never)]
fn fold_apart<E: MachineWord, V: RowVector<E>, K: RowKernel<E, V>, N: Width>(
    packed: &[E],
    kernel: K,
) -> K
    requires width { N.W ≤ E.T }
    requires groups { MakesGroups E.LANES V.N }
    requires words { length packed.now ≡ E.LANES * N.W }
    requires took { K.took N.W kernel [] }
    ensures { K.took N.W result (walk_digits E.T V.N E.LANES N.W (map E.number packed.now)) }
{
    fold_by::<E, V, K, N>(packed, kernel)
}

/// Hands all digits of a block of `LANES * width` words to a kernel, and answers the kernel as it is then: row after row, lanes side by
/// side, by one look at the width.
pub fn fold_block<E: FoldTypes, K: RowKernel<E, E::Taken>>(
    width: usize,
    packed: &[E],
    kernel: K,
) -> K
    requires width { width ≤ E.T }
    requires packed { length packed.now ≡ E.LANES * width }
    requires took { K.took width kernel [] }
    ensures { K.took width result (walk_digits E.T E.Taken.N E.LANES width (map E.number packed.now)) }
{
    E::kernel_at_width::<Folding<E::Taken>, K>(width, packed, kernel)
}
