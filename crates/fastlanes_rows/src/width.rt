//! Widths as types, and the one look at a width that a call takes.

ghost use Rattle.std.specs.Prelude.{ℕ, List, ◌≤◌};

use fastlanes_base::{FastLanes, MachineWord};
use std::marker::PhantomData;

/// A width, which the compiler knows as a constant.
pub trait Width {
    /// The width.
    const W: usize;

    ghost W: { ℕ };
}

/// The width `N`.
pub struct Bits<const N: usize>;

impl<const N: usize> Width for Bits<N> {
    const W: usize = N;

    ghost W = { N };
}

/// What reads words or elements at a width, and writes a block, packed words or a mask. What else it takes is an `X`.
pub trait AtWidth<E, X, O> {
    // What the width, what is read, what else is taken and the output have to be.
    ghost asks: { ℕ → List E → X → List O → Type 0 };

    // What is said of these, and of the output, afterwards.
    ghost gives: { ℕ → List E → X → List O → Type 0 };

    /// Writes the output at the width `N`.
    fn at<N: Width>(input: &[E], other: X, output: &mut [O])
        requires { asks N.W input.now other output.old }
        ensures { gives N.W input.now other output.new };
}

/// What a call does at a width, as a function of its own where the code of a block at one width is long.
pub struct Apart<C> {
    call: PhantomData<C>,
}

impl<E: MachineWord, X, O, C: AtWidth<E, X, O>> AtWidth<E, X, O> for Apart<C> {
    ghost asks = { C.asks };

    ghost gives = { C.gives };

    #[inline(always)]
    fn at<N: Width>(input: &[E], other: X, output: &mut [O]) {
        if E::T <= 16 {
            C::at::<N>(input, other, output);
        } else {
            at_apart::<E, X, O, C, N>(input, other, output);
        }
    }
}

#[inline(never)]
fn at_apart<E, X, O, C: AtWidth<E, X, O>, N: Width>(input: &[E], other: X, output: &mut [O])
    requires { C.asks N.W input.now other output.old }
    ensures { C.gives N.W input.now other output.new }
{
    C::at::<N>(input, other, output);
}

/// A call at the one of these widths that it is, or what is done at another one.
macro_rules! at_one_of {
    ([$($constant:literal)*], $call:ident, $width:ident, $input:ident, $other:ident, $output:ident, $else:expr) => {
        match $width {
            $($constant => $call::at::<Bits<$constant>>($input, $other, $output),)*
            _ => $else,
        }
    };
}

/// Writes the output at a width of up to 8.
#[inline(always)]
fn at_most_8<E, X: Copy, O, C: AtWidth<E, X, O>>(
    width: usize,
    input: &[E],
    other: X,
    output: &mut [O],
)
    requires width { width ≤ 8 }
    requires asks { C.asks width input.now other output.old }
    ensures { C.gives width input.now other output.new }
{
    at_one_of!([0 1 2 3 4 5 6 7 8], C, width, input, other, output, {});
}

/// Writes the output at a width of up to 16.
#[inline(always)]
fn at_most_16<E, X: Copy, O, C: AtWidth<E, X, O>>(
    width: usize,
    input: &[E],
    other: X,
    output: &mut [O],
)
    requires width { width ≤ 16 }
    requires asks { C.asks width input.now other output.old }
    ensures { C.gives width input.now other output.new }
{
    at_one_of!(
        [9 10 11 12 13 14 15 16],
        C, width, input, other, output, at_most_8::<E, X, O, C>(width, input, other, output)
    );
}

/// Writes the output at a width of up to 32.
#[inline(always)]
fn at_most_32<E, X: Copy, O, C: AtWidth<E, X, O>>(
    width: usize,
    input: &[E],
    other: X,
    output: &mut [O],
)
    requires width { width ≤ 32 }
    requires asks { C.asks width input.now other output.old }
    ensures { C.gives width input.now other output.new }
{
    at_one_of!(
        [17 18 19 20 21 22 23 24 25 26 27 28 29 30 31 32],
        C, width, input, other, output, at_most_16::<E, X, O, C>(width, input, other, output)
    );
}

/// Writes the output at a width of up to 64.
#[inline(always)]
fn at_most_64<E, X: Copy, O, C: AtWidth<E, X, O>>(
    width: usize,
    input: &[E],
    other: X,
    output: &mut [O],
)
    requires width { width ≤ 64 }
    requires asks { C.asks width input.now other output.old }
    ensures { C.gives width input.now other output.new }
{
    at_one_of!(
        [33 34 35 36 37 38 39 40 41 42 43 44 45 46 47 48 49 50 51 52 53 54 55 56 57 58 59 60 61 62 63 64],
        C, width, input, other, output, at_most_32::<E, X, O, C>(width, input, other, output)
    );
}

/// Element types, each with its widths.
pub trait Widths: FastLanes {
    /// Writes the output at a width that is known at run time: the look at the width that a call takes once.
    fn at_width<C: AtWidth<Self, X, O>, X: Copy, O>(
        width: usize,
        input: &[Self],
        other: X,
        output: &mut [O],
    )
        requires width { width ≤ Self.T }
        requires asks { C.asks width input.now other output.old }
        ensures { C.gives width input.now other output.new };
}

impl Widths for u8 {
    #[inline(always)]
    fn at_width<C: AtWidth<u8, X, O>, X: Copy, O>(
        width: usize,
        input: &[u8],
        other: X,
        output: &mut [O],
    ) {
        at_most_8::<u8, X, O, C>(width, input, other, output);
    }
}

impl Widths for u16 {
    #[inline(always)]
    fn at_width<C: AtWidth<u16, X, O>, X: Copy, O>(
        width: usize,
        input: &[u16],
        other: X,
        output: &mut [O],
    ) {
        at_most_16::<u16, X, O, C>(width, input, other, output);
    }
}

impl Widths for u32 {
    #[inline(always)]
    fn at_width<C: AtWidth<u32, X, O>, X: Copy, O>(
        width: usize,
        input: &[u32],
        other: X,
        output: &mut [O],
    ) {
        at_most_32::<u32, X, O, C>(width, input, other, output);
    }
}

impl Widths for u64 {
    #[inline(always)]
    fn at_width<C: AtWidth<u64, X, O>, X: Copy, O>(
        width: usize,
        input: &[u64],
        other: X,
        output: &mut [O],
    ) {
        at_most_64::<u64, X, O, C>(width, input, other, output);
    }
}
