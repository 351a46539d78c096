//! Rows of lanes side by side as vectors: what an element type does with one value, on all values of a row at once. A word
//! alone is a row of one lane.

ghost use Rattle.std.specs.Prelude.{◌≡◌, ℕ, ◌+◌, ◌-◌, ◌*◌, ◌/◌, ◌%◌, ◌^◌, ◌<◌, ◌≤◌, bit_or, length, map, slice_index};
ghost use Rattle.fastlanes_rows.specs.Rows.{HasLanes, LanesBelow};

use fastlanes_base::MachineWord;
use std::simd::prelude::*;

/// The values of a row in lanes side by side.
pub trait RowVector<E: MachineWord>: Copy {
    /// How many lanes.
    const N: usize;

    ghost N: { ℕ };

    // The number that the value of a lane stands for, by the lane's place among them.
    ghost at: { Self → ℕ → ℕ };

    /// The elements of a slice from one place on.
    fn load(words: &[E], from: usize) -> Self
        requires { from + N ≤ length words.now }
        ensures { HasLanes N (at result) (λ j. slice_index (map E.number words.now) (from + j)) };

    /// Writes the values to as many elements.
    fn put(self, words: &mut [E])
        requires { length words.old ≡ N }
        ensures long { length words.new ≡ N }
        ensures each { HasLanes N (slice_index (map E.number words.new)) (at self) };

    /// The same value in each lane.
    fn splat(value: E) -> Self
        ensures { HasLanes N (at result) (λ j. E.number value) };

    /// The sums, modulo `2^T`.
    fn plus(self, other: Self) -> Self
        ensures { HasLanes N (at result) (λ j. (at self j + at other j) % 2 ^ E.T) };

    /// The differences, modulo `2^T`.
    fn minus(self, other: Self) -> Self
        ensures { HasLanes N (at result) (λ j. (at self j + (2 ^ E.T - at other j)) % 2 ^ E.T) };

    /// The bits moved up by `n`, without those that leave the word.
    fn up(self, n: usize) -> Self
        requires { n < E.T }
        ensures below { LanesBelow N (at self) (2 ^ E.T) }
        ensures value { HasLanes N (at result) (λ j. at self j * 2 ^ n % 2 ^ E.T) };

    /// The bits moved down by `n`.
    fn down(self, n: usize) -> Self
        requires { n < E.T }
        ensures below { LanesBelow N (at self) (2 ^ E.T) }
        ensures value { HasLanes N (at result) (λ j. at self j / 2 ^ n) };

    /// Bit by bit or.
    fn or(self, other: Self) -> Self
        ensures { HasLanes N (at result) (λ j. bit_or (at self j) (at other j)) };

    /// The lowest `width` bits of each value.
    fn low(self, width: usize) -> Self
        requires { width ≤ E.T }
        ensures below { LanesBelow N (at self) (2 ^ E.T) }
        ensures value { HasLanes N (at result) (λ j. at self j % 2 ^ width) };
}

impl<const K: usize> RowVector<u8> for Simd<u8, K> {
    const N: usize = K;

    ghost N = { K };

    ghost at = { λ row j. slice_index row j };

    #[inline(always)]
    fn load(words: &[u8], from: usize) -> Simd<u8, K> {
        Simd::<u8, K>::from_slice(&words[from..from + K])
    }

    #[tactic(auto, using(crate::proofs::Vectors::put_whole))]
    #[inline(always)]
    fn put(self, words: &mut [u8]) {
        self.copy_to_slice(words);
    }

    #[inline(always)]
    fn splat(value: u8) -> Simd<u8, K> {
        Simd::<u8, K>::splat(value)
    }

    #[inline(always)]
    fn plus(self, other: Simd<u8, K>) -> Simd<u8, K> {
        self + other
    }

    #[inline(always)]
    fn minus(self, other: Simd<u8, K>) -> Simd<u8, K> {
        self - other
    }

    #[tactic(auto, using(crate::proofs::Vectors::by_splat, std::proofs::lemmas::Simd::shifts_fit_splat))]
    #[inline(always)]
    fn up(self, n: usize) -> Simd<u8, K> {
        self << (n as u8)
    }

    #[tactic(auto, using(crate::proofs::Vectors::by_splat, std::proofs::lemmas::Simd::shifts_fit_splat))]
    #[inline(always)]
    fn down(self, n: usize) -> Simd<u8, K> {
        self >> (n as u8)
    }

    #[inline(always)]
    fn or(self, other: Simd<u8, K>) -> Simd<u8, K> {
        self | other
    }

    #[tactic(auto, using(crate::proofs::Vectors::low_by_splat))]
    #[inline(always)]
    fn low(self, width: usize) -> Simd<u8, K> {
        self & Simd::<u8, K>::splat(width_mask(width))
    }
}

impl<const K: usize> RowVector<u16> for Simd<u16, K> {
    const N: usize = K;

    ghost N = { K };

    ghost at = { λ row j. slice_index row j };

    #[inline(always)]
    fn load(words: &[u16], from: usize) -> Simd<u16, K> {
        Simd::<u16, K>::from_slice(&words[from..from + K])
    }

    #[tactic(auto, using(crate::proofs::Vectors::put_whole))]
    #[inline(always)]
    fn put(self, words: &mut [u16]) {
        self.copy_to_slice(words);
    }

    #[inline(always)]
    fn splat(value: u16) -> Simd<u16, K> {
        Simd::<u16, K>::splat(value)
    }

    #[inline(always)]
    fn plus(self, other: Simd<u16, K>) -> Simd<u16, K> {
        self + other
    }

    #[inline(always)]
    fn minus(self, other: Simd<u16, K>) -> Simd<u16, K> {
        self - other
    }

    #[tactic(auto, using(crate::proofs::Vectors::by_splat, std::proofs::lemmas::Simd::shifts_fit_splat))]
    #[inline(always)]
    fn up(self, n: usize) -> Simd<u16, K> {
        self << (n as u16)
    }

    #[tactic(auto, using(crate::proofs::Vectors::by_splat, std::proofs::lemmas::Simd::shifts_fit_splat))]
    #[inline(always)]
    fn down(self, n: usize) -> Simd<u16, K> {
        self >> (n as u16)
    }

    #[inline(always)]
    fn or(self, other: Simd<u16, K>) -> Simd<u16, K> {
        self | other
    }

    #[tactic(auto, using(crate::proofs::Vectors::low_by_splat))]
    #[inline(always)]
    fn low(self, width: usize) -> Simd<u16, K> {
        self & Simd::<u16, K>::splat(width_mask(width))
    }
}

impl<const K: usize> RowVector<u32> for Simd<u32, K> {
    const N: usize = K;

    ghost N = { K };

    ghost at = { λ row j. slice_index row j };

    #[inline(always)]
    fn load(words: &[u32], from: usize) -> Simd<u32, K> {
        Simd::<u32, K>::from_slice(&words[from..from + K])
    }

    #[tactic(auto, using(crate::proofs::Vectors::put_whole))]
    #[inline(always)]
    fn put(self, words: &mut [u32]) {
        self.copy_to_slice(words);
    }

    #[inline(always)]
    fn splat(value: u32) -> Simd<u32, K> {
        Simd::<u32, K>::splat(value)
    }

    #[inline(always)]
    fn plus(self, other: Simd<u32, K>) -> Simd<u32, K> {
        self + other
    }

    #[inline(always)]
    fn minus(self, other: Simd<u32, K>) -> Simd<u32, K> {
        self - other
    }

    #[tactic(auto, using(crate::proofs::Vectors::by_splat, std::proofs::lemmas::Simd::shifts_fit_splat))]
    #[inline(always)]
    fn up(self, n: usize) -> Simd<u32, K> {
        self << (n as u32)
    }

    #[tactic(auto, using(crate::proofs::Vectors::by_splat, std::proofs::lemmas::Simd::shifts_fit_splat))]
    #[inline(always)]
    fn down(self, n: usize) -> Simd<u32, K> {
        self >> (n as u32)
    }

    #[inline(always)]
    fn or(self, other: Simd<u32, K>) -> Simd<u32, K> {
        self | other
    }

    #[tactic(auto, using(crate::proofs::Vectors::low_by_splat))]
    #[inline(always)]
    fn low(self, width: usize) -> Simd<u32, K> {
        self & Simd::<u32, K>::splat(width_mask(width))
    }
}

impl<const K: usize> RowVector<u64> for Simd<u64, K> {
    const N: usize = K;

    ghost N = { K };

    ghost at = { λ row j. slice_index row j };

    #[inline(always)]
    fn load(words: &[u64], from: usize) -> Simd<u64, K> {
        Simd::<u64, K>::from_slice(&words[from..from + K])
    }

    #[tactic(auto, using(crate::proofs::Vectors::put_whole))]
    #[inline(always)]
    fn put(self, words: &mut [u64]) {
        self.copy_to_slice(words);
    }

    #[inline(always)]
    fn splat(value: u64) -> Simd<u64, K> {
        Simd::<u64, K>::splat(value)
    }

    #[inline(always)]
    fn plus(self, other: Simd<u64, K>) -> Simd<u64, K> {
        self + other
    }

    #[inline(always)]
    fn minus(self, other: Simd<u64, K>) -> Simd<u64, K> {
        self - other
    }

    #[tactic(auto, using(crate::proofs::Vectors::by_splat, std::proofs::lemmas::Simd::shifts_fit_splat))]
    #[inline(always)]
    fn up(self, n: usize) -> Simd<u64, K> {
        self << (n as u64)
    }

    #[tactic(auto, using(crate::proofs::Vectors::by_splat, std::proofs::lemmas::Simd::shifts_fit_splat))]
    #[inline(always)]
    fn down(self, n: usize) -> Simd<u64, K> {
        self >> (n as u64)
    }

    #[inline(always)]
    fn or(self, other: Simd<u64, K>) -> Simd<u64, K> {
        self | other
    }

    #[tactic(auto, using(crate::proofs::Vectors::low_by_splat))]
    #[inline(always)]
    fn low(self, width: usize) -> Simd<u64, K> {
        self & Simd::<u64, K>::splat(width_mask(width))
    }
}

/// A word alone: a row of one lane.
#[derive(Clone, Copy)]
pub struct Lone<E>(pub E);

impl<E: MachineWord> RowVector<E> for Lone<E> {
    const N: usize = 1;

    ghost N = { 1 };

    ghost at = { λ row j. E.number row.0 };

    #[inline(always)]
    fn load(words: &[E], from: usize) -> Lone<E> {
        Lone(words[from])
    }

    #[inline(always)]
    fn put(self, words: &mut [E]) {
        words[0] = self.0;
    }

    #[inline(always)]
    fn splat(value: E) -> Lone<E> {
        Lone(value)
    }

    #[inline(always)]
    fn plus(self, other: Lone<E>) -> Lone<E> {
        Lone(self.0.plus(other.0))
    }

    #[inline(always)]
    fn minus(self, other: Lone<E>) -> Lone<E> {
        Lone(self.0.minus(other.0))
    }

    #[inline(always)]
    fn up(self, n: usize) -> Lone<E> {
        Lone(self.0.up(n as u32))
    }

    #[inline(always)]
    fn down(self, n: usize) -> Lone<E> {
        Lone(self.0.down(n as u32))
    }

    #[inline(always)]
    fn or(self, other: Lone<E>) -> Lone<E> {
        Lone(self.0.or(other.0))
    }

    #[inline(always)]
    fn low(self, width: usize) -> Lone<E> {
        Lone(self.0.low(width as u32))
    }
}

/// The word whose lowest `width` bits are ones.
#[inline(always)]
fn width_mask<E: MachineWord>(width: usize) -> E
    requires { width ≤ E.T }
    ensures { E.number result ≡ 2 ^ width - 1 }
{
    if width == 0 {
        return E::zero();
    }
    let ones = E::zero().minus(E::one());
    ones.down((E::T - width) as u32)
}
