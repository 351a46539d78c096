//! Rows of lanes side by side as vectors, the lesser and the greater value in each lane.

ghost use Rattle.std.specs.Prelude.{max, min};
ghost use Rattle.fastlanes_rows.specs.Rows.{HasLanes};

use fastlanes_base::MachineWord;
use fastlanes_rows::vector::RowVector;
use std::simd::prelude::*;

/// The values of a row in lanes side by side, of which the lesser and the greater are taken.
pub trait OrderedRow<E: MachineWord>: RowVector<E> {
    /// The lesser value in each lane.
    fn lesser(self, other: Self) -> Self
        ensures { HasLanes Self.N (Self.at result) (λ j. min (Self.at self j) (Self.at other j)) };

    /// The greater value in each lane.
    fn greater(self, other: Self) -> Self
        ensures { HasLanes Self.N (Self.at result) (λ j. max (Self.at self j) (Self.at other j)) };
}

impl<const K: usize> OrderedRow<u8> for Simd<u8, K> {
    #[tactic(auto, using(crate::proofs::Selected::lesser_selected))]
    #[inline(always)]
    fn lesser(self, other: Simd<u8, K>) -> Simd<u8, K> {
        self.simd_min(other)
    }

    #[tactic(auto, using(crate::proofs::Selected::greater_selected))]
    #[inline(always)]
    fn greater(self, other: Simd<u8, K>) -> Simd<u8, K> {
        self.simd_max(other)
    }
}

impl<const K: usize> OrderedRow<u16> for Simd<u16, K> {
    #[tactic(auto, using(crate::proofs::Selected::lesser_selected))]
    #[inline(always)]
    fn lesser(self, other: Simd<u16, K>) -> Simd<u16, K> {
        self.simd_min(other)
    }

    #[tactic(auto, using(crate::proofs::Selected::greater_selected))]
    #[inline(always)]
    fn greater(self, other: Simd<u16, K>) -> Simd<u16, K> {
        self.simd_max(other)
    }
}

impl<const K: usize> OrderedRow<u32> for Simd<u32, K> {
    #[tactic(auto, using(crate::proofs::Selected::lesser_selected))]
    #[inline(always)]
    fn lesser(self, other: Simd<u32, K>) -> Simd<u32, K> {
        self.simd_min(other)
    }

    #[tactic(auto, using(crate::proofs::Selected::greater_selected))]
    #[inline(always)]
    fn greater(self, other: Simd<u32, K>) -> Simd<u32, K> {
        self.simd_max(other)
    }
}

impl<const K: usize> OrderedRow<u64> for Simd<u64, K> {
    #[tactic(auto, using(crate::proofs::Selected::lesser_selected))]
    #[inline(always)]
    fn lesser(self, other: Simd<u64, K>) -> Simd<u64, K> {
        self.simd_min(other)
    }

    #[tactic(auto, using(crate::proofs::Selected::greater_selected))]
    #[inline(always)]
    fn greater(self, other: Simd<u64, K>) -> Simd<u64, K> {
        self.simd_max(other)
    }
}
