//! A source of a caller's: the elements of a block, each less the same number.

ghost use Rattle.std.specs.Prelude.{◌≡◌, ℕ, ◌+◌, ◌-◌, ◌*◌, ◌%◌, ◌^◌, ◌≤◌, length, map, slice_index};
ghost use Rattle.fastlanes_base.specs.Digits.{IsPacked};
ghost use Rattle.fastlanes_blocks.specs.Walks.{block_of};

use fastlanes_base::MachineWord;
use fastlanes_blocks::{FoldTypes, RowSource, RowVector, pack_from};

/// The elements of a block, each less `by`, modulo `2^T`.
#[derive(Clone, Copy)]
struct Lowered<'a, E: MachineWord> {
    block: &'a [E; 1024],
    by: E,
}

impl<'a, E: MachineWord, V: RowVector<E>> RowSource<E, V> for Lowered<'a, E> {
    ghost value_at = { λ s i. (slice_index (map E.number s.block.now) i + (2 ^ E.T - E.number s.by)) % 2 ^ E.T };

    #[inline(always)]
    fn give(&mut self, from: usize) -> V {
        let block = self.block;
        V::load(block, from).minus(V::splat(self.by))
    }
}

/// Packs the elements of a block, each less `by`, modulo `2^T`, to `width` bits each.
pub fn pack_lowered<E: FoldTypes>(width: usize, block: &[E; 1024], by: E, output: &mut [E])
    requires width { width ≤ E.T }
    requires output { length output.old ≡ E.LANES * width }
    ensures { IsPacked E.T E.LANES width
        (block_of (λ i. (slice_index (map E.number block.now) i + (2 ^ E.T - E.number by)) % 2 ^ E.T))
        (map E.number output.new) }
{
    pack_from(width, Lowered { block, by }, output);
}
