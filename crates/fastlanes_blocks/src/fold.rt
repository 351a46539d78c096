//! The digits of a block, taken by a kernel.

ghost use Rattle.std.specs.Prelude.{◌≡◌, ℕ, ◌+◌, ◌*◌, ◌^◌, ◌<◌, ◌≤◌, List, [], ◌++◌, length, map, ⊤};
ghost use Rattle.fastlanes_blocks.specs.Walks.{row_values, walk_digits, walk_places, with_values};
ghost use Rattle.fastlanes_rows.specs.Rows.{LanesBelow, MakesGroups};

use fastlanes_base::{MachineWord, index};
use fastlanes_rows::block_walk::{BlockWriter, digits_of, walk_block};
use fastlanes_rows::given_width::OfType;
use fastlanes_rows::group_walk::GroupWriter;
use fastlanes_rows::vector::RowVector;
use fastlanes_rows::width::Width;

/// What takes the digits of a block, those of a row of lanes side by side at a time: a sum so far, say, in each lane of a vector. Of
/// which places it took the digits, and in which order, is a list of pairs; what they made of the kernel is its own law.
pub trait RowKernel<E: MachineWord, V: RowVector<E>>: Copy {
    // At a width, these places of a block were taken, each with the digit there, in this order.
    ghost took: { ℕ → Self → List (ℕ × ℕ) → Type 0 };

    /// Takes the digits at as many places as the vector has lanes, from `from` on. A walk calls it once for each row of lanes, at one
    /// width, with digits of that many bits, and for no more places than a block has.
    fn take(&mut self, width: usize, from: usize, digits: V)
        requires width { width ≤ E.T }
        requires from { from + V.N ≤ 1024 }
        requires took { (before : List (ℕ × ℕ)) × took width self.old before }
        // Digits are below 2^width, and no block has more than 1024.
        ensures took { (before : List (ℕ × ℕ)) → took width self.old before
            → length before + V.N ≤ 1024 → LanesBelow V.N (V.at digits) (2 ^ width)
            → took width self.new (before ++ row_values V.N from (V.at digits)) };
}

/// A kernel as what a walk of a block writes to.
#[derive(Drop)]
struct Taking<K> {
    kernel: K,
}

impl<E: MachineWord, V: RowVector<E>, K: RowKernel<E, V>> GroupWriter<E, V> for Taking<K> {
    type Carry = ();

    ghost holds = { λ s width lane row at carry. ((l r : ℕ) → at l r < 2 ^ width)
        × (group : ℕ) × (lane ≡ V.N * group)
        × K.took width s.kernel (with_values E.LANES at (walk_places E.T V.N ((group * E.T + row) * V.N))) };

    ghost beside = { λ lane s u. ⊤ };

    #[inline(always)]
    fn write(&mut self, width: usize, lane: usize, row: usize, values: V, _carry: ()) {
        self.kernel.take(width, index(row, lane), values);
    }
}

impl<E: MachineWord, V: RowVector<E>, K: RowKernel<E, V>> BlockWriter<E, V> for Taking<K> {
    ghost done = { λ s width lane at. ((l r : ℕ) → at l r < 2 ^ width)
        × (group : ℕ) × (lane ≡ V.N * group)
        × K.took width s.kernel (with_values E.LANES at (walk_places E.T V.N (group * E.T * V.N))) };

    ghost target = { λ s. 0 };

    #[inline(always)]
    fn begin(&mut self, _width: usize, _lane: usize) {}

    #[inline(always)]
    fn end(&mut self, _width: usize, _lane: usize, _carry: ()) {}
}

/// Takes the digits of a block from the width `N`, by rows of a vector.
#[inline(always)]
pub(crate) fn fold_by<E: MachineWord, V: RowVector<E>, K: RowKernel<E, V>, N: Width>(
    packed: &[E],
    kernel: K,
) -> K
    requires width { N.W ≤ E.T }
    requires groups { MakesGroups E.LANES V.N }
    requires words { length packed.now ≡ E.LANES * N.W }
    requires took { K.took N.W kernel [] }
    ensures { K.took N.W result (walk_digits E.T V.N E.LANES N.W (map E.number packed.now)) }
{
    let mut digits = digits_of::<E, V>(N::W, packed);
    let mut taking = Taking { kernel };
    walk_block::<E, V, _, Taking<K>, OfType<N>>(&mut digits, &mut taking, N::W);
    taking.kernel
}
