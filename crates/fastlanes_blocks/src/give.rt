//! The values of a block, given by a source and packed.

ghost use Rattle.std.specs.Prelude.{◌≡◌, ℕ, ◌+◌, ◌*◌, ◌≤◌, length, map, ⊤};
ghost use Rattle.fastlanes_base.specs.Digits.{IsPacked};
ghost use Rattle.fastlanes_base.specs.Order.{place};
ghost use Rattle.fastlanes_blocks.specs.Walks.{block_of};
ghost use Rattle.fastlanes_rows.specs.Rows.{HasLanes, MakesGroups};

use crate::widths::FoldTypes;
use fastlanes_base::{MachineWord, index};
use fastlanes_rows::block_walk::{BlockReader, pack_all_of};
use fastlanes_rows::given_width::OfType;
use fastlanes_rows::group_walk::GroupReader;
use fastlanes_rows::vector::RowVector;
use fastlanes_rows::width::{Apart, AtWidth, Width};
use std::marker::PhantomData;

/// What gives the values of a block, those of a row of lanes side by side at a time.
pub trait RowSource<E: MachineWord, V: RowVector<E>>: Copy {
    // The value at a place of the block.
    ghost value_at: { Self → ℕ → ℕ };

    /// The values at as many places as the vector has lanes, from `from` on.
    fn give(&mut self, from: usize) -> V
        requires from { from + V.N ≤ 1024 }
        ensures values { HasLanes V.N (V.at result) (λ j. value_at self.old (from + j)) }
        ensures same { value_at self.new ≡ value_at self.old };
}

/// A source as what a walk of a block reads.
#[derive(Drop)]
struct Giving<S> {
    source: S,
}

impl<E: MachineWord, V: RowVector<E>, S: RowSource<E, V>> GroupReader<E, V> for Giving<S> {
    type Carry = ();

    ghost value_at = { λ s width lane row. S.value_at s.source (place row lane) };

    ghost stands = { λ s width lane row carry. ⊤ };

    ghost beside = { λ s u. ⊤ };

    #[inline(always)]
    fn read(&mut self, _width: usize, lane: usize, row: usize, _carry: ()) -> (V, ()) {
        (self.source.give(index(row, lane)), ())
    }
}

impl<E: MachineWord, V: RowVector<E>, S: RowSource<E, V>> BlockReader<E, V> for Giving<S> {
    ghost ready = { λ s width. ⊤ };

    #[inline(always)]
    fn begin(&mut self, _width: usize, _lane: usize) {}

    ghost ready_law = { λ s width lane row carry stands. tt };
}

/// Packing of what a source gives to a width that is not known yet, by rows of a vector.
struct PackingFrom<V> {
    rows: PhantomData<V>,
}

impl<E: MachineWord, V: RowVector<E>, S: RowSource<E, V>> AtWidth<E, S, E> for PackingFrom<V> {
    ghost asks = { λ width input source output. (width ≤ E.T) × MakesGroups E.LANES V.N
        × (length output ≡ E.LANES * width) };

    ghost gives = { λ width input source output. IsPacked E.T E.LANES width (block_of (S.value_at source)) (map E.number output) };

    #[inline(always)]
    fn at<N: Width>(_input: &[E], source: S, output: &mut [E]) {
        let mut giving = Giving { source };
        pack_all_of::<E, V, _, OfType<N>>(&mut giving, N::W, output);
    }
}

/// Packs the values that a source gives for the places 0 to 1023 to `width` bits each, of which `output` takes the `LANES * width`
/// words. The source is asked once for each place, row after row, lanes side by side.
pub fn pack_from<E: FoldTypes, S: RowSource<E, E::Taken>>(width: usize, source: S, output: &mut [E])
    requires width { width ≤ E.T }
    requires output { length output.old ≡ E.LANES * width }
    ensures { IsPacked E.T E.LANES width (block_of (S.value_at source)) (map E.number output.new) }
{
    E::at_width::<Apart<PackingFrom<E::Taken>>, S, E>(width, &[], source, output);
}
