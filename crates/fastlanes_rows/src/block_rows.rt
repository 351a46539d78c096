//! The elements of a block, as what a walk of groups reads and writes.

ghost use Rattle.std.specs.Prelude.{◌≡◌, ℕ, ◌+◌, ◌<◌, ◌≤◌, length, map, ⊤};
ghost use Rattle.fastlanes_rows.specs.Block.{row_value};
ghost use Rattle.fastlanes_rows.specs.Rows.{HasRows, IsBesidePlaces, IsStored};
ghost use Rattle.fastlanes_base.specs.Order.{place};

use crate::group_walk::{GroupReader, GroupWriter};
use crate::vector::RowVector;
use fastlanes_base::{MachineWord, index};

/// The elements of a block.
#[derive(Drop)]
pub struct BlockRows<'a, E: MachineWord> {
    pub input: &'a [E],
    ghost whole: { length input.now ≡ 1024 },
}

impl<'a, E: MachineWord, V: RowVector<E>> GroupReader<E, V> for BlockRows<'a, E> {
    type Carry = ();

    ghost value_at = { λ s width lane row. row_value (map E.number s.input.now) lane row };

    ghost stands = { λ s width lane row carry. ⊤ };

    ghost beside = { λ s u. u ≡ s };

    #[inline(always)]
    fn read(&mut self, _width: usize, lane: usize, row: usize, _carry: ()) -> (V, ()) {
        (V::load(self.input, index(row, lane)), ())
    }
}

impl<E: MachineWord, V: RowVector<E>> GroupWriter<E, V> for [E; 1024] {
    type Carry = ();

    ghost holds = { λ s width lane row at carry. HasRows V.N lane row at (map E.number s) };

    ghost beside = { λ lane s u. IsBesidePlaces V.N E.T E.LANES lane (map E.number s) (map E.number u) };

    #[inline(always)]
    fn write(&mut self, _width: usize, lane: usize, row: usize, values: V, _carry: ()) {
        store(values, self, index(row, lane));
    }
}

/// Writes the values of a row to a slice, from one place on.
#[inline(always)]
pub fn store<E: MachineWord, V: RowVector<E>>(row: V, output: &mut [E], to: usize)
    requires { to + V.N ≤ length output.old }
    ensures { IsStored V.N to (V.at row) (map E.number output.old) (map E.number output.new) }
{
    row.put(&mut output[to..to + V::N]);
}
