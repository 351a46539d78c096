//! The walk of a group of lanes side by side: what is read and what is written are types of their own, so that one walk
//! serves packing and unpacking.

ghost use Rattle.std.specs.Prelude.{◌≡◌, ℕ, ◌+◌, ◌<◌, ◌≤◌};
ghost use Rattle.fastlanes_rows.specs.Rows.{HasLanes};

use crate::given_width::GivenWidth;
use crate::steps::{RowStep, walk_rows};
use crate::vector::RowVector;
use fastlanes_base::MachineWord;
use std::marker::PhantomData;

/// The values of the rows of a group, read one row after another.
pub trait GroupReader<E: MachineWord, V: RowVector<E>> {
    /// What a row tells the next one.
    type Carry: Copy;

    // At a width, the value of a lane and a row.
    ghost value_at: { Self → ℕ → ℕ → ℕ → ℕ };

    // At a width, the rows of the lanes from one on below this row are read, and the row is to be told this.
    ghost stands: { Self → ℕ → ℕ → ℕ → Self.Carry → Type 0 };

    // The second is the first but for what tells how far it is read.
    ghost beside: { Self → Self → Type 0 };

    /// The values of a row, and what it tells the next one.
    fn read(
        &mut self,
        width: usize,
        lane: usize,
        row: usize,
        carry: Self::Carry,
    ) -> (V, Self::Carry)
        requires width { width ≤ E.T }
        requires lane { lane < E.LANES }
        requires lanes { lane + V.N ≤ E.LANES }
        requires row { row < E.T }
        requires stands { stands self.old width lane row carry }
        ensures values { HasLanes V.N (V.at result.0)
            (λ j. value_at self.old width (lane + j) row) }
        ensures same { value_at self.new ≡ value_at self.old }
        ensures beside { (start : Self) → beside start self.old → beside start self.new }
        ensures stands { stands self.new width lane (row + 1) result.1 };
}

/// What the values of the rows of a group are written to, one row after another.
pub trait GroupWriter<E: MachineWord, V: RowVector<E>> {
    /// What a row tells the next one.
    type Carry: Copy;

    // At a width, the rows of the lanes from one on below this row are written, as the values that a function gives for
    // lanes and rows, and the row is to be told this.
    ghost holds: { Self → ℕ → ℕ → ℕ → (ℕ → ℕ → ℕ) → Self.Carry → Type 0 };

    // For the lanes from one on: the second is the first but for what is written for these lanes.
    ghost beside: { ℕ → Self → Self → Type 0 };

    /// Writes the values of a row, and answers what it tells the next one.
    fn write(
        &mut self,
        width: usize,
        lane: usize,
        row: usize,
        values: V,
        carry: Self::Carry,
    ) -> Self::Carry
        requires width { width ≤ E.T }
        requires lane { lane < E.LANES }
        requires lanes { lane + V.N ≤ E.LANES }
        requires row { row < E.T }
        requires holds { (at : ℕ → ℕ → ℕ) × holds self.old width lane row at carry }
        ensures holds { (at : ℕ → ℕ → ℕ) → holds self.old width lane row at carry
            → HasLanes V.N (V.at values) (λ j. at (lane + j) row)
            → holds self.new width lane (row + 1) at result }
        ensures beside { (start : Self) → beside lane start self.old → beside lane start self.new };
}

/// The rows of a group of lanes, each of which is read and written.
struct GroupRows<V, B> {
    rows: PhantomData<(V, B)>,
}

impl<
    E: MachineWord,
    V: RowVector<E>,
    R: GroupReader<E, V>,
    O: GroupWriter<E, V>,
    B: GivenWidth,
> RowStep<E, R, O> for GroupRows<V, B> {
    type Carry = (R::Carry, O::Carry);

    ghost stands = { λ width lane row reader writer carry. B.may width × (width ≤ E.T)
        × (lane < E.LANES) × (lane + V.N ≤ E.LANES)
        × R.stands reader width lane row carry.0
        × O.holds writer width lane row (R.value_at reader width) carry.1 };

    ghost leads = { λ width lane r o row reader writer carry. (R.value_at reader ≡ R.value_at r)
        × ((start : R) → R.beside start r → R.beside start reader)
        × ((start : O) → O.beside lane start o → O.beside lane start writer) };

    #[inline]
    fn step(
        reader: &mut R,
        writer: &mut O,
        width: usize,
        lane: usize,
        row: usize,
        carry: (R::Carry, O::Carry),
    ) -> (R::Carry, O::Carry) {
        let width = B::known(width);
        let (values, read) = reader.read(width, lane, row, carry.0);
        let written = writer.write(width, lane, row, values, carry.1);
        (read, written)
    }
}

/// Reads all rows of the lanes from `lane` on, and writes each.
#[inline(always)]
pub fn walk_group<
    E: MachineWord,
    V: RowVector<E>,
    R: GroupReader<E, V>,
    O: GroupWriter<E, V>,
    B: GivenWidth,
>(
    reader: &mut R,
    writer: &mut O,
    width: usize,
    lane: usize,
    carry: (R::Carry, O::Carry),
) -> (R::Carry, O::Carry)
    requires given { B.may width }
    requires width { width ≤ E.T }
    requires lane { lane < E.LANES }
    requires lanes { lane + V.N ≤ E.LANES }
    requires stands { R.stands reader.old width lane 0 carry.0 }
    requires holds { O.holds writer.old width lane 0 (R.value_at reader.old width) carry.1 }
    ensures same { R.value_at reader.new ≡ R.value_at reader.old }
    ensures read_beside { (start : R) → R.beside start reader.old → R.beside start reader.new }
    ensures stands { R.stands reader.new width lane E.T result.0 }
    ensures holds { O.holds writer.new width lane E.T (R.value_at reader.new width) result.1 }
    ensures beside { (start : O) → O.beside lane start writer.old → O.beside lane start writer.new }
{
    walk_rows::<E, R, O, GroupRows<V, B>>(reader, writer, width, lane, carry)
}
