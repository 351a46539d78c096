//! The values of a row one by one.

ghost use Rattle.std.specs.Prelude.{◌≤◌, map, slice_index};
ghost use Rattle.fastlanes_rows.specs.Rows.{HasLanes};

use fastlanes_base::MachineWord;
use fastlanes_rows::vector::RowVector;

/// The values of a row of at most 128 lanes, and zeros after them.
#[inline(always)]
pub(crate) fn lanes_of<E: MachineWord, V: RowVector<E>>(row: V) -> [E; 128]
    requires { V.N ≤ 128 }
    ensures { HasLanes V.N (slice_index (map E.number result)) (V.at row) }
{
    let mut lanes = [E::zero(); 128];
    row.put(&mut lanes[..V::N]);
    lanes
}
