//! Blocks that are packed and unpacked again.

ghost use Rattle.std.specs.Prelude.{◌≡◌, ◌*◌, ◌≤◌, length, map};
ghost use Rattle.fastlanes_packing.specs.Packing.{low_bits};

use fastlanes_blocks::{pack_blocks, unpack_blocks};
use fastlanes_rows::types::RowTypes;

/// Packs blocks into `packed` and unpacks them again: `back` gets each value modulo `2^width`.
pub fn pack_and_unpack<E: RowTypes>(
    width: usize,
    count: usize,
    values: &[E],
    packed: &mut [E],
    back: &mut [E],
)
    requires width { width ≤ E.T }
    requires values { length values.now ≡ 1024 * count }
    requires packed { length packed.old ≡ E.LANES * width * count }
    requires back { length back.old ≡ 1024 * count }
    ensures { map E.number back.new ≡ low_bits width (map E.number values.now) }
{
    pack_blocks(width, count, values, packed);
    unpack_blocks(width, count, packed, back);
}
