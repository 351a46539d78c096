//! Rows of 64 bytes of `u8` and `u16`, and of 32 of `u32` and `u64`.

ghost use Rattle.std.specs.Prelude.{◌≡◌, ◌*◌, ◌≤◌, length, map};
ghost use Rattle.fastlanes_packing.specs.Packing.{PacksBlock, UnpacksBlock};

use crate::bitpacking::{Packing, Unpacking};
use fastlanes_base::FastLanes;
use fastlanes_rows::types::RowTypes;
use fastlanes_rows::width::Apart;

/// What `pack_rows` and `unpack_rows` do, on rows of another breadth than sixteen lanes: 64 lanes of `u8` and 32 of `u16`, which
/// are 64 bytes, 8 lanes of `u32` and 4 of `u64`, which are 32. Which of the two calls is faster, where, is a matter of the
/// processor. At the full width, where a row is only copied, both go by the widest rows: of all lanes, or 64 of `u8`.
///
/// ```rust
/// use fastlanes::WideRows;
///
/// let mut packed = [0u8; 384];
/// u8::pack_wide(3, &[5; 1024], &mut packed);
/// let mut back = [0; 1024];
/// u8::unpack_wide(3, &packed, &mut back);
/// assert_eq!(rt; back, [5; 1024]);
/// ```
pub trait WideRows: FastLanes {
    /// What `unchecked_pack` does, by wide rows.
    fn pack_wide(width: usize, input: &[Self; 1024], output: &mut [Self])
        requires width { width ≤ Self.T }
        requires output { length output.old ≡ Self.LANES * width }
        ensures { PacksBlock Self.T Self.LANES width (map Self.number input.now)
            (map Self.number output.new) };

    /// What `unchecked_unpack` does, by wide rows.
    fn unpack_wide(width: usize, input: &[Self], output: &mut [Self; 1024])
        requires width { width ≤ Self.T }
        requires input { length input.now ≡ Self.LANES * width }
        ensures { UnpacksBlock Self.T Self.LANES width (map Self.number input.now)
            (map Self.number output.new) };
}

impl<E: RowTypes> WideRows for E {
    #[inline(always)]
    fn pack_wide(width: usize, input: &[E; 1024], output: &mut [E]) {
        E::at_width::<Apart<Packing<E::Wide, E::Widest>>, _, _>(width, input, (), output);
    }

    #[inline(always)]
    fn unpack_wide(width: usize, input: &[E], output: &mut [E; 1024]) {
        E::at_width::<Apart<Unpacking<E::Wide, E::Widest>>, _, _>(width, input, (), output);
    }
}
