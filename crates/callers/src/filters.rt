//! Callers of filters, and what they can conclude.

ghost use Rattle.std.specs.Prelude.{◌≡◌, ℕ, ◌*◌, ◌^◌, ◌<◌, ◌≤◌, All, map, slice_index};
ghost use Rattle.fastlanes.specs.Bits.{block_bit};
ghost use Rattle.fastlanes_blocks.specs.Comparisons.{Tells, holds};

use fastlanes::{BitPacking, pack};
use fastlanes_blocks::{Comparison, Element, Ordered, filter};

/// Packs elements below `2^W`, and finds those of which a comparison with a value holds: bit `i` of the mask is 1 where it holds
/// of the element at the place `i`, else 0.
pub fn places_of<E: BitPacking + Element, V: Ordered<E>, const W: usize, const B: usize>(
    values: &[E; 1024],
    packed: &mut [E; B],
    comparison: Comparison,
    value: V,
    mask: &mut [u64; 16],
)
    requires width { W ≤ E.T }
    requires words { B ≡ E.LANES * W }
    requires below { All (λ x. x < 2 ^ W) (map E.number values.now) }
    ensures { (i : ℕ) → i < 1024
        → Tells V.integer (holds comparison) (V.value value)
        (slice_index (map E.number values.now) i) (block_bit mask.new i) }
{
    pack::<E, W, B>(values, packed);
    filter::<E, V>(W, packed, mask, comparison, value);
}
