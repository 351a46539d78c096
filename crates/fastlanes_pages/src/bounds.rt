//! Bounds of the values of a block, from its header and its bases.

ghost use Rattle.std.specs.Prelude.{◌≡◌, ◌+◌, ◌-◌, ◌^◌, ◌≤◌, fold, length, max, min};
ghost use Rattle.fastlanes_pages.specs.ColumnValues.{words_in};
ghost use Rattle.fastlanes_pages.specs.Heads.{frame_greatest, frame_least, sums_greatest, sums_least};

use crate::element::Stored;
use crate::single::word_at;
use fastlanes_base::MachineWord;
use fastlanes_bytes::WordBytes;

/// The bounds that have these and those between them.
#[inline(always)]
pub(crate) fn wider<E: MachineWord>(these: (E, E), those: (E, E)) -> (E, E)
    ensures least { E.number result.0 ≡ min (E.number these.0) (E.number those.0) }
    ensures greatest { E.number result.1 ≡ max (E.number these.1) (E.number those.1) }
{
    let least = if those.0.less(these.0) {
        those.0
    } else {
        these.0
    };
    let greatest = if these.1.less(those.1) {
        those.1
    } else {
        these.1
    };
    (least, greatest)
}

/// Returns bounds of all values of a FOR block: the reference and reference + 2^width - 1, or 0 and 2^T - 1 if that sum is not
/// below 2^T.
#[inline(always)]
pub(crate) fn bounds_of_frame<E: MachineWord>(width: usize, reference: E) -> (E, E)
    requires width { width ≤ E.T }
    ensures least { E.number result.0 ≡ frame_least E.T width (E.number reference) }
    ensures greatest { E.number result.1 ≡ frame_greatest E.T width (E.number reference) }
    // The first is less than the reference where that sum is not below 2^T.
    ensures sum { E.number reference ≤ E.number result.0 → E.number reference + 2 ^ width ≤ 2 ^ E.T }
{
    let all = E::zero().minus(E::one());
    let greatest = reference.plus(all.low(width as u32));
    if greatest.less(reference) {
        (E::zero(), all)
    } else {
        (reference, greatest)
    }
}

/// Returns bounds of all values of a delta block, from the bytes of its bases: the minimum of the bases and their maximum +
/// T * (2^width - 1), or 0 and 2^T - 1 if that sum is not below 2^T.
#[inline(always)]
pub(crate) fn bounds_of_sums<E: Stored>(before: &[u8], width: usize) -> (E, E)
    requires before { length before.now ≡ 128 }
    requires width { width ≤ E.T }
    ensures least { E.number result.0
        ≡ sums_least E.T width (words_in E.T E.LANES before.now) }
    ensures greatest { E.number result.1
        ≡ sums_greatest E.T width (words_in E.T E.LANES before.now) }
{
    let zero = E::zero();
    let all = zero.minus(E::one());
    let (least, greatest) = E::base_bounds(before);
    let room = all.minus(greatest).to_number();
    let digit = all.low(width as u32).to_number();
    if digit <= room / E::T as u64 {
        let sum = E::of_number(digit * E::T as u64);
        (least, greatest.plus(sum))
    } else {
        (zero, all)
    }
}

/// Returns the minimum and the maximum of the bases of a delta block, from their bytes.
#[inline(always)]
pub(crate) fn bounds_of_bases<E: WordBytes>(before: &[u8]) -> (E, E)
    requires { length before.now ≡ 128 }
    ensures least { E.number result.0
        ≡ fold min (2 ^ E.T - 1) (words_in E.T E.LANES before.now) }
    ensures greatest { E.number result.1 ≡ fold max 0 (words_in E.T E.LANES before.now) }
{
    let mut bounds = (E::zero().minus(E::one()), E::zero());
    for lane in 0..E::LANES {
        let base = word_at::<E>(before, 1, lane);
        bounds = wider(bounds, (base, base));
    }
    bounds
}
