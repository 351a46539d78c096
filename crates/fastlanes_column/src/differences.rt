//! Blocks packed as the differences of neighbours.

ghost use Rattle.std.specs.Prelude.{◌≡◌, ◌↔◌, ℕ, ◌-◌, ◌*◌, ◌^◌, ◌<◌, ◌≤◌, All, length, map, slice_index};
ghost use Rattle.fastlanes.specs.Delta.{SmallOnesComeBack, deltas, undeltas};
ghost use Rattle.fastlanes.specs.Digits.{IsPacked, digits};
ghost use Rattle.fastlanes.specs.Transposition.{transposed, untransposed};
ghost use Rattle.fastlanes_column.specs.LeastWidth.{IsAsWide, IsLeastWidth};
ghost use Rattle.fastlanes_column.specs.Differences.{NeighboursComeBack, PrecedesInLanes, deltas_from, lane_bases, neighbour_deltas, value_before};

use crate::bits::width_of;
use fastlanes::{Delta, FastLanes, Transpose, transpose};
use fastlanes_base::MachineWord;

/// Writes what stands before each lane of a block, transposed: a lane begins with a value of the block, and its base is the
/// value before that one. Before the block's first value stands `before`: the last value of the block before it, or where
/// there is none the first value itself. From these bases `delta_head`, `delta_write` and `delta_read` take the differences
/// of each value and the one before it.
///
/// ```rust
/// use fastlanes_column::{delta_bases, delta_head};
///
/// let block: [u32; 1024] = std::array::from_fn(|i| (1_000_000_000 + 10 * (i % 1024)) as u32);
/// let mut base = [0; 32];
/// // From nothing each lane begins with a whole value.
/// assert_eq!(rt; delta_head(&block, &base), 30);
/// delta_bases(block[0], &block, &mut base);
/// // Each value is 10 above the one before it, and the first is 0 above itself.
/// assert_eq!(rt; delta_head(&block, &base), 4);
/// ```
pub fn delta_bases<E: Delta<LANES>, const LANES: usize>(
    before: E,
    block: &[E; 1024],
    base: &mut [E; LANES],
)
    requires lanes { LANES ≡ E.LANES }
    ensures bases { map E.number base.new
        ≡ lane_bases E.LANES (E.number before) (map E.number block.now) }
    ensures differences { deltas E.T E.LANES (map E.number base.new)
        (transposed (map E.number block.now))
        ≡ transposed (neighbour_deltas E.T (E.number before) (map E.number block.now)) }
    // So the width of `delta_head` from these bases is the least that holds the differences of neighbours.
    ensures width { (w : ℕ) → IsLeastWidth w
        (deltas E.T E.LANES (map E.number base.new) (transposed (map E.number block.now)))
        → IsLeastWidth w (neighbour_deltas E.T (E.number before) (map E.number block.now)) }
{
    for lane in 0..LANES {
        base[lane] = value_before_place(before, block, transpose(lane));
    }
}

/// The least width that holds the differences of a block's neighbours: of the block, transposed, along its lanes, of which
/// `base` has what stands before each.
///
/// ```rust
/// use fastlanes_column::delta_head;
///
/// let block: [u16; 1024] = std::array::from_fn(|i| (i / 8 % 128) as u16);
/// // The first row of the last lane is 126, and the differences within a lane are 0 and 1.
/// assert_eq!(rt; delta_head(&block, &[0; 64]), 7);
/// ```
pub fn delta_head<E: Delta<LANES>, const LANES: usize>(
    block: &[E; 1024],
    base: &[E; LANES],
) -> usize
    requires lanes { LANES ≡ E.LANES }
    ensures width { IsLeastWidth result
        (deltas E.T E.LANES (map E.number base.now) (transposed (map E.number block.now))) }
    ensures fits { result ≤ E.T }
{
    let mut before = [E::zero(); 1024];
    put_before(block, base, &mut before);
    width_of(joined_apart(block, &before))
}

/// Returns the minimum bit width of the differences of adjacent values of a block, where `before` precedes the first value. It is
/// the width that `delta_head` returns for the bases of `delta_bases`, and takes one pass over the block.
///
/// ```rust
/// use fastlanes_column::delta_width;
///
/// let block: [u32; 1024] = std::array::from_fn(|i| (1_000_000_000 + 10 * (i % 1024)) as u32);
/// assert_eq!(rt; delta_width(block[0], &block), 4);
/// // The first value itself needs 30 bits.
/// assert_eq!(rt; delta_width(0, &block), 30);
/// ```
pub fn delta_width<E: FastLanes>(before: E, block: &[E; 1024]) -> usize
    ensures width { IsLeastWidth result
        (neighbour_deltas E.T (E.number before) (map E.number block.now)) }
    ensures lanes { IsLeastWidth result
        (deltas E.T E.LANES (lane_bases E.LANES (E.number before) (map E.number block.now))
        (transposed (map E.number block.now))) }
    ensures fits { result ≤ E.T }
{
    width_of(joined_neighbours(before, block))
}

/// Packs the differences of a block's neighbours to `width` bits each, of which `output` takes the `LANES * width` words.
///
/// ```rust
/// use fastlanes_column::{delta_read, delta_write};
///
/// let block: [u16; 1024] = std::array::from_fn(|i| (i / 8 % 128) as u16);
/// let mut words = [0; 448];
/// delta_write(7, &block, &[0; 64], &mut words);
/// let mut back = [0; 1024];
/// delta_read(7, &words, &[0; 64], &mut back);
/// assert_eq!(rt; back, block);
/// ```
pub fn delta_write<E: Delta<LANES>, const LANES: usize>(
    width: usize,
    block: &[E; 1024],
    base: &[E; LANES],
    output: &mut [E],
)
    requires lanes { LANES ≡ E.LANES }
    requires width { width ≤ E.T }
    requires output { length output.old ≡ E.LANES * width }
    ensures packed { IsPacked E.T E.LANES width
        (deltas E.T E.LANES (map E.number base.now) (transposed (map E.number block.now)))
        (map E.number output.new) }
    // The block comes back exactly where each difference has at most `width` bits.
    ensures comes_back { NeighboursComeBack E.T E.LANES width (map E.number base.now)
        (map E.number block.now)
        (map E.number output.new) }
{
    let mut differences = [E::zero(); 1024];
    neighbour_differences(block, base, &mut differences);
    E::pack_deltas(width, &differences, output);
}

/// Reads a block from the packed differences of its neighbours: from any `LANES * width` words, the sums of the digits
/// along the lanes, brought back into the order of the block.
///
/// ```rust
/// use fastlanes_column::delta_read;
///
/// // No differences are the bases.
/// let mut block = [0; 1024];
/// delta_read::<u8, 128>(0, &[], &[5; 128], &mut block);
/// assert_eq!(rt; block, [5; 1024]);
/// ```
pub fn delta_read<E: Delta<LANES>, const LANES: usize>(
    width: usize,
    input: &[E],
    base: &[E; LANES],
    output: &mut [E; 1024],
)
    requires lanes { LANES ≡ E.LANES }
    requires width { width ≤ E.T }
    requires input { length input.now ≡ E.LANES * width }
    ensures { map E.number output.new ≡ untransposed (undeltas E.T E.LANES (map E.number base.now)
        (digits E.T E.LANES width (map E.number input.now))) }
{
    let mut sums = [E::zero(); 1024];
    E::unchecked_undelta_pack(width, input, base, &mut sums);
    E::untranspose(&sums, output);
}

/// The differences of a block's neighbours, in the order of the lanes.
#[inline(always)]
fn neighbour_differences<E: Delta<LANES>, const LANES: usize>(
    block: &[E; 1024],
    base: &[E; LANES],
    differences: &mut [E; 1024],
)
    requires lanes { LANES ≡ E.LANES }
    ensures differences { map E.number differences.new
        ≡ deltas E.T E.LANES (map E.number base.now) (transposed (map E.number block.now)) }
    ensures back { untransposed (transposed (map E.number block.now)) ≡ map E.number block.now }
    ensures comes_back { (w : ℕ) → w ≤ E.T
        → SmallOnesComeBack E.T E.LANES w (map E.number base.now)
        (transposed (map E.number block.now))
        (deltas E.T E.LANES (map E.number base.now) (transposed (map E.number block.now))) }
{
    let mut transposed = [E::zero(); 1024];
    E::transpose(block, &mut transposed);
    E::delta(&transposed, base, differences);
}

/// The value before a place of a block, and `before` before the first.
#[inline(always)]
fn value_before_place<E: MachineWord>(before: E, block: &[E; 1024], place: usize) -> E
    requires { place < 1024 }
    ensures { E.number result ≡ value_before (E.number before) (map E.number block.now) place }
{
    if place == 0 { before } else { block[place - 1] }
}

/// ORs the differences of adjacent values of a block, where `before` precedes the first value.
#[inline(always)]
fn joined_neighbours<E: MachineWord>(before: E, block: &[E; 1024]) -> E
    ensures { IsAsWide (E.number result)
        (neighbour_deltas E.T (E.number before) (map E.number block.now)) }
{
    let mut joined = block[0].minus(before);
    for i in 1..1024 {
        joined = joined.or(block[i].minus(block[i - 1]));
    }
    joined
}

/// Writes what precedes each value of a block in its lane: the base of the lane that the value begins, or the value before it.
#[inline(always)]
fn put_before<E: FastLanes, const LANES: usize>(
    block: &[E; 1024],
    base: &[E; LANES],
    before: &mut [E; 1024],
)
    requires lanes { LANES ≡ E.LANES }
    ensures { PrecedesInLanes E.T E.LANES (map E.number base.now) (map E.number block.now)
        (slice_index (map E.number before.new)) }
{
    put_one_on(block, before);
    for lane in 0..LANES {
        before[transpose(lane)] = base[lane];
    }
}

/// ORs the differences of the values of a block from those of another one.
#[inline(always)]
fn joined_apart<E: MachineWord>(block: &[E; 1024], before: &[E; 1024]) -> E
    ensures { IsAsWide (E.number result)
        (deltas_from E.T (map E.number block.now) (slice_index (map E.number before.now))) }
{
    let mut joined = E::zero();
    for i in 0..1024 {
        joined = joined.or(block[i].minus(before[i]));
    }
    joined
}

/// Writes each value of a block but the last to the place after its own.
#[inline(always)]
fn put_one_on<E: MachineWord>(block: &[E; 1024], after: &mut [E])
    requires { length after.old ≡ 1024 }
    ensures { (j : ℕ) → 0 < j → j < 1024
        → slice_index (map E.number after.new) j
        ≡ slice_index (map E.number block.now) (j - 1) }
{
    after[1..].copy_from_slice(&block[..1023]);
}
