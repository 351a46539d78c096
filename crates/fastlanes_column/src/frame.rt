//! Heads of frames: the reference and the width at which a block is packed.

ghost use Rattle.std.specs.Prelude.{◌≡◌, ℕ, ◌*◌, ◌^◌, ◌<◌, ◌≤◌, All, length, map, slice_index};
ghost use Rattle.fastlanes.specs.Digits.{IsPacked, digits};
ghost use Rattle.fastlanes.specs.Frame.{NearBlockComesBack, framed, unframed, word_difference};
ghost use Rattle.fastlanes_column.specs.LeastWidth.{IsLeastOf, IsLeastWidth, IsNarrowestHead};

use crate::minimum::head_at_minimum;
use fastlanes::{FastLanes, FoR};

/// How a block is packed: as differences from a reference, of `width` bits each.
///
/// ```rust
/// use fastlanes_column::FrameHead;
///
/// // The values 254, 255, 0 and 1 of `u8` are 0 to 3 above 254.
/// let head = FrameHead { width: 2, reference: 254u8 };
/// assert_eq!(rt; head.width, 2);
/// ```
#[derive(Drop)]
pub struct FrameHead<E>
where
    E: FastLanes,
{
    pub width: usize,
    pub reference: E,
}

/// The head at which a block takes the fewest words among references that are at most every value: its least value, and the
/// least width that holds all differences from it. A reference above some values may take fewer, since differences are taken
/// modulo `2^T`.
///
/// ```rust
/// use fastlanes_column::frame_head;
///
/// let block: [u32; 1024] = std::array::from_fn(|i| (1000 + i % 1024) as u32);
/// let head = frame_head(&block);
/// assert_eq!(rt; (head.reference, head.width), (1000, 10));
/// ```
pub fn frame_head<E: FoR>(block: &[E; 1024]) -> FrameHead<E>
    ensures reference { IsLeastOf (E.number result.reference) (map E.number block.now) }
    ensures width { IsLeastWidth result.width
        (framed E.T (E.number result.reference) (map E.number block.now)) }
    ensures fits { result.width ≤ E.T }
    // So the block comes back when it is packed by this head.
    ensures near { All (λ x. word_difference E.T x (E.number result.reference) < 2 ^ result.width)
        (map E.number block.now) }
    // Among references that are at most every value, none has a smaller width.
    ensures narrowest { IsNarrowestHead (E.number result.reference) result.width
        (map E.number block.now) }
{
    head_at_minimum(block)
}

/// Packs a block by its head, of which `output` takes the `LANES * width` words.
///
/// ```rust
/// use fastlanes_column::{FrameHead, frame_write};
///
/// let head = FrameHead { width: 2, reference: 1000u16 };
/// let mut words = [0; 128];
/// frame_write(&head, &[1003; 1024], &mut words);
/// assert_eq!(rt; words, [0xFFFF; 128]);
/// ```
pub fn frame_write<E: FoR>(head: &FrameHead<E>, block: &[E; 1024], output: &mut [E])
    requires width { head.now.width ≤ E.T }
    requires output { length output.old ≡ E.LANES * head.now.width }
    ensures packed { IsPacked E.T E.LANES head.now.width
        (framed E.T (E.number head.now.reference) (map E.number block.now))
        (map E.number output.new) }
    // The block comes back exactly where each difference has at most `width` bits.
    ensures block_comes_back { NearBlockComesBack E.T E.LANES head.now.width
        (E.number head.now.reference)
        (map E.number block.now) (map E.number output.new) }
{
    E::unchecked_for_pack(head.width, block, head.reference, output);
}

/// Reads a block by its head, from any `LANES * width` words: each digit plus the reference, modulo `2^T`.
///
/// ```rust
/// use fastlanes_column::{FrameHead, frame_read};
///
/// let head = FrameHead { width: 2, reference: 254u8 };
/// let mut block = [0; 1024];
/// frame_read(&head, &[0xFF; 256], &mut block);
/// // 254 + 3 modulo 256
/// assert_eq!(rt; block, [1; 1024]);
/// ```
pub fn frame_read<E: FoR>(head: &FrameHead<E>, input: &[E], output: &mut [E; 1024])
    requires width { head.now.width ≤ E.T }
    requires input { length input.now ≡ E.LANES * head.now.width }
    ensures { map E.number output.new ≡ unframed E.T (E.number head.now.reference)
        (digits E.T E.LANES head.now.width (map E.number input.now)) }
{
    E::unchecked_unfor_pack(head.width, input, head.reference, output);
}

/// Reads the value at one place of a block by its head, without unpacking the others.
///
/// ```rust
/// use fastlanes_column::{FrameHead, frame_get};
///
/// let head = FrameHead { width: 2, reference: 254u8 };
/// assert_eq!(rt; frame_get(&head, &[0xFF; 256], 641), 1);
/// ```
#[inline(always)]
pub fn frame_get<E: FoR>(head: &FrameHead<E>, input: &[E], index: usize) -> E
    requires width { head.now.width ≤ E.T }
    requires input { length input.now ≡ E.LANES * head.now.width }
    requires index { index < 1024 }
    ensures { E.number result ≡ slice_index (unframed E.T (E.number head.now.reference)
        (digits E.T E.LANES head.now.width (map E.number input.now))) index }
{
    E::unchecked_unpack_single(head.width, input, index).word_add(head.reference)
}
