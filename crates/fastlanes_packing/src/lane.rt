//! Walks of one lane with a kernel of the caller's, over slices and over counted words, and one digit of counted words.

ghost use Rattle.std.specs.Prelude.{◌≡◌, ◌≢◌, ℕ, ◌+◌, ◌*◌, ◌%◌, ◌<◌, ◌≤◌, length, map, slice_index};
ghost use Rattle.fastlanes_base.specs.Digits.{row_digit};
ghost use Rattle.fastlanes_base.specs.Sinks.{lane_sink};
ghost use Rattle.fastlanes_packing.specs.Kernels.{AllowsDigit, MayWalk, MayWalkDigits, PacksAnswers, TakesDigit, Walks, WalksDigits, each_below, lane_digit, lane_place, places};
ghost use Rattle.fastlanes_packing.specs.Reads.{digit_reads};
ghost use Rattle.fastlanes_packing.specs.Steps.{IsReading, IsWriting, MayGoOn, MayPackOn, PacksRun};
ghost use Rattle.fastlanes_rows.specs.Rows.{IsBesideWords};

use fastlanes_base::{FastLanes, LaneSink, LaneWords, MachineWord, WordProbe, index};
use fastlanes_rows::row::{digit_of_word, digit_of_words};
use fastlanes_rows::rows::{pack_step, unpack_step};
use fastlanes_rows::steps::{RowStep, walk_rows};
use fastlanes_rows::vector::Lone;

/// The rows of a lane: a kernel is told their places.
struct IteratingLane;

impl<E: MachineWord, K: FnMut(usize)> RowStep<E, (), K> for IteratingLane {
    type Carry = ();

    ghost stands = { λ width lane row reader kernel carry. (lane < E.LANES)
        × MayGoOn K.pre K.step (lane_place lane) row E.T kernel };

    ghost leads = { λ width lane reader start row last kernel carry. Walks K.pre K.step start
        (places row lane) kernel };

    #[inline(always)]
    fn step(_reader: &mut (), kernel: &mut K, _width: usize, lane: usize, row: usize, _carry: ()) {
        kernel(index(row, lane));
    }
}

/// Calls the kernel with `index(row, lane)` for each row of the lane, from the first row on.
///
/// ```rust
/// let mut sum = 0usize;
/// fastlanes::iterate_lane::<u8, _>(3, &mut |place: usize| sum = sum.wrapping_add(place));
/// // The places are 3, 131, 259, 387, 515, 643, 771 and 899.
/// assert_eq!(rt; sum, 3608);
/// ```
#[inline(always)]
pub fn iterate_lane<E: FastLanes, K: FnMut(usize)>(lane: usize, kernel: &mut K)
    requires lane { lane < E.LANES }
    // The call of each row is allowed in every state that a walk over the rows before it can end in.
    requires allowed { MayWalk K.pre K.step kernel.old (lane_place lane) E.T }
    ensures { Walks K.pre K.step kernel.old (places E.T lane) kernel.new }
{
    walk_rows::<E, (), K, IteratingLane>(&mut (), kernel, 0, lane, ());
}

/// The rows of a lane at a width: a kernel is told their places, and its answers are packed.
struct PackingLane;

impl<'a, E: MachineWord, K: FnMut(usize) -> E> RowStep<E, K, LaneSink<'a, E>> for PackingLane {
    type Carry = Lone<E>;

    ghost stands = { λ width lane row kernel sink carry. (width ≤ E.T) × (lane < E.LANES)
        × IsWriting E.T width lane row (lane_sink sink)
        × MayPackOn E.number K.pre K.step E.T E.LANES width lane row
        kernel (map E.number (lane_sink sink).words) (E.number carry.0) };

    ghost leads = { λ width lane start before row kernel sink carry. PacksRun E.number K.pre K.step
        E.T E.LANES width lane row
        start kernel (map E.number (lane_sink sink).words) (E.number carry.0)
        × IsBesideWords 1 E.LANES lane E.number (lane_sink before) (lane_sink sink) };

    #[inline(always)]
    fn step(
        kernel: &mut K,
        sink: &mut LaneSink<'a, E>,
        width: usize,
        lane: usize,
        row: usize,
        carry: Lone<E>,
    ) -> Lone<E> {
        let value = Lone(kernel(index(row, lane)));
        pack_step::<E, Lone<E>, LaneSink<'a, E>>(width, row, value, sink, carry)
    }
}

/// Packs the kernel's answers to `width` bits each as the rows of a sink's lane: the kernel is called with
/// `index(row, lane)` for each row, from the first row on, and the row holds the lowest bits of what it answers. Each word
/// of the lane is written once. At width 0 there is nothing to write, and the kernel is not called.
///
/// The sink is one of this width and lane, of which nothing was written yet. Afterwards `width` words were, and the words
/// of other lanes are as before.
///
/// ```rust
/// use fastlanes::LaneSink;
///
/// let mut packed = [0u16; 192];
/// let mut sink = LaneSink::<u16>::new(&mut packed, 3, 1);
/// fastlanes::pack_lane_into::<u16, _>(3, &mut sink, 1, &mut |_place: usize| 1);
/// assert_eq!(rt; sink.written(), 3);
/// assert_eq!(rt; (packed[1], packed[65], packed[129]), (0x9249, 0x4924, 0x2492));
/// ```
#[inline(always)]
pub fn pack_lane_into<E: FastLanes, K: FnMut(usize) -> E>(
    width: usize,
    sink: &mut LaneSink<E>,
    lane: usize,
    kernel: &mut K,
)
    requires width { (lane_sink sink.old).width ≡ width }
    requires lane { (lane_sink sink.old).lane ≡ lane }
    requires written { (lane_sink sink.old).count ≡ 0 }
    // The call of each row is allowed in every state that a walk over the rows before it can end in.
    requires allowed { 0 < width → MayWalk K.pre K.step kernel.old (lane_place lane) E.T }
    // The words of the lane are what the kernel answered, packed.
    ensures walk { 0 < width → PacksAnswers E.number K.pre K.step kernel.old E.T E.LANES width lane
        (map E.number (lane_sink sink.new).words) kernel.new }
    ensures none { width ≡ 0
        → (kernel.new ≡ kernel.old) × ((lane_sink sink.new).words ≡ (lane_sink sink.old).words) }
    // The words of the other lanes stay.
    ensures others { (k : ℕ) → k % E.LANES ≢ lane
        → slice_index (map E.number (lane_sink sink.new).words) k
        ≡ slice_index (map E.number (lane_sink sink.old).words) k }
    ensures sink { lane_sink sink.new
        ≡ record (lane_sink sink.old) { words = (lane_sink sink.new).words; count = width } }
{
    let _width = sink.width();
    let _lane = sink.lane();
    if width == 0 {
        return;
    }
    let none = Lone(E::zero());
    let _rest = walk_rows::<E, K, LaneSink<'_, E>, PackingLane>(kernel, sink, width, lane, none);
}

/// Packs the kernel's answers to `width` bits each as the rows of a lane: the kernel is called with `index(row, lane)`
/// for each row, from the first row on, and the row holds the lowest bits of what it answers. At width 0 there is
/// nothing to write, and the kernel is not called.
///
/// ```rust
/// let mut packed = [0u16; 192];
/// fastlanes::pack_lane::<u16, _>(3, &mut packed, 1, &mut |_place: usize| 1);
/// assert_eq!(rt; (packed[1], packed[65], packed[129]), (0x9249, 0x4924, 0x2492));
/// ```
#[inline(always)]
pub fn pack_lane<E: FastLanes, K: FnMut(usize) -> E>(
    width: usize,
    packed: &mut [E],
    lane: usize,
    kernel: &mut K,
)
    requires width { width ≤ E.T }
    requires lane { lane < E.LANES }
    requires words { length packed.old ≡ E.LANES * width }
    // The call of each row is allowed in every state that a walk over the rows before it can end in.
    requires allowed { 0 < width → MayWalk K.pre K.step kernel.old (lane_place lane) E.T }
    // The words of the lane are what the kernel answered, packed.
    ensures walk { 0 < width → PacksAnswers E.number K.pre K.step kernel.old E.T E.LANES width lane
        (map E.number packed.new) kernel.new }
    ensures none { width ≡ 0 → (kernel.new ≡ kernel.old) × (packed.new ≡ packed.old) }
    // The words of the other lanes stay.
    ensures others { (k : ℕ) → k % E.LANES ≢ lane
        → slice_index (map E.number packed.new) k ≡ slice_index (map E.number packed.old) k }
{
    let mut sink = LaneSink::new(packed, width, lane);
    pack_lane_into(width, &mut sink, lane, kernel);
}

/// The rows of a lane at a width: a kernel is told their places and digits.
struct UnpackingLane;

impl<'a, E: MachineWord, K: FnMut(usize, E)> RowStep<E, LaneWords<'a, E>, K> for UnpackingLane {
    type Carry = Lone<E>;

    ghost stands = { λ width lane row words kernel carry. (width ≤ E.T) × (lane < E.LANES)
        × IsReading E.number E.T E.LANES width lane row words carry.0
        × MayGoOn (AllowsDigit E.number K.pre) (TakesDigit E.number K.step)
        (lane_digit E.T E.LANES width (map E.number words.words) lane) row E.T kernel };

    ghost leads = { λ width lane before start row words kernel carry. (words.words ≡ before.words)
        × Walks (AllowsDigit E.number K.pre) (TakesDigit E.number K.step) start
        (each_below (lane_digit E.T E.LANES width (map E.number words.words) lane) row) kernel };

    #[inline(always)]
    fn step(
        words: &mut LaneWords<'a, E>,
        kernel: &mut K,
        width: usize,
        lane: usize,
        row: usize,
        carry: Lone<E>,
    ) -> Lone<E> {
        let (digit, next) = unpack_step::<E, Lone<E>, LaneWords<'a, E>>(width, row, words, carry);
        kernel(index(row, lane), digit.0);
        next
    }
}

/// Calls the kernel with `index(row, lane)` and the digit there for each row of a cursor's lane, from the first row on; at
/// width 0 each digit is 0. Each word of the lane is read once.
///
/// The cursor is one of this width and lane, of which nothing was taken yet. Afterwards `width` words were.
///
/// ```rust
/// use fastlanes::LaneWords;
///
/// let mut packed = [0; 192];
/// fastlanes::pack::<u16, 3, 192>(&[5; 1024], &mut packed);
/// let mut words = LaneWords::<u16>::new(&packed, 3, 1);
/// let mut sum = 0u32;
/// let mut add = |_place: usize, digit: u16| sum = sum.wrapping_add(u32::from(digit));
/// fastlanes::unpack_lane_from::<u16, _>(3, &mut words, 1, &mut add);
/// // Sixteen rows of 5, in three words.
/// assert_eq!(rt; (sum, words.taken()), (80, 3));
/// ```
#[inline(always)]
pub fn unpack_lane_from<E: FastLanes, K: FnMut(usize, E)>(
    width: usize,
    words: &mut LaneWords<E>,
    lane: usize,
    kernel: &mut K,
)
    requires width { words.old.width ≡ width }
    requires lane { words.old.lane ≡ lane }
    requires taken { words.old.count ≡ 0 }
    // The call of each row is allowed in every state that a walk over the rows before it can end in.
    requires allowed { MayWalkDigits E.number K.pre K.step kernel.old E.T E.LANES width
        (map E.number words.old.words) lane }
    ensures walk { WalksDigits E.number K.pre K.step kernel.old E.T E.LANES width
        (map E.number words.old.words) lane kernel.new }
    ensures words { words.new ≡ record words.old { count = width } }
{
    let _width = words.width();
    let _lane = words.lane();
    let none = Lone(E::zero());
    let _last = walk_rows::<E, LaneWords<'_, E>, K, UnpackingLane>(
        words, kernel, width, lane, none,
    );
}

/// Calls the kernel with `index(row, lane)` and the digit there for each row of the lane, from the first row on; at
/// width 0 each digit is 0.
///
/// ```rust
/// let mut packed = [0; 192];
/// fastlanes::pack::<u16, 3, 192>(&[5; 1024], &mut packed);
/// let mut sum = 0u32;
/// let mut add = |_place: usize, digit: u16| sum = sum.wrapping_add(u32::from(digit));
/// fastlanes::unpack_lane::<u16, _>(3, &packed, 1, &mut add);
/// // Sixteen rows of 5.
/// assert_eq!(rt; sum, 80);
/// ```
#[inline(always)]
pub fn unpack_lane<E: FastLanes, K: FnMut(usize, E)>(
    width: usize,
    packed: &[E],
    lane: usize,
    kernel: &mut K,
)
    requires width { width ≤ E.T }
    requires lane { lane < E.LANES }
    requires words { length packed.now ≡ E.LANES * width }
    // The call of each row is allowed in every state that a walk over the rows before it can end in.
    requires allowed { MayWalkDigits E.number K.pre K.step kernel.old E.T E.LANES width
        (map E.number packed.now) lane }
    ensures { WalksDigits E.number K.pre K.step kernel.old E.T E.LANES width
        (map E.number packed.now) lane kernel.new }
{
    let mut words = LaneWords::new(packed, width, lane);
    unpack_lane_from(width, &mut words, lane, kernel);
}

/// The digit of a row of a probe's lane. At width 0 it is 0, and no word is read; else one is, or two where the digit's
/// bits begin in one word and end in the next.
///
/// The probe is one of this width, and has room for two more reads in its count.
///
/// ```rust
/// use fastlanes::WordProbe;
///
/// let mut packed = [0; 384];
/// fastlanes::pack::<u8, 3, 384>(&[5; 1024], &mut packed);
/// let mut probe = WordProbe::<u8>::new(&packed, 3, 1);
/// // Row 1 has the bits 3 to 5 of the lane, in its first word, and row 2 the bits 6 to 8, in two.
/// assert_eq!(rt; (fastlanes::unpack_single_from::<u8>(3, &mut probe, 1), probe.reads()), (5, 1));
/// assert_eq!(rt; (fastlanes::unpack_single_from::<u8>(3, &mut probe, 2), probe.reads()), (5, 3));
/// ```
#[inline(always)]
pub fn unpack_single_from<E: FastLanes>(width: usize, probe: &mut WordProbe<E>, row: usize) -> E
    requires width { probe.old.width ≡ width }
    requires row { row < E.T }
    requires room { probe.old.count ≤ 4294967293 }
    ensures digit { E.number result
        ≡ row_digit E.T E.LANES width (map E.number probe.old.words) probe.old.lane row }
    ensures probe { probe.new
        ≡ record probe.old { count = probe.old.count + digit_reads E.T width row } }
{
    probe_digit(width, probe, row)
}

/// What `unpack_single_from` does. At the full width each row is a word, which is found with no shift and no mask. The look at
/// it leads away from the path of the other widths, which goes on with no jump and by which the compiler knows that they are less.
#[inline(always)]
pub(crate) fn probe_digit<E: MachineWord>(width: usize, probe: &mut WordProbe<E>, row: usize) -> E
    requires width { probe.old.width ≡ width }
    requires row { row < E.T }
    requires room { probe.old.count ≤ 4294967293 }
    ensures digit { E.number result
        ≡ row_digit E.T E.LANES width (map E.number probe.old.words) probe.old.lane row }
    ensures probe { probe.new
        ≡ record probe.old { count = probe.old.count + digit_reads E.T width row } }
{
    let _width = probe.width();
    if width == 0 {
        return E::zero();
    }
    if width < E::T {
        return probe_some_bits(width, probe, row);
    }
    digit_of_word(E::T, 0, probe.word(row))
}

/// What `probe_digit` does where a digit has any bits, from one word or two.
#[inline(always)]
fn probe_some_bits<E: MachineWord>(width: usize, probe: &mut WordProbe<E>, row: usize) -> E
    requires some { 0 < width }
    requires width { probe.old.width ≡ width }
    requires row { row < E.T }
    requires room { probe.old.count ≤ 4294967293 }
    ensures digit { E.number result
        ≡ row_digit E.T E.LANES width (map E.number probe.old.words) probe.old.lane row }
    ensures probe { probe.new
        ≡ record probe.old { count = probe.old.count + digit_reads E.T width row } }
{
    let _width = probe.width();
    let shift = row * width % E::T;
    let first = probe.word(row * width / E::T);
    if shift + width <= E::T {
        return digit_of_word(width, shift, first);
    }
    let next = probe.word(row * width / E::T + 1);
    digit_of_words(width, shift, first, next)
}
