//! Kernels of a caller, each with what its walk gives.

ghost use Rattle.std.specs.Prelude.{◌≡◌, ℕ, ◌+◌, ◌*◌, ◌%◌, ◌^◌, ◌<◌, ◌≤◌, length, map, sum_by, count_by, nat_lt, if◌then◌else◌};
ghost use Rattle.fastlanes.specs.Digits.{digit, row_digit};
ghost use Rattle.fastlanes.specs.Kernels.{places};
ghost use Rattle.fastlanes.specs.Reads.{digit_reads};

use fastlanes::{
    FastLanes, LaneSink, LaneWords, WordProbe, iterate_lane, pack_lane_into, unpack_lane,
    unpack_lane_from, unpack_single_from,
};

/// The sum of the digits of a lane of a block that is packed to 3 bits.
pub fn lane_sum(packed: &[u16; 192], lane: usize) -> u32
    requires { lane < 64 }
    ensures { result ≡ sum_by (digit 16 64 3 packed.now) (places 16 lane) }
{
    let mut sum = 0u32;
    let mut add = |_place: usize, digit: u16| sum = sum.wrapping_add(u32::from(digit));
    unpack_lane::<u16, _>(3, packed, lane, &mut add);
    sum
}

/// How many digits of a lane are above a bound.
pub fn count_above<E: FastLanes>(width: usize, packed: &[E], lane: usize, bound: E) -> usize
    requires width { width ≤ E.T }
    requires lane { lane < E.LANES }
    requires words { length packed.now ≡ E.LANES * width }
    ensures { result ≡ count_by (λ i. nat_lt (E.number bound)
        (digit E.T E.LANES width (map E.number packed.now) i)) (places E.T lane) }
{
    let mut count = 0usize;
    let mut tally = |_place: usize, digit: E|
        requires { count < 64 }
        ensures { count.exit
            ≡ count.entry + (if nat_lt (E.number bound) (E.number digit) then 1 else 0) }
    {
        if bound.word_lt(digit) {
            count += 1;
        }
    };
    unpack_lane(width, packed, lane, &mut tally);
    count
}

/// The sum of the digits of a lane, modulo `2^T`.
pub fn lane_sum_wrapping<E: FastLanes>(width: usize, packed: &[E], lane: usize) -> E
    requires width { width ≤ E.T }
    requires lane { lane < E.LANES }
    requires words { length packed.now ≡ E.LANES * width }
    ensures { E.number result
        ≡ sum_by (digit E.T E.LANES width (map E.number packed.now)) (places E.T lane) % 2 ^ E.T }
{
    let mut sum = E::zero();
    let mut add = |_place: usize, digit: E|
        ensures { E.number sum.exit ≡ (E.number sum.entry + E.number digit) % 2 ^ E.T }
    {
        sum = sum.word_add(digit);
    };
    unpack_lane(width, packed, lane, &mut add);
    sum
}

/// The sum of the digits of a lane that is packed to 3 bits, over words that are counted: how many were read is told too.
pub fn counted_lane_sum(packed: &[u16; 192], lane: usize) -> (u32, usize)
    requires { lane < 64 }
    ensures sum { result.0 ≡ sum_by (digit 16 64 3 packed.now) (places 16 lane) }
    ensures taken { result.1 ≡ 3 }
{
    let mut words = LaneWords::<u16>::new(packed, 3, lane);
    let mut sum = 0u32;
    let mut add = |_place: usize, digit: u16| sum = sum.wrapping_add(u32::from(digit));
    unpack_lane_from::<u16, _>(3, &mut words, lane, &mut add);
    (sum, words.taken())
}

/// Packs ones as a lane, to a width that is not 0, and tells how many words were written.
pub fn ones_in_lane<E: FastLanes>(width: usize, packed: &mut [E], lane: usize) -> usize
    requires width { width ≤ E.T }
    requires lane { lane < E.LANES }
    requires words { length packed.old ≡ E.LANES * width }
    ensures { result ≡ width }
{
    let mut sink = LaneSink::new(packed, width, lane);
    pack_lane_into(width, &mut sink, lane, &mut |_place: usize| E::one());
    sink.written()
}

/// The digit of a row of a lane, and how many words were read for it.
pub fn digit_of_row<E: FastLanes>(width: usize, packed: &[E], lane: usize, row: usize) -> (E, u32)
    requires width { width ≤ E.T }
    requires lane { lane < E.LANES }
    requires row { row < E.T }
    requires words { length packed.now ≡ E.LANES * width }
    ensures digit { E.number result.0
        ≡ row_digit E.T E.LANES width (map E.number packed.now) lane row }
    ensures reads { result.1 ≡ digit_reads E.T width row }
{
    let mut probe = WordProbe::new(packed, width, lane);
    let digit = unpack_single_from(width, &mut probe, row);
    (digit, probe.reads())
}

/// How many calls are left to a kernel that may be called as often as a lane has rows, once `unpack_lane` is done: none, at
/// every width.
pub fn calls_left_unpacking<E: FastLanes>(width: usize, packed: &[E], lane: usize) -> usize
    requires width { width ≤ E.T }
    requires lane { lane < E.LANES }
    requires words { length packed.now ≡ E.LANES * width }
    ensures { result ≡ 0 }
{
    let mut left = E::T;
    let mut take = |_place: usize, _digit: E|
        requires { 0 < left }
        ensures { left.exit + 1 ≡ left.entry }
    {
        left -= 1;
    };
    unpack_lane(width, packed, lane, &mut take);
    left
}

/// The same once `iterate_lane` is done.
pub fn calls_left_walking<E: FastLanes>(lane: usize) -> usize
    requires lane { lane < E.LANES }
    ensures { result ≡ 0 }
{
    let mut left = E::T;
    let mut take = |_place: usize|
        requires { 0 < left }
        ensures { left.exit + 1 ≡ left.entry }
    {
        left -= 1;
    };
    iterate_lane::<E, _>(lane, &mut take);
    left
}
