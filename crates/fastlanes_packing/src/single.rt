//! One value of a packed block, at any place.

ghost use Rattle.std.specs.Prelude.{◌≡◌, ℕ, ◌+◌, ◌*◌, ◌/◌, ◌%◌, ◌^◌, ◌<◌, ◌≤◌, length, map};
ghost use Rattle.fastlanes_base.specs.Order.{row_at};
ghost use Rattle.fastlanes_base.specs.Digits.{digit, row_digit};
ghost use Rattle.fastlanes_packing.specs.Single.{StartsRows};

use crate::lane::probe_digit;
use fastlanes_base::{FastLanes, MachineWord, WordProbe};

/// The digit of a row of a lane, where it is known that it begins at the bit `shift` of the word at `place`.
#[inline(always)]
fn digit_from<E: MachineWord>(
    width: usize,
    packed: &[E],
    lane: usize,
    row: usize,
    place: usize,
    shift: usize,
) -> E
    requires some { 0 < width }
    requires width { width ≤ E.T }
    requires lane { lane < E.LANES }
    requires row { row < E.T }
    requires words { length packed.now ≡ E.LANES * width }
    requires place { place ≡ E.LANES * (row * width / E.T) + lane }
    requires within { place < E.LANES * width }
    requires next { E.T < row * width % E.T + width → place + E.LANES < E.LANES * width }
    requires shift { shift ≡ row * width % E.T }
    ensures { E.number result ≡ row_digit E.T E.LANES width (map E.number packed.now) lane row }
{
    let low = packed[place].down(shift as u32);
    if shift + width <= E::T {
        low.low(width as u32)
    } else {
        let high = packed[place + E::LANES].up((E::T - shift) as u32);
        low.or(high).low(width as u32)
    }
}

/// The rows of the places 0, 16, 32 and so on, in lanes of 64 rows.
const ROWS: [u8; 64] = [
    0, 32, 16, 48, 8, 40, 24, 56, 1, 33, 17, 49, 9, 41, 25, 57, 2, 34, 18, 50, 10, 42, 26, 58, 3,
    35, 19, 51, 11, 43, 27, 59, 4, 36, 20, 52, 12, 44, 28, 60, 5, 37, 21, 53, 13, 45, 29, 61, 6,
    38, 22, 54, 14, 46, 30, 62, 7, 39, 23, 55, 15, 47, 31, 63,
];

/// The row of a place, in that place's lane: what `row_of` answers, read from one table for all types.
#[inline(always)]
fn row_in_table<E: MachineWord>(index: u32) -> u32
    requires { index < 1024 }
    ensures value { result ≡ row_at E.LANES index }
    ensures below { result < E.T }
{
    if E::T == 8 {
        index / 128
    } else {
        let lanes = E::LANES as u32;
        ROWS[(index / lanes * (lanes / 16)) as usize] as u32
    }
}

/// The row of a place. Below the full width the compiler is told that it is less than T, which at width 1 leaves one word of
/// each lane.
#[inline(always)]
fn row_of_digit<E: MachineWord>(width: usize, index: u32) -> u32
    requires { index < 1024 }
    ensures value { result ≡ row_at E.LANES index }
    ensures below { result < E.T }
{
    let row = row_in_table::<E>(index);
    if width < E::T { row % E::T as u32 } else { row }
}

/// The place of the word of a lane that holds a bit of the lane.
#[inline(always)]
fn bit_place<E: MachineWord>(width: usize, lane: u32, bit: u32) -> usize
    requires width { width ≤ E.T }
    requires lane { lane < E.LANES }
    requires bit { bit < width * E.T }
    ensures value { result ≡ E.LANES * (bit / E.T) + lane }
    ensures within { result < E.LANES * width }
{
    (E::LANES as u32 * (bit / E::T as u32) + lane) as usize
}

/// Element types two words of which make one of a wider type.
pub trait JoinsWords: FastLanes {
    /// The `width` bits from the bit `shift` on of the number whose low word is `first` and whose high word is `last`.
    fn joined_digit(width: usize, first: Self, last: Self, shift: u32) -> Self
        requires some { 0 < width }
        requires width { width ≤ Self.T }
        requires shift { shift < Self.T }
        ensures first_below { Self.number first < 2 ^ Self.T }
        ensures last_below { Self.number last < 2 ^ Self.T }
        ensures value { Self.number result
            ≡ (Self.number first + Self.number last * 2 ^ Self.T) / 2 ^ shift % 2 ^ width };
}

impl JoinsWords for u8 {
    #[inline(always)]
    fn joined_digit(width: usize, first: u8, last: u8, shift: u32) -> u8 {
        let both = first as u32 + ((last as u32) << 8);
        ((both >> shift) % (1 << width as u32)) as u8
    }
}

impl JoinsWords for u16 {
    #[inline(always)]
    fn joined_digit(width: usize, first: u16, last: u16, shift: u32) -> u16 {
        let both = first as u32 + ((last as u32) << 16);
        ((both >> shift) % (1 << width as u32)) as u16
    }
}

impl JoinsWords for u32 {
    #[inline(always)]
    fn joined_digit(width: usize, first: u32, last: u32, shift: u32) -> u32 {
        let both = first as u64 + ((last as u64) << 32);
        ((both >> shift) % (1 << width as u32)) as u32
    }
}

impl JoinsWords for u64 {
    #[tactic(auto, using(crate::proofs::SingleDigits::low_of_64))]
    #[inline(always)]
    fn joined_digit(width: usize, first: u64, last: u64, shift: u32) -> u64 {
        let both = first as u128 + ((last as u128) << 64);
        (((both >> shift) % (1 << 64)) as u64).word_low(width as u32)
    }
}

/// The digit at a place, from a probe of its lane.
#[inline(always)]
pub fn probe_place<E: MachineWord>(width: usize, packed: &[E], index: usize) -> E
    requires width { width ≤ E.T }
    requires words { length packed.now ≡ E.LANES * width }
    requires index { 0 < width → index < 1024 }
    ensures { E.number result ≡ digit E.T E.LANES width (map E.number packed.now) index }
{
    if width == 0 {
        return E::zero();
    }
    let row = row_in_table::<E>(index as u32);
    let mut probe = WordProbe::new(packed, width, index % E::LANES);
    probe_digit(width, &mut probe, row as usize)
}

/// The digit at a place, from the words that its first and its last bit are in: the same without a look at where the
/// digit ends, for many places.
#[inline(always)]
pub fn unpack_place<E: JoinsWords>(width: usize, packed: &[E], index: usize) -> E
    requires width { width ≤ E.T }
    requires words { length packed.now ≡ E.LANES * width }
    requires index { 0 < width → index < 1024 }
    ensures { E.number result ≡ digit E.T E.LANES width (map E.number packed.now) index }
{
    if width == 0 {
        return E::zero();
    }
    let lane = index as u32 % E::LANES as u32;
    let bit = row_of_digit::<E>(width, index as u32) * width as u32;
    let first = packed[bit_place::<E>(width, lane, bit)];
    let last = packed[bit_place::<E>(width, lane, bit + width as u32 - 1)];
    E::joined_digit(width, first, last, bit % E::T as u32)
}

/// Writes where the rows of the lane 0 begin, in the order of their places: the word and the bit of it, for each of the
/// first `T` entries.
#[inline(always)]
pub fn row_starts<E: MachineWord>(width: usize, words: &mut [u16; 64], shifts: &mut [u8; 64])
    requires some { 0 < width }
    requires width { width ≤ E.T }
    ensures { StartsRows E.T E.LANES width words.new shifts.new }
{
    for k in 0..E::T {
        let bit = row_in_table::<E>((E::LANES * k) as u32) as usize * width;
        words[k] = (E::LANES * (bit / E::T)) as u16;
        shifts[k] = (bit % E::T) as u8;
    }
}

/// The digit at a place, from what `row_starts` wrote.
#[inline(always)]
pub fn unpack_from_start<E: MachineWord>(
    width: usize,
    packed: &[E],
    index: usize,
    words: &[u16; 64],
    shifts: &[u8; 64],
) -> E
    requires some { 0 < width }
    requires width { width ≤ E.T }
    requires words { length packed.now ≡ E.LANES * width }
    requires index { index < 1024 }
    requires starts { StartsRows E.T E.LANES width words.now shifts.now }
    ensures { E.number result ≡ digit E.T E.LANES width (map E.number packed.now) index }
{
    let lane = index as u32 % E::LANES as u32;
    let start = index as u32 / E::LANES as u32;
    let place = words[start as usize] as u32 + lane;
    let row = row_in_table::<E>(index as u32);
    digit_from(
        width,
        packed,
        lane as usize,
        row as usize,
        place as usize,
        shifts[start as usize] as usize,
    )
}
