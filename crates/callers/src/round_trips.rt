//! Callers of the library, and what they can conclude.

ghost use Rattle.std.specs.Prelude.{◌≡◌, ◌≢◌, ℕ, ◌*◌, ◌^◌, ◌<◌, ◌≤◌, ◌==◌, All, if◌then◌else◌, int_lt, nat_lt, length, map, slice_index};
ghost use Rattle.std.specs.Int.{cast_signed, w16};
ghost use Rattle.fastlanes.specs.Bits.{block_bit};
ghost use Rattle.fastlanes.specs.Delta.{deltas};
ghost use Rattle.fastlanes.specs.Digits.{digit};
ghost use Rattle.fastlanes.specs.Frame.{word_difference};
ghost use Rattle.fastlanes.specs.Mask.{MayAsk};
ghost use Rattle.fastlanes.specs.Order.{transposed_index};

use fastlanes::{
    BitPacking, BitPackingCompare, Delta, FastLanes, FastLanesComparable, FoR, for_pack, pack,
    scalar, transpose_bits, undelta_pack, unfor_pack, unpack, unpack_cmp, unpack_single,
    untranspose_bits,
};

/// Packs elements below `2^W`, and brings them back.
pub fn packed_there_and_back<E: BitPacking, const W: usize, const B: usize>(
    values: &[E; 1024],
    packed: &mut [E; B],
    back: &mut [E; 1024],
)
    requires width { W ≤ E.T }
    requires words { B ≡ E.LANES * W }
    requires below { All (λ x. x < 2 ^ W) (map E.number values.now) }
    ensures { map E.number back.new ≡ map E.number values.now }
{
    pack::<E, W, B>(values, packed);
    unpack::<E, W, B>(packed, back);
}

/// Packs the differences of a block whose differences have at most `W` bits, and adds them up again.
pub fn differences_there_and_back<
    E: Delta<LANES>,
    const LANES: usize,
    const W: usize,
    const B: usize,
>(
    values: &[E; 1024],
    base: &[E; LANES],
    differences: &mut [E; 1024],
    packed: &mut [E; B],
    back: &mut [E; 1024],
)
    requires lanes { LANES ≡ E.LANES }
    requires width { W ≤ E.T }
    requires words { B ≡ E.LANES * W }
    requires small { All (λ x. x < 2 ^ W)
        (deltas E.T E.LANES (map E.number base.now) (map E.number values.now)) }
    ensures { map E.number back.new ≡ map E.number values.now }
{
    E::delta(values, base, differences);
    pack::<E, W, B>(differences, packed);
    undelta_pack::<E, LANES, W, B>(packed, base, back);
}

/// Packs a block whose differences from a reference have at most `W` bits, and brings it back.
pub fn frame_there_and_back<E: FoR, const W: usize, const B: usize>(
    values: &[E; 1024],
    reference: E,
    packed: &mut [E; B],
    back: &mut [E; 1024],
)
    requires width { W ≤ E.T }
    requires words { B ≡ E.LANES * W }
    requires near { All (λ x. word_difference E.T x (E.number reference) < 2 ^ W)
        (map E.number values.now) }
    ensures { map E.number back.new ≡ map E.number values.now }
{
    for_pack::<E, W, B>(values, reference, packed);
    unfor_pack::<E, W, B>(packed, reference, back);
}

/// Packs a block as its differences from a reference, and reads one value that lies near it.
pub fn value_of_a_frame<E: FoR>(
    width: usize,
    values: &[E; 1024],
    reference: E,
    packed: &mut [E],
    index: usize,
) -> E
    requires width { width ≤ E.T }
    requires words { length packed.old ≡ E.LANES * width }
    requires index { index < 1024 }
    requires near { word_difference E.T (slice_index (map E.number values.now) index)
        (E.number reference) < 2 ^ width }
    ensures { E.number result ≡ slice_index (map E.number values.now) index }
{
    E::unchecked_for_pack(width, values, reference, packed);
    E::unchecked_unpack_single(width, packed, index).word_add(reference)
}

/// The same at a width that is a constant.
#[tactic(auto, using(fastlanes::proofs::Callers::near_element))]
pub fn value_of_a_constant_frame<E: FoR, const W: usize, const B: usize>(
    values: &[E; 1024],
    reference: E,
    packed: &mut [E; B],
    index: usize,
) -> E
    requires width { W ≤ E.T }
    requires words { B ≡ E.LANES * W }
    requires index { index < 1024 }
    requires near { word_difference E.T (slice_index (map E.number values.now) index)
        (E.number reference) < 2 ^ W }
    ensures { E.number result ≡ slice_index (map E.number values.now) index }
{
    for_pack::<E, W, B>(values, reference, packed);
    unpack_single::<E, W, B>(packed, index).word_add(reference)
}

/// Transposes a block of bits from the order of lanes of `E` into that of places, and brings it back.
pub fn bits_there_and_back<E: FastLanes>(
    bits: &[u64; 16],
    moved: &mut [u64; 16],
    back: &mut [u64; 16],
)
    ensures { back.new ≡ bits.now }
{
    transpose_bits::<E>(bits, moved);
    untranspose_bits::<E>(moved, back);
}

/// Transposes a block of bits from the order of places into that of lanes of 64 bits: bit `i` goes to bit `transpose(i)`.
pub fn bits_to_transposed_indexes(bits: &[u64; 16], moved: &mut [u64; 16])
    ensures { (i : ℕ) → i < 1024 → block_bit moved.new (transposed_index i) ≡ block_bit bits.now i }
{
    untranspose_bits::<u64>(bits, moved);
}

/// Transposes a block of bits of `u32` back by the plain form and by that on vectors, which give the same.
pub fn untransposed_by_two_forms(bits: &[u64; 16], plain: &mut [u64; 16], vectors: &mut [u64; 16])
    ensures { plain.new ≡ vectors.new }
{
    scalar::untranspose_bits::<u32>(bits, plain);
    untranspose_bits::<u32>(bits, vectors);
}

/// Compares packed values, brings the mask into the order of places, and makes it again from there.
pub fn mask_from_places<
    E: BitPackingCompare,
    F: Fn(V, V) -> bool + Drop,
    V: FastLanesComparable<Bitpacked = E>,
    const W: usize,
    const B: usize,
>(
    packed: &[E; B],
    comparison: F,
    value: V,
    mask: &mut [u64; 16],
    places: &mut [u64; 16],
    back: &mut [u64; 16],
)
    requires width { W ≤ E.T }
    requires words { B ≡ E.LANES * W }
    requires callable { MayAsk E.number V.unpacked (F.pre comparison) value
        (digit E.T E.LANES W (map E.number packed.now)) }
    ensures { back.new ≡ mask.new }
{
    unpack_cmp::<E, V, F, W, B>(packed, mask, comparison, value);
    transpose_bits::<E>(mask, places);
    untranspose_bits::<E>(places, back);
}

/// Where the digits of a block equal a value: bit `i` of the result is 1 where the digit at the place `i` does, else 0.
pub fn places_of_equal<const W: usize, const B: usize>(packed: &[u16; B], value: u16) -> [u64; 16]
    requires width { W ≤ 16 }
    requires words { B ≡ 64 * W }
    ensures { (i : ℕ) → i < 1024
        → block_bit result i ≡ (if digit 16 64 W packed.now i == value then 1 else 0) }
{
    let is_equal = |digit: u16, value: u16| -> bool
        ensures { result ≡ (digit == value) }
    { digit == value };
    let (mut mask, mut places) = ([0; 16], [0; 16]);
    unpack_cmp::<u16, u16, _, W, B>(packed, &mut mask, is_equal, value);
    transpose_bits::<u16>(&mask, &mut places);
    places
}

/// Where the digits of a block, as numbers with a sign, are below a value: bit `i` of the result is 1 where the digit at the
/// place `i` is, else 0.
pub fn places_of_less<const W: usize, const B: usize>(packed: &[u16; B], value: i16) -> [u64; 16]
    requires width { W ≤ 16 }
    requires words { B ≡ 64 * W }
    ensures { (i : ℕ) → i < 1024
        → block_bit result i
        ≡ (if int_lt (cast_signed w16 (digit 16 64 W packed.now i)) value then 1 else 0) }
{
    let is_less = |digit: i16, value: i16| -> bool
        ensures { result ≡ int_lt digit value }
    { digit < value };
    let (mut mask, mut places) = ([0; 16], [0; 16]);
    unpack_cmp::<u16, i16, _, W, B>(packed, &mut mask, is_less, value);
    transpose_bits::<u16>(&mask, &mut places);
    places
}

/// Where the digits of a block are below a value, by a comparison that may say anything of the value itself: bit `i` of the
/// result is 1 where the digit at the place `i` is below it and 0 where it is above it. Where the digit is the value, the bit
/// is an answer, and nobody knows which.
pub fn places_of_about_less<const W: usize, const B: usize>(
    packed: &[u16; B],
    value: u16,
) -> [u64; 16]
    requires width { W ≤ 16 }
    requires words { B ≡ 64 * W }
    ensures answers { (i : ℕ) → i < 1024 → block_bit result i < 2 }
    ensures others { (i : ℕ) → i < 1024 → digit 16 64 W packed.now i ≢ value
        → block_bit result i ≡ (if nat_lt (digit 16 64 W packed.now i) value then 1 else 0) }
{
    let is_less = |digit: u16, value: u16| -> bool
        ensures { digit ≢ value → result ≡ nat_lt digit value }
    { digit <= value };
    let (mut mask, mut places) = ([0; 16], [0; 16]);
    unpack_cmp::<u16, u16, _, W, B>(packed, &mut mask, is_less, value);
    transpose_bits::<u16>(&mask, &mut places);
    places
}
