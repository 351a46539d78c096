//! The element types of a block, and what their words do.

ghost use Rattle.std.specs.Prelude.{◌≡◌, ◌↔◌, ◌+◌, ◌-◌, ◌*◌, ◌/◌, ◌%◌, ◌^◌, ◌<◌, ◌≤◌, ℕ, pos, IsTrue, bit_and, bit_or, length, map, refl};
ghost use Rattle.std.specs.Int.{cast_signed, w8, w16, w32, w64};
ghost use Rattle.std.proofs.Common.{inl, inr, lit<};
ghost use Rattle.fastlanes_base.specs.Element.{IsLayout, IsWordSize};
ghost use Rattle.fastlanes_base.specs.Memory.{BlockFitsInMemory};
ghost use Rattle.fastlanes_base.specs.Tile.{TransposesTile};

use crate::tile::{tile_of_8, tile_of_elements, tile_of_pairs_of_2, tile_of_pairs_of_4};
use num_traits::{One, PrimInt, Unsigned, Zero};
use std::simd::prelude::*;

/// An unsigned integer type that blocks are made of. A value of it is a word of `T` bits; a block has 1024 of them,
/// in `LANES` lanes of `T` rows.
///
/// ```rust
/// use fastlanes::FastLanes;
///
/// assert_eq!(rt; (u16::T, u16::LANES), (16, 64));
/// assert_eq!(rt; (200u8.word_add(100), 100u8.word_sub(200)), (44, 156));
/// assert_eq!(rt; (0x81u8.word_shl(1), 0x81u8.word_shr(1)), (0x02, 0x40));
/// assert_eq!(rt; (0xF1u8.word_or(0x0F), 0xABu8.word_low(4)), (0xFF, 0x0B));
/// assert!(rt; 3u8.word_lt(5) && !5u8.word_lt(5));
/// ```
pub trait FastLanes: Sized + Unsigned + PrimInt {
    /// How many bits a word has.
    const T: usize;

    ghost T: { ℕ };

    /// How many lanes a block has.
    const LANES: usize;

    ghost LANES: { ℕ };

    // The number that a word stands for.
    ghost number: { Self → ℕ };

    /// The sum, modulo `2^T`.
    fn word_add(self, other: Self) -> Self
        ensures below { number self < 2 ^ T }
        ensures other_below { number other < 2 ^ T }
        ensures value { number result ≡ (number self + number other) % 2 ^ T };

    /// The difference, modulo `2^T`.
    fn word_sub(self, other: Self) -> Self
        ensures below { number self < 2 ^ T }
        ensures other_below { number other < 2 ^ T }
        ensures value { number result ≡ (number self + (2 ^ T - number other)) % 2 ^ T };

    /// The bits moved up by `n`, without those that leave the word.
    fn word_shl(self, n: u32) -> Self
        requires { n < T }
        ensures below { number self < 2 ^ T }
        ensures value { number result ≡ (number self * 2 ^ n) % 2 ^ T };

    /// The bits moved down by `n`.
    fn word_shr(self, n: u32) -> Self
        requires { n < T }
        ensures below { number self < 2 ^ T }
        ensures value { number result ≡ number self / 2 ^ n };

    /// Bit by bit or, which is the sum of words with no common bit.
    fn word_or(self, other: Self) -> Self
        ensures below { number self < 2 ^ T }
        ensures other_below { number other < 2 ^ T }
        ensures value { number result ≡ bit_or (number self) (number other) }
        ensures sum { bit_and (number self) (number other) ≡ 0
            → number result ≡ number self + number other };

    /// Whether the number of `self` is the smaller one.
    fn word_lt(self, other: Self) -> bool
        ensures below { number self < 2 ^ T }
        ensures other_below { number other < 2 ^ T }
        ensures value { IsTrue result ↔ (number self < number other) };

    /// The lowest `n` bits.
    fn word_low(self, n: u32) -> Self
        requires { n ≤ T }
        ensures below { number self < 2 ^ T }
        ensures value { number result ≡ number self % 2 ^ n };

    /// Transposes a tile of 8 by 8 elements: sets `output[to + b * to_step + a]` to `input[from + a * from_step + b]` for all
    /// `a` and `b` below 8. `transpose` and `untranspose` move a block by such tiles. A user-supplied type need not define it:
    /// the provided function moves one element at a time.
    ///
    /// ```rust
    /// use fastlanes::FastLanes;
    ///
    /// let input: [u8; 64] = std::array::from_fn(|i| (i % 64) as u8);
    /// let mut output = [0; 64];
    /// u8::transpose_tile(&input, 0, 8, &mut output, 0, 8);
    /// assert_eq!(rt; (output[1], output[8], output[63]), (8, 1, 63));
    /// ```
    #[inline(always)]
    fn transpose_tile(
        input: &[Self],
        from: usize,
        from_step: usize,
        output: &mut [Self],
        to: usize,
        to_step: usize,
    )
        requires input { from + from_step * 7 + 8 ≤ length input.now }
        requires output { to + to_step * 7 + 8 ≤ length output.old }
        ensures { TransposesTile 8 8 from from_step to to_step (map number input.now)
            (map number output.old)
            (map number output.new) }
    {
        tile_of_elements(input, from, from_step, output, to, to_step);
    }

    // A word has 8, 16, 32 or 64 bits.
    ghost bits_law: { IsWordSize T };

    // Every row of every lane is one element.
    ghost lanes_law: { T * LANES ≡ 1024 };

    // Both at once.
    ghost layout_law: { IsLayout T LANES };

    // The number of a word is its integer.
    ghost number_law: { (x : Self) → Self.value x ≡ pos (number x) };

    // Two words with one number are one word.
    ghost same_law: { (x y : Self) → number x ≡ number y → x ≡ y };

    ghost zero_number_law: { number Self.zero ≡ 0 };

    ghost one_number_law: { number Self.one ≡ 1 };

    // A block fits into memory, and so does a row of it.
    ghost memory_law: { BlockFitsInMemory Self.row };
}

/// A word of `T` bits, and what its operations do to its number. Every element type is one. What needs no more of an
/// element than this asks for no more: `FastLanes` brings all laws of `num_traits` into every proof.
pub trait MachineWord: Sized + Copy {
    /// How many bits a word has.
    const T: usize;

    ghost T: { ℕ };

    /// How many lanes a block has.
    const LANES: usize;

    ghost LANES: { ℕ };

    // The number that a word stands for.
    ghost number: { Self → ℕ };

    /// The word 0.
    fn zero() -> Self
        ensures { number result ≡ 0 };

    /// The word 1.
    fn one() -> Self
        ensures { number result ≡ 1 };

    /// The sum, modulo `2^T`.
    fn plus(self, other: Self) -> Self
        ensures below { number self < 2 ^ T }
        ensures other_below { number other < 2 ^ T }
        ensures value { number result ≡ (number self + number other) % 2 ^ T };

    /// The difference, modulo `2^T`.
    fn minus(self, other: Self) -> Self
        ensures below { number self < 2 ^ T }
        ensures other_below { number other < 2 ^ T }
        ensures value { number result ≡ (number self + (2 ^ T - number other)) % 2 ^ T };

    /// The bits moved up by `n`, without those that leave the word.
    fn up(self, n: u32) -> Self
        requires { n < T }
        ensures below { number self < 2 ^ T }
        ensures value { number result ≡ (number self * 2 ^ n) % 2 ^ T };

    /// The bits moved down by `n`.
    fn down(self, n: u32) -> Self
        requires { n < T }
        ensures below { number self < 2 ^ T }
        ensures value { number result ≡ number self / 2 ^ n };

    /// Bit by bit or, which is the sum of words with no common bit.
    fn or(self, other: Self) -> Self
        ensures below { number self < 2 ^ T }
        ensures other_below { number other < 2 ^ T }
        ensures value { number result ≡ bit_or (number self) (number other) }
        ensures sum { bit_and (number self) (number other) ≡ 0
            → number result ≡ number self + number other };

    /// Whether the number of `self` is the smaller one.
    fn less(self, other: Self) -> bool
        ensures below { number self < 2 ^ T }
        ensures other_below { number other < 2 ^ T }
        ensures value { IsTrue result ↔ (number self < number other) };

    /// The lowest `n` bits.
    fn low(self, n: u32) -> Self
        requires { n ≤ T }
        ensures below { number self < 2 ^ T }
        ensures value { number result ≡ number self % 2 ^ n };

    // A word has 8, 16, 32 or 64 bits.
    ghost bits_law: { IsWordSize T };

    // Every row of every lane is one element.
    ghost lanes_law: { T * LANES ≡ 1024 };

    // Both at once.
    ghost layout_law: { IsLayout T LANES };

    // Two words with one number are one word.
    ghost same_law: { (x y : Self) → number x ≡ number y → x ≡ y };

    // A block fits into memory, and so does a row of it.
    ghost memory_law: { BlockFitsInMemory Self.row };
}

impl<E: FastLanes> MachineWord for E {
    const T: usize = E::T;

    ghost T = { E.T };

    const LANES: usize = E::LANES;

    ghost LANES = { E.LANES };

    ghost number = { E.number };

    #[inline(always)]
    fn zero() -> E {
        <E as Zero>::zero()
    }

    #[inline(always)]
    fn one() -> E {
        <E as One>::one()
    }

    #[inline(always)]
    fn plus(self, other: E) -> E {
        self.word_add(other)
    }

    #[inline(always)]
    fn minus(self, other: E) -> E {
        self.word_sub(other)
    }

    #[inline(always)]
    fn up(self, n: u32) -> E {
        self.word_shl(n)
    }

    #[inline(always)]
    fn down(self, n: u32) -> E {
        self.word_shr(n)
    }

    #[inline(always)]
    fn or(self, other: E) -> E {
        self.word_or(other)
    }

    #[inline(always)]
    fn less(self, other: E) -> bool {
        self.word_lt(other)
    }

    #[inline(always)]
    fn low(self, n: u32) -> E {
        self.word_low(n)
    }

    ghost bits_law = { E.bits_law };

    ghost lanes_law = { E.lanes_law };

    ghost layout_law = { E.layout_law };

    ghost same_law = { E.same_law };

    ghost memory_law = { E.memory_law };
}

/// The words of 64 bits in which the lowest bits are ones, by how many of them.
const LOW_ONES: [u64; 65] = [
    0,
    0x1,
    0x3,
    0x7,
    0xF,
    0x1F,
    0x3F,
    0x7F,
    0xFF,
    0x1FF,
    0x3FF,
    0x7FF,
    0xFFF,
    0x1FFF,
    0x3FFF,
    0x7FFF,
    0xFFFF,
    0x1_FFFF,
    0x3_FFFF,
    0x7_FFFF,
    0xF_FFFF,
    0x1F_FFFF,
    0x3F_FFFF,
    0x7F_FFFF,
    0xFF_FFFF,
    0x1FF_FFFF,
    0x3FF_FFFF,
    0x7FF_FFFF,
    0xFFF_FFFF,
    0x1FFF_FFFF,
    0x3FFF_FFFF,
    0x7FFF_FFFF,
    0xFFFF_FFFF,
    0x1_FFFF_FFFF,
    0x3_FFFF_FFFF,
    0x7_FFFF_FFFF,
    0xF_FFFF_FFFF,
    0x1F_FFFF_FFFF,
    0x3F_FFFF_FFFF,
    0x7F_FFFF_FFFF,
    0xFF_FFFF_FFFF,
    0x1FF_FFFF_FFFF,
    0x3FF_FFFF_FFFF,
    0x7FF_FFFF_FFFF,
    0xFFF_FFFF_FFFF,
    0x1FFF_FFFF_FFFF,
    0x3FFF_FFFF_FFFF,
    0x7FFF_FFFF_FFFF,
    0xFFFF_FFFF_FFFF,
    0x1_FFFF_FFFF_FFFF,
    0x3_FFFF_FFFF_FFFF,
    0x7_FFFF_FFFF_FFFF,
    0xF_FFFF_FFFF_FFFF,
    0x1F_FFFF_FFFF_FFFF,
    0x3F_FFFF_FFFF_FFFF,
    0x7F_FFFF_FFFF_FFFF,
    0xFF_FFFF_FFFF_FFFF,
    0x1FF_FFFF_FFFF_FFFF,
    0x3FF_FFFF_FFFF_FFFF,
    0x7FF_FFFF_FFFF_FFFF,
    0xFFF_FFFF_FFFF_FFFF,
    0x1FFF_FFFF_FFFF_FFFF,
    0x3FFF_FFFF_FFFF_FFFF,
    0x7FFF_FFFF_FFFF_FFFF,
    0xFFFF_FFFF_FFFF_FFFF,
];

/// The word of 64 bits whose lowest `n` bits are ones.
#[inline(always)]
fn low_ones(n: u32) -> u64
    requires { n ≤ 64 }
    ensures { result ≡ 2 ^ n - 1 }
{
    // Cut to eight bits, the number is a place without a multiplication.
    LOW_ONES[n as u8 as usize]
}

impl FastLanes for u8 {
    const T: usize = 8;

    ghost T = { 8 };

    const LANES: usize = 128;

    ghost LANES = { 128 };

    ghost number = { λ x. x };

    #[inline(always)]
    fn word_add(self, other: u8) -> u8 {
        self.wrapping_add(other)
    }

    #[inline(always)]
    fn word_sub(self, other: u8) -> u8 {
        self.wrapping_sub(other)
    }

    #[inline(always)]
    fn word_shl(self, n: u32) -> u8 {
        self << n
    }

    #[inline(always)]
    fn word_shr(self, n: u32) -> u8 {
        self >> n
    }

    #[tactic(auto, using(std::proofs::lemmas::Nat::or_disjoint))]
    #[inline(always)]
    fn word_or(self, other: u8) -> u8 {
        self | other
    }

    #[inline(always)]
    fn word_lt(self, other: u8) -> bool {
        self < other
    }

    #[tactic(auto, using(std::proofs::lemmas::Nat::and_mask))]
    #[inline(always)]
    fn word_low(self, n: u32) -> u8 {
        self & low_ones(n) as u8
    }

    #[inline(always)]
    fn transpose_tile(
        input: &[u8],
        from: usize,
        from_step: usize,
        output: &mut [u8],
        to: usize,
        to_step: usize,
    ) {
        tile_of_8::<u8, u8x8>(input, from, from_step, output, to, to_step);
    }

    ghost bits_law = { inl refl };

    ghost lanes_law = { refl };

    ghost layout_law = { record { size = inl refl; area = refl } };

    ghost number_law = { λ x. refl };

    ghost same_law = { λ x y e. e };

    ghost zero_number_law = { refl };

    ghost one_number_law = { refl };

    ghost memory_law = { lit< tt };
}

impl FastLanes for u16 {
    const T: usize = 16;

    ghost T = { 16 };

    const LANES: usize = 64;

    ghost LANES = { 64 };

    ghost number = { λ x. x };

    #[inline(always)]
    fn word_add(self, other: u16) -> u16 {
        self.wrapping_add(other)
    }

    #[inline(always)]
    fn word_sub(self, other: u16) -> u16 {
        self.wrapping_sub(other)
    }

    #[inline(always)]
    fn word_shl(self, n: u32) -> u16 {
        self << n
    }

    #[inline(always)]
    fn word_shr(self, n: u32) -> u16 {
        self >> n
    }

    #[tactic(auto, using(std::proofs::lemmas::Nat::or_disjoint))]
    #[inline(always)]
    fn word_or(self, other: u16) -> u16 {
        self | other
    }

    #[inline(always)]
    fn word_lt(self, other: u16) -> bool {
        self < other
    }

    #[tactic(auto, using(std::proofs::lemmas::Nat::and_mask))]
    #[inline(always)]
    fn word_low(self, n: u32) -> u16 {
        self & low_ones(n) as u16
    }

    #[inline(always)]
    fn transpose_tile(
        input: &[u16],
        from: usize,
        from_step: usize,
        output: &mut [u16],
        to: usize,
        to_step: usize,
    ) {
        tile_of_8::<u16, u16x8>(input, from, from_step, output, to, to_step);
    }

    ghost bits_law = { inr (inl refl) };

    ghost lanes_law = { refl };

    ghost layout_law = { record { size = inr (inl refl); area = refl } };

    ghost number_law = { λ x. refl };

    ghost same_law = { λ x y e. e };

    ghost zero_number_law = { refl };

    ghost one_number_law = { refl };

    ghost memory_law = { lit< tt };
}

impl FastLanes for u32 {
    const T: usize = 32;

    ghost T = { 32 };

    const LANES: usize = 32;

    ghost LANES = { 32 };

    ghost number = { λ x. x };

    #[inline(always)]
    fn word_add(self, other: u32) -> u32 {
        self.wrapping_add(other)
    }

    #[inline(always)]
    fn word_sub(self, other: u32) -> u32 {
        self.wrapping_sub(other)
    }

    #[inline(always)]
    fn word_shl(self, n: u32) -> u32 {
        self << n
    }

    #[inline(always)]
    fn word_shr(self, n: u32) -> u32 {
        self >> n
    }

    #[tactic(auto, using(std::proofs::lemmas::Nat::or_disjoint))]
    #[inline(always)]
    fn word_or(self, other: u32) -> u32 {
        self | other
    }

    #[inline(always)]
    fn word_lt(self, other: u32) -> bool {
        self < other
    }

    #[tactic(auto, using(std::proofs::lemmas::Nat::and_mask))]
    #[inline(always)]
    fn word_low(self, n: u32) -> u32 {
        self & low_ones(n) as u32
    }

    #[inline(always)]
    fn transpose_tile(
        input: &[u32],
        from: usize,
        from_step: usize,
        output: &mut [u32],
        to: usize,
        to_step: usize,
    ) {
        tile_of_pairs_of_4::<u32, u32x8>(input, from, from_step, output, to, to_step);
    }

    ghost bits_law = { inr (inr (inl refl)) };

    ghost lanes_law = { refl };

    ghost layout_law = { record { size = inr (inr (inl refl)); area = refl } };

    ghost number_law = { λ x. refl };

    ghost same_law = { λ x y e. e };

    ghost zero_number_law = { refl };

    ghost one_number_law = { refl };

    ghost memory_law = { lit< tt };
}

impl FastLanes for u64 {
    const T: usize = 64;

    ghost T = { 64 };

    const LANES: usize = 16;

    ghost LANES = { 16 };

    ghost number = { λ x. x };

    #[inline(always)]
    fn word_add(self, other: u64) -> u64 {
        self.wrapping_add(other)
    }

    #[inline(always)]
    fn word_sub(self, other: u64) -> u64 {
        self.wrapping_sub(other)
    }

    #[inline(always)]
    fn word_shl(self, n: u32) -> u64 {
        self << n
    }

    #[inline(always)]
    fn word_shr(self, n: u32) -> u64 {
        self >> n
    }

    #[tactic(auto, using(std::proofs::lemmas::Nat::or_disjoint))]
    #[inline(always)]
    fn word_or(self, other: u64) -> u64 {
        self | other
    }

    #[inline(always)]
    fn word_lt(self, other: u64) -> bool {
        self < other
    }

    #[tactic(auto, using(std::proofs::lemmas::Nat::and_mask))]
    #[inline(always)]
    fn word_low(self, n: u32) -> u64 {
        self & low_ones(n)
    }

    #[inline(always)]
    fn transpose_tile(
        input: &[u64],
        from: usize,
        from_step: usize,
        output: &mut [u64],
        to: usize,
        to_step: usize,
    ) {
        tile_of_pairs_of_2::<u64, u64x4>(input, from, from_step, output, to, to_step);
    }

    ghost bits_law = { inr (inr (inr refl)) };

    ghost lanes_law = { refl };

    ghost layout_law = { record { size = inr (inr (inr refl)); area = refl } };

    ghost number_law = { λ x. refl };

    ghost same_law = { λ x y e. e };

    ghost zero_number_law = { refl };

    ghost one_number_law = { refl };

    ghost memory_law = { lit< tt };
}

/// A type whose values stand in packed words: the words' own type, or a signed one of the same width.
pub trait FastLanesComparable: Copy {
    /// The type of the words.
    type Bitpacked;

    // The value that a word stands for.
    ghost unpacked: { Self.Bitpacked → Self };

    /// The value that a word stands for.
    ///
    /// ```rust
    /// use fastlanes::FastLanesComparable;
    ///
    /// assert_eq!(rt; i8::as_unpacked(255), -1);
    /// assert_eq!(rt; u8::as_unpacked(255), 255);
    /// ```
    fn as_unpacked(inner: Self::Bitpacked) -> Self
        ensures { result ≡ unpacked inner };
}

impl FastLanesComparable for u8 {
    type Bitpacked = u8;

    ghost unpacked = { λ n. n };

    #[inline(always)]
    fn as_unpacked(inner: u8) -> u8 {
        inner
    }
}

impl FastLanesComparable for i8 {
    type Bitpacked = u8;

    // The two's complement: n, or n - 2^8 from 2^7 on.
    ghost unpacked = { cast_signed w8 };

    #[inline(always)]
    fn as_unpacked(inner: u8) -> i8 {
        inner.cast_signed()
    }
}

impl FastLanesComparable for u16 {
    type Bitpacked = u16;

    ghost unpacked = { λ n. n };

    #[inline(always)]
    fn as_unpacked(inner: u16) -> u16 {
        inner
    }
}

impl FastLanesComparable for i16 {
    type Bitpacked = u16;

    // The two's complement: n, or n - 2^16 from 2^15 on.
    ghost unpacked = { cast_signed w16 };

    #[inline(always)]
    fn as_unpacked(inner: u16) -> i16 {
        inner.cast_signed()
    }
}

impl FastLanesComparable for u32 {
    type Bitpacked = u32;

    ghost unpacked = { λ n. n };

    #[inline(always)]
    fn as_unpacked(inner: u32) -> u32 {
        inner
    }
}

impl FastLanesComparable for i32 {
    type Bitpacked = u32;

    // The two's complement: n, or n - 2^32 from 2^31 on.
    ghost unpacked = { cast_signed w32 };

    #[inline(always)]
    fn as_unpacked(inner: u32) -> i32 {
        inner.cast_signed()
    }
}

impl FastLanesComparable for u64 {
    type Bitpacked = u64;

    ghost unpacked = { λ n. n };

    #[inline(always)]
    fn as_unpacked(inner: u64) -> u64 {
        inner
    }
}

impl FastLanesComparable for i64 {
    type Bitpacked = u64;

    // The two's complement: n, or n - 2^64 from 2^63 on.
    ghost unpacked = { cast_signed w64 };

    #[inline(always)]
    fn as_unpacked(inner: u64) -> i64 {
        inner.cast_signed()
    }
}

/// Whether a block of `E` can be packed to `w` bits an element.
///
/// ```rust
/// assert!(rt; fastlanes::supported_width::<u8>(8));
/// assert!(rt; !fastlanes::supported_width::<u8>(9));
/// ```
pub fn supported_width<E: FastLanes>(w: usize) -> bool
    ensures { IsTrue result ↔ (w ≤ E.T) }
{
    w <= E::T
}

/// How many words a block of `E` has once it is packed to `w` bits an element.
///
/// ```rust
/// assert_eq!(rt; fastlanes::packed_len::<u16>(3), 192);
/// assert_eq!(rt; fastlanes::packed_len::<u32>(10), 320);
/// ```
pub fn packed_len<E: FastLanes>(w: usize) -> usize
    requires { w ≤ E.T }
    ensures { result ≡ E.LANES * w }
{
    E::LANES * w
}

/// The number that a word stands for.
///
/// ```rust
/// assert_eq!(rt; fastlanes::number_of(300u16), 300u64);
/// ```
#[inline(always)]
pub fn number_of<E: FastLanes>(word: E) -> u64
    ensures { result ≡ E.number word }
{
    // All of its bits, by which its number is known to fit.
    word.word_low(E::T as u32).to_u64().unwrap()
}
