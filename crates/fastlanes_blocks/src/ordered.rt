//! Types of values with which packed words are compared.

ghost use Rattle.std.specs.Prelude.{◌≡◌, ◌==◌, ℕ, ℤ, ◌+ℤ◌, ◌^◌, ◌<◌, IsNone, IsTrue, pos, refl};
ghost use Rattle.std.specs.Int.{cast_signed, w8, w16, w32, w64};
ghost use Rattle.std.specs.Option.{ForSome};
ghost use Rattle.fastlanes_blocks.specs.Comparisons.{at_most, equals, less_than};

use fastlanes::{BitPackingCompare, FastLanes, FastLanesComparable};

/// A type of values with which the digits of packed words of `E` are compared.
pub trait Ordered<E: FastLanes>: FastLanesComparable<Bitpacked = E> + Drop {
    // The integer that a word's number stands for, and the one that a value is.
    ghost integer: { ℕ → ℤ };

    ghost value: { Self → ℤ };

    /// Whether the value is less than another.
    fn is_less(self, other: Self) -> bool
        ensures { result ≡ less_than (value self) (value other) };

    /// The word that stands for the value.
    fn word(self) -> E
        ensures { (x : ℕ) → x < 2 ^ E.T
            → (x == E.number result) ≡ equals (integer x) (value self) };

    /// The next greater value, if there is one.
    fn next(self) -> Option<Self>
        ensures some { ForSome result (λ next. value next ≡ value self +ℤ pos 1) }
        ensures none { IsNone result → (x : ℕ) → x < 2 ^ E.T
            → IsTrue (at_most (integer x) (value self)) };

    ghost integer_law: { (word : E) → value (Self.unpacked word) ≡ integer (E.number word) };
}

/// An element type, whose words stand for themselves.
pub trait Element: BitPackingCompare + FastLanesComparable<Bitpacked = Self> {
    ghost unpacked_law: { (word : Self) → Self.unpacked word ≡ word };
}

impl Element for u8 {
    ghost unpacked_law = { λ word. refl };
}

impl Ordered<u8> for u8 {
    ghost integer = { pos };

    ghost value = { pos };

    #[inline(always)]
    fn is_less(self, other: u8) -> bool {
        self < other
    }

    #[inline(always)]
    fn word(self) -> u8 {
        self
    }

    #[inline(always)]
    fn next(self) -> Option<u8> {
        self.checked_add(1)
    }

    ghost integer_law = { λ word. refl };
}

impl Ordered<u8> for i8 {
    ghost integer = { (cast_signed w8) };

    ghost value = { λ z. z };

    #[inline(always)]
    fn is_less(self, other: i8) -> bool {
        self < other
    }

    #[inline(always)]
    fn word(self) -> u8 {
        self.cast_unsigned()
    }

    #[inline(always)]
    fn next(self) -> Option<i8> {
        self.checked_add(1)
    }

    ghost integer_law = { λ word. refl };
}

impl Element for u16 {
    ghost unpacked_law = { λ word. refl };
}

impl Ordered<u16> for u16 {
    ghost integer = { pos };

    ghost value = { pos };

    #[inline(always)]
    fn is_less(self, other: u16) -> bool {
        self < other
    }

    #[inline(always)]
    fn word(self) -> u16 {
        self
    }

    #[inline(always)]
    fn next(self) -> Option<u16> {
        self.checked_add(1)
    }

    ghost integer_law = { λ word. refl };
}

impl Ordered<u16> for i16 {
    ghost integer = { (cast_signed w16) };

    ghost value = { λ z. z };

    #[inline(always)]
    fn is_less(self, other: i16) -> bool {
        self < other
    }

    #[inline(always)]
    fn word(self) -> u16 {
        self.cast_unsigned()
    }

    #[inline(always)]
    fn next(self) -> Option<i16> {
        self.checked_add(1)
    }

    ghost integer_law = { λ word. refl };
}

impl Element for u32 {
    ghost unpacked_law = { λ word. refl };
}

impl Ordered<u32> for u32 {
    ghost integer = { pos };

    ghost value = { pos };

    #[inline(always)]
    fn is_less(self, other: u32) -> bool {
        self < other
    }

    #[inline(always)]
    fn word(self) -> u32 {
        self
    }

    #[inline(always)]
    fn next(self) -> Option<u32> {
        self.checked_add(1)
    }

    ghost integer_law = { λ word. refl };
}

impl Ordered<u32> for i32 {
    ghost integer = { (cast_signed w32) };

    ghost value = { λ z. z };

    #[inline(always)]
    fn is_less(self, other: i32) -> bool {
        self < other
    }

    #[inline(always)]
    fn word(self) -> u32 {
        self.cast_unsigned()
    }

    #[inline(always)]
    fn next(self) -> Option<i32> {
        self.checked_add(1)
    }

    ghost integer_law = { λ word. refl };
}

impl Element for u64 {
    ghost unpacked_law = { λ word. refl };
}

impl Ordered<u64> for u64 {
    ghost integer = { pos };

    ghost value = { pos };

    #[inline(always)]
    fn is_less(self, other: u64) -> bool {
        self < other
    }

    #[inline(always)]
    fn word(self) -> u64 {
        self
    }

    #[inline(always)]
    fn next(self) -> Option<u64> {
        self.checked_add(1)
    }

    ghost integer_law = { λ word. refl };
}

impl Ordered<u64> for i64 {
    ghost integer = { (cast_signed w64) };

    ghost value = { λ z. z };

    #[inline(always)]
    fn is_less(self, other: i64) -> bool {
        self < other
    }

    #[inline(always)]
    fn word(self) -> u64 {
        self.cast_unsigned()
    }

    #[inline(always)]
    fn next(self) -> Option<i64> {
        self.checked_add(1)
    }

    ghost integer_law = { λ word. refl };
}
