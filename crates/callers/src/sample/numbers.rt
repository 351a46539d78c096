//! The traits of `num_traits` that a word has, from those of the `u16` in it.

ghost use Rattle.std.specs.Prelude.{◌≡◌, ◌≢◌, ◌+◌, ◌-◌, ◌*◌, ◌/◌, ◌^◌, ◌<◌, ◌≤◌, ⊤, Some, pos, min, refl, unsigned_abs};
ghost use Rattle.std.specs.Int.{w16, FitsUnsignedBits};
ghost use Rattle.std.specs.Option.{SomeIff};
ghost use Rattle.std.specs.Float.Ieee.{of_int};
ghost use Rattle.std.proofs.Common.{ap, lit<, lit≤, lt_of_lt_of_le};
ghost use Rattle.num_traits.specs.Laws.{wrap_unsigned};
ghost use Rattle.num_traits.specs.Ints.{pos-of-ne, unsigned-between, unsigned-bits, unsigned-bounds, unsigned-can_sub, unsigned-checks, unsigned-divides, unsigned-eq, unsigned-low, unsigned-order, unsigned-positive_divisor, unsigned-saturates, unsigned-saturates_sub, unsigned-size, unsigned-sub, unsigned-sub_fits, unsigned-sub_is, unsigned-wrap, unsigned-wrap_fits};

use crate::sample::Sample;
use num_traits::{
    Bounded, CheckedAdd, CheckedDiv, CheckedMul, CheckedSub, FixedWidth, Integral, Num, NumCast,
    Number, One, PrimInt, SaturatingAdd, SaturatingSub, ToPrimitive, Unsigned, Zero,
};
use std::num::{nearest_u64_to_f32, nearest_u64_to_f64};

impl Number for Sample {
    ghost exact = { ⊤ };

    ghost value = { λ x. pos x };

    ghost fits = { FitsUnsignedBits 16 };

    ghost nonzero = { λ z. z ≢ pos 0 };

    ghost wrap = { wrap_unsigned 16 };

    ghost eq_law = { λ a b _. unsigned-eq a b };

    ghost order_law = { λ a b _. unsigned-order a b };

    ghost between_law = { λ x y z _. unsigned-between 16 x y z };

    ghost nonzero_law = { λ x _. λ _. ((λ h. h), (λ h. h)) };
}

impl Integral for Sample {
    ghost exact_law = { tt };

    ghost wrap_law = { unsigned-wrap 16 };

    ghost wrap_fits_law = { unsigned-wrap_fits 16 };
}

impl FixedWidth for Sample {
    ghost width = { w16 };

    ghost bits_of = { λ x. x };

    ghost of_bits = { λ n. n };

    ghost size_law = { unsigned-size 16 };

    ghost small_fits_law = { λ n h. lt_of_lt_of_le h (lit≤ tt) };

    ghost value_round_trip_law = { λ x f. refl };

    ghost bits_round_trip_law = { λ n h. refl };

    ghost bits_of_natural_law = { λ x n e. ap unsigned_abs e };

    ghost bits_of_law = { unsigned-bits 16 };

    ghost of_bits_law = { unsigned-bits 16 };
}

impl Zero for Sample {
    ghost zero = { 0 };

    fn zero() -> Sample {
        Sample::new(0)
    }

    fn is_zero(&self) -> bool {
        self.bits == 0
    }

    ghost zero_law = { λ _. refl };

    ghost zero_fits_law = { λ _. lit< tt };

    ghost can_add_law = { λ a b h. h tt };

    ghost add_law = { λ a b r h _ _. ap pos h };
}

impl One for Sample {
    ghost one = { 1 };

    fn one() -> Sample {
        Sample::new(1)
    }

    ghost one_law = { λ _. refl };

    ghost one_fits_law = { λ _. lit< tt };

    ghost can_mul_law = { λ a b h. h tt };

    ghost mul_law = { λ a b r h _ _. ap pos h };
}

impl Num for Sample {
    // No text shows a sample.
    type FromStrRadixErr = ();

    ghost from_str_radix_gives = { λ text radix r. ⊤ };

    fn from_str_radix(_text: &str, _radix: u32) -> Result<Sample, ()> {
        Err(())
    }

    ghost can_sub_law = { λ a b h. unsigned-can_sub 16 a b (h tt) };

    ghost sub_law = { λ a b r h _ f. unsigned-sub_is 16 a b r h f };

    ghost can_div_law = { λ a b h. pos-of-ne b (h tt).0 };

    ghost div_law = { λ a b r h _. ap pos h };

    ghost can_rem_law = { λ a b h. pos-of-ne b (h tt).0 };

    ghost rem_law = { λ a b r h _. ap pos h };

    ghost sub_fits_law = { λ x y _. unsigned-sub_fits 16 x y };

    ghost positive_divisor_law = { λ x y _. unsigned-positive_divisor 16 x y };
}

impl Unsigned for Sample {
    ghost unsigned_law = { unsigned-low };
}

impl Bounded for Sample {
    ghost low = { pos 0 };

    ghost high = { pos (2 ^ 16 - 1) };

    ghost lowest = { 0 };

    ghost highest = { 2 ^ 16 - 1 };

    fn min_value() -> Sample {
        Sample::new(u16::MIN)
    }

    fn max_value() -> Sample {
        Sample::new(u16::MAX)
    }

    ghost bounds_law = { λ x _. unsigned-bounds 16 x };

    ghost low_fits_law = { λ _. lit< tt };

    ghost high_fits_law = { λ _. lit< tt };
}

impl PrimInt for Sample {
    fn count_ones(self) -> u32 {
        self.bits.count_ones()
    }

    fn count_zeros(self) -> u32 {
        self.bits.count_zeros()
    }

    fn leading_ones(self) -> u32 {
        self.bits.leading_ones()
    }

    fn leading_zeros(self) -> u32 {
        self.bits.leading_zeros()
    }

    fn trailing_ones(self) -> u32 {
        self.bits.trailing_ones()
    }

    fn trailing_zeros(self) -> u32 {
        self.bits.trailing_zeros()
    }

    fn rotate_left(self, n: u32) -> Sample {
        Sample::new(self.bits.rotate_left(n))
    }

    fn rotate_right(self, n: u32) -> Sample {
        Sample::new(self.bits.rotate_right(n))
    }

    fn signed_shr(self, n: u32) -> Sample {
        Sample::new((self.bits.cast_signed() >> n).cast_unsigned())
    }

    fn unsigned_shl(self, n: u32) -> Sample {
        Sample::new(self.bits << n)
    }

    fn unsigned_shr(self, n: u32) -> Sample {
        Sample::new(self.bits >> n)
    }

    fn swap_bytes(self) -> Sample {
        Sample::new(self.bits.swap_bytes())
    }

    fn reverse_bits(self) -> Sample {
        Sample::new(self.bits.reverse_bits())
    }

    fn from_be(x: Sample) -> Sample {
        Sample::new(u16::from_be(x.bits))
    }

    fn from_le(x: Sample) -> Sample {
        Sample::new(u16::from_le(x.bits))
    }

    fn to_be(self) -> Sample {
        Sample::new(self.bits.to_be())
    }

    fn to_le(self) -> Sample {
        Sample::new(self.bits.to_le())
    }

    fn pow(self, exp: u32) -> Sample {
        Sample::new(self.bits.pow(exp))
    }

    fn checked_pow(self, exp: u32) -> Option<Sample> {
        self.bits.checked_pow(exp).map(Sample::new)
    }

    ghost can_not_law = { λ a. tt };

    ghost not_law = { λ a r h. h };

    ghost can_bitand_law = { λ a b. tt };

    ghost bitand_law = { λ a b r h. h };

    ghost can_bitor_law = { λ a b. tt };

    ghost bitor_law = { λ a b r h. h };

    ghost can_bitxor_law = { λ a b. tt };

    ghost bitxor_law = { λ a b r h. h };

    ghost can_shl_law = { λ a k h. h };

    ghost shl_law = { λ a k r h. h };

    ghost can_shr_law = { λ a k h. h };

    ghost shr_law = { λ a k r h. ap pos h };

    ghost has_float_law = { λ f a. refl };

    ghost nearest_float_law = { λ f a h. refl };
}

impl ToPrimitive for Sample {
    ghost integer_of = { λ x. Some (pos x) };

    ghost float_of = { λ f x. Some (of_int f (pos x)) };

    fn to_i128(&self) -> Option<i128> {
        Some(self.bits as i128)
    }

    fn to_u128(&self) -> Option<u128> {
        Some(self.bits as u128)
    }

    fn to_f32(&self) -> Option<f32> {
        Some(nearest_u64_to_f32(self.bits as u64))
    }

    fn to_f64(&self) -> Option<f64> {
        Some(nearest_u64_to_f64(self.bits as u64))
    }

    ghost integer_law = { λ x _. refl };
}

impl NumCast for Sample {
    fn from<T: ToPrimitive>(n: T) -> Option<Sample> {
        n.to_u16().map(Sample::new)
    }
}

impl CheckedAdd for Sample {
    ghost checked_add_gives = { λ x y r. SomeIff r (x + y < 2 ^ 16) (x + y) };

    fn checked_add(&self, v: &Sample) -> Option<Sample> {
        self.bits.checked_add(v.bits).map(Sample::new)
    }

    ghost checked_add_law = { λ a b r h. unsigned-checks 16 (a + b) r h };
}

impl CheckedSub for Sample {
    ghost checked_sub_gives = { λ x y r. SomeIff r (y ≤ x) (x - y) × (x < 2 ^ 16) };

    fn checked_sub(&self, v: &Sample) -> Option<Sample> {
        self.bits.checked_sub(v.bits).map(Sample::new)
    }

    ghost checked_sub_law = { λ a b r h. unsigned-sub 16 a b r h.0 h.1 };
}

impl CheckedMul for Sample {
    ghost checked_mul_gives = { λ x y r. SomeIff r (x * y < 2 ^ 16) (x * y) };

    fn checked_mul(&self, v: &Sample) -> Option<Sample> {
        self.bits.checked_mul(v.bits).map(Sample::new)
    }

    ghost checked_mul_law = { λ a b r h. unsigned-checks 16 (a * b) r h };
}

impl CheckedDiv for Sample {
    ghost checked_div_gives = { λ x y r. SomeIff r (0 < y) (x / y) × (x < 2 ^ 16) };

    fn checked_div(&self, v: &Sample) -> Option<Sample> {
        self.bits.checked_div(v.bits).map(Sample::new)
    }

    ghost checked_div_law = { λ a b r h. unsigned-divides 16 a b (a / b) r h.0 h.1 };
}

impl SaturatingAdd for Sample {
    ghost saturating_add_gives = { λ x y r. r ≡ min (x + y) (2 ^ 16 - 1) };

    fn saturating_add(&self, v: &Sample) -> Sample {
        Sample::new(self.bits.saturating_add(v.bits))
    }

    ghost saturating_add_law = { λ a b r h. unsigned-saturates 16 (a + b) r h };
}

impl SaturatingSub for Sample {
    ghost saturating_sub_gives = { λ x y r. (r ≡ x - y) × (x < 2 ^ 16) };

    fn saturating_sub(&self, v: &Sample) -> Sample {
        Sample::new(self.bits.saturating_sub(v.bits))
    }

    ghost saturating_sub_law = { λ a b r h. unsigned-saturates_sub 16 a b r h.0 h.1 };
}
