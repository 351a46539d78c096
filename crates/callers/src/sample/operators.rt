//! The operators that a word has, from those of the `u16` in it.

ghost use Rattle.std.specs.Prelude.{◌≡◌, ◌+◌, ◌-◌, ◌*◌, ◌/◌, ◌%◌, ◌^◌, ◌<◌, ◌≤◌, bit_and, bit_or, bit_xor};
ghost use Rattle.std.specs.Int.{w16, bit_not};

use crate::sample::Sample;
use std::ops::{Add, BitAnd, BitOr, BitXor, Div, Mul, Not, Rem, Shl, Shr, Sub};

impl Add<Sample> for Sample {
    type Output = Sample;

    ghost can_add = { λ x y. x + y < 2 ^ 16 };

    ghost add_gives = { λ x y r. r ≡ x + y };

    fn add(self, other: Sample) -> Sample {
        Sample::new(self.bits + other.bits)
    }
}

impl Sub<Sample> for Sample {
    type Output = Sample;

    ghost can_sub = { λ x y. y ≤ x };

    ghost sub_gives = { λ x y r. r ≡ x - y };

    fn sub(self, other: Sample) -> Sample {
        Sample::new(self.bits - other.bits)
    }
}

impl Mul<Sample> for Sample {
    type Output = Sample;

    ghost can_mul = { λ x y. x * y < 2 ^ 16 };

    ghost mul_gives = { λ x y r. r ≡ x * y };

    fn mul(self, other: Sample) -> Sample {
        Sample::new(self.bits * other.bits)
    }
}

impl Div<Sample> for Sample {
    type Output = Sample;

    ghost can_div = { λ x y. 0 < y };

    ghost div_gives = { λ x y r. r ≡ x / y };

    fn div(self, other: Sample) -> Sample {
        Sample::new(self.bits / other.bits)
    }
}

impl Rem<Sample> for Sample {
    type Output = Sample;

    ghost can_rem = { λ x y. 0 < y };

    ghost rem_gives = { λ x y r. r ≡ x % y };

    fn rem(self, other: Sample) -> Sample {
        Sample::new(self.bits % other.bits)
    }
}

impl Not for Sample {
    type Output = Sample;

    ghost not_gives = { λ x r. r ≡ bit_not w16 x };

    fn not(self) -> Sample {
        Sample::new(!self.bits)
    }
}

impl BitAnd<Sample> for Sample {
    type Output = Sample;

    ghost bitand_gives = { λ x y r. r ≡ bit_and x y };

    fn bitand(self, other: Sample) -> Sample {
        Sample::new(self.bits & other.bits)
    }
}

impl BitOr<Sample> for Sample {
    type Output = Sample;

    ghost bitor_gives = { λ x y r. r ≡ bit_or x y };

    fn bitor(self, other: Sample) -> Sample {
        Sample::new(self.bits | other.bits)
    }
}

impl BitXor<Sample> for Sample {
    type Output = Sample;

    ghost bitxor_gives = { λ x y r. r ≡ bit_xor x y };

    fn bitxor(self, other: Sample) -> Sample {
        Sample::new(self.bits ^ other.bits)
    }
}

impl Shl<u32> for Sample {
    type Output = Sample;

    ghost can_shl = { λ x n. n < 16 };

    ghost shl_gives = { λ x n r. r ≡ (x * 2 ^ n) % 2 ^ 16 };

    fn shl(self, n: u32) -> Sample {
        Sample::new(self.bits << n)
    }
}

impl Shr<u32> for Sample {
    type Output = Sample;

    ghost can_shr = { λ x n. n < 16 };

    ghost shr_gives = { λ x n r. r ≡ x / 2 ^ n };

    fn shr(self, n: u32) -> Sample {
        Sample::new(self.bits >> n)
    }
}
