//! An element type of our own, of 16 bits: `FastLanes` can be implemented outside its crate, and its laws are met.
//!
//! The bound of the trait, `Unsigned + PrimInt`, is the Rust crate's, and asks for 17 traits of `num_traits` and for 11
//! operators of std. Each is an `impl` of its own, with laws, and no derive writes it: they stand in `operators` and
//! `numbers`, and say of a sample what `num_traits` says of `u16`.

ghost use Rattle.std.specs.Prelude.{◌≡◌, ℕ, refl};
ghost use Rattle.std.proofs.Common.{inl, inr, lit<};

mod numbers;
mod operators;

use fastlanes::FastLanes;
use std::marker::Model;

/// A number of 16 bits.
#[derive(Clone, Copy, PartialEq, Eq, PartialOrd, Ord, Debug)]
pub struct Sample {
    bits: u16,
}

impl Model for Sample {
    ghost Value = { ℕ };

    ghost view = { λ s. s.bits };

    ghost inverse = { λ n. record { bits = n } };
}

impl Sample {
    pub fn new(bits: u16) -> Sample
        ensures { result ≡ bits }
    {
        Sample { bits }
    }

    pub fn bits(self) -> u16
        ensures { result ≡ self }
    {
        self.bits
    }
}

impl FastLanes for Sample {
    const T: usize = 16;

    ghost T = { 16 };

    const LANES: usize = 64;

    ghost LANES = { 64 };

    ghost number = { λ x. x };

    fn word_add(self, other: Sample) -> Sample {
        Sample::new(self.bits.word_add(other.bits))
    }

    fn word_sub(self, other: Sample) -> Sample {
        Sample::new(self.bits.word_sub(other.bits))
    }

    fn word_shl(self, n: u32) -> Sample {
        Sample::new(self.bits.word_shl(n))
    }

    fn word_shr(self, n: u32) -> Sample {
        Sample::new(self.bits.word_shr(n))
    }

    fn word_or(self, other: Sample) -> Sample {
        Sample::new(self.bits.word_or(other.bits))
    }

    fn word_lt(self, other: Sample) -> bool {
        self.bits.word_lt(other.bits)
    }

    fn word_low(self, n: u32) -> Sample {
        Sample::new(self.bits.word_low(n))
    }

    ghost bits_law = { inr (inl refl) };

    ghost lanes_law = { refl };

    ghost layout_law = { record { size = inr (inl refl); area = refl } };

    ghost number_law = { λ x. refl };

    ghost same_law = { λ x y e. e };

    ghost zero_number_law = { refl };

    ghost one_number_law = { refl };

    ghost memory_law = { lit< tt };
}
