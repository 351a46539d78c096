//! Digits of a block that are taken without unpacking it: by a kernel of our own, and by those of the library.

ghost use Rattle.std.specs.Prelude.{◌≡◌, ◌*◌, ◌/◌, ◌≤◌, length, map};
ghost use Rattle.std.specs.List.{sum};
ghost use Rattle.fastlanes_base.specs.Digits.{digits};
ghost use Rattle.fastlanes_blocks.specs.Walks.{walk_digits};
ghost use Rattle.callers.specs.Folded.{IsSpread, hash_after};

use fastlanes_blocks::{RowKernel, fold_block, unpack_range, unpack_sum};
use std::simd::prelude::*;

/// The hash after a row of digits more.
fn hash_row(hash: u64, digits: &[u8; 64]) -> u64
    ensures { result ≡ hash_after hash digits.now }
{
    digits.iter().fold(hash, |hash, digit| {
        hash.wrapping_mul(31).wrapping_add(u64::from(*digit))
    })
}

/// A hash of the digits that were taken, which depends on the order in which they came.
#[derive(Clone, Copy)]
struct Hash {
    hash: u64,
}

impl RowKernel<u8, u8x64> for Hash {
    ghost took = { λ width s taken. s.hash ≡ hash_after 0 (map (λ a. a.1) taken) };

    fn take(&mut self, _width: usize, _from: usize, digits: u8x64) {
        self.hash = hash_row(self.hash, &digits.to_array());
    }
}

/// The hash of the digits of a block, in the order in which a walk by rows of 64 lanes comes to their places.
pub fn hash_of_block(width: usize, packed: &[u8]) -> u64
    requires width { width ≤ 8 }
    requires packed { length packed.now ≡ 128 * width }
    ensures { result ≡ hash_after 0 (map (λ a. a.1) (walk_digits 8 64 128 width packed.now)) }
{
    fold_block(width, packed, Hash { hash: 0 }).hash
}

/// The mean of the digits of a block, rounded down.
pub fn mean(width: usize, packed: &[u16]) -> u64
    requires width { width ≤ 16 }
    requires packed { length packed.now ≡ 64 * width }
    ensures { result ≡ sum (digits 16 64 width packed.now) / 1024 }
{
    unpack_sum(width, packed) / 1024
}

/// By how much the greatest digit of a block is above the least.
pub fn spread(width: usize, packed: &[u32]) -> u32
    requires width { width ≤ 32 }
    requires packed { length packed.now ≡ 32 * width }
    ensures { IsSpread result (digits 32 32 width packed.now) }
{
    let (least, greatest) = unpack_range(width, packed);
    greatest - least
}
