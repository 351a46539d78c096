//! The sum of the digits of a block.

ghost use Rattle.std.specs.Prelude.{◌≡◌, ℕ, ◌*◌, ◌/◌, ◌%◌, ◌^◌, ◌<◌, ◌≤◌, length, map};
ghost use Rattle.std.specs.List.{sum};
ghost use Rattle.fastlanes_base.specs.Digits.{digits};
ghost use Rattle.fastlanes_blocks.specs.Sums.{IsSummed, cut, lanes_sum};

use crate::fold::RowKernel;
use crate::lanes::lanes_of;
use crate::widths::{FoldTypes, fold_block};
use fastlanes_base::{FastLanes, MachineWord, number_of};
use fastlanes_rows::vector::RowVector;

/// The sums of each lane so far: of the parts of digits below a cut, and of those above it.
#[derive(Clone, Copy)]
struct Sums<V> {
    low: V,
    high: V,
}

/// Of how many bits of a digit a lane adds up what stands below them, apart from what is above.
#[inline(always)]
fn bits_below_cut<E: MachineWord, V: RowVector<E>>(width: usize) -> usize
    requires width { width ≤ E.T }
    requires lanes { V.N ≤ 128 }
    ensures { result ≡ cut E.T V.N width }
{
    if E::T == 64 || 1024 << width <= V::N << E::T {
        E::T
    } else {
        E::T / 2
    }
}

impl<E: MachineWord, V: RowVector<E>> RowKernel<E, V> for Sums<V> {
    ghost took = { λ width s taken. (1024 ≤ V.N * 2 ^ (E.T / 2)) × (V.N ≤ 128) × IsSummed E.T V.N width (V.at s.low) (V.at s.high) taken };

    #[inline(always)]
    fn take(&mut self, width: usize, _from: usize, digits: V) {
        let cut = bits_below_cut::<E, V>(width);
        if cut == E::T {
            self.low = self.low.plus(digits);
        } else {
            self.low = self.low.plus(digits.low(cut));
            self.high = self.high.plus(digits.down(cut));
        }
    }
}

/// The sum of the values of a row, modulo 2^64.
#[inline(always)]
fn sum_of_lanes<E: FastLanes, V: RowVector<E>>(row: V) -> u64
    requires { V.N ≤ 128 }
    ensures { result ≡ lanes_sum V.N (V.at row) % 2 ^ 64 }
{
    let lanes: [E; 128] = lanes_of(row);
    let mut sum = 0u64;
    for j in 0..V::N {
        sum = sum.wrapping_add(number_of(lanes[j]));
    }
    sum
}

/// The sum of all digits of a block, modulo 2^64.
fn sum_modulo<E: FoldTypes>(width: usize, packed: &[E]) -> u64
    requires width { width ≤ E.T }
    requires packed { length packed.now ≡ E.LANES * width }
    ensures { result ≡ sum (digits E.T E.LANES width (map E.number packed.now)) % 2 ^ 64 }
{
    let none = E::Taken::splat(E::zero());
    let sums = fold_block(
        width,
        packed,
        Sums {
            low: none,
            high: none,
        },
    );
    let low = sum_of_lanes::<E, E::Taken>(sums.low);
    let cut = bits_below_cut::<E, E::Taken>(width);
    if cut == E::T {
        low
    } else {
        low.wrapping_add(sum_of_lanes::<E, E::Taken>(sums.high) << cut)
    }
}

/// The sum of all digits of a block of `LANES * width` words, modulo 2^64, which sums of `u8`, `u16` and `u32` do not reach. The block
/// is not unpacked for it.
///
/// ```rust
/// // At two bits, words of ones have the digit 3 everywhere.
/// assert_eq!(rt; fastlanes_blocks::unpack_sum::<u8>(2, &[0xFF; 256]), 3072);
/// ```
pub fn unpack_sum<E: FoldTypes>(width: usize, packed: &[E]) -> u64
    requires width { width ≤ E.T }
    requires packed { length packed.now ≡ E.LANES * width }
    ensures value { result ≡ sum (digits E.T E.LANES width (map E.number packed.now)) % 2 ^ 64 }
    ensures exact { E.T < 64 → result ≡ sum (digits E.T E.LANES width (map E.number packed.now)) }
{
    sum_modulo(width, packed)
}
