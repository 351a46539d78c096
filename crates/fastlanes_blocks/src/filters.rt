//! Comparisons of the values of a packed block with one value: each by the masks of two, equal and less.

ghost use Rattle.std.specs.Prelude.{◌≡◌, ◌*◌, ◌≤◌, length, map};
ghost use Rattle.fastlanes.specs.Digits.{digit};
ghost use Rattle.fastlanes.specs.Mask.{IsLaneMask, IsPlaceMask};
ghost use Rattle.fastlanes_blocks.specs.Comparisons.{IsComplement, Tells, at_most, equals, holds, less_than};

use crate::ordered::{Element, Ordered};
use fastlanes::transpose_bits;

/// A comparison of a value of a block with one value.
#[derive(Clone, Copy, PartialEq, Eq, Debug)]
pub enum Comparison {
    /// The block's value is the value.
    Equal,
    /// It is another number than the value.
    NotEqual,
    /// It is less than the value.
    Less,
    /// It is at most the value.
    AtMost,
    /// It is greater than the value.
    Greater,
    /// It is at least the value.
    AtLeast,
}

/// Exchanges zeros and ones.
fn complement(mask: &mut [u64; 16])
    ensures { IsComplement mask.old mask.new }
{
    for k in 0..16 {
        mask[k] = !mask[k];
    }
}

/// Whether each digit is the value.
fn equal<E: Element, V: Ordered<E>>(width: usize, input: &[E], output: &mut [u64; 16], value: V)
    requires width { width ≤ E.T }
    requires words { length input.now ≡ E.LANES * width }
    ensures { IsLaneMask E.T E.LANES (Tells V.integer equals (V.value value))
        (digit E.T E.LANES width (map E.number input.now)) output.new }
{
    let same = |digit: E, word: E|
        ensures { result ≡ E.eq digit word }
    { digit == word };
    E::unchecked_unpack_cmp(width, input, output, same, value.word());
}

/// Whether each digit is less than the value.
fn less<E: Element, V: Ordered<E>>(width: usize, input: &[E], output: &mut [u64; 16], value: V)
    requires width { width ≤ E.T }
    requires words { length input.now ≡ E.LANES * width }
    ensures { IsLaneMask E.T E.LANES (Tells V.integer less_than (V.value value))
        (digit E.T E.LANES width (map E.number input.now)) output.new }
{
    let below = |digit: V, value: V|
        ensures { result ≡ less_than (V.value digit) (V.value value) }
    { digit.is_less(value) };
    E::unchecked_unpack_cmp(width, input, output, below, value);
}

/// Whether each digit is at most the value: less than the next greater one.
fn not_greater<E: Element, V: Ordered<E>>(
    width: usize,
    input: &[E],
    output: &mut [u64; 16],
    value: V,
)
    requires width { width ≤ E.T }
    requires words { length input.now ≡ E.LANES * width }
    ensures { IsLaneMask E.T E.LANES (Tells V.integer at_most (V.value value))
        (digit E.T E.LANES width (map E.number input.now)) output.new }
{
    match value.next() {
        Some(next) => less(width, input, output, next),
        None => *output = [u64::MAX; 16],
    }
}

/// Tells of each value of a packed block whether a comparison holds of it and `value`: bit `b` of the 1024 of `output` tells of the
/// value of row `b % T` of lane `b / T`. Signed values are packed as the words of as many bits.
///
/// Of two comparisons that are complements of one another one is made.
///
/// ```rust
/// use fastlanes_blocks::Comparison;
///
/// let mut packed = [0; 192];
/// fastlanes::pack::<u16, 3, 192>(&[5; 1024], &mut packed);
/// let mut mask = [0; 16];
/// fastlanes_blocks::compare::<u16, u16>(3, &packed, &mut mask, Comparison::Less, 6);
/// assert_eq!(rt; mask, [u64::MAX; 16]);
/// ```
#[inline(always)]
pub fn compare<E: Element, V: Ordered<E>>(
    width: usize,
    input: &[E],
    output: &mut [u64; 16],
    comparison: Comparison,
    value: V,
)
    requires width { width ≤ E.T }
    requires words { length input.now ≡ E.LANES * width }
    ensures { IsLaneMask E.T E.LANES (Tells V.integer (holds comparison) (V.value value))
        (digit E.T E.LANES width (map E.number input.now)) output.new }
{
    match comparison {
        Comparison::Equal => equal(width, input, output, value),
        Comparison::NotEqual => {
            equal(width, input, output, value);
            complement(output);
        }
        Comparison::Less => less(width, input, output, value),
        Comparison::AtMost => not_greater(width, input, output, value),
        Comparison::Greater => {
            not_greater(width, input, output, value);
            complement(output);
        }
        Comparison::AtLeast => {
            less(width, input, output, value);
            complement(output);
        }
    }
}

/// Tells the same in the order of values: bit `i % 64` of `mask[i / 64]` tells of the value at the place `i`.
///
/// ```rust
/// use fastlanes_blocks::Comparison;
///
/// let values: [u16; 1024] = std::array::from_fn(|i| (i % 8) as u16);
/// let mut packed = [0; 192];
/// fastlanes::pack::<u16, 3, 192>(&values, &mut packed);
/// let mut mask = [0; 16];
/// fastlanes_blocks::filter::<u16, u16>(3, &packed, &mut mask, Comparison::Equal, 5);
/// assert_eq!(rt; mask, [0x2020_2020_2020_2020; 16]);
/// ```
#[inline(always)]
pub fn filter<E: Element, V: Ordered<E>>(
    width: usize,
    input: &[E],
    mask: &mut [u64; 16],
    comparison: Comparison,
    value: V,
)
    requires width { width ≤ E.T }
    requires words { length input.now ≡ E.LANES * width }
    ensures { IsPlaceMask (Tells V.integer (holds comparison) (V.value value))
        (digit E.T E.LANES width (map E.number input.now)) mask.new }
{
    let mut lanes = [0; 16];
    compare(width, input, &mut lanes, comparison, value);
    transpose_bits::<E>(&lanes, mask);
}
