//! Masks of the values that a comparison holds of.

ghost use Rattle.std.specs.Prelude.{◌≡◌, ℕ, ◌<◌, ◌≤◌, ◌||◌, All, Bool, IsFalse, IsTrue, List, length, nat_lt, take};
ghost use Rattle.fastlanes_pages.specs.Masks.{IsMask, count_where, holds_of};

use fastlanes_base::MachineWord;
use fastlanes_blocks::Comparison;

/// Makes all bits of a mask of 1024 values the same.
#[inline(always)]
fn fill_mask(mask: &mut [u64; 16], answer: bool)
    ensures { (test : ℕ → Bool) (values : List ℕ) → length values ≡ 1024 → All (λ x. test x ≡ answer) values
        → IsMask test values mask.new }
{
    *mask = if answer { [u64::MAX; 16] } else { [0; 16] };
}

/// What a comparison with a value answers of all greater values, or else of all less ones.
#[inline(always)]
fn answer_beside(comparison: Comparison, greater: bool) -> bool
    ensures greater { IsTrue greater → (value x : ℕ) → value < x → holds_of comparison value x ≡ result }
    ensures less { IsFalse greater → (value x : ℕ) → x < value → holds_of comparison value x ≡ result }
{
    match comparison {
        Comparison::Equal => false,
        Comparison::NotEqual => true,
        Comparison::Less => !greater,
        Comparison::AtMost => !greater,
        Comparison::Greater => greater,
        Comparison::AtLeast => greater,
    }
}

/// Fills the mask where the comparison has one answer for all values between two numbers, and tells whether it has.
#[inline(always)]
pub(crate) fn filter_between<E: MachineWord>(
    least: E,
    greatest: E,
    comparison: Comparison,
    value: E,
    mask: &mut [u64; 16],
) -> bool
    ensures told { IsTrue result → (values : List ℕ) → length values ≡ 1024
        → All (λ x. E.number least ≤ x) values → All (λ x. x ≤ E.number greatest) values
        → IsMask (holds_of comparison (E.number value)) values mask.new }
    ensures not_told { IsFalse result → E.number least ≤ E.number value }
    ensures outside { result ≡ (nat_lt (E.number value) (E.number least) || nat_lt (E.number greatest) (E.number value)) }
{
    if value.less(least) {
        fill_mask(mask, answer_beside(comparison, true));
        true
    } else if greatest.less(value) {
        fill_mask(mask, answer_beside(comparison, false));
        true
    } else {
        false
    }
}

/// Takes the bits from a place on out of a mask.
pub(crate) fn keep_first(mask: &mut [u64; 16], len: usize)
    requires { len ≤ 1024 }
    ensures { (test : ℕ → Bool) (values : List ℕ) → IsMask test values mask.old
        → IsMask test (take len values) mask.new }
{
    let whole = len / 64;
    if whole < 16 {
        mask[whole] %= 1 << (len % 64);
    }
    for k in whole + 1..16 {
        mask[k] = 0;
    }
}

/// How many bits of a mask are 1.
pub(crate) fn count_mask(mask: &[u64; 16]) -> usize
    ensures { (test : ℕ → Bool) (values : List ℕ) → IsMask test values mask.now
        → result ≡ count_where test values }
{
    let mut count = 0;
    for k in 0..16 {
        count += mask[k].count_ones() as usize;
    }
    count
}
