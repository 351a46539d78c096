//! The steps of one row of lanes side by side, on vectors: they ask for each row of words as its first bit is needed, and
//! put each as it is full.

ghost use Rattle.std.specs.Prelude.{◌≡◌, ℕ, ◌+◌, ◌-◌, ◌*◌, ◌/◌, ◌%◌, ◌^◌, ◌<◌, ◌≤◌, map, slice_index};
ghost use Rattle.fastlanes_base.specs.Counted.{Counted, Written};
ghost use Rattle.fastlanes_base.specs.Digits.{row_digit};
ghost use Rattle.fastlanes_rows.specs.Rows.{BeginsIn, HasLanes, HoldsGroup, IsBesideWords, IsRowOfWords, IsStored, LanesBelow, PacksRow, ReadsRows, TellsNext, joined_bits, words_begun};

use crate::vector::RowVector;
use fastlanes_base::MachineWord;

/// A cursor over the rows of words of `N` lanes side by side.
pub trait WordCursor<E: MachineWord, V: RowVector<E>> {
    // All words, their width, the first of the lanes, and how many rows of words were taken.
    ghost counted: { Self → Counted E };

    /// The next word of each lane.
    fn take_row(&mut self) -> V
        requires { (counted self.old).count < (counted self.old).width }
        ensures row { HasLanes V.N (V.at result)
            (λ j. slice_index (map E.number (counted self.old).words)
            (E.LANES * (counted self.old).count + ((counted self.old).lane + j))) }
        ensures step { counted self.new
            ≡ record (counted self.old) { count = (counted self.old).count + 1 } };
}

/// The `width` bits from the bit `shift` on of the numbers whose low words are `low` and whose high words are `high`.
#[inline(always)]
pub fn joined<E: MachineWord, V: RowVector<E>>(width: usize, shift: usize, low: V, high: V) -> V
    requires width { width ≤ E.T }
    requires shift { shift < E.T }
    ensures low_below { LanesBelow V.N (V.at low) (2 ^ E.T) }
    ensures high_below { 0 < shift → LanesBelow V.N (V.at high) (2 ^ E.T) }
    ensures value { HasLanes V.N (V.at result)
        (λ j. joined_bits E.T width shift (V.at low j) (V.at high j)) }
{
    let below = low.down(shift).low(width);
    if shift == 0 {
        return below;
    }
    // A shift of bytes ends in a mask as it is, into which this one goes.
    below.or(high.up(E::T - shift).low(width))
}

/// The same where both words have some of these bits.
///
/// From the bit `shift` on the lower word has no bits but these, and is not cut: of two cuts LLVM would make one of both, where a shift
/// of bytes is a cut by itself. Of one lane the higher word's bits are cut before they are moved, for which LLVM takes fewer masks: 32
/// where it took 160 in a sum of `u64` at width 40.
#[inline(always)]
fn joined_of_both<E: MachineWord, V: RowVector<E>>(width: usize, shift: usize, low: V, high: V) -> V
    requires width { width ≤ E.T }
    requires shift { shift < E.T }
    requires both { E.T < shift + width }
    ensures low_below { LanesBelow V.N (V.at low) (2 ^ E.T) }
    ensures high_below { LanesBelow V.N (V.at high) (2 ^ E.T) }
    ensures value { HasLanes V.N (V.at result)
        (λ j. joined_bits E.T width shift (V.at low j) (V.at high j)) }
{
    let below = low.down(shift);
    if V::N > 1 {
        return below.or(high.up(E::T - shift).low(width));
    }
    let rest = high.low(shift + width - E::T);
    below.or(rest.up(E::T - shift))
}

/// The words in which the bits of a row begin. `carry` has them where the row before it has bits there too.
#[inline(always)]
fn first_words<E: MachineWord, V: RowVector<E>, C: WordCursor<E, V>>(
    width: usize,
    row: usize,
    words: &mut C,
    carry: V,
) -> V
    requires some { 0 < width }
    requires width { width ≤ E.T }
    requires row { row < E.T }
    requires reads { ReadsRows V.N E.T E.LANES width (C.counted words.old).lane row E.number
        (C.counted words.old) (V.at carry) }
    ensures first { BeginsIn V.N E.T E.LANES width (C.counted words.old).lane row
        (map E.number (C.counted words.old).words) (V.at result) }
    ensures kept { 0 < row * width % E.T → result ≡ carry }
    ensures taken { C.counted words.new
        ≡ record (C.counted words.old) { count = row * width / E.T + 1 } }
{
    if row * width % E::T == 0 {
        words.take_row()
    } else {
        carry
    }
}

/// The digits of a row, and the words in which the next row's bits begin. A row of words is taken where the bits of the
/// row begin in it or go on in it, and no other; it is the carry afterwards, and where none is taken the carry stays.
#[inline(always)]
pub fn unpack_step<E: MachineWord, V: RowVector<E>, C: WordCursor<E, V>>(
    width: usize,
    row: usize,
    words: &mut C,
    carry: V,
) -> (V, V)
    requires width { width ≤ E.T }
    requires row { row < E.T }
    requires reads { ReadsRows V.N E.T E.LANES width (C.counted words.old).lane row E.number
        (C.counted words.old) (V.at carry) }
    ensures digits { HasLanes V.N (V.at result.0) (λ j. row_digit E.T E.LANES width
        (map E.number (C.counted words.old).words) ((C.counted words.old).lane + j) row) }
    ensures taken { C.counted words.new
        ≡ record (C.counted words.old) { count = words_begun E.T width (row + 1) } }
    ensures carry { TellsNext V.N E.T E.LANES width row E.number V.at
        (C.counted words.old) (C.counted words.new) carry result.1 }
{
    if width == 0 {
        return (V::splat(E::zero()), carry);
    }
    let shift = row * width % E::T;
    let first = first_words(width, row, words, carry);
    if shift + width <= E::T {
        return (first.down(shift).low(width), first);
    }
    let next = words.take_row();
    (joined_of_both(width, shift, first, next), next)
}

/// A sink of the rows of words of `N` lanes side by side.
pub trait WordSink<E: MachineWord, V: RowVector<E>> {
    // All words, their width, the first of the lanes, and how many rows of words were written.
    ghost written: { Self → Written E };

    /// The width.
    fn bits(&self) -> usize
        ensures { result ≡ (written self.now).width };

    /// Writes the next word of each lane, and no other.
    fn put_row(&mut self, words: V)
        requires { (written self.old).count < (written self.old).width }
        ensures stored { IsStored V.N (E.LANES * (written self.old).count + (written self.old).lane)
            (V.at words) (map E.number (written self.old).words) (map E.number (written self.new).words) }
        ensures step { written self.new
            ≡ record (written self.old) { words = (written self.new).words; count = (written self.old).count + 1 } };
}

/// The values modulo `2^width`.
///
/// LLVM moves a mask that it knows behind the shift that comes next, where each row has another one and none can be part of a
/// load. So the mask comes from the width that the sink has in memory, but where a known one is faster: at widths of whole half
/// bytes, where LLVM joins rows by fewer masks, and for `u8`, whose shifts end in a mask of their own.
#[inline(always)]
fn digits_for<E: MachineWord, V: RowVector<E>, S: WordSink<E, V>>(
    width: usize,
    values: V,
    sink: &S,
) -> V
    requires width { width ≤ E.T }
    requires same { (S.written sink.now).width ≡ width }
    ensures value { HasLanes V.N (V.at result) (λ j. V.at values j % 2 ^ width) }
    ensures below { LanesBelow V.N (V.at result) (2 ^ width) }
{
    if E::T == 8 || width % 4 == 0 {
        values.low(width)
    } else {
        values.low(sink.bits())
    }
}

/// The bits of `digits` from bit `shift` on, beside those of `carry`, as far as a word has room.
#[tactic(auto, using(crate::proofs::Numbers::join_low))]
#[inline(always)]
fn joined_words<E: MachineWord, V: RowVector<E>>(carry: V, digits: V, shift: usize) -> V
    requires shift { shift < E.T }
    requires carry { LanesBelow V.N (V.at carry) (2 ^ shift) }
    ensures below { LanesBelow V.N (V.at digits) (2 ^ E.T) }
    ensures value { HasLanes V.N (V.at result)
        (λ j. (V.at carry j + V.at digits j * 2 ^ shift) % 2 ^ E.T) }
{
    carry.or(digits.up(shift))
}

/// What a word has no room for of digits that begin at the bit `shift` and fill it.
#[inline(always)]
fn left_over<E: MachineWord, V: RowVector<E>>(width: usize, digits: V, shift: usize) -> V
    requires width { width ≤ E.T }
    requires shift { shift < E.T }
    requires fills { E.T ≤ shift + width }
    requires digits { LanesBelow V.N (V.at digits) (2 ^ width) }
    ensures { HasLanes V.N (V.at result) (λ j. V.at digits j / 2 ^ (E.T - shift)) }
{
    if shift + width == E::T {
        V::splat(E::zero())
    } else {
        digits.down(E::T - shift)
    }
}

/// Packs the values of a row. `carry` has the bits of the rows before it that fill no word, and the answer those that are
/// left then. A row of words is put where it is full, and no other.
#[inline(always)]
pub fn pack_step<E: MachineWord, V: RowVector<E>, S: WordSink<E, V>>(
    width: usize,
    row: usize,
    values: V,
    sink: &mut S,
    carry: V,
) -> V
    requires width { width ≤ E.T }
    requires row { row < E.T }
    requires same { (S.written sink.old).width ≡ width }
    requires put { (S.written sink.old).count ≡ row * width / E.T }
    requires carry { LanesBelow V.N (V.at carry) (2 ^ (row * width % E.T)) }
    ensures packs { PacksRow V.N E.T E.LANES width row E.number (V.at carry) (V.at values)
        (V.at result) (S.written sink.old) (S.written sink.new) }
    ensures put { (S.written sink.new).count ≡ (row + 1) * width / E.T }
    ensures carry { LanesBelow V.N (V.at result) (2 ^ ((row + 1) * width % E.T)) }
{
    let shift = row * width % E::T;
    let digits = digits_for(width, values, sink);
    let words = joined_words(carry, digits, shift);
    if shift + width < E::T {
        return words;
    }
    sink.put_row(words);
    left_over(width, digits, shift)
}

/// Packs the values of a row of the lanes from `lane` on, where the rows before are packed.
#[inline(always)]
pub(crate) fn pack_group_row<E: MachineWord, V: RowVector<E>, S: WordSink<E, V>>(
    sink: &mut S,
    width: usize,
    lane: usize,
    row: usize,
    values: V,
    carry: V,
) -> V
    requires width { width ≤ E.T }
    requires lanes { lane + V.N ≤ E.LANES }
    requires row { row < E.T }
    requires holds { (at : ℕ → ℕ → ℕ)
        × HoldsGroup V.N E.T E.LANES width lane row E.number at (S.written sink.old) (V.at carry) }
    ensures holds { (at : ℕ → ℕ → ℕ)
        → HoldsGroup V.N E.T E.LANES width lane row E.number at (S.written sink.old) (V.at carry)
        → HasLanes V.N (V.at values) (λ j. at (lane + j) row)
        → HoldsGroup V.N E.T E.LANES width lane (row + 1) E.number at (S.written sink.new)
        (V.at result) }
    ensures beside { (start : S) → IsBesideWords V.N E.LANES lane E.number (S.written start)
        (S.written sink.old)
        → IsBesideWords V.N E.LANES lane E.number (S.written start) (S.written sink.new) }
{
    pack_step::<E, V, S>(width, row, values, sink, carry)
}
