//! The digit of a row of a lane, whose bits stand in one of its words or in two.

ghost use Rattle.std.specs.Prelude.{◌≡◌, ℕ, ◌+◌, ◌*◌, ◌/◌, ◌%◌, ◌^◌, ◌<◌, ◌≤◌, length, map};
ghost use Rattle.fastlanes_base.specs.Digits.{row_digit};

use fastlanes_base::MachineWord;

/// The place of the word of a lane in which the bits of a row begin.
#[tactic(auto, using(crate::proofs::RowDigits::next_below))]
#[inline(always)]
fn word_place<E: MachineWord>(width: usize, lane: usize, row: usize) -> usize
    requires width { width ≤ E.T }
    requires lane { lane < E.LANES }
    requires row { row < E.T }
    ensures value { result ≡ E.LANES * (row * width / E.T) + lane }
    ensures within { 0 < width → result < E.LANES * width }
    ensures next { E.T < row * width % E.T + width → result + E.LANES < E.LANES * width }
{
    E::LANES * (row * width / E::T) + lane
}

/// The `width` bits from the bit `shift` on of a word that has them all.
#[inline(always)]
pub fn digit_of_word<E: MachineWord>(width: usize, shift: usize, word: E) -> E
    requires some { 0 < width }
    requires fits { shift + width ≤ E.T }
    ensures below { E.number word < 2 ^ E.T }
    ensures value { E.number result ≡ E.number word / 2 ^ shift % 2 ^ width }
{
    word.down(shift as u32).low(width as u32)
}

/// The `width` bits from the bit `shift` on of the number whose low word is `first` and whose high word is `next`.
#[inline(always)]
pub fn digit_of_words<E: MachineWord>(width: usize, shift: usize, first: E, next: E) -> E
    requires width { width ≤ E.T }
    requires shift { shift < E.T }
    requires both { E.T < shift + width }
    ensures first_below { E.number first < 2 ^ E.T }
    ensures next_below { E.number next < 2 ^ E.T }
    ensures value { E.number result
        ≡ (E.number first + E.number next * 2 ^ E.T) / 2 ^ shift % 2 ^ width }
{
    let low = first.down(shift as u32);
    let rest = next.low((shift + width - E::T) as u32);
    let high = rest.up((E::T - shift) as u32);
    low.or(high)
}

/// The digit of a row of a lane.
#[inline(always)]
pub fn digit_at<E: MachineWord>(width: usize, packed: &[E], lane: usize, row: usize) -> E
    requires width { width ≤ E.T }
    requires lane { lane < E.LANES }
    requires row { row < E.T }
    requires words { length packed.now ≡ E.LANES * width }
    ensures { E.number result ≡ row_digit E.T E.LANES width (map E.number packed.now) lane row }
{
    if width == 0 {
        return E::zero();
    }
    let shift = row * width % E::T;
    let place = word_place::<E>(width, lane, row);
    let first = packed[place];
    if shift + width <= E::T {
        return digit_of_word(width, shift, first);
    }
    digit_of_words(width, shift, first, packed[place + E::LANES])
}
