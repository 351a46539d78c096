//! Packed words that stand in no slice: rows of sixteen come from a call, as from a device or a network.

ghost use Rattle.std.specs.Prelude.{◌≡◌, ℕ, ◌+◌, ◌*◌, ◌/◌, ◌<◌, ◌≤◌, [], List, length, map, slice_index};
ghost use Rattle.std.specs.List.{slice_index_or};
ghost use Rattle.callers.specs.Streams.{AreDigits, IsLastRow, StandsBefore, group_words};

use fastlanes::{FastLanes, LaneRows, RowWords};

/// A source of the packed words of sixteen lanes, which gives a row of them at each call.
pub trait WordSource<E: FastLanes> {
    // The numbers of all words that it gives, row after row.
    ghost words: { Self → List ℕ };

    // How many rows it was asked for.
    ghost asked: { Self → ℕ };

    /// The next word of each lane.
    fn next_row(&mut self) -> [E; 16]
        requires { 16 * asked self.old + 16 ≤ length (words self.old) }
        ensures row { (j : ℕ) → j < 16 → slice_index (map E.number result) j
            ≡ slice_index (words self.old) (16 * asked self.old + j) }
        ensures same { words self.new ≡ words self.old }
        ensures asked { asked self.new ≡ asked self.old + 1 };
}

// A cursor over packed words in memory is such a source.
impl<'a, E: FastLanes> WordSource<E> for RowWords<'a, E> {
    ghost words = { λ s. group_words E.LANES s.width s.lane (map E.number s.words) };

    ghost asked = { λ s. s.count };

    fn next_row(&mut self) -> [E; 16] {
        self.next_row()
    }
}

/// The source's next row of words.
fn next_words<E: LaneRows, S: WordSource<E>>(source: &mut S) -> [E; 16]
    requires { 16 * S.asked source.old + 16 ≤ length (S.words source.old) }
    ensures last { IsLastRow E.T (S.asked source.new) (S.words source.old)
        (slice_index (map E.number result)) }
    ensures same { S.words source.new ≡ S.words source.old }
    ensures asked { S.asked source.new ≡ S.asked source.old + 1 }
{
    let words = source.next_row();
    // All of their bits, by which their numbers are known to fit.
    E::join_row(E::T, 0, &words, &words)
}

/// Asks for the row of words in which the bits of a row of digits begin, unless the row before has bits there too.
fn begin_row<E: LaneRows, S: WordSource<E>>(
    width: usize,
    row: usize,
    source: &mut S,
    last: &mut [E; 16],
)
    requires some { 0 < width }
    requires width { width ≤ E.T }
    requires row { row < E.T }
    requires words { 16 * width ≤ length (S.words source.old) }
    requires stands { StandsBefore E.T width row (S.asked source.old) (S.words source.old)
        (slice_index (map E.number last.old)) }
    ensures last { IsLastRow E.T (S.asked source.new) (S.words source.old)
        (slice_index (map E.number last.new)) }
    ensures same { S.words source.new ≡ S.words source.old }
    ensures asked { S.asked source.new ≡ row * width / E.T + 1 }
{
    if row * width % E::T == 0 {
        *last = next_words::<E, S>(source);
    }
}

/// The digits of a row. It asks for a row of words where the digits' bits begin in it or go on in it, and for no other;
/// `last` is the row that was asked for last.
pub fn next_digits<E: LaneRows, S: WordSource<E>>(
    width: usize,
    row: usize,
    source: &mut S,
    last: &mut [E; 16],
) -> [E; 16]
    requires width { width ≤ E.T }
    requires row { row < E.T }
    requires words { 16 * width ≤ length (S.words source.old) }
    requires stands { StandsBefore E.T width row (S.asked source.old) (S.words source.old)
        (slice_index (map E.number last.old)) }
    ensures digits { AreDigits E.T width (S.words source.old) row (map E.number result) }
    ensures stands { StandsBefore E.T width (row + 1) (S.asked source.new) (S.words source.old)
        (slice_index (map E.number last.new)) }
    ensures same { S.words source.new ≡ S.words source.old }
{
    if width == 0 {
        return [E::zero(); 16];
    }
    let shift = row * width % E::T;
    begin_row::<E, S>(width, row, source, last);
    let begun = *last;
    if shift + width <= E::T {
        return E::join_row(width, shift, &begun, &begun);
    }
    *last = next_words::<E, S>(source);
    E::join_row(width, shift, &begun, last)
}

/// Unpacks sixteen lanes from a source that was not asked yet, row by row. It is asked for each row of words once.
pub fn unpack_streamed<E: LaneRows, S: WordSource<E>>(
    width: usize,
    source: &mut S,
    output: &mut [[E; 16]],
)
    requires width { width ≤ E.T }
    requires words { 16 * width ≤ length (S.words source.old) }
    requires asked { S.asked source.old ≡ 0 }
    requires output { length output.old ≡ E.T }
    ensures digits { (row : ℕ) → row < E.T
        → AreDigits E.T width (S.words source.old) row
        (slice_index_or (map (map E.number) output.new) row []) }
    ensures same { S.words source.new ≡ S.words source.old }
    ensures asked { S.asked source.new ≡ width }
{
    let mut last = [E::zero(); 16];
    for row in 0..E::T {
        output[row] = next_digits::<E, S>(width, row, source, &mut last);
    }
}
