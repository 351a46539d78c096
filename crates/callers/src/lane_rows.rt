//! Rows of sixteen lanes: callers that count rows of words, and worked examples.

ghost use Rattle.std.specs.Prelude.{◌≡◌, ℕ, ◌+◌, ◌-◌, ◌*◌, ◌/◌, ◌<◌, ◌≤◌, length, map, slice_index};
ghost use Rattle.fastlanes.specs.Rows.{IsRowOfWords, words_begun};

use fastlanes::{LaneRows, RowSink, RowWords};

/// How many rows of words the first sixteen lanes have taken after each of their rows of digits. It does not matter what
/// `carry` holds.
pub fn taken_by_rows<E: LaneRows>(
    width: usize,
    packed: &[E],
    carry: &mut [E; 16],
    taken: &mut [usize],
)
    requires width { width ≤ E.T }
    requires words { length packed.now ≡ E.LANES * width }
    requires rows { length taken.old ≡ E.T }
    ensures { (row : ℕ) → row < E.T → slice_index taken.new row ≡ words_begun E.T width (row + 1) }
{
    let mut words = RowWords::new(packed, width, 0);
    for row in 0..E::T {
        let _digits = E::unpack_row_from(width, row, &mut words, carry);
        taken[row] = words.taken();
    }
}

/// How many rows of words the first sixteen lanes have taken after all their rows of digits.
pub fn taken_in_all<E: LaneRows>(width: usize, packed: &[E]) -> usize
    requires width { width ≤ E.T }
    requires words { length packed.now ≡ E.LANES * width }
    ensures { result ≡ width }
{
    let mut words = RowWords::new(packed, width, 0);
    let mut carry = [E::zero(); 16];
    for row in 0..E::T {
        let _digits = E::unpack_row_from(width, row, &mut words, &mut carry);
    }
    words.taken()
}

/// The row of words that the first sixteen lanes have taken last, after all their rows of digits: it is the lanes' last one.
pub fn last_words<E: LaneRows>(width: usize, packed: &[E]) -> [E; 16]
    requires some { 0 < width }
    requires width { width ≤ E.T }
    requires words { length packed.now ≡ E.LANES * width }
    ensures { IsRowOfWords 16 E.LANES 0 (width - 1) (map E.number packed.now)
        (slice_index (map E.number result)) }
{
    let mut words = RowWords::new(packed, width, 0);
    let mut carry = [E::zero(); 16];
    for row in 0..E::T {
        let _digits = E::unpack_row_from(width, row, &mut words, &mut carry);
    }
    carry
}

/// How many rows of words are written for the first sixteen lanes after each row of these values. Of `carry` nothing is
/// left before them.
pub fn written_by_rows<E: LaneRows>(
    width: usize,
    values: &[E; 16],
    packed: &mut [E],
    carry: &mut [E; 16],
    written: &mut [usize],
)
    requires width { width ≤ E.T }
    requires words { length packed.old ≡ E.LANES * width }
    requires none { (j : ℕ) → j < 16 → slice_index (map E.number carry.old) j ≡ 0 }
    requires rows { length written.old ≡ E.T }
    ensures { (row : ℕ) → row < E.T → slice_index written.new row ≡ (row + 1) * width / E.T }
{
    let mut sink = RowSink::new(packed, width, 0);
    for row in 0..E::T {
        E::pack_row_into(width, row, values, &mut sink, carry);
        written[row] = sink.written();
    }
}
