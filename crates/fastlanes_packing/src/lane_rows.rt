//! Sixteen lanes of a row at once.

ghost use Rattle.std.specs.Prelude.{◌≡◌, ◌+◌, ◌*◌, ◌/◌, ◌%◌, ◌^◌, ◌<◌, ◌≤◌, length, map, slice_index};
ghost use Rattle.fastlanes_base.specs.Digits.{row_digit};
ghost use Rattle.fastlanes_base.specs.Sinks.{row_sink};
ghost use Rattle.fastlanes_rows.specs.Rows.{CarriesWords, HasLanes, LanesBelow, PacksLanes, PacksRow, TellsNext, UnpacksLanes, joined_bits, words_begun};
ghost use Rattle.fastlanes_packing.specs.Packing.{PacksBlock, UnpacksBlock};

use crate::bitpacking::{Packing, Unpacking};
use fastlanes_base::{FastLanes, RowSink, RowWords};
use fastlanes_rows::rows::{joined, pack_step, unpack_step};
use fastlanes_rows::sixteen_lanes::{array_of_row, pack_group, row_of_array, unpack_group};
use fastlanes_rows::types::RowTypes;
use fastlanes_rows::width::Apart;

/// Rows of sixteen lanes side by side: their digits and words, a row at a time.
///
/// ```rust
/// use fastlanes::{LaneRows, RowSink, RowWords};
///
/// let mut packed = [0u8; 384];
/// let mut sink = RowSink::new(&mut packed, 3, 0);
/// let mut carry = [0; 16];
/// for row in 0..8 {
///     u8::pack_row_into(3, row, &[5; 16], &mut sink, &mut carry);
/// }
/// let mut words = RowWords::new(&packed, 3, 0);
/// let digits = u8::unpack_row_from(3, 0, &mut words, &mut carry);
/// assert_eq!(rt; digits, [5; 16]);
/// // One row of words was enough for the first row of digits.
/// assert_eq!(rt; words.taken(), 1);
/// ```
pub trait LaneRows: FastLanes {
    /// The `width` bits from the bit `shift` on of sixteen numbers of `2 * T` bits, whose low words are `lo` and whose high
    /// words are `hi`.
    ///
    /// ```rust
    /// use fastlanes::LaneRows;
    ///
    /// assert_eq!(rt; u8::join_row(3, 6, &[0x40; 16], &[1; 16]), [5; 16]);
    /// ```
    fn join_row(width: usize, shift: usize, lo: &[Self; 16], hi: &[Self; 16]) -> [Self; 16]
        requires width { width ≤ Self.T }
        requires shift { shift < Self.T }
        ensures { HasLanes 16 (slice_index (map Self.number result))
            (λ j. joined_bits Self.T width shift (slice_index (map Self.number lo.now) j)
            (slice_index (map Self.number hi.now) j)) };

    /// The digits of a row of the cursor's sixteen lanes. It takes a row of words where the row's bits begin in it or go on in
    /// it, and no other: the rows from the first one on take each row of words once, and none before its first bit is asked
    /// for. `carry` is the row of words in which the row's bits begin, where the row before it has bits there too; at the
    /// first row it may be anything. A row of words that is taken is the carry afterwards; where none is, the carry stays.
    fn unpack_row_from(
        width: usize,
        row: usize,
        words: &mut RowWords<Self>,
        carry: &mut [Self; 16],
    ) -> [Self; 16]
        requires row { row < Self.T }
        requires width { words.old.width ≡ width }
        requires taken { words.old.count ≡ words_begun Self.T width row }
        requires carried { CarriesWords 16 Self.T Self.LANES width words.old.lane row
            (map Self.number words.old.words) (slice_index (map Self.number carry.old)) }
        ensures digits { HasLanes 16 (slice_index (map Self.number result))
            (λ j. row_digit Self.T Self.LANES width (map Self.number words.old.words)
            (words.old.lane + j) row) }
        ensures taken { words.new
            ≡ record words.old { count = words_begun Self.T width (row + 1) } }
        // A row of words that is taken is the carry afterwards; where none is taken, the carry stays.
        ensures carry { TellsNext 16 Self.T Self.LANES width row Self.number slice_index
            words.old words.new (map Self.number carry.old) (map Self.number carry.new) };

    /// Packs the lowest `width` bits of the values of a row of the sink's sixteen lanes. It puts a row of words where it is
    /// full, and no other. `carry` has the bits of the rows before it that fill no word, and afterwards those that are left.
    fn pack_row_into(
        width: usize,
        row: usize,
        values: &[Self; 16],
        sink: &mut RowSink<Self>,
        carry: &mut [Self; 16],
    )
        requires row { row < Self.T }
        requires width { (row_sink sink.old).width ≡ width }
        requires written { (row_sink sink.old).count ≡ row * width / Self.T }
        requires carry { LanesBelow 16 (slice_index (map Self.number carry.old))
            (2 ^ (row * width % Self.T)) }
        ensures packs { PacksRow 16 Self.T Self.LANES width row Self.number
            (slice_index (map Self.number carry.old)) (slice_index (map Self.number values.now))
            (slice_index (map Self.number carry.new)) (row_sink sink.old) (row_sink sink.new) }
        ensures written { (row_sink sink.new).count ≡ (row + 1) * width / Self.T }
        ensures carry { LanesBelow 16 (slice_index (map Self.number carry.new))
            (2 ^ ((row + 1) * width % Self.T)) };

    /// Packs the sink's sixteen lanes of a block, row by row; other lanes' words stay.
    fn pack_group_into(width: usize, input: &[Self; 1024], sink: &mut RowSink<Self>)
        requires width { (row_sink sink.old).width ≡ width }
        requires written { (row_sink sink.old).count ≡ 0 }
        ensures { PacksLanes 16 Self.T Self.LANES width Self.number (map Self.number input.now)
            (row_sink sink.old) (row_sink sink.new) };

    /// Unpacks the cursor's sixteen lanes, row by row, each digit to its place; the places of other lanes stay.
    fn unpack_group_from(width: usize, words: &mut RowWords<Self>, output: &mut [Self; 1024])
        requires width { words.old.width ≡ width }
        requires taken { words.old.count ≡ 0 }
        ensures digits { UnpacksLanes 16 Self.T Self.LANES width words.old.lane
            (map Self.number words.old.words) (map Self.number output.old)
            (map Self.number output.new) }
        ensures taken { words.new ≡ record words.old { count = width } };

    /// What `unchecked_pack` does, by groups of sixteen lanes; at the full width, where a row is only copied, of as many as a
    /// vector has.
    fn pack_rows(width: usize, input: &[Self; 1024], output: &mut [Self])
        requires width { width ≤ Self.T }
        requires output { length output.old ≡ Self.LANES * width }
        ensures { PacksBlock Self.T Self.LANES width (map Self.number input.now)
            (map Self.number output.new) };

    /// What `unchecked_unpack` does, by groups of sixteen lanes; from the full width, where a row is only copied, of as many
    /// as a vector has.
    fn unpack_rows(width: usize, input: &[Self], output: &mut [Self; 1024])
        requires width { width ≤ Self.T }
        requires input { length input.now ≡ Self.LANES * width }
        ensures { UnpacksBlock Self.T Self.LANES width (map Self.number input.now)
            (map Self.number output.new) };
}

impl<E: RowTypes> LaneRows for E {
    #[inline(always)]
    fn join_row(width: usize, shift: usize, lo: &[E; 16], hi: &[E; 16]) -> [E; 16] {
        array_of_row(joined::<E, E::Row>(width, shift, row_of_array(lo), row_of_array(hi)))
    }

    #[inline(always)]
    fn unpack_row_from(
        width: usize,
        row: usize,
        words: &mut RowWords<E>,
        carry: &mut [E; 16],
    ) -> [E; 16] {
        let begun: E::Row = row_of_array(carry);
        let (digits, next) = unpack_step::<E, E::Row, RowWords<E>>(
            words.width(),
            row,
            words,
            begun,
        );
        *carry = array_of_row(next);
        array_of_row(digits)
    }

    #[inline(always)]
    fn pack_row_into(
        width: usize,
        row: usize,
        values: &[E; 16],
        sink: &mut RowSink<E>,
        carry: &mut [E; 16],
    ) {
        let rest = pack_step::<E, E::Row, RowSink<E>>(
            sink.width(),
            row,
            row_of_array(values),
            sink,
            row_of_array(carry),
        );
        *carry = array_of_row(rest);
    }

    fn pack_group_into(width: usize, input: &[E; 1024], sink: &mut RowSink<E>) {
        pack_group(sink.width(), input, sink);
    }

    fn unpack_group_from(width: usize, words: &mut RowWords<E>, output: &mut [E; 1024]) {
        unpack_group(words.width(), words, output);
    }

    #[inline(always)]
    fn pack_rows(width: usize, input: &[E; 1024], output: &mut [E]) {
        E::at_width::<Apart<Packing<E::Row, E::Widest>>, _, _>(width, input, (), output);
    }

    #[inline(always)]
    fn unpack_rows(width: usize, input: &[E], output: &mut [E; 1024]) {
        E::at_width::<Apart<Unpacking<E::Row, E::Widest>>, _, _>(width, input, (), output);
    }
}
