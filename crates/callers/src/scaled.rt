//! A reader that is added to the library, as docs/EXTENDING.md tells it: digits times a power of two, without a block between.

ghost use Rattle.std.specs.Prelude.{◌≡◌, ℕ, ◌*◌, ◌%◌, ◌^◌, ◌<◌, ◌≤◌, length, map};
ghost use Rattle.fastlanes_base.specs.Digits.{row_digit};
ghost use Rattle.fastlanes_rows.specs.Block.{HasValues};
ghost use Rattle.fastlanes_rows.specs.Rows.{MakesGroups};

use fastlanes_base::MachineWord;
use fastlanes_rows::block_walk::{BlockReader, digits_of, fill_slice_with};
use fastlanes_rows::given_width::OfType;
use fastlanes_rows::group_walk::GroupReader;
use fastlanes_rows::types::RowTypes;
use fastlanes_rows::vector::RowVector;
use fastlanes_rows::width::{Apart, AtWidth, Width};
use std::marker::PhantomData;

/// The values that a reader reads, each times a power of two.
#[derive(Drop)]
struct Scaled<E: MachineWord, R> {
    values: R,
    shift: usize,
    of: PhantomData<E>,
    ghost inside: { shift < E.T },
}

impl<E: MachineWord, V: RowVector<E>, R: GroupReader<E, V>> GroupReader<E, V> for Scaled<E, R> {
    type Carry = R::Carry;

    ghost value_at = { λ s width lane row. R.value_at s.values width lane row * 2 ^ s.shift % 2 ^ E.T };

    ghost stands = { λ s width lane row carry. R.stands s.values width lane row carry };

    ghost beside = { λ s u. R.beside s.values u.values };

    #[inline(always)]
    fn read(&mut self, width: usize, lane: usize, row: usize, carry: R::Carry) -> (V, R::Carry) {
        let (values, carry) = self.values.read(width, lane, row, carry);
        (values.up(self.shift), carry)
    }
}

impl<E: MachineWord, V: RowVector<E>, R: BlockReader<E, V>> BlockReader<E, V> for Scaled<E, R> {
    ghost ready = { λ s width. R.ready s.values width };

    #[inline(always)]
    fn begin(&mut self, width: usize, lane: usize) -> R::Carry {
        self.values.begin(width, lane)
    }

    ghost ready_law = { λ s width lane row carry stands. R.ready_law s.values width lane row carry stands };
}

/// Unpacking to scaled digits at a width that is not known yet.
struct Scaling<V> {
    rows: PhantomData<V>,
}

impl<E: MachineWord, V: RowVector<E>> AtWidth<E, usize, E> for Scaling<V> {
    ghost asks = { λ width input shift output. (width ≤ E.T) × MakesGroups E.LANES V.N
        × (length input ≡ E.LANES * width) × (shift < E.T) × (length output ≡ 1024) };

    ghost gives = { λ width input shift output. HasValues E.T E.LANES
        (λ lane row. row_digit E.T E.LANES width (map E.number input) lane row * 2 ^ shift % 2 ^ E.T)
        (map E.number output) };

    #[inline(always)]
    fn at<N: Width>(input: &[E], shift: usize, output: &mut [E]) {
        let values = digits_of::<E, V>(N::W, input);
        let of = PhantomData::<E>;
        let mut scaled = Scaled { values, shift, of };
        fill_slice_with::<E, V, _, OfType<N>>(&mut scaled, N::W, output);
    }
}

/// Unpacks a block of `LANES * width` words and multiplies each digit by `2^shift`, modulo `2^T`.
///
/// ```rust
/// let mut output = [0; 1024];
/// // At two bits, words of ones have the digit 3 everywhere.
/// fastlanes_scaled::unpack_scaled::<u8>(2, &[0xFF; 256], 4, &mut output);
/// assert_eq!(rt; output, [48; 1024]);
/// ```
pub fn unpack_scaled<E: RowTypes>(width: usize, input: &[E], shift: usize, output: &mut [E; 1024])
    requires width { width ≤ E.T }
    requires input { length input.now ≡ E.LANES * width }
    requires shift { shift < E.T }
    // At the place of each row of each lane stands its digit times 2^shift.
    ensures { HasValues E.T E.LANES
        (λ lane row. row_digit E.T E.LANES width (map E.number input.now) lane row * 2 ^ shift % 2 ^ E.T)
        (map E.number output.new) }
{
    E::at_width::<Apart<Scaling<E::Wide>>, _, _>(width, input, shift, output);
}
