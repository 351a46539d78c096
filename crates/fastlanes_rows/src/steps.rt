//! The walk of the rows of a lane, or of lanes side by side: written out, so that with a width that is a constant no row looks
//! at it. What is done for a row is a type of its own, so that one walk serves all.

ghost use Rattle.std.specs.Prelude.{ℕ, ◌+◌, ◌*◌, ◌<◌, ◌≤◌};

use fastlanes_base::MachineWord;

/// What is done for a row of a lane, or of lanes side by side, from the first one to the last: with what is read, and with what is
/// written or called.
pub trait RowStep<E: MachineWord, R, O> {
    /// What a row tells the next one.
    type Carry: Copy;

    // At a width, of a lane or the lanes from it on: the rows below this one are done, it may be done, and it is to be told this.
    ghost stands: { ℕ → ℕ → ℕ → R → O → Self.Carry → Type 0 };

    // The same, and from these two the rows below this one lead to those two.
    ghost leads: { ℕ → ℕ → R → O → ℕ → R → O → Self.Carry → Type 0 };

    /// Does a row, and answers what it tells the next one.
    fn step(
        reader: &mut R,
        writer: &mut O,
        width: usize,
        lane: usize,
        row: usize,
        carry: Self::Carry,
    ) -> Self::Carry
        requires row { row < E.T }
        requires stands { stands width lane row reader.old writer.old carry }
        ensures stands { stands width lane (row + 1) reader.new writer.new result }
        ensures leads { (r : R) (o : O) → leads width lane r o row reader.old writer.old carry
            → leads width lane r o (row + 1) reader.new writer.new result };
}

/// Does eight rows, from `ROW` on. It is a constant, so that each eight rows are a function with one caller, which LLVM inlines even
/// where the kit's own mark is dropped.
#[inline(always)]
fn walk_octet<E: MachineWord, R, O, S: RowStep<E, R, O>, const ROW: usize>(
    reader: &mut R,
    writer: &mut O,
    width: usize,
    lane: usize,
    carry: S::Carry,
) -> S::Carry
    requires octet { ROW + 8 ≤ E.T }
    requires stands { S.stands width lane ROW reader.old writer.old carry }
    ensures stands { S.stands width lane (ROW + 8) reader.new writer.new result }
    ensures leads { (r : R) (o : O) → S.leads width lane r o ROW reader.old writer.old carry
        → S.leads width lane r o (ROW + 8) reader.new writer.new result }
{
    let carry = S::step(reader, writer, width, lane, ROW, carry);
    let carry = S::step(reader, writer, width, lane, ROW + 1, carry);
    let carry = S::step(reader, writer, width, lane, ROW + 2, carry);
    let carry = S::step(reader, writer, width, lane, ROW + 3, carry);
    let carry = S::step(reader, writer, width, lane, ROW + 4, carry);
    let carry = S::step(reader, writer, width, lane, ROW + 5, carry);
    let carry = S::step(reader, writer, width, lane, ROW + 6, carry);
    S::step(reader, writer, width, lane, ROW + 7, carry)
}

/// Does all rows, one after another.
#[inline(always)]
pub fn walk_rows<E: MachineWord, R, O, S: RowStep<E, R, O>>(
    reader: &mut R,
    writer: &mut O,
    width: usize,
    lane: usize,
    carry: S::Carry,
) -> S::Carry
    requires stands { S.stands width lane 0 reader.old writer.old carry }
    ensures stands { S.stands width lane E.T reader.new writer.new result }
    ensures leads { (r : R) (o : O) → S.leads width lane r o 0 reader.old writer.old carry
        → S.leads width lane r o E.T reader.new writer.new result }
{
    let carry = walk_octet::<E, R, O, S, 0>(reader, writer, width, lane, carry);
    if E::T < 16 {
        return carry;
    }
    let carry = walk_octet::<E, R, O, S, 8>(reader, writer, width, lane, carry);
    if E::T < 32 {
        return carry;
    }
    let carry = walk_octet::<E, R, O, S, 16>(reader, writer, width, lane, carry);
    let carry = walk_octet::<E, R, O, S, 24>(reader, writer, width, lane, carry);
    if E::T < 64 {
        return carry;
    }
    let carry = walk_octet::<E, R, O, S, 32>(reader, writer, width, lane, carry);
    let carry = walk_octet::<E, R, O, S, 40>(reader, writer, width, lane, carry);
    let carry = walk_octet::<E, R, O, S, 48>(reader, writer, width, lane, carry);
    walk_octet::<E, R, O, S, 56>(reader, writer, width, lane, carry)
}
