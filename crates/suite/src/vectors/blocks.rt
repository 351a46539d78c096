//! The operations that have no width.

ghost use Rattle.std.specs.Prelude.{◌*◌, ◌^◌, ◌<◌, All};
ghost use Rattle.std.specs.Mem.{type_size};
ghost use Rattle.std.proofs.Common.{lit<};

use crate::vectors::calls::{Call, Mover, called, decoded, encoded};
use crate::vectors::digest::Digest;
use crate::vectors::element::{Element, Form};
use crate::vectors::input::Input;
use crate::vectors::numbers::Numbers;
use crate::vectors::types::{AtType, Step};
use fastlanes::RunIndex;

/// What a block becomes: its differences and sums along the lanes, the block transposed, and a block of bits transposed.
pub(crate) fn moved_digests<E: AtType>(block: &Numbers, bits: &Numbers) -> [Digest; 6] {
    let delta = Call::Step(Step::Delta, Input::Thrice);
    let undelta = Call::Step(Step::Undelta, Input::Thrice);
    [
        moved::<E>(delta, block),
        moved::<E>(undelta, block),
        moved::<E>(Call::Move(Mover::Transpose), block),
        moved::<E>(Call::Move(Mover::Untranspose), block),
        bits_moved::<E>(false, bits),
        bits_moved::<E>(true, bits),
    ]
}

/// The digest of what a block becomes.
fn moved<E: AtType>(call: Call, block: &Numbers) -> Digest {
    let output = called::<E>(call, 0, block, &[u64::MAX; 1024]);
    Digest::of(&output, E::T / 8)
}

/// The digest of a block of bits transposed.
fn bits_moved<E: AtType>(is_back: bool, bits: &Numbers) -> Digest {
    let output = called::<E>(
        Call::MoveBits(Form::Root, is_back),
        0,
        bits,
        &[u64::MAX; 1024],
    );
    Digest::of(&output[..16], 8)
}

/// The entries that indexes of each kind name, where the block is the dictionary.
pub(crate) fn decoded_digests<E: Element + PartialEq>(block: &Numbers) -> [Digest; 4] {
    [
        entries::<E, bool>(block),
        entries::<E, u8>(block),
        entries::<E, u16>(block),
        entries::<E, usize>(block),
    ]
}

/// The digest of the entries that the indexes of a type name.
fn entries<E: Element + PartialEq, I: PlaceIndex>(block: &Numbers) -> Digest {
    Digest::of(&decoded::<E, I>(block, &indexes::<I>(), u64::MAX), E::T / 8)
}

/// A type of indexes, which gives each place one below 1024.
trait PlaceIndex: RunIndex {
    /// The index of a place.
    fn of_place(place: usize) -> Self
        ensures { Self.place result < 1024 };

    // The indexes of all places fit into memory.
    ghost memory_law: { 1024 * type_size Self.row < 2 ^ 63 };
}

/// Whether the place is odd.
impl PlaceIndex for bool {
    fn of_place(place: usize) -> bool {
        place % 2 == 1
    }

    ghost memory_law = { lit< tt };
}

/// Seven times the place and three, modulo 256.
impl PlaceIndex for u8 {
    fn of_place(place: usize) -> u8 {
        (usize::of_place(place) % 256) as u8
    }

    ghost memory_law = { lit< tt };
}

/// Seven times the place and three, modulo 1024.
impl PlaceIndex for u16 {
    fn of_place(place: usize) -> u16 {
        usize::of_place(place) as u16
    }

    ghost memory_law = { lit< tt };
}

/// The same number.
impl PlaceIndex for usize {
    fn of_place(place: usize) -> usize {
        place.wrapping_mul(7).wrapping_add(3) % 1024
    }

    ghost memory_law = { lit< tt };
}

/// The index of each place.
fn indexes<I: PlaceIndex>() -> [I; 1024]
    ensures { All (λ index. I.place index < 1024) result }
{
    let mut indexes = [I::of_place(0); 1024];
    for place in 0..1024 {
        indexes[place] = I::of_place(place);
    }
    indexes
}

/// The runs of a block: how many they are, the value of each, and the number of the run of each place.
pub(crate) fn runs_digest<E: Element + PartialEq>(block: &Numbers) -> Digest {
    let found = encoded::<E>(block, u64::MAX);
    let mut runs = Digest::new();
    runs.add(found.count as u64, 8);
    for entry in &found.entries[..found.count.min(1024)] {
        runs.add(*entry, E::T / 8);
    }
    for index in found.indexes {
        runs.add(u64::from(index), 2);
    }
    runs
}
