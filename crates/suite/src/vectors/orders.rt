//! The orders of rows and places.

use crate::vectors::calls::visited;
use crate::vectors::digest::Digest;
use crate::vectors::element::Moves;
use fastlanes::{FL_ORDER, transpose};

/// The digest of the digests of the orders that no type has a part in.
pub fn digest_of_orders() -> u64 {
    let mut digests = Digest::new();
    digests.add_all(&[order(), transposed_below(), transposed_large()]);
    digests.hash()
}

fn order() -> Digest {
    let mut order = Digest::new();
    for number in FL_ORDER {
        order.add(number as u64, 8);
    }
    order
}

/// The transposed index of each place.
fn transposed_below() -> Digest {
    let mut below = Digest::new();
    for index in 0..1024 {
        below.add(transpose(index) as u64, 8);
    }
    below
}

/// The transposed indexes of numbers that are no places.
fn transposed_large() -> Digest {
    let mut large = Digest::new();
    for index in [1024, 1025, 12345, 1 << 32, usize::MAX - 1, usize::MAX] {
        large.add(transpose(index) as u64, 8);
    }
    large
}

/// The places of all rows, lane by lane.
pub(crate) fn walk_digest<E: Moves>() -> Digest {
    let mut places = Digest::new();
    for lane in 0..E::LANES {
        let walk = visited::<E>(lane);
        for row in 0..walk.rows.min(64) {
            places.add(walk.places[row] as u64, 8);
        }
    }
    places
}
