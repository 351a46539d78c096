//! The hash by which outputs are told apart.

use crate::vectors::walk::Walk;

/// The 64-bit FNV-1a hash of the bytes so far.
#[derive(Clone, Copy)]
pub(crate) struct Digest {
    hash: u64,
}

impl Digest {
    /// The hash of no bytes.
    pub(crate) fn new() -> Digest {
        Digest {
            hash: 0xCBF2_9CE4_8422_2325,
        }
    }

    /// The hash of the numbers, each as so many bytes.
    pub(crate) fn of(numbers: &[u64], bytes: usize) -> Digest {
        let mut digest = Digest::new();
        for number in numbers {
            digest.add(*number, bytes);
        }
        digest
    }

    /// Adds the lowest bytes of a number, the lowest first.
    pub(crate) fn add(&mut self, number: u64, bytes: usize) {
        let mut rest = number;
        for _ in 0..bytes {
            self.hash = (self.hash ^ rest % 256).wrapping_mul(0x0000_0100_0000_01B3);
            rest /= 256;
        }
    }

    /// Adds the place and the digit of each row, a digit as so many bytes.
    pub(crate) fn add_walk(&mut self, walk: &Walk, bytes: usize) {
        for row in 0..walk.rows.min(64) {
            self.add(walk.places[row] as u64, 8);
            self.add(walk.digits[row], bytes);
        }
    }

    /// Adds digests, as eight bytes each.
    pub(crate) fn add_all(&mut self, digests: &[Digest]) {
        for digest in digests {
            self.add(digest.hash, 8);
        }
    }

    pub(crate) fn hash(&self) -> u64 {
        self.hash
    }
}
