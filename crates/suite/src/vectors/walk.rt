//! Walks along a lane.

/// What a walk along a lane called its kernel with, in this order: the place and the digit of each row, and how many rows
/// there were. A walk that only tells places has zeros as digits.
#[derive(Clone, Copy)]
pub struct Walk {
    pub places: [usize; 64],
    pub digits: [u64; 64],
    pub rows: usize,
}

impl Walk {
    /// No row yet.
    pub(crate) fn new() -> Walk {
        Walk {
            places: [0; 64],
            digits: [0; 64],
            rows: 0,
        }
    }

    /// Adds a row. Past 64 of them it is only counted.
    pub(crate) fn add(&mut self, place: usize, digit: u64) {
        if self.rows < 64 {
            self.places[self.rows] = place;
            self.digits[self.rows] = digit;
        }
        self.rows = self.rows.wrapping_add(1);
    }
}
