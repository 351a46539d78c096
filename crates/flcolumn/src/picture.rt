//! A picture of the widths along a column, as a line of text.

ghost use Rattle.std.specs.Prelude.{◌≡◌, ◌<◌, ◌≤◌};

/// How many characters a picture has at most.
pub(crate) const CELLS: usize = 64;

/// The characters, from that of a width of no bits to that of an element's bits.
pub(crate) const SCALE: [char; 10] = ['_', '.', ':', '-', '=', '+', '*', '#', '%', '@'];

/// The widths of blocks in their order, each part of as many blocks as a sum. Where there are no more parts, each two become one.
#[derive(Drop)]
pub(crate) struct Picture {
    /// The sum of the widths of each part.
    sums: [u64; 64],
    /// How many blocks a part has that is full.
    part: u64,
    /// How many parts are full.
    full: usize,
    /// How many blocks the next part has so far.
    begun: u64,
    ghost within: { full < 64 },
}

impl Picture {
    /// The picture of no blocks.
    pub(crate) fn new() -> Picture {
        Picture {
            sums: [0; 64],
            part: 1,
            full: 0,
            begun: 0,
        }
    }

    /// Adds the next block.
    pub(crate) fn add(&mut self, width: usize) {
        let sum = self.sums[self.full];
        self.sums[self.full] = sum.saturating_add(width as u64);
        self.begun = self.begun.saturating_add(1);
        if self.begun >= self.part {
            self.begun = 0;
            self.end_part();
        }
    }

    /// Goes on with the next part.
    fn end_part(&mut self) {
        if self.full + 1 < CELLS {
            self.full += 1;
        } else {
            self.halve();
        }
    }

    /// Makes each two parts one.
    fn halve(&mut self) {
        for i in 0..32 {
            self.sums[i] = self.sums[2 * i].saturating_add(self.sums[2 * i + 1]);
        }
        for i in 32..64 {
            self.sums[i] = 0;
        }
        self.part = self.part.saturating_mul(2);
        self.full = 32;
    }

    /// The character of a part, by the average width of its blocks: `None` behind the last part.
    pub(crate) fn cell(&self, place: usize, bits: usize) -> Option<char>
        requires { place < 64 }
    {
        let blocks = if place < self.full {
            self.part
        } else if place == self.full {
            self.begun
        } else {
            0
        };
        let average = self.sums[place].checked_div(blocks)?;
        let level = average.saturating_mul(9).checked_div(bits as u64)?;
        Some(SCALE[level.min(9) as usize])
    }
}
