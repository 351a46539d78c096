//! What is in a column.

ghost use Rattle.std.specs.Prelude.{◌≡◌, ◌*◌, ◌<◌, ◌≤◌, ℕ, Bool, SomeIff};
ghost use Rattle.fastlanes_format.specs.Format.{IsPage, values_of};
ghost use Rattle.flcolumn.specs.Rounded.{rounded};

use crate::picture::{CELLS, Picture, SCALE};
use fastlanes_column_streams::ColumnHead;
use fastlanes_format::{Block, open_block};
use std::alloc::{AllocError, Global};
use std::fmt;
use std::fmt::Write;

/// What is in a column.
#[derive(Drop)]
pub(crate) struct Summary {
    head: ColumnHead,
    values: u64,
    pages: u64,
    bytes: u64,
    /// How many frames have each width.
    frames: [u64; 65],
    /// How many blocks of differences have each width.
    differences: [u64; 65],
    picture: Picture,
}

impl Summary {
    /// What is in a column of no pages: its head and its end.
    pub(crate) fn new(head: ColumnHead) -> Summary {
        Summary {
            head,
            values: 0,
            pages: 0,
            bytes: 32,
            frames: [0; 65],
            differences: [0; 65],
            picture: Picture::new(),
        }
    }

    /// Adds a page of so many values.
    pub(crate) fn add_page(&mut self, page: &[u8], count: usize)
        requires page { (bits : ℕ) × (checked : Bool) × IsPage bits checked page.now }
        requires count { count ≡ values_of page.now }
    {
        self.values = self.values.saturating_add(count as u64);
        self.pages = self.pages.saturating_add(1);
        self.bytes = self.bytes.saturating_add(page.len() as u64);
        for number in 0..(count + 1023) / 1024 {
            let block = open_block(page, number);
            self.add_block(block.differences, block.width);
        }
    }

    /// Adds a block.
    fn add_block(&mut self, differences: bool, width: usize) {
        let counts = if differences {
            &mut self.differences
        } else {
            &mut self.frames
        };
        if let Some(count) = counts.get_mut(width) {
            *count = count.saturating_add(1);
        }
        self.picture.add(width);
    }

    /// The text about it.
    pub(crate) fn text(&self, alloc: Global) -> Result<String, AllocError> {
        format!(in alloc; "{self}")
    }
}

impl fmt::Display for Summary {
    fn fmt<W: fmt::Write>(&self, f: &mut fmt::Formatter<W>) -> fmt::Result {
        write_numbers(f, self)?;
        write_ratio(f, self.bytes, self.values)?;
        write_counts(f, "frames", &self.frames)?;
        write_counts(f, "differences", &self.differences)?;
        write_picture(f, &self.picture, self.head.bits)?;
        write_scale(f, self.head.bits)
    }
}

/// Writes what the head says, and how much there is.
fn write_numbers<W: fmt::Write>(f: &mut fmt::Formatter<W>, summary: &Summary) -> fmt::Result {
    let checked = if summary.head.checked { "yes" } else { "no" };
    writeln!(
        f,
        "element bits: {}\nchecksums: {checked}\nvalues: {}\npages: {}\nbytes: {}",
        summary.head.bits, summary.values, summary.pages, summary.bytes
    )
}

/// Writes how many bytes a value has, if there is a value.
fn write_ratio<W: fmt::Write>(f: &mut fmt::Formatter<W>, bytes: u64, values: u64) -> fmt::Result {
    match thousandths(bytes, values) {
        Some(ratio) => writeln!(f, "bytes a value: {}.{:03}", ratio / 1000, ratio % 1000),
        None => Ok(()),
    }
}

/// Returns how many bytes a value has, in thousandths, rounded to the nearest, and up if two are as near.
fn thousandths(bytes: u64, values: u64) -> Option<u128>
    ensures { SomeIff result (0 < values) (rounded (1000 * bytes) values) }
{
    let doubled = u128::from(bytes) * 2000 + u128::from(values);
    doubled.checked_div(u128::from(values) * 2)
}

/// Writes how many blocks of a form have each width that some have.
fn write_counts<W: fmt::Write>(
    f: &mut fmt::Formatter<W>,
    form: &str,
    counts: &[u64; 65],
) -> fmt::Result {
    for (width, count) in counts.iter().enumerate() {
        if *count > 0 {
            writeln!(f, "{form} of width {width}: {count}")?;
        }
    }
    Ok(())
}

/// Writes the picture of the widths.
fn write_picture<W: fmt::Write>(
    f: &mut fmt::Formatter<W>,
    picture: &Picture,
    bits: usize,
) -> fmt::Result {
    f.write_str("widths: ")?;
    for place in 0..CELLS {
        if let Some(cell) = picture.cell(place, bits) {
            f.write_char(cell)?;
        }
    }
    writeln!(f)
}

/// Writes what the characters of a picture are.
fn write_scale<W: fmt::Write>(f: &mut fmt::Formatter<W>, bits: usize) -> fmt::Result {
    f.write_str("scale: ")?;
    for cell in SCALE.iter() {
        f.write_char(*cell)?;
    }
    writeln!(f, ", from 0 to {bits} bits")
}
