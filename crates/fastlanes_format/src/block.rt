//! The blocks of a page.

ghost use Rattle.std.specs.Prelude.{◌≡◌, ◌==◌, ℕ, ◌<◌, Bool, length};
ghost use Rattle.fastlanes_format.specs.Format.{IsPage, block_bytes, block_len, blocks_of, form_of, reference_of, width_of};

use crate::numbers::{number_of_eight, number_of_four};

/// A block of a page.
#[derive(Clone, Copy, PartialEq, Eq, Debug)]
pub struct Block<'a> {
    /// Whether the block has the differences of neighbours, and is no frame.
    pub differences: bool,
    /// How many bits each value is packed to.
    pub width: usize,
    /// What is added to each digit of a frame.
    pub reference: u64,
    /// The packed words, and before them the bases of differences.
    pub bytes: &'a [u8],
}

/// The block of a page that has this number.
#[inline(always)]
pub fn open_block(page: &[u8], block: usize) -> Block<'_>
    requires page { (bits : ℕ) × (checked : Bool) × IsPage bits checked page.now }
    requires block { block < blocks_of page.now }
    ensures form { result.differences ≡ (form_of page.now block == 1) }
    ensures width { result.width ≡ width_of page.now block }
    ensures reference { result.reference ≡ reference_of page.now block }
    ensures bytes { result.bytes.now ≡ block_bytes page.now block }
    ensures len { length result.bytes.now ≡ block_len page.now block }
{
    let head = 16 + 16 * block;
    let start = number_of_four(page, head + 4);
    let end = start + 128 * (page[head] as usize + page[head + 1] as usize);
    Block {
        differences: page[head] == 1,
        width: page[head + 1] as usize,
        reference: number_of_eight(page, head + 8),
        bytes: &page[start..end],
    }
}
