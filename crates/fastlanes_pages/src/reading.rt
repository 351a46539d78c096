//! Blocks and pages as values.

ghost use Rattle.std.specs.Prelude.{◌≡◌, ℕ, ◌+◌, ◌*◌, ◌≤◌, ◌<◌, ◌/◌, ◌%◌, Bool, List, length, map};
ghost use Rattle.fastlanes_format.specs.Format.{IsPage, blocks_of, values_of};
ghost use Rattle.fastlanes_pages.specs.Values.{BeginsBlock, HoldsBlock, HoldsPage};

use crate::block::read_form;
use crate::element::Stored;
use fastlanes_format::open_block;

/// Reads a block of a page.
pub(crate) fn read_block<E: Stored>(page: &[u8], block: usize, output: &mut [E; 1024])
    requires page { (checked : Bool) × IsPage E.T checked page.now }
    requires block { block < blocks_of page.now }
    ensures holds { HoldsBlock E.T E.LANES page.now block (map E.number output.new) }
    ensures whole { length output.new ≡ 1024 }
{
    let block = open_block(page, block);
    read_form(
        block.differences,
        block.width,
        block.reference,
        block.bytes,
        output,
    );
}

/// Reads the first values of a block of a page into `part`, directly if these are all.
fn read_part<E: Stored>(page: &[u8], block: usize, part: &mut [E])
    requires page { (checked : Bool) × IsPage E.T checked page.now }
    requires block { block < blocks_of page.now }
    requires part { length part.old ≤ 1024 }
    ensures length { length part.new ≡ length part.old }
    ensures values { BeginsBlock E.T E.LANES page.now block (map E.number part.new) }
{
    if part.len() == 1024 {
        if let Some(whole) = part.first_chunk_mut::<1024>() {
            read_block(page, block, whole);
        }
    } else {
        read_short_part(page, block, part);
    }
}

/// Reads the first values of a block of a page, through a block of scratch.
fn read_short_part<E: Stored>(page: &[u8], block: usize, part: &mut [E])
    requires page { (checked : Bool) × IsPage E.T checked page.now }
    requires block { block < blocks_of page.now }
    requires part { length part.old ≤ 1024 }
    ensures length { length part.new ≡ length part.old }
    ensures values { BeginsBlock E.T E.LANES page.now block (map E.number part.new) }
{
    let mut whole = [E::zero(); 1024];
    read_block(page, block, &mut whole);
    let len = part.len();
    part.copy_from_slice(&whole[..len]);
}

/// Reads all values of a page.
pub fn read_page<E: Stored>(page: &[u8], output: &mut [E])
    requires page { (checked : Bool) × IsPage E.T checked page.now }
    requires output { length output.old ≡ values_of page.now }
    ensures length { length output.new ≡ length output.old }
    ensures values { (checked : Bool) → IsPage E.T checked page.now
        → HoldsPage E.T E.LANES checked page.now (map E.number output.new) }
{
    let blocks = (output.len() + 1023) / 1024;
    for block in 0..blocks {
        let start = 1024 * block;
        let end = output.len().min(start + 1024);
        read_part(page, block, &mut output[start..end]);
    }
}
