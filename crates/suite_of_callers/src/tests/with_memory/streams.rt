//! Columns of some lengths, from slices and to slices.

use fastlanes_base::MachineWord;
use fastlanes_checksum::crc32c;
use fastlanes_column_streams::{
    ColumnHead, Options, decode_stream, encode_stream, page_room, read_head,
};
use fastlanes_pages::Stored;
use fastlanes_streams::{SliceIn, SliceOut};
use std::alloc::{AllocError, Global};

/// Writes a column of the values whose bytes these are, and answers how many bytes it has.
fn written(alloc: Global, given: &[u8], column: &mut [u8]) -> Result<usize, AllocError> {
    let mut bytes = vec![in alloc; 0u8; page_room(16)]?;
    let mut values = vec![in alloc; 0u16; 65536]?;
    let options = Options {
        frames_only: false,
        checked: true,
    };
    let mut input = SliceIn::new(given);
    let mut output = SliceOut::new(column);
    let _count = encode_stream::<u16, SliceIn, SliceOut>(
        &mut input,
        &mut output,
        options,
        bytes.as_mut_slice(),
        values.as_mut_slice(),
    );
    Ok(output.used())
}

/// Reads a column, and answers how many bytes its values have.
fn read(alloc: Global, column: &[u8], back: &mut [u8]) -> Result<usize, AllocError> {
    let mut bytes = vec![in alloc; 0u8; page_room(16)]?;
    let mut values = vec![in alloc; 0u16; 65536]?;
    let mut input = SliceIn::new(column);
    let mut output = SliceOut::new(back);
    let head = read_head(&mut input);
    let Ok(ColumnHead { bits: 16, checked }) = head else {
        return Ok(0);
    };
    let _count = decode_stream::<u16, SliceIn, SliceOut>(
        &mut input,
        &mut output,
        checked,
        bytes.as_mut_slice(),
        values.as_mut_slice(),
    );
    Ok(output.used())
}

/// Whether so many bytes of values come back.
fn comes_back(alloc: Global, size: usize) -> Result<bool, AllocError> {
    let given = vec![in alloc; 7u8; size]?;
    let mut column = vec![in alloc; 0u8; 1 << 18]?;
    let mut back = vec![in alloc; 0u8; 1 << 18]?;
    let len = written(alloc, given.as_slice(), column.as_mut_slice())?;
    let Some(column) = column.as_slice().get(..len) else {
        return Ok(false);
    };
    let len = read(alloc, column, back.as_mut_slice())?;
    Ok(back.as_slice().get(..len) == Some(given.as_slice()))
}

#[test]
fn values_come_back(rt: HostRuntime) {
    for size in [0, 2, 2046, 2048, 131072, 131074] {
        assert!(rt; comes_back(rt.alloc(), size) == Ok(true));
    }
}

/// Puts a column of one page of blocks of differences of the full width at the start of `bytes`: each value is 7. Returns its length.
fn put_widest<E: Stored>(blocks: usize, bytes: &mut [u8]) -> usize {
    let bits = E::T;
    let len = 128_usize.saturating_mul(bits.saturating_add(1));
    let heads = 16_usize.saturating_add(blocks.saturating_mul(16));
    let end = heads.saturating_add(blocks.saturating_mul(len));
    put(bytes, 0, &[b'F', b'L', b'C', 1, bits as u8, 0, 0, 0]);
    put_four(bytes, 12, blocks.saturating_mul(1024));
    put_four(bytes, 16, end.saturating_sub(16));
    for block in 0..blocks {
        let start = heads.saturating_add(block.saturating_mul(len));
        let head = block.saturating_mul(16).saturating_add(24);
        put(bytes, head, &[1, bits as u8, 0, 0]);
        put_four(bytes, head.saturating_add(4), start);
        put_sevens(bytes, start.saturating_add(8), 128, bits / 8);
    }
    let end = end.saturating_add(8);
    put(bytes, end.saturating_add(8), &[8]);
    put_four(bytes, end.saturating_add(16), blocks.saturating_mul(1024));
    end.saturating_add(24)
}

/// Puts so many bytes of words of so many bytes, each word 7.
fn put_sevens(bytes: &mut [u8], start: usize, count: usize, size: usize) {
    for at in 0..count {
        if at % size.max(1) == 0 {
            put(bytes, start.saturating_add(at), &[7]);
        }
    }
}

/// Puts the lowest four bytes of a number, the lowest first.
fn put_four(bytes: &mut [u8], at: usize, number: usize) {
    let all = (number as u64).to_le_bytes();
    put(bytes, at, &all[..4]);
}

/// Puts bytes from a place on, if there is room for them.
fn put(bytes: &mut [u8], at: usize, these: &[u8]) {
    if let Some(place) = bytes.get_mut(at..at.saturating_add(these.len())) {
        place.copy_from_slice(these);
    }
}

/// Whether a column of the longest page of so many blocks has the length and the checksum that the model of tests/columns prints, and
/// is decoded to its values.
fn is_read<E: Stored>(
    alloc: Global,
    blocks: usize,
    len: usize,
    checksum: u32,
) -> Result<bool, AllocError> {
    let mut column = vec![in alloc; 0u8; 1 << 20]?;
    let count = put_widest::<E>(blocks, column.as_mut_slice());
    let Some(column) = column.as_slice().get(..count) else {
        return Ok(false);
    };
    let mut bytes = vec![in alloc; 0u8; page_room(E::T)]?;
    let mut values = vec![in alloc; E::zero(); 65536]?;
    let mut back = vec![in alloc; 0u8; 1 << 20]?;
    let mut input = SliceIn::new(column);
    let mut output = SliceOut::new(back.as_mut_slice());
    let head = read_head(&mut input).is_ok();
    let told = decode_stream::<E, SliceIn, SliceOut>(
        &mut input,
        &mut output,
        false,
        bytes.as_mut_slice(),
        values.as_mut_slice(),
    );
    let used = output.used();
    let mut wanted = vec![in alloc; 0u8; 1 << 20]?;
    let size = E::T / 8;
    let all = blocks.saturating_mul(1024).saturating_mul(size);
    put_sevens(wanted.as_mut_slice(), 0, all, size);
    let is_decoded = head && used == all && told == Ok(blocks.saturating_mul(1024) as u64);
    let same = back.as_slice() == wanted.as_slice();
    Ok(count == len && crc32c(column) == checksum && is_decoded && same)
}

#[test]
fn longest_pages_are_read(rt: HostRuntime) {
    let alloc = rt.alloc();
    assert!(rt;
        is_read::<u8>(alloc, 57, 66624, 4_158_214_747) == Ok(true),
        "u8, 57"
    );
    assert!(rt;
        is_read::<u8>(alloc, 64, 74800, 4_059_621_337) == Ok(true),
        "u8, 64"
    );
    assert!(rt;
        is_read::<u16>(alloc, 57, 124_992, 4_179_061_761) == Ok(true),
        "u16, 57"
    );
    assert!(rt;
        is_read::<u16>(alloc, 64, 140_336, 916_236_687) == Ok(true),
        "u16, 64"
    );
    assert!(rt;
        is_read::<u32>(alloc, 57, 241_728, 696_515_255) == Ok(true),
        "u32, 57"
    );
    assert!(rt;
        is_read::<u32>(alloc, 64, 271_408, 4_100_432_122) == Ok(true),
        "u32, 64"
    );
    assert!(rt;
        is_read::<u64>(alloc, 57, 475_200, 3_390_021_801) == Ok(true),
        "u64, 57"
    );
    assert!(rt;
        is_read::<u64>(alloc, 64, 533_552, 3_351_093_263) == Ok(true),
        "u64, 64"
    );
}
