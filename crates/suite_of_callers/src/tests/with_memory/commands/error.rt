//! Refusals.

use crate::tests::with_memory::commands::bytes::assert_holds;
use flblock::error::BlockError;
use std::process::Abort;

/// A refusal has this number and this text.
fn assert_refusal(rt: &impl Abort, refusal: BlockError, number: u8, text: &str) {
    assert_holds(rt, refusal.number() == number, text);
    assert_holds(rt, refusal.text() == text, text);
}

#[test]
fn refusals_have_numbers_and_texts(rt: HostRuntime) {
    let usage = "usage: flblock ramp|pack|unpack u8|u16|u32|u64 WIDTH";
    let width = "width is greater than the type's bits";
    let short_input = "input ended before the block was whole";
    assert_refusal(&rt, BlockError::Usage, 1, usage);
    assert_refusal(&rt, BlockError::Width, 2, width);
    assert_refusal(&rt, BlockError::ShortInput, 3, short_input);
    assert_refusal(&rt, BlockError::ReadFailed, 4, "reading failed");
    assert_refusal(&rt, BlockError::WriteFailed, 5, "writing failed");
}
