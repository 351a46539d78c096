//! Columns between a source and a sink of bytes, of any length, a page at a time.
#![tactic(auto)]

pub mod decode;
pub mod encode;
pub mod error;
pub mod find;
pub mod head;
pub mod next;
pub mod options;
pub mod transfer;

pub use crate::decode::decode_stream;
pub use crate::encode::encode_stream;
pub use crate::error::StreamError;
pub use crate::find::find_stream;
pub use crate::head::{ColumnHead, read_head};
pub use crate::next::{PAGES_MOST, next_page, page_room};
pub use crate::options::Options;
pub use crate::transfer::{deliver, fill, finish};
pub use fastlanes_format::{Flaw, FormatError, Next};
