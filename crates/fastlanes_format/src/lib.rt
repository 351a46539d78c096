//! Which bytes are a column: its head, its pages and the heads of their blocks.
#![tactic(auto)]

pub mod block;
pub mod flaw;
pub mod head;
mod numbers;
pub mod pages;
pub mod places;
pub mod writing;

pub use block::{Block, open_block};
pub use flaw::{Flaw, FormatError};
pub use head::{element_bits, open_head, put_column_head};
pub use pages::{Next, check_behind_head, check_next, check_page};
pub use places::{STARTS, note_starts, page_of};
pub use writing::{put_block_head, put_end, put_values, seal_page};
