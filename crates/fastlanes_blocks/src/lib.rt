//! What is done with whole packed blocks, beside packing and unpacking one:
//!
//! - blocks one after another at one width, packed and unpacked by one look at the width;
//! - kernels of a caller's that take the digits of a packed block, or give the values of one, by rows of lanes side by side, with
//!   one look at the width; and of these digits the sum, the least and the greatest, with no block between. A kernel takes a row as
//!   a vector, so that the code of a block at one width is as short as that of `unpack`. Where a caller wants single digits in the
//!   order of their places, `unpack` and a loop are the way;
//! - filters: which values a comparison with one value holds of.
#![tactic(auto)]

pub mod blocks;
pub mod filters;
pub mod fold;
pub mod give;
mod lanes;
pub mod order;
pub mod ordered;
pub mod range;
pub mod sum;
pub mod widths;

pub use crate::blocks::{pack_blocks, unpack_blocks};
pub use crate::filters::{Comparison, compare, filter};
pub use crate::fold::RowKernel;
pub use crate::give::{RowSource, pack_from};
pub use crate::order::OrderedRow;
pub use crate::ordered::{Element, Ordered};
pub use crate::range::{RangeTypes, unpack_range};
pub use crate::sum::unpack_sum;
pub use crate::widths::{FoldTypes, KernelAtWidth, fold_block};
pub use fastlanes_rows::vector::RowVector;
