//! Sources and sinks of bytes, which may fail at each call: what they promise (`ByteIn`, `ByteOut`), slices, which are known
//! exactly (`SliceIn`, `SliceOut`), all that reads or writes, such as standard streams and files, of whose bytes nothing is known
//! (`Counted`), and whole buffers that are moved in as many calls as it takes (`fill`, `deliver`, `finish`).
#![tactic(auto)]

pub mod counted;
pub mod slice_in;
pub mod slice_out;
pub mod stream;
pub mod transfer;

pub use crate::counted::Counted;
pub use crate::slice_in::SliceIn;
pub use crate::slice_out::SliceOut;
pub use crate::stream::{ByteIn, ByteOut, Failed};
pub use crate::transfer::{deliver, fill, finish};
