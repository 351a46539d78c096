//! What no clause of `flblock` says: that the rows of the program come out, and what is asked of a source and a sink. A file has the
//! name of the module there that it tests; `failing` has sources and sinks that fail at every byte and call, `streams` such sources
//! and sinks, which count their calls, and `bytes` what is read and written.
//!
//! A test is proved before it runs, and each assertion in a long one costs more than in a short one. So the tests are
//! short, and what several assert, or one asserts of several cases, stands in one function.

mod blocks;
mod bytes;
mod column;
mod command;
mod error;
mod failing;
mod ramp;
mod run;
mod streams;
