//! Commands on columns of integers, between a source and a sink of bytes: what the program `flcolumn` does, which `flcolumn_main`
//! makes of this library.
//!
//! A request encodes values as a column, decodes a column, describes what is in it, or looks up single values. `flcolumn_words`
//! reads requests from a command line. docs/FORMAT.md specifies the bytes of a column.
#![tactic(auto)]

pub mod failure;
mod picture;
pub mod run;
pub mod streams;
mod summary;
