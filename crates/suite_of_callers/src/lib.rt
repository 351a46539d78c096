//! Tests of the callers of `callers`, with values from outside: the layout's formulas, and what the Rust crate
//! `fastlanes` answers. And what a user does with columns as bytes, and tests of that.
#![tactic(auto)]

#[cfg(test)]
pub mod column_bytes;
#[cfg(test)]
mod tests;
