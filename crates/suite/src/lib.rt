//! Worked examples of every public call, with values from outside: the layout's formulas, and what the Rust crate
//! `fastlanes` answers; and loops over fixed inputs at each element type and each width.
#![tactic(auto)]

#[cfg(test)]
mod tests;
#[cfg(test)]
mod vectors;
