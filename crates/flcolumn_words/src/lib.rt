//! The words of the program `flcolumn`, and what they ask for.
#![tactic(auto)]

pub mod command;

pub use crate::command::parse::{WordsError, task};
pub use crate::command::{ElementType, Names, Request, Task};
