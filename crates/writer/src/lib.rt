//! The text of a table of rules, written into a buffer.
#![tactic(auto)]

mod arguments;
pub mod fault;
mod nodes;
pub mod rule;
mod rule_lines;
mod sink;
mod word;
pub mod write;
