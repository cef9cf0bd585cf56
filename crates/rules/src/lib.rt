//! Tables of rules, and the reader that fills them.
#![tactic(auto)]

mod build;
mod formula;
mod narrow;
pub mod questions;
mod reach;
mod read;
mod reader;
pub mod refusal;
mod rule;
mod rules;
mod steps;
pub mod table;
