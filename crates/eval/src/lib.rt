//! The truth of a table's nodes over the states of a record, for every truth kind.
#![tactic(auto)]

pub mod evaluated;
mod evaluation;
pub mod evaluator;
pub mod leaves;
pub mod misfit;
mod operand;
mod operators;
mod outlook;
pub mod room;
mod standing;
pub mod windows;
