//! What the rule checker prints.
#![tactic(auto)]

mod excerpt;
pub mod fault;
pub mod line;
pub mod report;
mod summary;
pub mod table;
pub mod whole;
