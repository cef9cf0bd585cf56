//! Records as text, and the lines that the judge writes.
#![tactic(auto)]

pub mod lines;
pub mod reading;
pub mod state;
