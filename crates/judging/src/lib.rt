//! The judge of finished records, which are given by stamps and rows of answers.
#![tactic(auto)]

mod finished;
pub mod judge;
pub mod judged;
pub mod refusal;
pub mod workspace;
