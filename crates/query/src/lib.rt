//! The six queries of a rule over any store, and the row of a state's answers.
//!
//! A query walks from fact to fact of its relation; the store is only asked, never changed.
#![tactic(auto)]

mod answers;
mod relations;
mod rows;

pub use answers::ask;
pub use rows::row;
