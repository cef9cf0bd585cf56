//! The language of rule files: what each form has after its word, how an item fits there, and the faults.
#![tactic(auto)]

pub mod fault;
pub mod fit;
pub mod forms;
pub mod number;
pub mod shape;
