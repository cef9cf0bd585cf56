//! Facts, sets of facts, and the interface behind which a store keeps one.
//!
//! Sessions and queries are written against the trait `Store` alone. The crates `liststore` and `gridstore` have
//! one store each.
#![tactic(auto)]

pub mod by_members;
mod facts;
mod stores;

pub use facts::{Fact, is_before, is_in_range, is_same};
pub use stores::{Store, StoreFault};
