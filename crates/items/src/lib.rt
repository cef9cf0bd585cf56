//! Bytes cut into items: brackets, spaces, newlines, words and numbers, each with its place.
#![tactic(auto)]

pub mod cursor;
mod cut;
pub mod item;
mod number;
mod run;
mod take;
mod word;
