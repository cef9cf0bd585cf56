//! The judge's whole job on text.
#![tactic(auto)]

pub mod text;
