//! A session: changes to a store by slips, and the verdicts of a table's rules at the committed states.
#![tactic(auto)]

mod alterations;
mod changes;
mod fault;
mod record;
mod room;
mod session;
mod slip;

pub use alterations::Alteration;
pub use fault::{InChange, SessionFault};
pub use room::Room;
pub use session::Session;
pub use slip::{CommitRefused, Slip};
