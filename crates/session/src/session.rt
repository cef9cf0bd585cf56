//! What a session holds.
use crate::alterations::Alterations;
use eval::evaluated::EvaluatedRecord;
use store::Store;

/// A session over any store: the store, the number of the session, how many changes were begun, whether one is open,
/// its alterations, and the committed states with the value of every node there.
// Stays: no `impl Model` names the view once, since a model's value can hold no function, and a store's meaning has one.
// Stays: no `Option` holds the open change, since the room of `undo` outlives each change, and its number is `begins`.
pub struct Session<'t, S: Store> {
    pub(crate) store: S,
    pub(crate) number: u16,
    pub(crate) begins: u32,
    pub(crate) changing: bool,
    pub(crate) undo: Alterations,
    pub(crate) states: EvaluatedRecord<'t>,
}
