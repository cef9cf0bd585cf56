//! The memory of a session, asked for beforehand.
ghost use Rattle.std.specs.Prelude.{◌≡◌, [], IfOk};

use crate::alterations::Alterations;
use eval::room::RecordRoom;
use std::alloc::{AllocError, Global};

/// Room for 64 alterations, and for 512 states with the values of 64 nodes at each.
#[derive(Drop)]
pub struct Room {
    pub(crate) undo: Alterations,
    pub(crate) states: RecordRoom,
    ghost none: { undo.steps.items ≡ [] },
}

impl Room {
    /// Room that holds nothing yet. Refused only for want of memory. Cost: four allocations of 41 KiB together.
    pub fn new(heap: Global) -> Result<Room, AllocError>
        ensures { IfOk result (λ room. (room.undo.steps.items ≡ []) × (room.states.stamps.items ≡ []) × (room.states.rows.items ≡ []) × (room.states.values.items ≡ [])) }
    {
        Ok(Room {
            undo: Alterations {
                steps: Vec::with_capacity(heap, 64)?,
            },
            states: RecordRoom::new(heap)?,
        })
    }
}
