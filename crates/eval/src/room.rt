//! The memory of a record that grows, asked for beforehand.
ghost use Rattle.std.specs.Prelude.{◌≡◌, ◌≤◌, [], IfOk, vec_capacity};

use std::alloc::{AllocError, Global};
use truth::Three;

/// Room for 512 states with the values of 64 nodes at each.
// Stays: stamps and rows are two vectors: a record takes both as they are, and the evaluator takes stamps as a slice.
// Stays: the room is said of each vector, here and elsewhere. Published clauses say `.stamps.items`, and a type between would
// change each of them.
#[derive(Drop)]
pub struct RecordRoom {
    pub(crate) stamps: Vec<u64>,
    pub(crate) rows: Vec<u64>,
    pub(crate) values: Vec<Three>,
    ghost no_stamps: { stamps.items ≡ [] },
    ghost no_rows: { rows.items ≡ [] },
    ghost no_values: { values.items ≡ [] },
    ghost for_stamps: { 512 ≤ vec_capacity stamps },
    ghost for_rows: { 512 ≤ vec_capacity rows },
    ghost for_values: { 32768 ≤ vec_capacity values },
}

impl RecordRoom {
    /// Refused only for want of memory. Cost: three allocations of about 40 KiB together.
    pub fn new(heap: Global) -> Result<RecordRoom, AllocError>
        ensures { IfOk result (λ room. (room.stamps.items ≡ []) × (room.rows.items ≡ []) × (room.values.items ≡ [])) }
    {
        Ok(RecordRoom {
            stamps: Vec::with_capacity(heap, 512)?,
            rows: Vec::with_capacity(heap, 512)?,
            values: Vec::with_capacity(heap, 32_768)?,
        })
    }
}
