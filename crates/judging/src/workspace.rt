//! Memory for judging, asked for once.
ghost use Rattle.std.specs.Prelude.{◌≡◌, ◌≤◌, [], IfOk, vec_capacity};

use std::alloc::{AllocError, Global};

/// Room for the values of 64 nodes at 512 states.
#[derive(Drop)]
pub struct Workspace {
    pub(crate) values: Vec<bool>,
    ghost room: { 32768 ≤ vec_capacity values },
}

impl Workspace {
    /// Room that holds no value yet. Fails only for want of memory. Cost: one allocation of 32 KiB.
    pub fn new(heap: Global) -> Result<Workspace, AllocError>
        ensures { IfOk result (λ w. w.values.items ≡ []) }
    {
        let values = Vec::with_capacity(heap, 32_768)?;
        Ok(Workspace { values })
    }
}
