//! A refused record.
use crate::workspace::Workspace;
use rules::refusal::JudgeFault;

/// Why a record is not judged, with the workspace that was handed in.
#[derive(Drop)]
pub struct Refusal {
    pub fault: JudgeFault,
    pub workspace: Workspace,
}
