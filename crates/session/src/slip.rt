//! The slip of a change.

/// Who holds it has to commit or withdraw the change: a slip cannot be copied, made or let go.
pub struct Slip {
    pub(crate) session: u16,
    pub(crate) change: u32,
}

impl Slip {
    /// Uses the slip up.
    pub(crate) fn spend(self) {
        // Stays: `..` is refused where the type is not `Drop`.
        let Slip {
            session: _,
            change: _,
        } = self;
    }
}

/// A refused commit gives the slip back.
pub struct CommitRefused {
    pub slip: Slip,
    pub fault: crate::fault::SessionFault,
}
