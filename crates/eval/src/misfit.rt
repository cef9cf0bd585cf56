//! Why a record cannot be evaluated.

#[derive(Clone, Copy, PartialEq, Eq, Debug)]
pub enum Misfit {
    /// There is not one place for each node at each state, or no room for one more state.
    Room,
    /// A stamp is not later than the one before.
    Stamps,
}
