//! What a session refuses, and why.
ghost use Rattle.std.specs.Prelude.{◌≡◌};
ghost use Rattle.session.specs.declared.fault.SessionFault.TheVariants.{Store};
ghost use Rattle.session.specs.Faults.{fault_number};

use store::StoreFault;

/// A store's refusal, with the number of the change beside it.
#[derive(Clone, Copy, PartialEq, Eq, Debug)]
pub struct InChange {
    pub fault: StoreFault,
    pub change: u32,
}

#[derive(Clone, Copy, PartialEq, Eq, Debug)]
pub enum SessionFault {
    /// 23: the relation, key or value of a fact is out of range.
    OutOfRange,
    /// 24: the stamp is more than 4,000,000,000.
    StampTooLarge,
    /// 25: no rule has that number.
    UnknownRule,
    /// 51: the slip is not the open change's.
    NotOpenChange,
    /// 52: a change is open.
    ChangeOpen,
    /// 53: the session is finished.
    Finished,
    /// 54: a million changes were begun.
    TooManyBegins,
    /// 55: the stamp is not later than the last.
    StampNotLater,
    /// 56: 512 states are committed.
    TooManyStates,
    /// 57: the change has 64 alterations.
    TooManyAlterations,
    /// 59: no such state is committed.
    NoSuchState,
    /// 31 or 58: the store's own refusal.
    Store(InChange),
}

impl SessionFault {
    /// The number of the refusal.
    pub fn number(self) -> u8
        ensures { result ≡ fault_number self }
    {
        // Stays: the numbers are published, and a variant with a field has no number of its own to cast.
        match self {
            SessionFault::OutOfRange => 23,
            SessionFault::StampTooLarge => 24,
            SessionFault::UnknownRule => 25,
            SessionFault::NotOpenChange => 51,
            SessionFault::ChangeOpen => 52,
            SessionFault::Finished => 53,
            SessionFault::TooManyBegins => 54,
            SessionFault::StampNotLater => 55,
            SessionFault::TooManyStates => 56,
            SessionFault::TooManyAlterations => 57,
            SessionFault::NoSuchState => 59,
            SessionFault::Store(refused) => refused.fault.number(),
        }
    }
}

impl From<InChange> for SessionFault {
    ghost from_gives = { λ x r. r ≡ Store x };

    fn from(beside: InChange) -> SessionFault {
        SessionFault::Store(beside)
    }
}
