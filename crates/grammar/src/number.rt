//! The numbers of the faults.
ghost use Rattle.std.specs.Prelude.{◌≡◌};
ghost use Rattle.grammar.specs.Faults.{fault_number};

use crate::fault::FaultKind;

impl FaultKind {
    /// The number that stands for the fault. Cost: constant.
    pub fn number(self) -> u8
        ensures { result ≡ fault_number self }
    {
        self as u8
    }
}
