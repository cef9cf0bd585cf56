//! Refusals of the writer.
ghost use Rattle.std.specs.Prelude.{◌≡◌};
ghost use Rattle.writer.specs.Faults.{fault_number};

/// The layer is the writer: this type. A refusal's value is its number.
#[derive(Clone, Copy, PartialEq, Eq, Debug)]
pub enum WriteFault {
    /// The buffer is shorter than the text.
    TooShort = 27,
}

impl WriteFault {
    /// The refusal's number.
    pub fn number(self) -> u8
        ensures { result ≡ fault_number self }
    {
        self as u8
    }
}
