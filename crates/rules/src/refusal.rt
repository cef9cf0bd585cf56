//! The refusals of the judge, and of questions about a table.
ghost use Rattle.std.specs.Prelude.{◌≡◌};
ghost use Rattle.rules.specs.Refusals.{judge_number};

/// A refusal of the judge. Its value is its number.
#[derive(Clone, Copy, PartialEq, Eq, Debug)]
pub enum JudgeFault {
    /// There are not as many rows as stamps, or too many of both.
    Record = 21,
    /// A stamp is too high, or does not rise.
    Stamp = 22,
    /// No rule has that number.
    UnknownRule = 25,
    /// The record has no such state.
    NoSuchState = 26,
}

impl JudgeFault {
    /// The number that stands for the refusal. Cost: constant.
    pub fn number(self) -> u8
        ensures { result ≡ judge_number self }
    {
        self as u8
    }
}
