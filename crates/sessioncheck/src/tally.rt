//! What was compared.
use crate::calls::Refused;
use crate::plain::Value;

/// How many answers of calls and how many verdicts of each kind were compared, and how many of all were wrong.
#[derive(Clone, Copy, Default)]
pub struct Tally {
    pub answers: u64,
    pub falses: u64,
    pub open: u64,
    pub trues: u64,
    pub wrong: u64,
}

impl Tally {
    /// Compares the answer of a call, or what comes with it.
    pub fn answer<A: PartialEq + Drop>(&mut self, found: A, expected: A) {
        self.answers = self.answers.wrapping_add(1);
        self.hold(found == expected);
    }

    /// Compares a verdict.
    pub fn verdict(&mut self, found: Result<Value, Refused>, expected: Option<Value>) {
        let count = match expected {
            Some(Value::False) => &mut self.falses,
            Some(Value::Undecided) => &mut self.open,
            _ => &mut self.trues,
        };
        *count = count.wrapping_add(1);
        self.hold(Some(found) == expected.map(Ok));
    }

    fn hold(&mut self, right: bool) {
        self.wrong = self.wrong.wrapping_add(u64::from(!right));
    }
}
