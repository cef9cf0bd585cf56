//! The faults of a rule file.
ghost use Rattle.std.specs.Prelude.{Some};
ghost use Rattle.grammar.specs.Faults.{fault_text};

use items::item::Place;
use std::fmt;

/// What is wrong. A kind's value is its number.
#[derive(Clone, Copy, PartialEq, Eq, Debug)]
pub enum FaultKind {
    /// The grammar wants another item here, or the text ends too soon.
    Misfit = 11,
    /// A number that is spelt wrongly or lies outside its range.
    BadNumber = 12,
    /// The upper of two bounds is the smaller, or a rule's number is not above the last one.
    Unordered = 13,
    /// A rule, a formula or a level too many.
    TooMany = 14,
    /// A file without a byte.
    Empty = 15,
}

/// The first fault of a file: the reader's refusal.
#[derive(Clone, Copy, PartialEq, Eq, Debug)]
pub struct ReadFault {
    pub kind: FaultKind,
    pub place: Place,
}

/// Its number, its line and its byte.
impl fmt::Display for ReadFault {
    ghost output = { λ fault. Some (fault_text fault) };

    fn fmt<W: fmt::Write>(&self, f: &mut fmt::Formatter<W>) -> fmt::Result {
        let number = self.kind.number();
        let line = self.place.line;
        let byte = self.place.byte;
        write!(f, "{number} {line} {byte}")
    }
}
