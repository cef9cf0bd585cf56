//! What follows the word of a form.

/// An argument of a form.
#[derive(Clone, Copy, PartialEq, Eq, Debug)]
pub enum Slot {
    /// A number in this range.
    Range(i64, i64),
    /// The same, and not below the number before it.
    Upper(i64, i64),
    /// The same, or the word `end`.
    UpperOrEnd(i64, i64),
}

/// How many formulas a form has.
#[derive(Clone, Copy, PartialEq, Eq, Debug)]
pub enum Arity {
    Zero,
    One,
    Two,
}
