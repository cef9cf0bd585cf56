//! Formulas as trees.
use std::fmt;

// Stays: a type of its own, so that the second evaluator shares no error with the first.
#[derive(Clone, Copy, PartialEq, Eq, Debug)]
pub enum Form {
    True,
    Some,
    Every,
    Fact,
    Number,
    Refer,
    Level,
    Not,
    And,
    Or,
    Implies,
    Next,
    AllNext,
    Sometime,
    Always,
    Until,
    Previous,
    Once,
    SoFar,
    Since,
}

/// The twenty forms, in the order in which their counts are printed.
pub const FORMS: [Form; 20] = [
    Form::True,
    Form::Some,
    Form::Every,
    Form::Fact,
    Form::Number,
    Form::Refer,
    Form::Level,
    Form::Not,
    Form::And,
    Form::Or,
    Form::Implies,
    Form::Next,
    Form::AllNext,
    Form::Sometime,
    Form::Always,
    Form::Until,
    Form::Previous,
    Form::Once,
    Form::SoFar,
    Form::Since,
];

impl Form {
    pub fn has_window(self) -> bool {
        !matches!(self, Form::Not | Form::And | Form::Or | Form::Implies)
    }

    fn item_count(self) -> usize {
        match self {
            Form::True => 0,
            Form::Refer | Form::Level => 2,
            _ => 3,
        }
    }
}

impl fmt::Display for Form {
    fn fmt<W: fmt::Write>(&self, f: &mut fmt::Formatter<W>) -> fmt::Result {
        f.write_str(match self {
            Form::True => "true",
            Form::Some => "some",
            Form::Every => "every",
            Form::Fact => "fact",
            Form::Number => "number",
            Form::Refer => "refer",
            Form::Level => "level",
            Form::Not => "not",
            Form::And => "and",
            Form::Or => "or",
            Form::Implies => "implies",
            Form::Next => "next",
            Form::AllNext => "allnext",
            Form::Sometime => "sometime",
            Form::Always => "always",
            Form::Until => "until",
            Form::Previous => "previous",
            Form::Once => "once",
            Form::SoFar => "sofar",
            Form::Since => "since",
        })
    }
}

/// Distances from `low` to `high`, or without an upper bound.
// Stays: a type of its own, so that the second evaluator shares no error with the first.
#[derive(Clone, Copy, PartialEq, Eq, Debug)]
pub struct Bounds {
    pub low: u64,
    pub high: Option<u64>,
}

impl Bounds {
    pub fn contain(self, distance: u64) -> bool {
        self.low <= distance && self.high.is_none_or(|high| distance <= high)
    }

    pub fn has_edge(self, distance: u64) -> bool {
        distance == self.low || self.high == Some(distance)
    }
}

impl fmt::Display for Bounds {
    fn fmt<W: fmt::Write>(&self, f: &mut fmt::Formatter<W>) -> fmt::Result {
        let low = self.low;
        match self.high {
            Some(high) => write!(f, "{low} {high}"),
            None => write!(f, "{low} end"),
        }
    }
}

/// A form with operands, and its window, if it has one.
#[derive(Clone, Copy, PartialEq, Eq, Debug)]
pub struct Operator {
    pub form: Form,
    pub window: Option<Bounds>,
}

impl fmt::Display for Operator {
    fn fmt<W: fmt::Write>(&self, f: &mut fmt::Formatter<W>) -> fmt::Result {
        let form = self.form;
        write!(f, "{form}")?;
        if let Some(window) = self.window {
            write!(f, " {window}")?;
        }
        Ok(())
    }
}

/// `(true)` or a query, with the numbers of its items.
#[derive(Clone, Copy, PartialEq, Eq, Debug)]
pub struct Leaf {
    pub form: Form,
    pub numbers: [i64; 3],
}

impl fmt::Display for Leaf {
    fn fmt<W: fmt::Write>(&self, f: &mut fmt::Formatter<W>) -> fmt::Result {
        let form = self.form;
        write!(f, "{form}")?;
        for number in self.numbers.iter().take(form.item_count()) {
            write!(f, " {number}")?;
        }
        Ok(())
    }
}

#[derive(Drop)]
pub enum Tree {
    Leaf(Leaf),
    One(Operator, Box<Tree>),
    Two(Operator, Box<Tree>, Box<Tree>),
}

impl fmt::Display for Tree {
    fn fmt<W: fmt::Write>(&self, f: &mut fmt::Formatter<W>) -> fmt::Result {
        match self {
            Tree::Leaf(leaf) => write!(f, "({leaf})"),
            Tree::One(operator, operand) => write!(f, "({operator} {operand})"),
            Tree::Two(operator, first, second) => write!(f, "({operator} {first} {second})"),
        }
    }
}
