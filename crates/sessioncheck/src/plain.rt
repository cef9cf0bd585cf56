//! A second evaluator, by the words of the language alone: and is the least value, or is the greatest.

use std::alloc::{AllocError, Global};
use std::ops::Not;

/// From the least to the greatest.
// Stays: a type of its own, so that this evaluator shares no error with the other check's.
#[derive(Clone, Copy, PartialEq, Eq, PartialOrd, Ord)]
pub enum Value {
    False,
    Undecided,
    True,
}

impl From<bool> for Value {
    fn from(truth: bool) -> Value {
        if truth { Value::True } else { Value::False }
    }
}

// Stays: values of its own and what they are made of, so that this evaluator shares no error with another.
impl Not for Value {
    type Output = Value;

    fn not(self) -> Value {
        match self {
            Value::False => Value::True,
            Value::Undecided => Value::Undecided,
            Value::True => Value::False,
        }
    }
}

/// The least distance, and the greatest where there is one.
// Stays: a type of its own, so that this evaluator shares no error with the other check's.
#[derive(Clone, Copy)]
pub struct Window(u64, Option<u64>);

/// The formulas of the rules, each after its parts; a leaf is the number of a query.
// Stays: the formulas are one table of constants, in whose order their columns stand; boxes would have to be made first.
#[derive(Clone, Copy)]
pub enum Formula {
    Yes,
    Leaf(usize),
    Not(usize),
    And(usize, usize),
    Or(usize, usize),
    Next(Window, usize),
    Until(Window, usize, usize),
    Previous(Window, usize),
    Since(Window, usize, usize),
}

/// The six queries are formulas 0 to 5; each comment names the formula below it. A sometime is an until of `true`, and a
/// once a since of it.
const FORMULAS: [Formula; 31] = [
    Formula::Leaf(0),
    Formula::Leaf(1),
    Formula::Leaf(2),
    Formula::Leaf(3),
    Formula::Leaf(4),
    Formula::Leaf(5),
    // 6: true
    Formula::Yes,
    // 7 to 9: rule 1, an implication
    Formula::Until(Window(0, Some(7)), 6, 1),
    Formula::Not(0),
    Formula::Or(8, 7),
    // 10 to 12: rule 2, an always
    Formula::Not(2),
    Formula::Until(Window(0, Some(10)), 6, 10),
    Formula::Not(11),
    // 13: rule 3
    Formula::Until(Window(0, Some(8)), 3, 4),
    // 14: rule 4
    Formula::Next(Window(1, Some(4)), 5),
    // 15 to 17: rule 5, an allnext
    Formula::Not(4),
    Formula::Next(Window(0, Some(3)), 15),
    Formula::Not(16),
    // 18: rule 6
    Formula::Since(Window(0, Some(9)), 2, 0),
    // 19 to 23: rule 7
    Formula::Since(Window(2, Some(6)), 6, 4),
    Formula::Not(1),
    Formula::Since(Window(0, Some(5)), 6, 20),
    Formula::Not(21),
    Formula::And(19, 22),
    // 24 to 29: rule 8
    Formula::Previous(Window(0, Some(3)), 3),
    Formula::Not(5),
    Formula::Until(Window(0, None), 6, 25),
    Formula::Not(26),
    Formula::Not(27),
    Formula::Or(24, 28),
    // 30: rule 9
    Formula::Until(Window(1, None), 6, 6),
];

/// The formula of each rule, from rule 1 on.
const ROOTS: [usize; 9] = [9, 12, 13, 14, 17, 18, 23, 29, 30];

/// A state: its stamp, and the answers of the six queries.
#[derive(Clone, Copy)]
pub struct State {
    pub stamp: u64,
    pub answers: [bool; 6],
}

/// Whether states may still follow the last one.
// Stays: a type of its own, so that this evaluator shares no error with the other check's.
#[derive(Clone, Copy, PartialEq, Eq)]
pub enum End {
    Open,
    Finished,
}

/// The states of a record.
#[derive(Clone, Copy)]
pub struct Record<'a> {
    pub states: &'a [State],
    pub end: End,
}

/// The values of the formulas before, formula by formula, and the states that they are the values at.
#[derive(Clone, Copy)]
struct Before<'a> {
    columns: &'a [Vec<Value>],
    record: Record<'a>,
}

/// A state, from which an operator looks through its window over the others.
#[derive(Clone, Copy)]
struct Outlook<'a> {
    before: Before<'a>,
    window: Window,
    state: usize,
}

impl Outlook<'_> {
    /// Whether the time from one state to a later one lies in the window.
    fn is_within(self, from: usize, to: usize) -> bool {
        let Window(low, high) = self.window;
        let distance = self.before.passed(from, to);
        low <= distance && high.is_none_or(|high| distance <= high)
    }

    /// What the states that may still come leave open of a window ahead.
    fn open_mark(self) -> Value {
        let Window(_, high) = self.window;
        let passed = self
            .before
            .passed(self.state, self.before.count().saturating_sub(1));
        match self.before.record.end {
            End::Open if high.is_none_or(|high| passed < high) => Value::Undecided,
            _ => Value::False,
        }
    }

    fn until(self, f: usize, g: usize) -> Value {
        let before = self.before;
        let kept = before.least(f, self.state, before.count());
        (self.state..before.count())
            .filter(|j| self.is_within(self.state, *j))
            .fold(kept.min(self.open_mark()), |value, j| {
                value.max(before.at(g, j).min(before.least(f, self.state, j)))
            })
    }

    fn since(self, f: usize, g: usize) -> Value {
        let before = self.before;
        let end = self.state.saturating_add(1);
        (0..end)
            .filter(|j| self.is_within(*j, self.state))
            .fold(Value::False, |value, j| {
                let kept = before.least(f, j.saturating_add(1), end);
                value.max(before.at(g, j).min(kept))
            })
    }

    fn next(self, f: usize) -> Value {
        let j = self.state.saturating_add(1);
        if j >= self.before.count() {
            self.open_mark()
        } else if self.is_within(self.state, j) {
            self.before.at(f, j)
        } else {
            Value::False
        }
    }

    fn previous(self, f: usize) -> Value {
        match self.state.checked_sub(1) {
            Some(j) if self.is_within(j, self.state) => self.before.at(f, j),
            _ => Value::False,
        }
    }
}

impl<'a> Before<'a> {
    fn count(self) -> usize {
        self.record.states.len()
    }

    fn stamp(self, i: usize) -> u64 {
        self.record.states.get(i).map_or(0, |state| state.stamp)
    }

    /// The time from one state to a later one.
    fn passed(self, from: usize, to: usize) -> u64 {
        self.stamp(to).saturating_sub(self.stamp(from))
    }

    fn leaf(self, query: usize, i: usize) -> Value {
        let state = self.record.states.get(i);
        Value::from(state.is_some_and(|state| state.answers.get(query).copied().unwrap_or(false)))
    }

    fn at(self, f: usize, i: usize) -> Value {
        let value = self.columns.get(f).and_then(|column| column.get(i));
        value.copied().unwrap_or(Value::Undecided)
    }

    /// The least value of `f` at the states from `first` to before `end`.
    fn least(self, f: usize, first: usize, end: usize) -> Value {
        (first..end).fold(Value::True, |value, k| value.min(self.at(f, k)))
    }

    fn outlook(self, state: usize, window: Window) -> Outlook<'a> {
        Outlook {
            before: self,
            window,
            state,
        }
    }

    fn value(self, formula: Formula, i: usize) -> Value {
        match formula {
            Formula::Yes => Value::True,
            Formula::Leaf(query) => self.leaf(query, i),
            Formula::Not(f) => !self.at(f, i),
            Formula::And(f, g) => self.at(f, i).min(self.at(g, i)),
            Formula::Or(f, g) => self.at(f, i).max(self.at(g, i)),
            Formula::Next(window, f) => self.outlook(i, window).next(f),
            Formula::Until(window, f, g) => self.outlook(i, window).until(f, g),
            Formula::Previous(window, f) => self.outlook(i, window).previous(f),
            Formula::Since(window, f, g) => self.outlook(i, window).since(f, g),
        }
    }
}

/// The values of every formula at every state, formula by formula.
pub fn evaluate(heap: Global, record: Record<'_>) -> Result<Vec<Vec<Value>>, AllocError> {
    let mut columns = Vec::with_capacity(heap, FORMULAS.len())?;
    for formula in FORMULAS {
        let before = Before {
            columns: columns.as_slice(),
            record,
        };
        let states = 0..record.states.len();
        let column = states.map(|i| before.value(formula, i)).collect(heap)?;
        columns.push(column)?;
    }
    Ok(columns)
}

/// The value of rule `number`, from 1 on, at state `i`.
pub fn rule_value(columns: &[Vec<Value>], number: u8, i: usize) -> Option<Value> {
    let rule = usize::from(number).checked_sub(1)?;
    let root = ROOTS.get(rule)?;
    columns.get(*root)?.get(i).copied()
}
