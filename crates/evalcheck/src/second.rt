//! The second evaluator: on trees, by the words of the definitions, with truth values in order: no, open, yes.
//! And is the least, or the greatest, and not counts from the other end.
use crate::tree::{Bounds, Form, Operator, Tree};
use recordtext::state::RecordText;
use std::alloc::{AllocError, Global};
use std::ops::Not;
use truth::Three;

// Stays: a type of its own, so that the second evaluator shares no error with the first.
#[derive(Clone, Copy, PartialEq, Eq, PartialOrd, Ord, Debug)]
pub enum Value {
    No,
    Open,
    Yes,
}

// Stays: values of its own and what they are made of, so that this evaluator shares no error with another.
impl Not for Value {
    type Output = Value;

    fn not(self) -> Value {
        match self {
            Value::No => Value::Yes,
            Value::Open => Value::Open,
            Value::Yes => Value::No,
        }
    }
}

impl From<bool> for Value {
    fn from(truth: bool) -> Value {
        if truth { Value::Yes } else { Value::No }
    }
}

impl From<Three> for Value {
    fn from(truth: Three) -> Value {
        match truth {
            Three::True => Value::Yes,
            Three::False => Value::No,
            Three::Undecided => Value::Open,
        }
    }
}

/// Whether states may still follow the last one.
// Stays: a type of its own, so that the second evaluator shares no error with the first.
#[derive(Clone, Copy, PartialEq, Eq, Debug)]
pub enum End {
    Open,
    Finished,
}

/// What the formulas look at: the record, and how it ends.
#[derive(Clone, Copy)]
pub struct States<'a> {
    pub record: &'a RecordText,
    pub end: End,
}

fn at(column: &[Value], state: usize) -> Value {
    column.get(state).copied().unwrap_or(Value::No)
}

/// The least value from one state up to another, which is left out.
fn least(column: &[Value], from: usize, to: usize) -> Value {
    column
        .iter()
        .take(to)
        .skip(from)
        .copied()
        .min()
        .unwrap_or(Value::Yes)
}

/// A state, from which an operator looks through its window over the others.
#[derive(Clone, Copy)]
struct Outlook<'a> {
    states: States<'a>,
    state: usize,
    window: Bounds,
}

impl Outlook<'_> {
    /// Whether the time from one state to a later one lies within the window.
    fn within(self, from: usize, to: usize) -> bool {
        let distance = self
            .states
            .stamp(to)
            .saturating_sub(self.states.stamp(from));
        self.window.contain(distance)
    }

    /// What the states that may still come leave open of a window ahead.
    fn mark(self) -> Value {
        let passed = self
            .states
            .last_stamp()
            .saturating_sub(self.states.stamp(self.state));
        match self.states.end {
            End::Open if self.window.high.is_none_or(|high| passed < high) => Value::Open,
            _ => Value::No,
        }
    }

    fn next<F: Fn(usize) -> Value>(self, value: F) -> Value
        requires { F.IsAlwaysCallable value }
    {
        let next = self.state.saturating_add(1);
        if next >= self.states.count() {
            self.mark()
        } else if self.within(self.state, next) {
            value(next)
        } else {
            Value::No
        }
    }

    fn previous<F: Fn(usize) -> Value>(self, value: F) -> Value
        requires { F.IsAlwaysCallable value }
    {
        match self.state.checked_sub(1) {
            Some(previous) if self.within(previous, self.state) => value(previous),
            _ => Value::No,
        }
    }

    /// The greatest value from the state on within the window, and what the record leaves open.
    // Stays: each function that calls a closure or hands it on has to ask that it may.
    fn ahead<F: FnMut(usize) -> Value>(self, open: Value, value: F) -> Value
        requires { (state : F) (j : _) → F.pre state j }
    {
        (self.state..self.states.count())
            .filter(|j| self.within(self.state, *j))
            .map(value)
            .fold(open, Value::max)
    }

    /// The greatest value up to the state within the window.
    fn back<F: FnMut(usize) -> Value>(self, value: F) -> Value
        requires { (state : F) (j : _) → F.pre state j }
    {
        (0..=self.state)
            .filter(|j| self.within(*j, self.state))
            .map(value)
            .max()
            .unwrap_or(Value::No)
    }

    fn until(self, f: &[Value], g: &[Value]) -> Value {
        let kept = least(f, self.state, self.states.count());
        self.ahead(
            self.mark().min(kept),
            |j| at(g, j).min(least(f, self.state, j)),
        )
    }

    fn since(self, f: &[Value], g: &[Value]) -> Value {
        let end = self.state.saturating_add(1);
        self.back(|j| at(g, j).min(least(f, j.saturating_add(1), end)))
    }
}

impl<'a> States<'a> {
    fn count(self) -> usize {
        self.record.stamps.len()
    }

    fn stamp(self, state: usize) -> u64 {
        self.record.stamps.get(state).copied().unwrap_or(0)
    }

    fn last_stamp(self) -> u64 {
        self.record.stamps.last().copied().unwrap_or(0)
    }

    fn outlook(self, state: usize, window: Bounds) -> Outlook<'a> {
        Outlook {
            states: self,
            state,
            window,
        }
    }

    fn of_one(self, operator: Operator, f: &[Value], i: usize) -> Value {
        let Some(window) = operator.window else {
            return !at(f, i);
        };
        let outlook = self.outlook(i, window);
        match operator.form {
            Form::Next => outlook.next(|j| at(f, j)),
            Form::AllNext => !outlook.next(|j| !at(f, j)),
            Form::Sometime => outlook.ahead(outlook.mark(), |j| at(f, j)),
            Form::Always => !outlook.ahead(outlook.mark(), |j| !at(f, j)),
            Form::Previous => outlook.previous(|j| at(f, j)),
            Form::Once => outlook.back(|j| at(f, j)),
            _ => !outlook.back(|j| !at(f, j)),
        }
    }

    fn of_two(self, operator: Operator, f: &[Value], g: &[Value], i: usize) -> Value {
        match (operator.form, operator.window) {
            (Form::And, _) => at(f, i).min(at(g, i)),
            (Form::Or, _) => at(f, i).max(at(g, i)),
            (Form::Until, Some(window)) => self.outlook(i, window).until(f, g),
            (Form::Since, Some(window)) => self.outlook(i, window).since(f, g),
            _ => (!at(f, i)).max(at(g, i)),
        }
    }

    /// How many distances between states are a bound of the window.
    fn edges(self, window: Bounds) -> usize {
        let stamps = self.record.stamps.as_slice();
        stamps
            .iter()
            .enumerate()
            .map(|(j, later)| {
                let before = stamps.iter().take(j);
                before
                    .filter(|earlier| window.has_edge(later.saturating_sub(**earlier)))
                    .count()
            })
            .fold(0, usize::saturating_add)
    }

    /// The value of every state.
    fn column<F: FnMut(usize) -> Value>(
        self,
        heap: Global,
        value: F,
    ) -> Result<Vec<Value>, AllocError>
        requires { (state : F) (i : _) → F.pre state i }
    {
        (0..self.count()).map(value).collect(heap)
    }
}

/// A formula's values, state by state.
#[derive(Drop)]
pub struct Column {
    pub form: Form,
    values: Vec<Value>,
}

impl Column {
    pub fn at(&self, state: usize) -> Value {
        at(self.values.as_slice(), state)
    }
}

/// The columns of the trees so far, in the order of the closing brackets, over the states that they are the values at.
#[derive(Drop)]
pub struct Columns<'a> {
    heap: Global,
    states: States<'a>,
    columns: Vec<Column>,
    /// How many distances between states were a bound of a window.
    pub edges: usize,
}

impl<'a> Columns<'a> {
    pub fn new(heap: Global, states: States<'a>) -> Columns<'a> {
        Columns {
            heap,
            states,
            columns: Vec::new(heap),
            edges: 0,
        }
    }

    pub fn as_slice(&self) -> &[Column] {
        self.columns.as_slice()
    }

    fn values(&self, number: usize) -> &[Value] {
        self.columns
            .get(number)
            .map_or(&[], |column| column.values.as_slice())
    }

    fn add(&mut self, form: Form, values: Vec<Value>) -> Result<usize, AllocError> {
        let number = self.columns.len();
        self.columns.push(Column { form, values })?;
        Ok(number)
    }

    /// The column of a query or of `(true)`, whose bit of a row is the one of its number.
    fn add_leaf(&mut self, form: Form) -> Result<usize, AllocError> {
        let number = self.columns.len();
        let rows = self.states.record.rows.iter();
        let values = rows
            .map(|row| Value::from(form == Form::True || has_bit(*row, number)))
            .collect(self.heap)?;
        self.add(form, values)
    }

    fn add_operator(
        &mut self,
        operator: Operator,
        values: Vec<Value>,
    ) -> Result<usize, AllocError> {
        let edges = operator
            .window
            .map_or(0, |window| self.states.edges(window));
        self.edges = self.edges.saturating_add(edges);
        self.add(operator.form, values)
    }

    /// Adds the columns of the tree's formulas, and answers the number of its own.
    pub fn add_tree(&mut self, tree: &Tree) -> Result<usize, AllocError> {
        let states = self.states;
        match tree {
            Tree::Leaf(leaf) => self.add_leaf(leaf.form),
            Tree::One(operator, operand) => {
                let f = self.add_tree(operand)?;
                let f = self.values(f);
                let values = states.column(self.heap, |i| states.of_one(*operator, f, i))?;
                self.add_operator(*operator, values)
            }
            Tree::Two(operator, first, second) => {
                let f = self.add_tree(first)?;
                let g = self.add_tree(second)?;
                let f = self.values(f);
                let g = self.values(g);
                let values = states.column(self.heap, |i| states.of_two(*operator, f, g, i))?;
                self.add_operator(*operator, values)
            }
        }
    }
}

/// Whether the bit is set: the row is halved that many times.
fn has_bit(row: u64, number: usize) -> bool {
    (0..number).fold(row, |rest, _| rest / 2) % 2 == 1
}
