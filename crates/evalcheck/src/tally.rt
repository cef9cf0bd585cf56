//! What was compared, and how often the two evaluators differed.
use crate::second::Value;
use crate::tree::{FORMS, Form};
use std::{fmt, io};

/// How a record is judged.
#[derive(Clone, Copy, PartialEq, Eq, Debug)]
pub enum Mode {
    Plain,
    Running,
    Finished,
}

#[derive(Clone, Copy, PartialEq, Eq, Debug, Default)]
struct Count(u64);

impl Count {
    fn add(&mut self, more: usize) {
        self.0 = self.0.saturating_add(more as u64);
    }
}

impl fmt::Display for Count {
    fn fmt<W: fmt::Write>(&self, f: &mut fmt::Formatter<W>) -> fmt::Result {
        let count = self.0;
        write!(f, "{count}")
    }
}

/// How often a value was true, false and undecided.
#[derive(Clone, Copy, PartialEq, Eq, Debug, Default)]
struct Verdicts {
    yes: Count,
    no: Count,
    open: Count,
}

impl Verdicts {
    fn add(&mut self, value: Value) {
        match value {
            Value::Yes => self.yes.add(1),
            Value::No => self.no.add(1),
            Value::Open => self.open.add(1),
        }
    }
}

impl fmt::Display for Verdicts {
    fn fmt<W: fmt::Write>(&self, f: &mut fmt::Formatter<W>) -> fmt::Result {
        let Verdicts { yes, no, open } = self;
        write!(f, "true {yes}, false {no}, undecided {open}")
    }
}

#[derive(Default, Drop)]
pub struct Tally {
    tables: Count,
    rules: Count,
    formulas: Count,
    states: Count,
    most_formulas: usize,
    most_states: usize,
    deepest: usize,
    edges: Count,
    forms: [Count; FORMS.len()],
    plain: Verdicts,
    running: Verdicts,
    finished: Verdicts,
    rows: Count,
    answers: Verdicts,
    differences: Count,
}

impl Tally {
    /// One table on one record.
    pub fn note(&mut self, rules: usize, formulas: usize, states: usize, edges: usize) {
        self.tables.add(1);
        self.rules.add(rules);
        self.formulas.add(formulas);
        self.states.add(states);
        self.most_formulas = self.most_formulas.max(formulas);
        self.most_states = self.most_states.max(states);
        self.edges.add(edges);
    }

    pub fn note_depth(&mut self, levels: usize) {
        self.deepest = self.deepest.max(levels);
    }

    pub fn expect(&mut self, same: bool) {
        self.differences.add(usize::from(!same));
    }

    /// One value of a formula at a state, as expected and as found.
    pub fn value(&mut self, mode: Mode, form: Form, expected: Value, found: Value) {
        self.expect(found == expected);
        if let Some(count) = self.forms.get_mut(form as usize) {
            count.add(1);
        }
        match mode {
            Mode::Plain => self.plain.add(expected),
            Mode::Running => self.running.add(expected),
            Mode::Finished => self.finished.add(expected),
        }
    }

    /// One state's answers as expected, and its row as found.
    pub fn row(&mut self, expected: &[bool], found: u64) {
        self.rows.add(1);
        let mut rest = found;
        for answer in expected {
            self.expect((rest % 2 == 1) == *answer);
            self.answers.add(Value::from(*answer));
            rest /= 2;
        }
        self.expect(rest == 0);
    }

    pub fn is_clean(&self) -> bool {
        self.differences == Count(0)
    }

    pub fn print(&self, rt: &impl Print) -> io::Result<()> {
        println!(rt;
            "tables {}, rules {}, formulas {}",
            self.tables, self.rules, self.formulas
        )?;
        println!(rt;
            "most formulas in a table {}, most levels of a formula {}",
            self.most_formulas, self.deepest
        )?;
        println!(rt;
            "states {}, most in a record {}",
            self.states, self.most_states
        )?;
        println!(rt; "distances on an edge of a window {}", self.edges)?;
        for (form, count) in FORMS.iter().zip(self.forms.iter()) {
            println!(rt; "values of {form}: {count}")?;
        }
        println!(rt; "plain: true {}, false {}", self.plain.yes, self.plain.no)?;
        println!(rt; "running: {}", self.running)?;
        println!(rt; "finished: {}", self.finished)?;
        println!(rt;
            "rows of answers: {}; bits set {}, bits clear {}",
            self.rows, self.answers.yes, self.answers.no
        )?;
        println!(rt; "differences {}", self.differences)?;
        println!(rt; "differences made: 3, counted: {}", counted_differences())
    }
}

/// How many differences are counted of three that are made: a comparison that always held would show only here.
fn counted_differences() -> Count {
    let mut tally = Tally::default();
    tally.value(Mode::Plain, Form::True, Value::Yes, Value::No);
    tally.row(&[true], 0);
    tally.row(&[], 1);
    tally.differences
}
