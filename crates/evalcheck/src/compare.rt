//! One random table on one random record, by both evaluators.
use crate::chance::Random;
use crate::facts::Facts;
use crate::second::{Columns, End, States, Value};
use crate::tally::{Mode, Tally};
use crate::tree::Tree;
use anyhow::bail;
use eval::evaluator::evaluate;
use eval::leaves::Rows;
use query::row;
use recordtext::state::RecordText;
use rules::table::Table;
use std::alloc::{AllocError, Global};
use truth::{Three, Truth};

/// The most formulas of a table.
const FORMULAS: u32 = 64;

/// The most rules of a table.
const RULES: u32 = 16;

/// The most levels of a formula.
const LEVELS: u32 = 12;

#[derive(Drop)]
pub struct Rule {
    number: u8,
    formula: Tree,
}

/// The rules of a table, and their text.
#[derive(Drop)]
pub struct Rules {
    pub rules: Vec<Rule>,
    pub text: String,
}

impl Random {
    /// Rules of at most so many formulas in all.
    pub fn rules(&mut self, formulas: u32) -> Result<Rules, AllocError> {
        let mut rules = Vec::new(self.heap);
        let mut text = String::new(self.heap);
        let mut left = formulas.min(FORMULAS);
        let mut number: u8 = 0;
        for _ in 0..RULES {
            if left == 0 {
                break;
            }
            let size = 1 + self.up_to((left - 1).min(40));
            left = left.saturating_sub(size);
            number = number.saturating_add(1 + self.up_to(3) as u8);
            let formula = self.tree(size, LEVELS)?;
            writeln!(text, "(rule {number} {formula})")?;
            rules.push(Rule { number, formula })?;
        }
        Ok(Rules { rules, text })
    }
}

/// Which column has the values of a rule's formula.
#[derive(Drop)]
struct Root {
    rule: u8,
    column: usize,
}

/// What the second evaluator says of a table on a record.
#[derive(Drop)]
struct Expected<'a> {
    columns: Columns<'a>,
    roots: Vec<Root>,
}

/// What both evaluators are given, and the memory for what they say.
#[derive(Clone, Copy)]
pub struct Case<'a> {
    pub heap: Global,
    pub rules: &'a [Rule],
    pub table: &'a Table,
    pub record: &'a RecordText,
}

impl<'a> Case<'a> {
    /// The columns of every formula by the second evaluator.
    fn by_trees(self, end: End) -> Result<Expected<'a>, AllocError> {
        let states = States {
            record: self.record,
            end,
        };
        let mut columns = Columns::new(self.heap, states);
        let mut roots = Vec::new(self.heap);
        for rule in self.rules {
            let column = columns.add_tree(&rule.formula)?;
            roots.push(Root {
                rule: rule.number,
                column,
            })?;
        }
        Ok(Expected { columns, roots })
    }

    /// The values of every formula at every state by the evaluator, state by state.
    fn by_table<K: Truth + Into<Value>>(self, pending: K) -> anyhow::Result<Vec<Value>> {
        let stamps = self.record.stamps.as_slice();
        let rows = Rows {
            rows: self.record.rows.as_slice(),
        };
        let places = stamps.len().saturating_mul(self.table.nodes().len());
        let mut values = Vec::new(self.heap);
        values.resize(places, pending)?;
        if evaluate(self.table, stamps, &rows, pending, values.as_mut_slice()).is_err() {
            bail!("a record was refused");
        }
        Ok(
            values
                .iter()
                .map(|value| (*value).into())
                .collect(self.heap)?,
        )
    }

    /// Compares every formula at every state, and where each rule's formula stands.
    fn compare<K: Truth + Into<Value>>(
        self,
        tally: &mut Tally,
        mode: Mode,
        expected: &Expected<'_>,
        pending: K,
    ) -> anyhow::Result<()> {
        let values = self.by_table(pending)?;
        let nodes = self.table.nodes().len();
        let columns = expected.columns.as_slice();
        tally.expect(nodes == columns.len());
        for Root { rule, column } in expected.roots.iter() {
            tally.expect(self.table.root(*rule) == Some(*column));
        }
        for (state, found) in values.chunks(nodes.max(1)).enumerate() {
            for (column, found) in columns.iter().zip(found) {
                tally.value(mode, column.form, column.at(state), *found);
            }
        }
        Ok(())
    }

    /// The row of a set of facts, from both stores.
    pub fn compare_rows(self, facts: &Facts, tally: &mut Tally) -> Result<(), AllocError> {
        let mut answers = Vec::new(self.heap);
        for rule in self.rules {
            facts.add_answers(&rule.formula, &mut answers)?;
        }
        tally.row(answers.as_slice(), row(&facts.list, self.table));
        tally.row(answers.as_slice(), row(&facts.grid, self.table));
        Ok(())
    }

    /// The record: plain, running and finished.
    pub fn compare_record(self, tally: &mut Tally) -> anyhow::Result<()> {
        let closed = self.by_trees(End::Finished)?;
        let open = self.by_trees(End::Open)?;
        tally.note(
            self.rules.len(),
            closed.columns.as_slice().len(),
            self.record.stamps.len(),
            closed.columns.edges,
        );
        self.compare(tally, Mode::Plain, &closed, false)?;
        self.compare(tally, Mode::Finished, &closed, Three::False)?;
        self.compare(tally, Mode::Running, &open, Three::Undecided)
    }
}
