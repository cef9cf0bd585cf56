//! A record that has been evaluated.
ghost use Rattle.std.specs.Prelude.{◌≡◌, ◌≤◌, false, length, vec_capacity, nat_lt};
ghost use Rattle.truth.specs.Kleene.{plain};
ghost use Rattle.rules.specs.Tables.{nodes_of};
ghost use Rattle.eval.specs.Rows.{row_record};
ghost use Rattle.eval.specs.Values.{all_values};

use crate::finished::Finished;
use crate::workspace::Workspace;
use rules::refusal::JudgeFault;
use rules::table::Table;
use syntax::Rule;

/// A record that no refusal fits, with the plain truth of every node of a table at every state.
#[derive(Drop)]
pub struct Judged<'a> {
    pub(crate) table: &'a Table,
    pub(crate) record: Finished<'a>,
    pub(crate) values: Vec<bool>,
    ghost room: { 32768 ≤ vec_capacity values },
    ghost evaluated: { values.items ≡ all_values plain (row_record plain record.stamps.now record.rows.now false) (nodes_of table.now) },
}

impl Judged<'_> {
    ghost use Rattle.rules.specs.Tables.{rules_of};
    ghost use Rattle.judging.specs.Judged.{case_of, case_answer};

    /// The rules of the table. Cost: constant.
    pub fn rules(&self) -> &[Rule]
        ensures { result.now ≡ rules_of (case_of self.now).table }
    {
        self.table.rules()
    }

    /// How many states the record has. Cost: constant.
    pub fn states(&self) -> usize
        ensures { result ≡ length (case_of self.now).stamps }
    {
        self.record.stamps.len()
    }

    /// Whether the record has that state.
    pub fn has_state(&self, state: usize) -> bool
        ensures { result ≡ nat_lt state (length (case_of self.now).stamps) }
    {
        state < self.states()
    }

    /// The plain truth of a rule at a state. Cost: the rules once.
    pub fn truth(&self, rule: u8, state: usize) -> Result<bool, JudgeFault>
        ensures { result ≡ case_answer (case_of self.now) rule state }
    {
        let m = self.table.root(rule).ok_or(JudgeFault::UnknownRule)?;
        if !self.has_state(state) {
            return Err(JudgeFault::NoSuchState);
        }
        Ok(self.values[state * self.table.nodes().len() + m])
    }

    /// Gives the workspace back, the values in it as they are. Cost: constant.
    pub fn close(self) -> Workspace
        ensures { result.values ≡ self.entry.values }
    {
        Workspace {
            values: self.values,
        }
    }
}
