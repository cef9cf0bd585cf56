//! The plain truth of rules over finished records.
ghost use Rattle.std.specs.Prelude.{◌≡◌, IfErr};
ghost use Rattle.judging.specs.Answers.{record_refusals, answered};
ghost use Rattle.judging.specs.Judged.{case_from, case_of, before_judge};

use crate::finished::Finished;
use crate::judged::Judged;
use crate::refusal::Refusal;
use crate::workspace::Workspace;
use eval::evaluator::evaluate;
use eval::leaves::Rows;
use rules::table::Table;

impl Workspace {
    /// Works out the truth of every node of the table at every state, once for any number of questions,
    /// or refuses the record and gives the workspace back. Cost: that of evaluating.
    pub fn judge<'a>(
        self,
        table: &'a Table,
        stamps: &'a [u64],
        rows: &'a [u64],
    ) -> Result<Judged<'a>, Refusal>
        ensures answer { before_judge result ≡ answered (record_refusals stamps.now rows.now) (case_from table.now stamps.now rows.now) }
        ensures back { IfErr result (λ e. e.workspace ≡ self) }
    {
        // Stays: the closure of a `map_err` would take the workspace, refused or not.
        match Finished::new(stamps, rows) {
            Ok(finished) => Ok(self.evaluated(table, finished)),
            Err(fault) => Err(Refusal {
                fault,
                workspace: self,
            }),
        }
    }

    /// The plain truth of every node at every state, in the workspace's room. Cost: that of evaluating.
    fn evaluated<'a>(self, table: &'a Table, finished: Finished<'a>) -> Judged<'a>
        ensures { case_of result ≡ case_from table.now finished.entry.stamps.now finished.entry.rows.now }
    {
        let Workspace { mut values } = self;
        let places = finished.stamps.len() * table.nodes().len();
        values.resize(places, false).unwrap();
        let leaves = Rows {
            rows: finished.rows,
        };
        evaluate(
            table,
            finished.stamps,
            &leaves,
            false,
            values.as_mut_slice(),
        )
        .unwrap();
        Judged {
            table,
            record: finished,
            values,
        }
    }
}
