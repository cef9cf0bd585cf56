//! A record that grows state by state, with the value of every node of a table at every state.
//!
//! True and false stay while the record grows and when it is finished, so only what is undecided is worked out again, and
//! the states before the first with an undecided value are not looked at any more.
ghost use Rattle.std.specs.Prelude.{◌≡◌, ◌*◌, ◌<◌, ◌≤◌, true, false, [], ◌∷◌, ◌++◌, length, is_ok, if◌then◌else◌, vec_len, vec_capacity};
ghost use Rattle.truth.specs.Kleene.{three};
ghost use Rattle.truth.specs.declared.Three.TheVariants.{False, Undecided};
ghost use Rattle.rules.specs.Tables.{nodes_of};
ghost use Rattle.eval.specs.Growing.{latest, later_than, growing_record, state_fit, value_in};
ghost use Rattle.eval.specs.Rows.{row_record};
ghost use Rattle.eval.specs.Standing.{Right, Settled, stays_decided};
ghost use Rattle.eval.specs.Stamps.{rising};
ghost use Rattle.eval.specs.Values.{all_values};

use crate::evaluation::Evaluation;
use crate::leaves::Rows;
use crate::misfit::Misfit;
use crate::room::RecordRoom;
use crate::standing::{Decided, count_decided};
use rules::table::Table;
use truth::Three;

/// At most 512 states: the stamp of each, the row of the queries' answers there, and the value of every node,
/// which is what the definitions give for the stamps and rows. At the first `settled` states no value is undecided.
// Stays: stamps and rows are two vectors: the evaluator takes stamps as a slice, and pairs would have to be copied at
// each push, which allocates nothing.
// Stays: `finished` is no value's flag: running and finished records have the same fields and methods, and `push` and
// `finish` are published on this one type, so two types would hold and do everything twice.
#[derive(Drop)]
pub struct EvaluatedRecord<'t> {
    pub(crate) table: &'t Table,
    pub(crate) stamps: Vec<u64>,
    pub(crate) rows: Vec<u64>,
    pub(crate) values: Vec<Three>,
    pub(crate) finished: bool,
    settled: usize,
    ghost few: { vec_len stamps ≤ 512 },
    ghost risen: { rising stamps.items ≡ true },
    ghost paired: { vec_len rows ≡ vec_len stamps },
    ghost for_stamps: { 512 ≤ vec_capacity stamps },
    ghost for_rows: { 512 ≤ vec_capacity rows },
    ghost for_values: { 32768 ≤ vec_capacity values },
    ghost evaluated: { values.items ≡ all_values three (growing_record stamps.items rows.items finished) (nodes_of table.now) },
    ghost counted: { settled ≤ vec_len stamps },
    ghost definite: { Settled (nodes_of table.now) values.items settled },
}

impl<'t> EvaluatedRecord<'t> {
    /// A record without states, to which states may come. Cost: constant.
    pub fn new(table: &'t Table, room: RecordRoom) -> Self
        ensures table { result.table.now ≡ table.now }
        ensures stamps { result.stamps.items ≡ [] }
        ensures rows { result.rows.items ≡ [] }
        ensures finished { result.finished ≡ false }
    {
        let RecordRoom {
            stamps,
            rows,
            values,
        } = room;
        EvaluatedRecord {
            table,
            stamps,
            rows,
            values,
            finished: false,
            settled: 0,
        }
    }

    /// The table whose nodes have the values. Cost: constant.
    pub fn table(&self) -> &'t Table
        ensures { result.now ≡ self.now.table.now }
    {
        self.table
    }

    /// Whether the record is finished. Cost: constant.
    pub fn is_finished(&self) -> bool
        ensures { result ≡ self.now.finished }
    {
        self.finished
    }

    /// How many states there are. Cost: constant.
    pub fn len(&self) -> usize
        ensures { result ≡ length self.now.stamps.items }
    {
        self.stamps.len()
    }

    /// The stamp of the latest state. Cost: constant.
    pub fn last_stamp(&self) -> Option<u64>
        ensures { result ≡ latest self.now.stamps.items }
    {
        self.stamps.last().copied()
    }

    /// The value of a node at a state, if there are such. Cost: a look-up.
    pub fn value_at(&self, node: usize, state: usize) -> Option<Three>
        ensures { result ≡ value_in (nodes_of self.now.table.now) self.now.stamps.items (growing_record self.now.stamps.items self.now.rows.items self.now.finished) node state }
    {
        let nodes = self.table.nodes().len();
        let values = self.values.as_slice();
        (node < nodes && state < self.stamps.len()).then(|| values[state * nodes + node])
    }

    /// One more state, with its row; refused with no room for it, or a stamp that is not later than the last, and the
    /// record is then as it was.
    /// Cost: a look at the value of each node at each state from the first with an undecided value on, and, for each that is
    /// undecided, the states up to its window's end; no allocation.
    /// A finished record takes states too, and then works out every value anew.
    pub fn push(&mut self, stamp: u64, row: u64) -> Result<(), Misfit>
        ensures answer { result ≡ state_fit self.old.stamps.items stamp }
        ensures table { self.new.table.now ≡ self.old.table.now }
        ensures stamps { self.new.stamps.items ≡ (if is_ok result then self.old.stamps.items ++ (stamp ∷ []) else self.old.stamps.items) }
        ensures rows { self.new.rows.items ≡ (if is_ok result then self.old.rows.items ++ (row ∷ []) else self.old.rows.items) }
        ensures finished { self.new.finished ≡ self.old.finished }
    {
        self.admits(stamp)?;
        self.take(stamp, row);
        Ok(())
    }

    /// Whether a state can come at the stamp.
    fn admits(&self, stamp: u64) -> Result<(), Misfit>
        ensures { result ≡ state_fit self.now.stamps.items stamp }
    {
        if self.stamps.len() >= 512 {
            return Err(Misfit::Room);
        }
        if self.last_stamp().is_some_and(|last| stamp <= last) {
            return Err(Misfit::Stamps);
        }
        Ok(())
    }

    fn take(&mut self, stamp: u64, row: u64)
        requires few { length self.old.stamps.items < 512 }
        requires later { later_than (latest self.old.stamps.items) stamp ≡ true }
        ensures table { self.new.table.now ≡ self.old.table.now }
        ensures stamps { self.new.stamps.items ≡ self.old.stamps.items ++ (stamp ∷ []) }
        ensures rows { self.new.rows.items ≡ self.old.rows.items ++ (row ∷ []) }
        ensures finished { self.new.finished ≡ self.old.finished }
    {
        let standing = self.standing();
        let pending = self.pending();
        let places = self.values.len() + self.table.nodes().len();
        self.stamps.push_reserved(stamp);
        self.rows.push_reserved(row);
        self.values.resize(places, Three::Undecided).unwrap();
        self.settled = evaluate_rest(
            self.table,
            self.stamps.as_slice(),
            self.rows.as_slice(),
            pending,
            standing,
            &mut self.values,
        );
    }

    /// No state is to come any more. Cost: that of a push.
    pub fn finish(&mut self)
        ensures table { self.new.table.now ≡ self.old.table.now }
        ensures stamps { self.new.stamps.items ≡ self.old.stamps.items }
        ensures rows { self.new.rows.items ≡ self.old.rows.items }
        ensures finished { self.new.finished ≡ true }
    {
        let standing = self.standing();
        self.finished = true;
        self.settled = evaluate_rest(
            self.table,
            self.stamps.as_slice(),
            self.rows.as_slice(),
            Three::False,
            standing,
            &mut self.values,
        );
    }

    /// Which values stand when the record goes on: while it runs those that are decided, and once it is finished none.
    fn standing(&self) -> Decided
        ensures states { result.states ≡ (if self.now.finished then 0 else length self.now.stamps.items) }
        ensures settled { result.settled ≤ self.now.settled }
    {
        if self.finished {
            return Decided {
                states: 0,
                settled: 0,
            };
        }
        Decided {
            states: self.stamps.len(),
            settled: self.settled,
        }
    }

    /// What is left open while states may still come.
    fn pending(&self) -> Three
        ensures { result ≡ (if self.now.finished then False else Undecided) }
    {
        if self.finished {
            Three::False
        } else {
            Three::Undecided
        }
    }
}

/// The values of every node at every state, but for those that stand. The answer is a number of states, from the first on,
/// at which no value is undecided.
fn evaluate_rest(
    table: &Table,
    stamps: &[u64],
    rows: &[u64],
    pending: Three,
    standing: Decided,
    values: &mut Vec<Three>,
) -> usize
    requires risen { rising stamps.now ≡ true }
    requires full { vec_len values.old ≡ length stamps.now * length (nodes_of table.now) }
    requires right { Right three (row_record three stamps.now rows.now pending) (nodes_of table.now) values.old.items (stays_decided standing.states) }
    requires settled { Settled (nodes_of table.now) values.old.items standing.settled }
    requires within { standing.states ≤ length stamps.now }
    ensures values { values.new.items ≡ all_values three (row_record three stamps.now rows.now pending) (nodes_of table.now) }
    ensures capacity { vec_capacity values.new ≡ vec_capacity values.old }
    ensures settled { Settled (nodes_of table.now) values.new.items result }
    ensures within { result ≤ length stamps.now }
{
    let nodes = table.nodes().len();
    let from = standing.settled;
    let evaluation = Evaluation {
        nodes: table.nodes(),
        stamps,
        leaves: &Rows { rows },
        pending,
        standing,
    };
    evaluation.settle_all(values.as_mut_slice());
    from + whole_rows(count_decided(&values[from * nodes..]), nodes)
}

/// How many rows of that many nodes so many values fill; none where a row has no value.
fn whole_rows(values: usize, nodes: usize) -> usize
    ensures within { result * nodes ≤ values }
    ensures none { nodes ≡ 0 → result ≡ 0 }
{
    values.checked_div(nodes).unwrap_or(0)
}
