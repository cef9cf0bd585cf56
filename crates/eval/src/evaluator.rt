//! The values of every node of a table at every state of a record.
ghost use Rattle.std.specs.Prelude.{◌≡◌, ◌+◌, ◌*◌, ◌<◌, ◌≤◌, length, is_ok, if◌then◌else◌, ◌==◌, slice_index_or, slice_set};
ghost use Rattle.rules.specs.Tables.{nodes_of};
ghost use Rattle.syntax.specs.Nodes.{place, formula_at};
ghost use Rattle.syntax.specs.declared.Node.TheVariants.{True};
ghost use Rattle.eval.specs.Columns.{value_at};
ghost use Rattle.eval.specs.Evaluations.{record_in, kept_in, Fits, Has};
ghost use Rattle.eval.specs.Stamps.{record_of};
ghost use Rattle.eval.specs.Standing.{Right, stood};
ghost use Rattle.eval.specs.Steps.{node_value, Filled};
ghost use Rattle.eval.specs.Truth.{value};
ghost use Rattle.eval.specs.Values.{all_values, fit};

use crate::evaluation::Evaluation;
use crate::leaves::Leaves;
use crate::misfit::Misfit;
use crate::operand::{Column, Operand};
use crate::outlook::Outlook;
use crate::standing::{Anew, Standing};
use crate::windows::are_rising;
use rules::table::Table;
use syntax::{Node, Window};
use truth::Truth;

// Stays: the values are a parameter, read by `&` in four functions and written by `&mut` in four. A struct that held them
// by `&mut` would have to say in each contract that its other fields are as they were, and one to read them by would be
// made anew after each value that is written.
impl<K: Truth, L: Leaves<K>, S: Standing<K>> Evaluation<'_, K, L, S> {
    /// Node `m`.
    fn node(&self, m: usize) -> Node
        requires { m < length self.now.nodes.now }
        ensures value { result ≡ slice_index_or self.now.nodes.now m True }
        ensures before { place result ≤ m }
    {
        self.nodes[m]
    }

    /// State `i`, with a window.
    fn from(&self, i: usize, window: Window) -> Outlook<'_>
        requires { i < length self.now.stamps.now }
        ensures { (result.stamps.now ≡ self.now.stamps.now) × (result.state ≡ i) × (result.window ≡ window) }
    {
        Outlook {
            stamps: self.stamps,
            state: i,
            window,
        }
    }

    /// The values of node `a`.
    fn column<'v>(&self, values: &'v [K], a: usize) -> Column<'v, K>
        requires { (a < length self.now.nodes.now) × Fits self.now values.now }
        ensures states { result.states ≡ length self.now.stamps.now }
        ensures value { value_at K.kind result.values.now result.nodes result.node ≡ value_at K.kind values.now (length self.now.nodes.now) a }
    {
        Column {
            values,
            states: self.stamps.len(),
            nodes: self.nodes.len(),
            node: a,
        }
    }

    /// The value of node `a` at state `i`.
    fn value(&self, values: &[K], a: usize, i: usize) -> K
        requires { Has self.now a i × Fits self.now values.now }
        ensures { result ≡ value_at K.kind values.now (length self.now.nodes.now) a i }
    {
        self.column(values, a).read(i)
    }

    /// The value of node `m` at state `i`, from the columns of the nodes before it.
    /// `kept` is, for an until, its first operand at every state from `i` on.
    fn node_at(&self, values: &[K], m: usize, i: usize, kept: K) -> K
        requires within { Has self.now m i × Fits self.now values.now }
        requires keeps { kept ≡ kept_in K.kind self.now values.now m i }
        ensures { result ≡ node_value K.kind (record_in L.leaf self.now) (value_at K.kind values.now (length self.now.nodes.now)) m (slice_index_or self.now.nodes.now m True) i }
    {
        let pending = self.pending;
        match self.node(m) {
            Node::True => K::yes(),
            Node::Query(_) => self.leaves.value(i, m),
            Node::Not(a) => self.value(values, a, i).not(),
            Node::And(a, b) => self.value(values, a, i).and(self.value(values, b, i)),
            Node::Or(a, b) => self.value(values, a, i).or(self.value(values, b, i)),
            Node::Implies(a, b) => self.value(values, a, i).not().or(self.value(values, b, i)),
            Node::Next(w, a) => self.from(i, w).next(&self.column(values, a), pending),
            Node::AllNext(w, a) => self.from(i, w).allnext(&self.column(values, a), pending),
            Node::Sometime(w, a) => self.from(i, w).sometime(&self.column(values, a), pending),
            Node::Always(w, a) => self.from(i, w).always(&self.column(values, a), pending),
            Node::Until(w, a, b) => {
                let (first, second) = (self.column(values, a), self.column(values, b));
                self.from(i, w).until(&first, &second, kept, pending)
            }
            Node::Previous(w, a) => self.from(i, w).previous(&self.column(values, a)),
            Node::Once(w, a) => self.from(i, w).once(&self.column(values, a)),
            Node::SoFar(w, a) => self.from(i, w).sofar(&self.column(values, a)),
            Node::Since(w, a, b) => {
                let (first, second) = (self.column(values, a), self.column(values, b));
                self.from(i, w).since(&first, &second)
            }
        }
    }

    /// For an until, its first operand at every state from `i` on, where `later` is that from the next state on.
    fn kept_at(&self, values: &[K], m: usize, i: usize, later: K) -> K
        requires within { Has self.now m i × Fits self.now values.now }
        requires keeps { later ≡ kept_in K.kind self.now values.now m (i + 1) }
        ensures { result ≡ kept_in K.kind self.now values.now m i }
    {
        match self.node(m) {
            Node::Until(_, a, _) => self.value(values, a, i).and(later),
            _ => later,
        }
    }

    /// Puts the value of node `m` at state `i` into its place.
    fn write(&self, values: &mut [K], m: usize, i: usize, value: K)
        requires { Has self.now m i × Fits self.now values.old }
        ensures { values.new ≡ slice_set values.old (i * length self.now.nodes.now + m) value }
    {
        values[i * self.nodes.len() + m] = value;
    }

    /// Puts the value of node `m` at state `i` into its place, unless what is there stands.
    /// `kept` is, for an until, its first operand at every state from `i` on.
    fn settle(&self, values: &mut [K], m: usize, i: usize, kept: K)
        requires within { Has self.now m i × Fits self.now values.old }
        requires filled { Filled K.kind (record_in L.leaf self.now) self.now.nodes.now values.old m }
        requires right { Right K.kind (record_in L.leaf self.now) self.now.nodes.now values.old (stood (S.from self.now.standing) (S.stays self.now.standing)) }
        requires keeps { kept ≡ kept_in K.kind self.now values.old m i }
        ensures { values.new ≡ slice_set values.old (i * length self.now.nodes.now + m) (value K.kind (record_in L.leaf self.now) (formula_at self.now.nodes.now m) i) }
    {
        if self.standing.stands(i, self.value(values, m, i)) {
            return;
        }
        let value = self.node_at(values, m, i, kept);
        self.write(values, m, i, value);
    }

    /// Puts the values of node `m` at every state into their places, from the last state to the first that is to be
    /// looked at, but for those that stand.
    // Stays: `i` is the place of a state, at which three columns are read and one value is written.
    fn settle_node(&self, values: &mut [K], m: usize)
        requires within { (m < length self.now.nodes.now) × Fits self.now values.old }
        requires filled { Filled K.kind (record_in L.leaf self.now) self.now.nodes.now values.old m }
        requires right { Right K.kind (record_in L.leaf self.now) self.now.nodes.now values.old (stood (S.from self.now.standing) (S.stays self.now.standing)) }
        ensures filled { Filled K.kind (record_in L.leaf self.now) self.now.nodes.now values.new (m + 1) }
        ensures right { Right K.kind (record_in L.leaf self.now) self.now.nodes.now values.new (stood (S.from self.now.standing) (S.stays self.now.standing)) }
    {
        let mut held = K::yes();
        for i in (self.standing.first()..self.stamps.len()).rev() {
            held = self.kept_at(values, m, i, held);
            self.settle(values, m, i, held);
        }
    }

    /// Puts the values of every node at every state into their places, but for those that stand.
    /// Cost: a look at each value from the first state on that is to be looked at, and for each that does not stand the
    /// states up to its window's end.
    // Stays: `m` is the place of a node, which the values are written by, and not only the node.
    pub fn settle_all(&self, values: &mut [K])
        requires within { Fits self.now values.old }
        requires right { Right K.kind (record_in L.leaf self.now) self.now.nodes.now values.old (stood (S.from self.now.standing) (S.stays self.now.standing)) }
        ensures { values.new ≡ all_values K.kind (record_in L.leaf self.now) self.now.nodes.now }
    {
        for m in 0..self.nodes.len() {
            self.settle_node(values, m);
        }
    }
}

/// Whether there is one place for each node at each state.
fn has_room(states: usize, nodes: usize, places: usize) -> bool
    ensures { result ≡ (states * nodes == places) }
{
    states.checked_mul(nodes) == Some(places)
}

/// Puts the value of node m at state i to place i * nodes + m of `values`, for every node of the table at every state,
/// or refuses and leaves `values` as it was.
/// `pending` is what an open mark is where it is not no: undecided while the record runs, no once it is finished.
/// Cost: each node at each state once, and there, for a temporal operator, the states up to its window's end; no room
/// beyond `values`.
pub fn evaluate<K: Truth, L: Leaves<K>>(
    table: &Table,
    stamps: &[u64],
    leaves: &L,
    pending: K,
    values: &mut [K],
) -> Result<(), Misfit>
    ensures answer { result ≡ fit stamps.now (length (nodes_of table.now)) (length values.old) }
    ensures values { values.new ≡ (if is_ok result then all_values K.kind (record_of stamps.now (L.leaf leaves.now) pending) (nodes_of table.now) else values.old) }
{
    let nodes = table.nodes();
    if !has_room(stamps.len(), nodes.len(), values.len()) {
        return Err(Misfit::Room);
    }
    if !are_rising(stamps) {
        return Err(Misfit::Stamps);
    }
    let evaluation = Evaluation {
        nodes,
        stamps,
        leaves,
        pending,
        standing: Anew,
    };
    evaluation.settle_all(values);
    Ok(())
}
