//! The reach of a rule.
ghost use Rattle.std.specs.Prelude.{◌≡◌, ℕ, ◌+◌, ◌^◌, ◌<◌, ◌≤◌, map, length};
ghost use Rattle.syntax.specs.Formula.{greater, plus, reach as formula_reach};
ghost use Rattle.syntax.specs.Nodes.{place, formulas};
ghost use Rattle.rules.specs.Tables.{nodes_of, rules_of};
ghost use Rattle.rules.specs.Reaches.{rule_reach, Upto, Small, Reached};

use crate::refusal::JudgeFault;
use crate::table::Table;
use arrayvec::ArrayVec;
use syntax::Node;

impl Table {
    /// How far past a state's stamp the record can matter to the rule there: a distance, or none. Cost: linear in the nodes.
    pub fn reach(&self, number: u8) -> Result<Option<u64>, JudgeFault>
        ensures { result ≡ rule_reach number (nodes_of self.now) (rules_of self.now) }
    {
        let root = self.root(number).ok_or(JudgeFault::UnknownRule)?;
        let reaches = self.reaches();
        Ok(reaches.as_slice()[root])
    }

    /// The reach of each node.
    fn reaches(&self) -> ArrayVec<Option<u64>, 64>
        ensures value { result.items ≡ map formula_reach (formulas (nodes_of self.now)) }
        ensures count { length result.items ≡ length (nodes_of self.now) }
    {
        let mut reaches = ArrayVec::new();
        for node in self.nodes() {
            let reach = node_reach(*node, reaches.as_slice());
            reaches.push(reach);
        }
        reaches
    }
}

/// The later of two distances; none if there is none for one of them.
fn later(a: Option<u64>, b: Option<u64>) -> Option<u64>
    ensures { result ≡ greater a b }
{
    Some(a?.max(b?))
}

/// A bound added to a distance.
fn add(bound: Option<u32>, distance: Option<u64>) -> Option<u64>
    requires { Upto (2 ^ 63) distance }
    ensures value { result ≡ plus bound distance }
    ensures small { (m : ℕ) → Upto m distance → Upto (m + 4294967295) result }
{
    Some(u64::from(bound?) + distance?)
}

/// The reach of a node, from those of the nodes before it.
fn node_reach(node: Node, before: &[Option<u64>]) -> Option<u64>
    requires placed { place node ≤ length before.now }
    requires few { length before.now < 64 }
    requires small { Small before.now }
    ensures { Reached before.now node result }
{
    match node {
        Node::True | Node::Query(_) => Some(0),
        Node::Not(a) | Node::Previous(_, a) | Node::Once(_, a) | Node::SoFar(_, a) => before[a],
        Node::And(a, b) | Node::Or(a, b) | Node::Implies(a, b) | Node::Since(_, a, b) => {
            later(before[a], before[b])
        }
        Node::Next(w, a) | Node::AllNext(w, a) | Node::Sometime(w, a) | Node::Always(w, a) => {
            add(w.high, before[a])
        }
        Node::Until(w, a, b) => add(w.high, later(before[a], before[b])),
    }
}
