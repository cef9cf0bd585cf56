//! What it takes to evaluate the nodes of a table.
ghost use Rattle.std.specs.Prelude.{◌≡◌, true};
ghost use Rattle.syntax.specs.Nodes.{Ordered};
ghost use Rattle.eval.specs.Stamps.{rising};

use syntax::Node;

/// Nodes, each after its operands, and a record: its stamps, where the values of its queries come from, and what an
/// open mark is where it is not no. `standing` tells which values are in their places from before.
// Stays: nodes and stamps are no pairs: a table has its number of nodes, a record its own of states.
#[derive(Drop)]
pub(crate) struct Evaluation<'a, K, L, S> {
    pub nodes: &'a [Node],
    pub stamps: &'a [u64],
    pub leaves: &'a L,
    pub pending: K,
    pub standing: S,
    ghost ordered: { Ordered nodes.now },
    ghost rises: { rising stamps.now ≡ true },
}
