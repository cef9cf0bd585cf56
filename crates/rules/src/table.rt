//! A table of rules.
ghost use Rattle.std.specs.Prelude.{◌≡◌, ◌≤◌, true, map, vec_len, vec_capacity};
ghost use Rattle.syntax.specs.Nodes.{Ordered, rooted};
ghost use Rattle.grammar.specs.Entries.{entry_of};
ghost use Rattle.grammar.specs.Formed.{Formed};
ghost use Rattle.grammar.specs.Invariants.{UsedOnce, in_bounds, rising};

use syntax::{Node, Rule};

/// At most 64 nodes, each after its operands, and at most 16 rules that have one of them.
/// Every node is used once, bounds are in order and in their ranges, and the numbers of the rules rise.
/// All of this follows from the one fact that nodes and rules are those of well-formed rules.
/// A table has room for as many as it may ever hold.
// Stays: nodes in a list, with numbers for operands, since a table's memory is asked for once and the numbers are shown.
#[derive(Drop)]
pub struct Table {
    pub(crate) nodes: Vec<Node>,
    pub(crate) rules: Vec<Rule>,
    ghost few: { vec_len nodes ≤ 64 },
    ghost short: { vec_len rules ≤ 16 },
    ghost ordered: { Ordered nodes.items },
    ghost roots: { rooted (vec_len nodes) rules.items ≡ true },
    ghost once: { UsedOnce (map entry_of nodes.items) rules.items },
    ghost bounds: { in_bounds (map entry_of nodes.items) ≡ true },
    ghost risen: { rising 1 rules.items ≡ true },
    ghost formed: { ∥ Formed (map entry_of nodes.items) rules.items ∥₁ },
    ghost wide: { 64 ≤ vec_capacity nodes },
    ghost long: { 16 ≤ vec_capacity rules },
}
