//! Questions about a table.
ghost use Rattle.std.specs.Prelude.{◌≡◌, ℕ, ◌<◌, ◌≤◌, length, Some};
ghost use Rattle.syntax.specs.Nodes.{Ordered, root_of};
ghost use Rattle.rules.specs.Tables.{nodes_of, rules_of};

use crate::table::Table;
use syntax::{Node, Rule};

impl Table {
    /// The nodes, numbered as their brackets close.
    pub fn nodes(&self) -> &[Node]
        ensures value { result.now ≡ nodes_of self.now }
        ensures few { length (nodes_of self.now) ≤ 64 }
        ensures ordered { Ordered (nodes_of self.now) }
    {
        self.nodes.as_slice()
    }

    /// The rules, their numbers rising.
    pub fn rules(&self) -> &[Rule]
        ensures value { result.now ≡ rules_of self.now }
        ensures few { length (rules_of self.now) ≤ 16 }
    {
        self.rules.as_slice()
    }

    /// The node of the rule with that number. Cost: the rules once.
    pub fn root(&self, number: u8) -> Option<usize>
        ensures value { result ≡ root_of number (rules_of self.now) }
        ensures within { (m : ℕ) → root_of number (rules_of self.now) ≡ Some m → m < length (nodes_of self.now) }
    {
        root_in(self.rules(), number)
    }
}

fn root_in(rules: &[Rule], number: u8) -> Option<usize>
    ensures { result ≡ root_of number rules.now }
{
    // Stays: by `find(..)` and `map(..)` a look-up took 1.5 times as long as by this loop, and a verdict is one.
    for rule in rules {
        if rule.number == number {
            return Some(rule.root);
        }
    }
    None
}
