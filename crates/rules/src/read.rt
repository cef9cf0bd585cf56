//! Fills a table from a text.
ghost use Rattle.std.specs.Prelude.{◌≡◌, ◌≤◌, [], map, IfOk, vec_capacity};
ghost use Rattle.grammar.specs.Entries.{entry_of};
ghost use Rattle.grammar.specs.Formed.{Formed};
ghost use Rattle.rules.specs.Tables.{nodes_of, rules_of, Answers, Accepts, Places};

use crate::reader::Reader;
use crate::steps::fault;
use crate::table::Table;
use grammar::fault::{FaultKind, ReadFault};
use items::cursor::Cursor;
use std::alloc::{AllocError, Global};
use syntax::{Node, Rule};

impl Table {
    /// A table with no rules, and room for all that it may ever hold. Cost: constant.
    pub fn new(heap: Global) -> Result<Table, AllocError>
        ensures { IfOk result (λ t. (nodes_of t ≡ []) × (rules_of t ≡ [])) }
    {
        let nodes = Vec::with_capacity(heap, 64)?;
        let rules = Vec::with_capacity(heap, 16)?;
        Ok(Table::of(nodes, rules))
    }

    fn of(nodes: Vec<Node>, rules: Vec<Rule>) -> Table
        requires formed { Formed (map entry_of nodes.items) rules.items }
        requires wide { 64 ≤ vec_capacity nodes }
        requires long { 16 ≤ vec_capacity rules }
        ensures nodes { result.nodes ≡ nodes }
        ensures rules { result.rules ≡ rules }
    {
        Table { nodes, rules }
    }

    /// The table that a text spells, in this table's room, or the first fault of the text.
    /// Cost: linear in the text up to the end of the item that is at fault.
    pub fn read(self, text: &[u8]) -> Result<Table, ReadFault>
        ensures answer { Answers text.now result }
        ensures law { Accepts text.now result }
        ensures place { Places text.now result }
    {
        let Table {
            mut nodes,
            mut rules,
        } = self;
        nodes.clear();
        rules.clear();
        let items = Cursor::new(text);
        if items.is_empty() {
            return Err(fault(FaultKind::Empty, items.place()));
        }
        let mut reader = Reader {
            items,
            opened: 0,
            nodes,
        };
        let rules = reader.rules(rules)?;
        Ok(Table::of(reader.nodes, rules))
    }
}
