//! The six queries by plain chains over a list of facts.
use crate::chance::Random;
use crate::tree::{Form, Leaf, Tree};
use gridstore::GridStore;
use liststore::ListStore;
use std::alloc::AllocError;
use store::{Fact, Store};

/// A fact by its three numbers.
// Stays: a type of its own, so that the second evaluator shares no error with the first.
#[derive(Clone, Copy, PartialEq, Eq, Debug)]
pub struct Entry {
    relation: i64,
    key: i64,
    value: i64,
}

/// The same facts in both stores and in a list.
#[derive(Drop)]
pub struct Facts {
    entries: Vec<Entry>,
    pub list: ListStore,
    pub grid: GridStore,
}

impl Random {
    /// So many facts, of few relations, keys and values; a fact that comes again is left out of the list.
    pub fn facts(&mut self, count: u32) -> Result<Facts, AllocError> {
        let mut entries = Vec::new(self.heap);
        let mut list = ListStore::new(self.heap, count as usize)?;
        let mut grid = GridStore::new();
        for _ in 0..count {
            let relation = self.up_to(3);
            let key = self.up_to(3);
            let value = self.up_to(9);
            let fact = Fact {
                relation: relation as u8,
                key,
                value: value as i32,
            };
            let _ = list.put(fact);
            let _ = grid.put(fact);
            let entry = Entry {
                relation: i64::from(relation),
                key: i64::from(key),
                value: i64::from(value),
            };
            if !entries.contains(&entry) {
                entries.push(entry)?;
            }
        }
        Ok(Facts {
            entries,
            list,
            grid,
        })
    }
}

impl Facts {
    /// The facts of one relation.
    fn of(&self, relation: i64) -> Result<Vec<Entry>, AllocError> {
        let entries = self.entries.iter().copied();
        entries
            .filter(|entry| entry.relation == relation)
            .collect(*self.entries.allocator())
    }

    /// The answer of a query; `(true)` is no query and answers no.
    fn answer(&self, leaf: Leaf) -> Result<bool, AllocError> {
        let [a, b, c] = leaf.numbers;
        let facts = self.of(a)?;
        let others = self.of(b)?;
        Ok(match leaf.form {
            Form::Some => facts.iter().any(|fact| (b..=c).contains(&fact.value)),
            Form::Every => facts.iter().all(|fact| (b..=c).contains(&fact.value)),
            Form::Fact => facts.contains(&Entry {
                relation: a,
                key: b,
                value: c,
            }),
            Form::Number => i64::try_from(facts.len()).is_ok_and(|count| (b..=c).contains(&count)),
            // Each key is one of the other relation.
            Form::Refer => facts
                .iter()
                .all(|fact| others.iter().any(|other| other.key == fact.key)),
            // No value is above one of the other relation at its key.
            Form::Level => facts.iter().all(|fact| {
                let mut beside = others.iter().filter(|other| other.key == fact.key);
                beside.all(|other| fact.value <= other.value)
            }),
            _ => false,
        })
    }

    /// The answers of the formulas of a tree as their brackets close, added to those before.
    pub fn add_answers(&self, tree: &Tree, answers: &mut Vec<bool>) -> Result<(), AllocError> {
        match tree {
            Tree::Leaf(leaf) => answers.push(self.answer(*leaf)?)?,
            Tree::One(_, operand) => {
                self.add_answers(operand, answers)?;
                answers.push(false)?;
            }
            Tree::Two(_, first, second) => {
                self.add_answers(first, answers)?;
                self.add_answers(second, answers)?;
                answers.push(false)?;
            }
        }
        Ok(())
    }
}
