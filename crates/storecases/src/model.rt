//! A set of facts kept the plainest way, to hold the stores to: facts in no order, looked through one by one.
use crate::steps::parts;
use std::alloc::{AllocError, Global};
use std::ops::RangeInclusive;
use store::Fact;

#[derive(Drop)]
pub struct Model {
    members: Vec<Fact>,
    places: usize,
    keys: RangeInclusive<u32>,
    values: RangeInclusive<i32>,
}

impl Model {
    /// A set with the range and the room of a list store.
    pub fn of_list(heap: Global, places: usize) -> Model {
        Model {
            members: Vec::new(heap),
            places,
            keys: 0..=65_535,
            values: -1_000_000_000..=1_000_000_000,
        }
    }

    /// A set with the range and the room of a grid store.
    pub fn of_grid(heap: Global) -> Model {
        Model {
            members: Vec::new(heap),
            places: 65_536,
            keys: 0..=63,
            values: 0..=63,
        }
    }

    pub fn takes(&self, fact: Fact) -> bool {
        fact.relation < 16 && self.keys.contains(&fact.key) && self.values.contains(&fact.value)
    }

    pub fn places(&self) -> usize {
        self.places
    }

    pub fn count(&self) -> usize {
        self.members.len()
    }

    pub fn contains(&self, fact: Fact) -> bool {
        self.members
            .iter()
            .any(|member| parts(*member) == parts(fact))
    }

    /// Whether the fact was absent, or the number of the refusal.
    pub fn put(&mut self, fact: Fact) -> Result<Result<bool, u8>, AllocError> {
        if !self.takes(fact) {
            return Ok(Err(31));
        }
        if self.contains(fact) {
            return Ok(Ok(false));
        }
        if self.count() == self.places {
            return Ok(Err(58));
        }
        self.members.push(fact)?;
        Ok(Ok(true))
    }

    /// Whether the fact was present.
    pub fn drop_fact(&mut self, fact: Fact) -> bool {
        let here = |member: &Fact| parts(*member) == parts(fact);
        let Some(i) = self.members.iter().position(here) else {
            return false;
        };
        self.members.remove(i);
        true
    }

    pub fn walk(&self, start: Fact) -> Option<Fact> {
        self.members
            .iter()
            .copied()
            .filter(|member| {
                member.relation == start.relation && parts(*member) >= parts(start)
            })
            .min_by_key(|member| parts(*member))
    }
}
