//! One relation of a store: its facts in order, and what it has at the key of a fact.
ghost use Rattle.std.specs.Prelude.{◌≡◌, ◌&&◌, List, length, is_some, nat_le};
ghost use Rattle.store.specs.declared.facts.Fact.{Fact};
ghost use Rattle.store.specs.Facts.{of_relation};
ghost use Rattle.query.specs.Queries.{has_key_of, level_with};
ghost use Rattle.query.specs.Walks.{ahead, level_beside};

use std::marker::Model;
use store::{Fact, Store};

/// One relation of a store, seen as the list of its facts.
#[derive(Drop)]
pub struct Relation<'a, S: Store> {
    store: &'a S,
    number: u8,
}

impl<'a, S: Store> Model for Relation<'a, S> {
    ghost Value = { List Fact };

    ghost view = { λ r. of_relation r.number (S.meaning r.store.now).facts };
}

impl<'a, S: Store> Relation<'a, S> {
    /// The relation of that number. Constant time.
    pub fn new(store: &'a S, number: u8) -> Relation<'a, S>
        ensures { result ≡ of_relation number (S.meaning store.now).facts }
    {
        Relation { store, number }
    }

    /// Its facts, each after the one before. Cost: one walk for each fact that is asked for.
    pub fn facts(&self) -> Walk<'a, S>
        ensures { result ≡ self.now }
    {
        Walk {
            store: self.store,
            from: Fact::least_of(self.number),
        }
    }

    /// Whether it has from `low` to `high` facts. Cost: one walk for each fact, up to one more than `high`.
    pub fn has_number(&self, low: u32, high: u32) -> bool
        ensures { result ≡ (nat_le low (length self.now) && nat_le (length self.now) high) }
    {
        // Stays: `as` is plainest here, since usize has no From<u32> and a TryFrom adds a case that never comes.
        let most = high as usize;
        let found = self.facts().take(most + 1).count();
        low as usize <= found && found <= most
    }

    /// The fact with the least value among those at the key of `fact`. Cost: one walk.
    fn least_beside(&self, fact: Fact) -> Option<Fact>
        ensures key { is_some result ≡ has_key_of fact self.now }
        ensures level { level_beside fact result ≡ level_with fact self.now }
    {
        let start = Fact {
            relation: self.number,
            key: fact.key,
            value: i32::MIN,
        };
        self.store.walk(start).filter(|first| first.key == fact.key)
    }

    /// Whether the relation has the key of `fact`. Cost: one walk.
    pub fn has_key(&self, fact: Fact) -> bool
        ensures { result ≡ has_key_of fact self.now }
    {
        self.least_beside(fact).is_some()
    }

    /// Whether the value of `fact` is at most every value of the relation at its key.
    /// Cost: one walk, since a value that is at most the least is at most each.
    pub fn is_level(&self, fact: Fact) -> bool
        ensures { result ≡ level_with fact self.now }
    {
        self.least_beside(fact)
            .is_none_or(|least| fact.value <= least.value)
    }
}

/// A walk through a relation, seen as the list of the facts that are still to come.
#[derive(Drop)]
pub struct Walk<'a, S: Store> {
    store: &'a S,
    from: Fact,
}

impl<'a, S: Store> Model for Walk<'a, S> {
    ghost Value = { List Fact };

    ghost view = { λ w. ahead w.from (S.meaning w.store.now).facts };
}

impl<'a, S: Store> Iterator for Walk<'a, S> {
    ghost use Rattle.std.specs.Iterator.{YieldsFirst, item_count};

    type Item = Fact;

    ghost next_gives = { YieldsFirst (λ left. left) };

    ghost remaining = { item_count (λ left. left) };

    /// The next fact. Cost: one walk.
    fn next(&mut self) -> Option<Fact> {
        let fact = self.store.walk(self.from)?;
        self.from = fact.past();
        Some(fact)
    }
}
