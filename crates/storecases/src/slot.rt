//! A store with one place: the smallest example of what the author of a store writes.
ghost use Rattle.std.specs.Prelude.{◌≡◌, true};
ghost use Rattle.store.specs.Facts.{in_range};
ghost use Rattle.store.specs.Stores.{empty};
ghost use Rattle.storecases.specs.Slots.{slot_meaning, slot_ranged};
ghost use Rattle.storecases.specs.SlotsLemmas.{slot_lawful};

use store::{Fact, Store, StoreFault, is_in_range};

#[derive(Drop)]
pub struct SlotStore {
    held: Option<Fact>,
    ghost ranged: { slot_ranged held ≡ true },
}

impl SlotStore {
    pub fn new() -> SlotStore
        ensures { slot_meaning result.held ≡ empty in_range 1 }
    {
        SlotStore { held: None }
    }
}

impl Store for SlotStore {
    ghost meaning = { λ s. slot_meaning s.held };

    ghost lawful = { λ s. slot_lawful s.held s.ranged };

    #[tactic(auto, unfolding(store::specs::Facts::same))]
    fn contains(&self, fact: Fact) -> bool {
        self.held == Some(fact)
    }

    fn count(&self) -> usize {
        usize::from(self.held.is_some())
    }

    fn takes_fact(&self, fact: Fact) -> bool {
        is_in_range(fact)
    }

    fn capacity(&self) -> usize {
        1
    }

    #[tactic(auto, unfolding(store::specs::Facts::at_or_after, store::specs::Facts::before))]
    fn walk(&self, start: Fact) -> Option<Fact> {
        self.held
            .filter(|held| held.relation == start.relation && *held >= start)
    }

    fn put(&mut self, fact: Fact) -> Result<bool, StoreFault> {
        if !is_in_range(fact) {
            return Err(StoreFault::NotTaken);
        }
        if self.contains(fact) {
            return Ok(false);
        }
        if self.held.is_some() {
            return Err(StoreFault::Full);
        }
        self.held = Some(fact);
        Ok(true)
    }

    fn drop_fact(&mut self, fact: Fact) -> bool {
        if !self.contains(fact) {
            return false;
        }
        self.held = None;
        true
    }
}
