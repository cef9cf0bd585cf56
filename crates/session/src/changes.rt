//! The changes of a session.
ghost use Rattle.std.specs.Prelude.{◌≡◌};
ghost use Rattle.session.specs.Book.{BringsBack};
ghost use Rattle.session.specs.Refusals.{smallest, unless};
ghost use Rattle.session.specs.Steps.{put_guard, restored};
ghost use Rattle.session.specs.View.{view, Event, began, dropped, committed, withdrew, Did, owned, commit_reasons, undone};

use crate::alterations::Alteration;
use crate::fault::*;
use crate::session::Session;
use crate::slip::*;
use query::row;
use store::{Fact, Store, is_in_range};

impl<'t, S: Store> Session<'t, S> {
    /// Opens a change and gives its slip. Cost: constant.
    ///
    /// Refused with 52 while a change is open, 53 after finish, 54 after a million changes.
    pub fn begin(&mut self) -> Result<Slip, SessionFault>
        ensures { Did (view S.Store.meaning self.old) (began result) (view S.Store.meaning self.new) }
    {
        if self.changing {
            return Err(SessionFault::ChangeOpen);
        }
        if self.states.is_finished() {
            return Err(SessionFault::Finished);
        }
        if self.begins >= 1_000_000 {
            return Err(SessionFault::TooManyBegins);
        }
        self.begins += 1;
        self.changing = true;
        self.undo.clear();
        Ok(Slip {
            session: self.number,
            change: self.begins,
        })
    }

    /// Whether the slip is the open change's.
    fn owns(&self, slip: &Slip) -> bool
        ensures { result ≡ owned (view S.Store.meaning self.now) slip.now }
    {
        self.changing && slip.session == self.number && slip.change == self.begins
    }

    /// Adds a fact to the store. The answer is whether it was absent. Cost: a look and a put of the store.
    ///
    /// Refused with 23 if the fact is out of range, 31 if the store does not take it, 51 if the slip is not the open
    /// change's, 57 if it would be a 65th alteration, 58 if the store is full. 31 and 58 are the store's own
    /// refusals, with the slip's change beside them.
    pub fn put(&mut self, slip: &Slip, fact: Fact) -> Result<bool, SessionFault>
        ensures { Did (view S.Store.meaning self.old) (Event.put slip.now fact result) (view S.Store.meaning self.new) }
    {
        self.may_put(slip, fact)?;
        let change = slip.change;
        let answer = self.store.put(fact);
        let added = answer.map_err(|fault| InChange { fault, change })?;
        if added {
            self.undo.push(Alteration::Added(fact));
        }
        Ok(added)
    }

    /// The refusals of a put that are not the store's. A fact that the store does not take is left to the store.
    fn may_put(&self, slip: &Slip, fact: Fact) -> Result<(), SessionFault>
        ensures { result ≡ put_guard (view S.Store.meaning self.now) slip.now fact }
    {
        if !is_in_range(fact) {
            return Err(SessionFault::OutOfRange);
        }
        if !self.store.takes_fact(fact) {
            return Ok(());
        }
        if !self.owns(slip) {
            return Err(SessionFault::NotOpenChange);
        }
        if !self.store.contains(fact) && self.undo.len() >= 64 {
            return Err(SessionFault::TooManyAlterations);
        }
        Ok(())
    }

    /// Removes a fact from the store. The answer is whether it was present. Cost: a look and a drop of the store.
    ///
    /// Refused with 23 if the fact is out of range, 51 if the slip is not the open change's, 57 if it would be a
    /// 65th alteration.
    pub fn drop_fact(&mut self, slip: &Slip, fact: Fact) -> Result<bool, SessionFault>
        ensures { Did (view S.Store.meaning self.old) (dropped slip.now fact result) (view S.Store.meaning self.new) }
    {
        if !is_in_range(fact) {
            return Err(SessionFault::OutOfRange);
        }
        if !self.owns(slip) {
            return Err(SessionFault::NotOpenChange);
        }
        if self.store.contains(fact) && self.undo.len() >= 64 {
            return Err(SessionFault::TooManyAlterations);
        }
        let removed = self.store.drop_fact(fact);
        if removed {
            self.undo.push(Alteration::Removed(fact));
        }
        Ok(removed)
    }

    /// Makes the store's facts the next state, at the stamp. A refused commit gives the slip back.
    /// Cost: the row of the table's queries, a look at the value of each node at each state from the first with an
    /// undecided value on, and, for each that is undecided, the states up to its window's end; no allocation.
    ///
    /// Refused with 24 if the stamp is above 4,000,000,000, 51 if the slip is not the open change's, 55 if the stamp
    /// is not later than the last, 56 if 512 states are committed.
    pub fn commit(&mut self, slip: Slip, stamp: u64) -> Result<(), CommitRefused>
        ensures { Did (view S.Store.meaning self.old) (committed slip stamp result) (view S.Store.meaning self.new) }
    {
        // Stays: the closure of a `map_err` would take the slip, refused or not.
        if let Err(fault) = self.may_commit(&slip, stamp) {
            return Err(CommitRefused { slip, fault });
        }
        slip.spend();
        let row = row(&self.store, self.states.table());
        self.states.push(stamp, row).unwrap();
        self.undo.clear();
        self.changing = false;
        Ok(())
    }

    /// The refusals of a commit.
    fn may_commit(&self, slip: &Slip, stamp: u64) -> Result<(), SessionFault>
        ensures { result ≡ unless (smallest (commit_reasons (view S.Store.meaning self.now) slip.now stamp)) tt }
    {
        if stamp > 4_000_000_000 {
            return Err(SessionFault::StampTooLarge);
        }
        if !self.owns(slip) {
            return Err(SessionFault::NotOpenChange);
        }
        if self.states.last_stamp().is_some_and(|last| stamp <= last) {
            return Err(SessionFault::StampNotLater);
        }
        if self.states.len() >= 512 {
            return Err(SessionFault::TooManyStates);
        }
        Ok(())
    }

    /// Restores the set from before the change began, and says how many alterations that took.
    /// With a slip that is not the open change's it answers none and changes nothing; the slip is used up.
    /// Cost: a put or a drop of the store for each alteration.
    ///
    /// Clause `book`: whatever was called since the opening, the set is the book's kept set, and the number that of the
    /// puts and drops since begin that answered true.
    pub fn withdraw(&mut self, slip: Slip) -> Option<usize>
        ensures answer { Did (view S.Store.meaning self.old) (withdrew slip result) (view S.Store.meaning self.new) }
        ensures book { BringsBack (view S.Store.meaning self.old) result (view S.Store.meaning self.new) }
    {
        let open = self.owns(&slip);
        slip.spend();
        if !open {
            return None;
        }
        let count = self.undo.len();
        self.undo_all();
        self.changing = false;
        Some(count)
    }

    /// Takes the alterations of the open change back, the latest first.
    fn undo_all(&mut self)
        ensures { view S.Store.meaning self.new ≡ restored (view S.Store.meaning self.old) }
    {
        while let Some(step) = self.undo.pop() {
            take_back(&mut self.store, step);
        }
    }
}

// Stays: an alteration is kept as data, since a closure would hold the store that the calls in between alter.
fn take_back<S: Store>(store: &mut S, step: Alteration)
    ensures { S.Store.meaning store.new ≡ undone step (S.Store.meaning store.old) }
{
    match step {
        Alteration::Added(fact) => {
            store.drop_fact(fact);
        }
        // The store held the fact when it was removed, so it takes it and has a place for it again.
        Alteration::Removed(fact) => {
            let _ = store.put(fact);
        }
    }
}
