//! The beginning and the end of a session, and the verdicts.
ghost use Rattle.std.specs.Prelude.{◌≡◌};
ghost use Rattle.session.specs.Book.{Opened, Pasts, HoldsCurrent};
ghost use Rattle.session.specs.Law.{Law};
ghost use Rattle.session.specs.View.{view, opened, ended, asked, Did};

use crate::fault::*;
use crate::room::Room;
use crate::session::Session;
use eval::evaluated::EvaluatedRecord;
use rules::table::Table;
use store::Store;
use truth::Three;

impl<'t, S: Store> Session<'t, S> {
    /// Opens a session over the facts that the store holds. Never refused, since the room is there. Cost: constant.
    ///
    /// Clause `pasts`: every session that was opened, and then called, has a past of which the law speaks.
    pub fn open(store: S, table: &'t Table, number: u16, room: Room) -> Self
        ensures after { view S.Store.meaning result ≡ opened table.now number (S.Store.meaning store) }
        ensures first { Opened (view S.Store.meaning result) }
        ensures pasts { Pasts }
    {
        let Room { undo, states } = room;
        Session {
            store,
            number,
            begins: 0,
            changing: false,
            undo,
            states: EvaluatedRecord::new(table, states),
        }
    }

    /// Gives the store back. Cost: constant.
    ///
    /// Clause `book`: whatever was called since the opening, the store holds the book's current set.
    pub fn close(self) -> S
        ensures store { S.Store.meaning result ≡ (view S.Store.meaning self.entry).store }
        ensures book { HoldsCurrent (view S.Store.meaning self.entry) }
    {
        // Stays: `..` is refused where the type is not `Drop`.
        let Session {
            store,
            number: _,
            begins: _,
            changing: _,
            undo: _,
            states: _,
        } = self;
        store
    }

    /// Closes the record, with or without states. Cost: a look at the value of each node at each state from the first with
    /// an undecided value on, and, for each that is undecided, the states up to its window's end; no allocation.
    ///
    /// Refused with 52 while a change is open, 53 after finish.
    pub fn finish(&mut self) -> Result<(), SessionFault>
        ensures { Did (view S.Store.meaning self.old) (ended result) (view S.Store.meaning self.new) }
    {
        if self.changing {
            return Err(SessionFault::ChangeOpen);
        }
        if self.states.is_finished() {
            return Err(SessionFault::Finished);
        }
        self.states.finish();
        Ok(())
    }

    /// What a rule comes to at a committed state: true, false or undecided. Cost: the rules once, and a look-up.
    ///
    /// Clause `law`: whatever was called since the opening, true or false is the rule's plain truth there in every
    /// finished history that begins with the committed states, it stays, and it comes once the reach has passed.
    /// Refused with 25 if no rule has the number, 59 if the state is not committed.
    pub fn verdict(&self, rule: u8, state: usize) -> Result<Three, SessionFault>
        ensures answer { Did (view S.Store.meaning self.now) (asked rule state result) (view S.Store.meaning self.now) }
        ensures law { Law (view S.Store.meaning self.now) rule state result }
    {
        let root = self.states.table().root(rule);
        let node = root.ok_or(SessionFault::UnknownRule)?;
        let value = self.states.value_at(node, state);
        value.ok_or(SessionFault::NoSuchState)
    }
}
