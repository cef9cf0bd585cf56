//! Takes one item after another.
ghost use Rattle.std.specs.Prelude.{◌≡◌, ◌<◌, ◌≤◌, true, length, pos, IfOk};
ghost use Rattle.grammar.specs.Entries.{entry_of};
ghost use Rattle.grammar.specs.declared.fault.FaultKind.TheVariants.{Misfit};
ghost use Rattle.grammar.specs.Reading.{fault_at, next, any, is, arg as expected-arg, argument as fits_slot, opening as form-opening, closing as form-closing, word as form_word};
ghost use Rattle.grammar.specs.Files.{rule_opening};
ghost use Rattle.rules.specs.Fitting.{Fitting};
ghost use Rattle.rules.specs.Reads.{state_of, Reads, ReadsAs, args_from, is_bare};

use crate::reader::Reader;
use arrayvec::ArrayVec;
use grammar::fault::{FaultKind, ReadFault};
use grammar::fit::fit;
use grammar::shape::Slot;
use items::item::{Form, Item, Kind, Place};
use syntax::Node;

/// A fault of this kind at this place.
pub(crate) fn fault(kind: FaultKind, place: Place) -> ReadFault
    ensures { result ≡ record { kind = kind; place = place } }
{
    ReadFault { kind, place }
}

/// What an item that fits a slot stands for: its number, or none for the word `end`.
fn arg(item: Item) -> Option<i64>
    ensures { result ≡ expected-arg item }
{
    match item.kind {
        Kind::End => None,
        _ => Some(item.number()),
    }
}

impl<'a> Reader<'a> {
    /// Another item is wanted here.
    fn misfit(&self) -> ReadFault
        ensures { result ≡ fault_at (state_of self.now) Misfit }
    {
        fault(FaultKind::Misfit, self.items.place())
    }

    fn item(&mut self) -> Result<Item, ReadFault>
        ensures { Reads result (next any (state_of self.old)) (state_of self.new) }
    {
        // Stays: with `ok_or_else(|| self.misfit())` the check did not prove `returns`.
        match self.items.take() {
            Some(item) => Ok(item),
            None => Err(self.misfit()),
        }
    }

    /// An item of this kind, which holds nothing more.
    pub(crate) fn expect(&mut self, kind: Kind) -> Result<(), ReadFault>
        requires { is_bare kind ≡ true }
        ensures { Reads result (next (is kind) (state_of self.old)) (state_of self.new) }
    {
        if !self.items.take_if(kind) {
            return Err(self.misfit());
        }
        Ok(())
    }

    // Stays: apart from `word`, since one function for any test would owe in its contract how the closure's answer is the
    // test's, which is more than either body.
    pub(crate) fn argument(&mut self, slot: Slot, before: i64) -> Result<Item, ReadFault>
        ensures { Reads result (next (fits_slot slot before) (state_of self.old)) (state_of self.new) }
    {
        let item = self.item()?;
        fit(slot, before, item).map_err(|kind| fault(kind, item.place))
    }

    fn word(&mut self) -> Result<Form, ReadFault>
        ensures { Reads result (next form_word (state_of self.old)) (state_of self.new) }
    {
        let item = self.item()?;
        let Kind::Form(form) = item.kind else {
            return Err(fault(FaultKind::Misfit, item.place));
        };
        Ok(form)
    }

    /// The opening bracket of a formula, with this many levels left, and its word.
    pub(crate) fn opening(&mut self, levels: usize) -> Result<Form, ReadFault>
        ensures { Reads result (form-opening levels (state_of self.old)) (state_of self.new) }
    {
        // The place is looked at only where it is told.
        if levels == 0 || self.opened >= 64 {
            let place = self.items.place();
            self.expect(Kind::Open)?;
            return Err(fault(FaultKind::TooMany, place));
        }
        self.expect(Kind::Open)?;
        self.opened += 1;
        self.word()
    }

    /// The opening bracket of a rule, with this many before it.
    pub(crate) fn rule_opening(&mut self, before: usize) -> Result<(), ReadFault>
        ensures { Reads result (rule_opening before (state_of self.old)) (state_of self.new) }
    {
        let place = self.items.place();
        self.expect(Kind::Open)?;
        if before >= 16 {
            return Err(fault(FaultKind::TooMany, place));
        }
        Ok(())
    }

    /// The arguments for these slots, each after a space.
    pub(crate) fn arguments(
        &mut self,
        slots: &[Slot],
    ) -> Result<ArrayVec<Option<i64>, 3>, ReadFault>
        requires { length slots.now ≤ 3 }
        ensures read { ReadsAs (λ v. v.items) result (args_from slots.now (pos 0) (state_of self.old)) (state_of self.new) }
        ensures fits { IfOk result (λ v. Fitting slots.now v.items) }
    {
        let mut args = ArrayVec::new();
        let mut before = 0;
        for slot in slots {
            self.expect(Kind::Space)?;
            let item = self.argument(*slot, before)?;
            args.push(arg(item));
            before = item.number();
        }
        Ok(args)
    }

    /// The closing bracket of a formula, which adds its node: the node's number.
    pub(crate) fn closing(&mut self, node: Node) -> Result<usize, ReadFault>
        requires { length (state_of self.old).nodes < self.old.opened }
        ensures { Reads result (form-closing (entry_of node) (state_of self.old)) (state_of self.new) }
    {
        self.expect(Kind::Close)?;
        let number = self.nodes.len();
        self.nodes.push_reserved(node);
        Ok(number)
    }
}
