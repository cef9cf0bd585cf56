//! Items taken from a text one by one.
ghost use Rattle.std.specs.Prelude.{◌≡◌, ◌+◌, ◌^◌, ◌<◌, [], ◌∷◌, length, ◌==◌, true, MatchBool};
ghost use Rattle.items.specs.Items.{items, end_of, runs, past as past-run};
ghost use Rattle.items.specs.Cursors.{items_left, end_left, first_item, other_items, place_of};
ghost use Rattle.items.specs.Marks.{stands_alone, StartsOtherwise, TakesIf};

use crate::cursor::Cursor;
use crate::item::{Item, Kind, Place};
use crate::run::Run;

impl<'a> Cursor<'a> {
    /// At the start of a text. Cost: constant.
    pub fn new(text: &'a [u8]) -> Cursor<'a>
        ensures items { items_left result ≡ items text.now }
        ensures end { end_left result ≡ end_of text.now }
    {
        Cursor {
            rest: text,
            place: Place { line: 1, byte: 1 },
        }
    }

    /// The place of the next item, or one past the end. Cost: constant.
    pub fn place(&self) -> Place
        ensures { result ≡ place_of (items_left self.now) (end_left self.now) }
    {
        self.place
    }

    /// Whether nothing is left. Cost: constant.
    pub fn is_empty(&self) -> bool
        ensures { result ≡ (length (items_left self.now) == 0) }
    {
        self.rest.is_empty()
    }

    /// Takes the next item, if there is one. Cost: the item's length.
    pub fn take(&mut self) -> Option<Item>
        ensures item { result ≡ first_item (items_left self.old) }
        ensures items { items_left self.new ≡ other_items (items_left self.old) }
        ensures end { end_left self.new ≡ end_left self.old }
    {
        let Cursor { rest, place } = *self;
        let (run, after) = Run::front(rest)?;
        *self = Cursor {
            rest: after,
            place: place.past(run),
        };
        Some(Item {
            kind: run.kind(),
            place,
        })
    }

    /// Takes the next item if it is of this kind, and answers whether it is. Cost: the item's length; constant for a
    /// bracket, a space or a newline, which its byte tells.
    pub fn take_if(&mut self, kind: Kind) -> bool
        ensures item { TakesIf kind (items_left self.old) (end_left self.old) result (items_left self.new) }
        ensures end { end_left self.new ≡ end_left self.old }
    {
        match kind {
            Kind::Open => self.take_byte(b'('),
            Kind::Close => self.take_byte(b')'),
            Kind::Space => self.take_byte(b' '),
            Kind::Newline => self.take_byte(b'\n'),
            _ => self.take_kind(kind),
        }
    }

    /// The same for an item of any kind.
    fn take_kind(&mut self, kind: Kind) -> bool
        ensures item { TakesIf kind (items_left self.old) (end_left self.old) result (items_left self.new) }
        ensures end { end_left self.new ≡ end_left self.old }
    {
        let before = *self;
        let Some(item) = self.take() else {
            return false;
        };
        if item.kind != kind {
            *self = before;
            return false;
        }
        true
    }

    /// Takes the next item if it is this one byte, which stands alone: whether it does. Cost: constant.
    fn take_byte(&mut self, byte: u8) -> bool
        requires { stands_alone byte ≡ true }
        ensures { MatchBool result ((runs self.old.rest.now ≡ (byte ∷ []) ∷ runs self.new.rest.now) × (self.new.place ≡ past-run self.old.place (byte ∷ []))) (StartsOtherwise byte self.old.rest.now × ((self.new.rest.now ≡ self.old.rest.now) × (self.new.place ≡ self.old.place))) }
    {
        let Cursor { rest, place } = *self;
        let [first, others @ ..] = rest else {
            return false;
        };
        if *first != byte {
            return false;
        }
        *self = Cursor {
            rest: others,
            place: place.after(byte),
        };
        true
    }
}

impl Place {
    /// The place past a byte that stands here.
    // Stays: apart from `past`, for which a run would have to be made of the one byte and its class.
    fn after(self, byte: u8) -> Place
        requires line { self.line + 1 < 2 ^ 64 }
        requires byte { self.byte + 1 < 2 ^ 64 }
        ensures { result ≡ past-run self (byte ∷ []) }
    {
        let is_newline = byte == b'\n';
        Place {
            line: self.line + usize::from(is_newline),
            byte: if is_newline { 1 } else { self.byte + 1 },
        }
    }
}
