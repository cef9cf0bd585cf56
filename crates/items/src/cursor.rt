//! What is left of a text, cut item by item.
ghost use Rattle.std.specs.Prelude.{◌+◌, ◌^◌, ◌<◌, length};

use crate::item::Place;

/// The bytes left, and the place of the first of them in the whole text.
#[derive(Clone, Copy)]
pub struct Cursor<'a> {
    pub(crate) rest: &'a [u8],
    pub(crate) place: Place,
    ghost lines: { place.line + length rest.now < 2 ^ 64 },
    ghost bytes: { place.byte + length rest.now < 2 ^ 64 },
}
