//! What the reader holds.
ghost use Rattle.std.specs.Prelude.{◌≤◌, vec_len, vec_capacity};

use items::cursor::Cursor;
use syntax::Node;

/// The items left, how many formulas were opened, and the nodes closed so far, with room for all that may come.
#[derive(Drop)]
pub(crate) struct Reader<'a> {
    pub(crate) items: Cursor<'a>,
    pub(crate) opened: usize,
    pub(crate) nodes: Vec<Node>,
    ghost few: { opened ≤ 64 },
    ghost closed: { vec_len nodes ≤ opened },
    ghost room: { 64 ≤ vec_capacity nodes },
}
