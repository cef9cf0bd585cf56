//! From where a temporal operator looks.
ghost use Rattle.std.specs.Prelude.{◌≡◌, ◌<◌, true, length};
ghost use Rattle.eval.specs.Stamps.{rising};

use syntax::Window;

/// A state of a record, from which an operator looks through its window over the others.
#[derive(Clone, Copy)]
pub(crate) struct Outlook<'a> {
    pub stamps: &'a [u64],
    pub state: usize,
    pub window: Window,
    ghost rises: { rising stamps.now ≡ true },
    ghost inside: { state < length stamps.now },
}
