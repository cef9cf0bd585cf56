//! A run of bytes: its kind, and the place past it.
ghost use Rattle.std.specs.Prelude.{◌≡◌, ◌+◌, ◌^◌, ◌<◌, ◌∷◌, ◌++◌, [], IfSome, MatchOption, length};
ghost use Rattle.items.specs.Items.{class_of, first, kind_of, past as past-run, runs};

use crate::cut::{Class, class_of, run_len};
use crate::item::{Kind, Place};
use crate::number::number;
use crate::word::word;

/// Bytes that stand together, at least one, and the class of the first.
#[derive(Clone, Copy)]
pub(crate) struct Run<'a> {
    pub(crate) bytes: &'a [u8],
    class: Class,
    ghost some: { 0 < length bytes.now },
    ghost classed: { class ≡ class_of (first bytes.now) },
}

impl<'a> Run<'a> {
    /// The run at the front of a text and what stands after it, unless the text is empty. Cost: the run's length.
    pub(crate) fn front(text: &'a [u8]) -> Option<(Run<'a>, &'a [u8])>
        ensures parts { MatchOption result (text.now ≡ []) (λ p. text.now ≡ p.0.bytes.now ++ p.1.now) }
        ensures first { IfSome result (λ p. runs text.now ≡ p.0.bytes.now ∷ runs p.1.now) }
    {
        let class = class_of(*text.first()?);
        let (bytes, after) = text.split_at(run_len(class, text));
        Some((Run { bytes, class }, after))
    }

    /// The kind of the item that it is. Cost: its length.
    pub(crate) fn kind(self) -> Kind
        ensures { result ≡ kind_of self.entry.bytes.now }
    {
        match self.class {
            Class::Open => Kind::Open,
            Class::Close => Kind::Close,
            Class::Space => Kind::Space,
            Class::Newline => Kind::Newline,
            Class::Letter => word(self.bytes),
            Class::Digit => number(self.bytes).map_or(Kind::Misspelt, Kind::Number),
            Class::Other => Kind::Other,
        }
    }
}

impl Place {
    /// The place past a run that stands here.
    pub(crate) fn past(self, run: Run) -> Place
        requires line { self.line + 1 < 2 ^ 64 }
        requires byte { self.byte + length run.bytes.now < 2 ^ 64 }
        ensures { result ≡ past-run self run.entry.bytes.now }
    {
        if run.bytes[0] == b'\n' {
            return Place {
                line: self.line + 1,
                byte: 1,
            };
        }
        Place {
            line: self.line,
            byte: self.byte + run.bytes.len(),
        }
    }
}
