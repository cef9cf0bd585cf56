//! Texts put into a buffer one after another. Where the buffer has no room a text is only counted, so the same calls on an
//! empty buffer give a text's length.
ghost use Rattle.std.specs.Prelude.{◌≡◌};
ghost use Rattle.writer.specs.Places.{Gains};

use itoa::{Buffer, Integer};

/// A buffer, and the place past the texts that were put.
// Stays: the place also goes past the buffer's end, by which the same calls count a text.
#[derive(Drop)]
pub(crate) struct Sink<'a> {
    pub(crate) out: &'a mut [u8],
    pub(crate) at: usize,
}

impl<'a> Sink<'a> {
    /// Nothing is put yet.
    pub(crate) fn new(out: &'a mut [u8]) -> Sink<'a>
        ensures same { result.out.ghost_name ≡ out.entry.ghost_name }
        ensures buffer { result.out.now ≡ out.old }
        ensures start { result.at ≡ 0 }
    {
        Sink { out, at: 0 }
    }

    pub(crate) fn put(&mut self, text: &[u8])
        ensures { Gains self.old self.new text.now }
    {
        let end = self.at.saturating_add(text.len());
        if end <= self.out.len() {
            self.out[self.at..end].copy_from_slice(text);
        }
        self.at = end;
    }

    /// The number as `{}` prints it.
    pub(crate) fn put_number<I: Integer>(&mut self, n: I)
        ensures { Gains self.old self.new (I.text n) }
    {
        let mut digits = Buffer::new();
        self.put(digits.format(n).as_bytes());
    }
}
