//! The run at the front of a text.
ghost use Rattle.std.specs.Prelude.{◌≡◌, ◌<◌, ◌≤◌, ◌∷◌, length, take, drop, take_while};
ghost use Rattle.items.specs.Items.{class_of as expected-class, goes_on, first, runs};

/// What a byte can begin: a bracket, a space, a newline, a run of letters, a run for a number, or nothing.
#[derive(Clone, Copy, PartialEq, Eq, Debug)]
pub enum Class {
    Open,
    Close,
    Space,
    Newline,
    Letter,
    Digit,
    Other,
}

pub(crate) fn class_of(b: u8) -> Class
    ensures { result ≡ expected-class b }
{
    match b {
        b'(' => Class::Open,
        b')' => Class::Close,
        b' ' => Class::Space,
        b'\n' => Class::Newline,
        b'a'..=b'z' => Class::Letter,
        b'0'..=b'9' | b'-' => Class::Digit,
        _ => Class::Other,
    }
}

impl Class {
    /// Whether a byte goes on with a run of this class: letters run together, and so do digits and minus signs.
    fn goes_on(self, b: u8) -> bool
        ensures { result ≡ goes_on self b }
    {
        match self {
            Class::Letter => b.is_ascii_lowercase(),
            Class::Digit => b.is_ascii_digit() || b == b'-',
            _ => false,
        }
    }
}

/// How many bytes from the front on go on with a run of the class.
fn going_on(class: Class, text: &[u8]) -> usize
    ensures { result ≡ length (take_while (goes_on class) text.now) }
{
    text.iter().take_while(|b| class.goes_on(**b)).count()
}

/// The length of the run at the front, which is of that class. Cost: that length.
pub(crate) fn run_len(class: Class, text: &[u8]) -> usize
    requires some { 0 < length text.now }
    requires class { class ≡ expected-class (first text.now) }
    ensures some { 0 < result }
    ensures within { result ≤ length text.now }
    ensures front { runs text.now ≡ take result text.now ∷ runs (drop result text.now) }
{
    1 + going_on(class, &text[1..])
}
