//! What each form has after its word.
ghost use Rattle.std.specs.Prelude.{◌≡◌};
ghost use Rattle.grammar.specs.Grammar.{slots as expected-slots, arity as expected-arity};

use crate::shape::{Arity, Slot};
use items::item::Form;

const RELATION: Slot = Slot::Range(0, 15);

const KEY: Slot = Slot::Range(0, 65_535);

const VALUE: Slot = Slot::Range(-1_000_000_000, 1_000_000_000);

const HIGH_VALUE: Slot = Slot::Upper(-1_000_000_000, 1_000_000_000);

const COUNT: Slot = Slot::Range(0, 1_000_000);

const HIGH_COUNT: Slot = Slot::Upper(0, 1_000_000);

const FROM: Slot = Slot::Range(0, 1_000_000_000);

const TO: Slot = Slot::UpperOrEnd(0, 1_000_000_000);

/// The arguments of a form, in order. Cost: constant.
pub fn slots(form: Form) -> &'static [Slot]
    ensures { result.now ≡ expected-slots form }
{
    match form {
        Form::True | Form::Not | Form::And | Form::Or | Form::Implies => &[],
        Form::Some | Form::Every => &[RELATION, VALUE, HIGH_VALUE],
        Form::Fact => &[RELATION, KEY, VALUE],
        Form::Number => &[RELATION, COUNT, HIGH_COUNT],
        Form::Refer | Form::Level => &[RELATION, RELATION],
        _ => &[FROM, TO],
    }
}

/// How many formulas follow them. Cost: constant.
pub fn arity(form: Form) -> Arity
    ensures { result ≡ expected-arity form }
{
    match form {
        Form::Not
        | Form::Next
        | Form::AllNext
        | Form::Sometime
        | Form::Always
        | Form::Previous
        | Form::Once
        | Form::SoFar => Arity::One,
        Form::And | Form::Or | Form::Implies | Form::Until | Form::Since => Arity::Two,
        _ => Arity::Zero,
    }
}
