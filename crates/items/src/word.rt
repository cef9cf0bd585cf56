//! The words of the grammar.
ghost use Rattle.std.specs.Prelude.{◌≡◌};
ghost use Rattle.items.specs.Items.{word_kind};

use crate::item::{Form, Kind};

#[tactic(auto, using(crate::proofs::Words::letters))]
pub(crate) fn word(run: &[u8]) -> Kind
    ensures { result ≡ word_kind run.now }
{
    let form = match run {
        b"rule" => return Kind::Rule,
        b"end" => return Kind::End,
        b"true" => Form::True,
        b"some" => Form::Some,
        b"every" => Form::Every,
        b"fact" => Form::Fact,
        b"number" => Form::Number,
        b"refer" => Form::Refer,
        b"level" => Form::Level,
        b"not" => Form::Not,
        b"and" => Form::And,
        b"or" => Form::Or,
        b"implies" => Form::Implies,
        b"next" => Form::Next,
        b"allnext" => Form::AllNext,
        b"sometime" => Form::Sometime,
        b"always" => Form::Always,
        b"until" => Form::Until,
        b"previous" => Form::Previous,
        b"once" => Form::Once,
        b"sofar" => Form::SoFar,
        b"since" => Form::Since,
        _ => return Kind::Other,
    };
    Kind::Form(form)
}
