//! The node of a form, from arguments that fit its slots and the nodes of its operands.
ghost use Rattle.std.specs.Prelude.{◌≡◌, [], ◌∷◌, Some};
ghost use Rattle.grammar.specs.declared.shape.Arity.TheVariants.{Zero, One, Two};
ghost use Rattle.grammar.specs.Grammar.{slots, arity, window as window-slots};
ghost use Rattle.grammar.specs.Entries.{entry, entry_of, query_entry, window as window-args};
ghost use Rattle.rules.specs.Fitting.{Fitting};

use crate::narrow::narrow;
use items::item::Form;
use syntax::{Node, Query, Window};

/// A form without operands.
// Stays: `formula` needs the form apart, for its slots and its arity, so a struct of form and arguments, which would say once
// that they fit, would be made of both for the one call that builds the node.
pub(crate) fn leaf(form: Form, args: &[Option<i64>]) -> Node
    requires none { arity form ≡ Zero }
    requires fits { Fitting (slots form) args.now }
    ensures { entry_of result ≡ entry form args.now [] }
{
    match args {
        [] => Node::True,
        [Some(r), Some(s)] => Node::Query(with_two(form, *r, *s)),
        [Some(r), Some(a), Some(b)] => Node::Query(with_three(form, *r, *a, *b)),
        _ => unreachable!(),
    }
}

fn with_two(form: Form, r: i64, s: i64) -> Query
    requires none { arity form ≡ Zero }
    requires fits { Fitting (slots form) (Some r ∷ Some s ∷ []) }
    ensures { query_entry result ≡ entry form (Some r ∷ Some s ∷ []) [] }
{
    match form {
        Form::Refer => Query::Refer(narrow(r), narrow(s)),
        Form::Level => Query::Level(narrow(r), narrow(s)),
        _ => unreachable!(),
    }
}

fn with_three(form: Form, r: i64, a: i64, b: i64) -> Query
    requires none { arity form ≡ Zero }
    requires fits { Fitting (slots form) (Some r ∷ Some a ∷ Some b ∷ []) }
    ensures { query_entry result ≡ entry form (Some r ∷ Some a ∷ Some b ∷ []) [] }
{
    match form {
        Form::Some => Query::Some(narrow(r), narrow(a), narrow(b)),
        Form::Every => Query::Every(narrow(r), narrow(a), narrow(b)),
        Form::Fact => Query::Fact(narrow(r), narrow(a), narrow(b)),
        Form::Number => Query::Number(narrow(r), narrow(a), narrow(b)),
        _ => unreachable!(),
    }
}

/// A form with one operand.
pub(crate) fn unary(form: Form, args: &[Option<i64>], a: usize) -> Node
    requires one { arity form ≡ One }
    requires fits { Fitting (slots form) args.now }
    ensures { entry_of result ≡ entry form args.now (a ∷ []) }
{
    match form {
        Form::Not => Node::Not(a),
        Form::Next => Node::Next(window(args), a),
        Form::AllNext => Node::AllNext(window(args), a),
        Form::Sometime => Node::Sometime(window(args), a),
        Form::Always => Node::Always(window(args), a),
        Form::Previous => Node::Previous(window(args), a),
        Form::Once => Node::Once(window(args), a),
        Form::SoFar => Node::SoFar(window(args), a),
        _ => unreachable!(),
    }
}

/// A form with two operands.
pub(crate) fn binary(form: Form, args: &[Option<i64>], a: usize, b: usize) -> Node
    requires two { arity form ≡ Two }
    requires fits { Fitting (slots form) args.now }
    ensures { entry_of result ≡ entry form args.now (a ∷ b ∷ []) }
{
    match form {
        Form::And => Node::And(a, b),
        Form::Or => Node::Or(a, b),
        Form::Implies => Node::Implies(a, b),
        Form::Until => Node::Until(window(args), a, b),
        Form::Since => Node::Since(window(args), a, b),
        _ => unreachable!(),
    }
}

fn window(args: &[Option<i64>]) -> Window
    requires { Fitting window-slots args.now }
    ensures { args.now ≡ window-args result }
{
    let [Some(low), high] = args else {
        unreachable!()
    };
    Window {
        low: narrow(*low),
        high: high.map(narrow),
    }
}
