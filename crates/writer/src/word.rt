//! The word of a node.
ghost use Rattle.std.specs.Prelude.{◌≡◌};
ghost use Rattle.grammar.specs.Entries.{entry_of};
ghost use Rattle.items.specs.Tokens.{word_text};

use syntax::{Node, Query};

fn query_word(query: Query) -> &'static [u8]
    ensures { result.now ≡ word_text (entry_of (Node.Query query)).word }
{
    match query {
        Query::Some(_, _, _) => b"some",
        Query::Every(_, _, _) => b"every",
        Query::Fact(_, _, _) => b"fact",
        Query::Number(_, _, _) => b"number",
        Query::Refer(_, _) => b"refer",
        Query::Level(_, _) => b"level",
    }
}

pub(crate) fn word_of(node: Node) -> &'static [u8]
    ensures { result.now ≡ word_text (entry_of node).word }
{
    match node {
        Node::True => b"true",
        Node::Query(query) => query_word(query),
        Node::Not(_) => b"not",
        Node::And(_, _) => b"and",
        Node::Or(_, _) => b"or",
        Node::Implies(_, _) => b"implies",
        Node::Next(_, _) => b"next",
        Node::AllNext(_, _) => b"allnext",
        Node::Sometime(_, _) => b"sometime",
        Node::Always(_, _) => b"always",
        Node::Until(_, _, _) => b"until",
        Node::Previous(_, _) => b"previous",
        Node::Once(_, _) => b"once",
        Node::SoFar(_, _) => b"sofar",
        Node::Since(_, _, _) => b"since",
    }
}
