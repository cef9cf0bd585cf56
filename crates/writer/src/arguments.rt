//! Puts the arguments of a node.
ghost use Rattle.std.specs.Prelude.{map, [], ◌∷◌, pos, Some};
ghost use Rattle.grammar.specs.Entries.{entry_of, window};
ghost use Rattle.grammar.specs.TableText.{arg_text, spaced};
ghost use Rattle.writer.specs.Places.{Gains};

use crate::sink::Sink;
use syntax::{Node, Query, Window};

impl Sink<'_> {
    /// Each after a space: a number, or the word for no bound.
    fn put_each(&mut self, arguments: &[Option<i64>])
        ensures { Gains self.old self.new (spaced (map arg_text arguments.now)) }
    {
        for argument in arguments {
            self.put(b" ");
            match *argument {
                Some(n) => self.put_number(n),
                None => self.put(b"end"),
            }
        }
    }

    fn put_window(&mut self, w: Window)
        ensures { Gains self.old self.new (spaced (map arg_text (window w))) }
    {
        self.put_each(&[Some(i64::from(w.low)), w.high.map(i64::from)]);
    }

    /// A relation, and two numbers.
    fn put_three(&mut self, relation: u8, first: i64, second: i64)
        ensures { Gains self.old self.new (spaced (map arg_text (Some (pos relation) ∷ Some first ∷ Some second ∷ []))) }
    {
        self.put_each(&[Some(i64::from(relation)), Some(first), Some(second)]);
    }

    fn put_query(&mut self, query: Query)
        ensures { Gains self.old self.new (spaced (map arg_text (entry_of (Node.Query query)).args)) }
    {
        // Stays: of `Query::Some(r, l, h) | Query::Every(r, l, h)` the check says "a bug in rattle": an i32 that two variants
        // bind in one arm is of type "(denote.Struct.Field.i32-field).Value" to it.
        match query {
            Query::Some(r, l, h) => self.put_three(r, i64::from(l), i64::from(h)),
            Query::Every(r, l, h) => self.put_three(r, i64::from(l), i64::from(h)),
            Query::Fact(r, k, v) => self.put_three(r, i64::from(k), i64::from(v)),
            Query::Number(r, p, q) => self.put_three(r, i64::from(p), i64::from(q)),
            Query::Refer(r, s) | Query::Level(r, s) => self.put_each(&[
                Some(i64::from(r)),
                Some(i64::from(s)),
            ]),
        }
    }

    pub(crate) fn put_arguments(&mut self, node: Node)
        ensures { Gains self.old self.new (spaced (map arg_text (entry_of node).args)) }
    {
        match node {
            Node::Query(query) => self.put_query(query),
            Node::Next(w, _)
            | Node::AllNext(w, _)
            | Node::Sometime(w, _)
            | Node::Always(w, _)
            | Node::Until(w, _, _)
            | Node::Previous(w, _)
            | Node::Once(w, _)
            | Node::SoFar(w, _)
            | Node::Since(w, _, _) => self.put_window(w),
            _ => self.put_each(&[]),
        }
    }
}
