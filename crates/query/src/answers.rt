//! The answer of a query.
ghost use Rattle.std.specs.Prelude.{◌≡◌};
ghost use Rattle.query.specs.Meanings.{Meant, Says};
ghost use Rattle.query.specs.Queries.{answer};

use crate::relations::Relation;
use store::{Fact, Store};
use syntax::Query;

/// The query's answer on the facts of the store.
/// Cost: each fact of the query's relation at most once, as far as the first that decides, with one walk more for each
/// by `Refer` and `Level`; `Fact` is one question.
pub fn ask<S: Store>(store: &S, query: Query) -> bool
    ensures value { result ≡ answer query (S.meaning store.now).facts }
    ensures words { Says result (Meant query (S.meaning store.now).facts) }
{
    match query {
        Query::Some(relation, low, high) => {
            Relation::new(store, relation)
                .facts()
                .any(|fact| fact.value_in(low, high))
        }
        Query::Every(relation, low, high) => {
            Relation::new(store, relation)
                .facts()
                .all(|fact| fact.value_in(low, high))
        }
        Query::Fact(relation, key, value) => store.contains(Fact::new(relation, key, value)),
        Query::Number(relation, low, high) => Relation::new(store, relation).has_number(low, high),
        Query::Refer(relation, other) => {
            let others = Relation::new(store, other);
            Relation::new(store, relation)
                .facts()
                .all(|fact| others.has_key(fact))
        }
        Query::Level(relation, other) => {
            let others = Relation::new(store, other);
            Relation::new(store, relation)
                .facts()
                .all(|fact| others.is_level(fact))
        }
    }
}
