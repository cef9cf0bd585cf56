//! The row of a state: bit m, from the lowest, is what query node m answers.
ghost use Rattle.std.specs.Prelude.{◌≡◌};
ghost use Rattle.rules.specs.Tables.{nodes_of};
ghost use Rattle.query.specs.Queries.{node_answer};
ghost use Rattle.query.specs.Rows.{Answers, row_of};

use crate::answers::ask;
use rules::table::Table;
use store::Store;
use syntax::Node;

/// What a node answers: a query node its query, every other node no.
fn node_answer<S: Store>(store: &S, node: Node) -> bool
    ensures { result ≡ node_answer node (S.meaning store.now).facts }
{
    match node {
        Node::Query(query) => ask(store, query),
        _ => false,
    }
}

/// The row of the table's nodes on the facts of the store. Cost: that of each query of the table once.
pub fn row<S: Store>(store: &S, table: &Table) -> u64
    ensures value { result ≡ row_of (nodes_of table.now) (S.meaning store.now).facts }
    ensures answers { Answers (nodes_of table.now) (S.meaning store.now).facts result }
{
    table.nodes().iter().rev().fold(
        0,
        |row, &node| 2 * row + u64::from(node_answer(store, node)),
    )
}
