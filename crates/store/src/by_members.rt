//! A store's calls in the words of sets. Each function is the method of its name, so it costs what that costs; its
//! contract says what became of the members, without the list that a meaning keeps them in.
ghost use Rattle.store.specs.Members.{PutResult, DropResult, WalkResult};

use crate::facts::Fact;
use crate::stores::{Store, StoreFault};

/// Adds the fact and answers whether it was absent.
#[tactic(auto, using(crate::proofs::Theorems::put_result))]
pub fn put<S: Store>(store: &mut S, fact: Fact) -> Result<bool, StoreFault>
    ensures { PutResult fact (S.meaning store.old) (S.meaning store.new) result }
{
    store.put(fact)
}

/// Removes the fact and answers whether it was present.
pub fn drop_fact<S: Store>(store: &mut S, fact: Fact) -> bool
    ensures { DropResult fact (S.meaning store.old) (S.meaning store.new) result }
{
    store.drop_fact(fact)
}

/// The first fact of the start's relation at or after the start.
#[tactic(auto, using(crate::proofs::Theorems::walk_result))]
pub fn walk<S: Store>(store: &S, start: Fact) -> Option<Fact>
    ensures { WalkResult start (S.meaning store.now).facts result }
{
    store.walk(start)
}
