//! Finished histories of fact sets and the plain truth of a rule in them (`specs/Histories.antt`), by the same
//! definitions of the queries that crate `query` is proved against.
#![tactic(auto)]

ghost use Rattle.history.specs.Worked.{WorkedFacts};

/// Nothing to run: its contract is the worked facts about the definitions.
pub fn worked_facts()
    ensures { WorkedFacts }
{}
