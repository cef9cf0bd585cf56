//! Holds the session to a second one, written the plainest way, on chosen and on random calls over both stores, and prints
//! what was compared.
#![tactic(auto)]

/// A fact by its relation, key and value, for constants, whose values may call no function.
macro_rules! fact {
    ($relation:expr, $key:expr, $value:expr) => {
        Fact {
            relation: $relation,
            key: $key,
            value: $value,
        }
    };
}

mod calls;
mod cases;
mod model;
mod plain;
mod rounds;
mod tally;

use anyhow::{bail, ensure};
use calls::Refused;
use cases::both_stores;
use plain::Value;
use rounds::{limit_rounds, random_rounds};
use rules::table::Table;
use tally::Tally;

/// Every form of the language; `plain` has the same formulas a second time.
const RULES: &[u8] = b"(rule 1 (implies (some 0 5 9) (sometime 0 7 (every 0 0 4))))
(rule 2 (always 0 10 (number 1 0 2)))
(rule 3 (until 0 8 (refer 0 1) (fact 2 1 3)))
(rule 4 (next 1 4 (level 0 1)))
(rule 5 (allnext 0 3 (fact 2 1 3)))
(rule 6 (since 0 9 (number 1 0 2) (some 0 5 9)))
(rule 7 (and (once 2 6 (fact 2 1 3)) (sofar 0 5 (every 0 0 4))))
(rule 8 (or (previous 0 3 (refer 0 1)) (not (always 0 end (level 0 1)))))
(rule 9 (sometime 1 end (true)))
";

/// How many differences are counted of three that are made: a comparison that always held would show only here.
fn counted_differences() -> u64 {
    let mut tally = Tally::default();
    tally.answer(0, 1);
    tally.verdict(Ok(Value::False), Some(Value::True));
    tally.verdict(Err(Refused(59)), Some(Value::True));
    tally.wrong
}

fn run(rt: &HostRuntime) -> anyhow::Result<()> {
    let Ok(table) = Table::new(rt.alloc())?.read(RULES) else {
        bail!("the rules are faulty");
    };
    let mut tally = Tally::default();
    both_stores(rt, &table, &mut tally)?;
    random_rounds(rt, &table, &mut tally)?;
    limit_rounds(rt, &table, &mut tally)?;
    let counted = counted_differences();
    println!(rt; "differences made: 3, counted: {counted}")?;
    let wrong = tally.wrong;
    println!(rt; "wrong: {wrong}")?;
    ensure!(wrong == 0, "the two sessions differ");
    Ok(())
}

fn main(rt: HostRuntime) -> anyhow::Result<()> {
    run(&rt)
}
