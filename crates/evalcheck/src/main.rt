//! Compares the evaluator with a second one, written another way, on random tables and records.
//! It prints what it compared, and ends with status 1 if anything differed.
#![tactic(auto)]

mod chance;
mod compare;
mod facts;
mod grow;
mod second;
mod tally;
mod tree;

use anyhow::{bail, ensure};
use chance::Random;
use compare::Case;
use rules::table::Table;
use tally::Tally;

const TABLES: u32 = 3000;

/// One table in four is as large as a table can be, and one record in sixteen is long.
fn run_one(random: &mut Random, tally: &mut Tally) -> anyhow::Result<()> {
    let formulas = if random.one_in(4) {
        64
    } else {
        1 + random.up_to(30)
    };
    let rules = random.rules(formulas)?;
    let text = rules.text.as_bytes();
    tally.note_depth(levels(text));
    let states = if random.one_in(16) {
        random.up_to(40)
    } else {
        random.up_to(9)
    };
    let record = random.record(states)?;
    let count = random.up_to(12);
    let facts = random.facts(count)?;
    let Ok(table) = Table::new(random.heap)?.read(text) else {
        bail!("a table was refused");
    };
    let case = Case {
        heap: random.heap,
        rules: rules.rules.as_slice(),
        table: &table,
        record: &record,
    };
    case.compare_rows(&facts, tally)?;
    case.compare_record(tally)
}

/// How deep formulas lie in each other: the most brackets open at a time, but for the rule's own.
fn levels(text: &[u8]) -> usize {
    let open = text.iter().scan(0usize, |open, byte| {
        *open = match *byte {
            b'(' => open.saturating_add(1),
            b')' => open.saturating_sub(1),
            _ => *open,
        };
        Some(*open)
    });
    open.max().unwrap_or(0).saturating_sub(1)
}

fn run(rt: &HostRuntime) -> anyhow::Result<()> {
    let mut random = Random::new(rt.alloc(), 20_261_118);
    let mut tally = Tally::default();
    for _ in 0..TABLES {
        run_one(&mut random, &mut tally)?;
    }
    tally.print(rt)?;
    ensure!(tally.is_clean(), "the evaluators differ");
    Ok(())
}

fn main(rt: HostRuntime) -> anyhow::Result<()> {
    run(&rt)
}
