//! The judge on a record of 512 states.
use judging::judged::Judged;
use judging::workspace::Workspace;
use random::Generator;
use recordtext::state::RecordText;
use rules::table::Table;
use std::alloc::{AllocError, Global};

/// A record of random rows, its stamps 1 to 7 ticks apart.
pub fn random_record(heap: Global) -> Result<RecordText, AllocError> {
    let mut generator = Generator::new(4);
    let mut stamps = Vec::with_capacity(heap, 512)?;
    let mut rows = Vec::with_capacity(heap, 512)?;
    let mut stamp: u64 = 0;
    for _ in 0..512 {
        stamp = stamp
            .wrapping_add(1)
            .wrapping_add(generator.below(7) as u64);
        stamps.push(stamp)?;
        let high = generator.below(0x8000_0000) as u64;
        let low = generator.below(0x8000_0000) as u64;
        rows.push(high.wrapping_mul(0x2_0000_0000) | low)?;
    }
    Ok(RecordText { stamps, rows })
}

/// How often a rule from 1 to 16 holds at a state of the record.
pub fn count_true<F: Fn(u8, usize) -> bool>(holds: F) -> usize
    requires { F.IsAlwaysCallable holds }
{
    (1..17)
        .map(|rule| (0..512).filter(|state| holds(rule, *state)).count())
        .fold(0, usize::saturating_add)
}

fn count_judged(judged: &Judged<'_>) -> usize {
    count_true(|rule, state| matches!(judged.truth(rule, state), Ok(true)))
}

/// Judges the record once, and answers how often a rule was true.
fn judge_once(workspace: Workspace, table: &Table, record: &RecordText) -> (usize, Workspace) {
    match workspace.judge(table, record.stamps.as_slice(), record.rows.as_slice()) {
        Ok(judged) => (count_judged(&judged), judged.close()),
        Err(refusal) => (0, refusal.workspace),
    }
}

/// Judges the record that many times, and answers how often a rule was true.
// Stays: a fold would carry the workspace and the sum in a pair.
pub fn judge_often(
    heap: Global,
    table: &Table,
    record: &RecordText,
    times: u32,
) -> Result<usize, AllocError> {
    let mut workspace = Workspace::new(heap)?;
    let mut yes: usize = 0;
    for _ in 0..times {
        let (found, back) = judge_once(workspace, table, record);
        yes = yes.wrapping_add(found);
        workspace = back;
    }
    Ok(yes)
}
