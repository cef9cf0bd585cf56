//! A record of 512 states that grows.
use anyhow::bail;
use eval::evaluated::EvaluatedRecord;
use eval::room::RecordRoom;
use recordtext::state::RecordText;
use rules::table::Table;
use std::alloc::Global;
use truth::Three;

/// The record state by state, and then finished.
pub fn grown<'t>(
    heap: Global,
    table: &'t Table,
    record: &RecordText,
) -> anyhow::Result<EvaluatedRecord<'t>> {
    let room = RecordRoom::new(heap)?;
    let mut grown = EvaluatedRecord::new(table, room);
    for (stamp, row) in record.stamps.iter().zip(record.rows.iter()) {
        let Ok(()) = grown.push(*stamp, *row) else {
            bail!("a state is refused");
        };
    }
    grown.finish();
    Ok(grown)
}

/// Whether the rule is true at the state of the record.
pub fn is_true(grown: &EvaluatedRecord<'_>, rule: u8, state: usize) -> bool {
    let root = grown.table().root(rule);
    root.is_some_and(|node| grown.value_at(node, state) == Some(Three::True))
}
