//! The report on the rules of a table.
ghost use Rattle.std.specs.Prelude.{◌≡◌, IfOk};
ghost use Rattle.report.specs.Reports.{table_report};

use crate::summary::summary;
use rules::table::Table;
use std::alloc::{AllocError, Global};
use writer::rule::rule_text;

/// Each rule as the writer gives it, and under it how many formulas it has and how far it reaches.
/// Cost: linear in the text of the table, but for each rule's reach, which goes over all nodes.
pub fn table_report(heap: Global, table: &Table) -> Result<Vec<u8>, AllocError>
    ensures { IfOk result (λ out. out.items ≡ table_report table.now) }
{
    let mut out = Vec::new(heap);
    let mut before = 0;
    for (i, rule) in table.rules().iter().enumerate() {
        let text = rule_text(heap, table, i)?;
        out.extend_from_slice(text.as_slice())?;
        let end = rule.root + 1;
        let reach = table.reach(rule.number).unwrap_or(None);
        let line = summary(heap, end.saturating_sub(before), reach)?;
        out.extend_from_slice(line.as_bytes())?;
        before = end;
    }
    Ok(out)
}
