//! The report on a rule file.
ghost use Rattle.std.specs.Prelude.{IfOk};
ghost use Rattle.report.specs.Checks.{Reports};

use crate::fault::fault_report;
use crate::table::table_report;
use crate::whole::Report;
use rules::table::Table;
use std::alloc::{AllocError, Global};

/// What is to be printed of a rule file, and whether the file was accepted. Cost: linear in the text.
pub fn report(heap: Global, text: &[u8]) -> Result<Report, AllocError>
    ensures { IfOk result (Reports text.now) }
{
    match Table::new(heap)?.read(text) {
        Ok(table) => Ok(Report::Accepted(table_report(heap, &table)?)),
        Err(fault) => Ok(Report::Faulty(fault_report(heap, text, fault)?)),
    }
}
