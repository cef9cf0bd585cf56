//! The report on a faulty rule file.
ghost use Rattle.std.specs.Prelude.{◌≡◌, IfOk};
ghost use Rattle.report.specs.Reports.{fault_report};

use crate::excerpt::excerpt;
use crate::line::line_of;
use grammar::fault::ReadFault;
use std::alloc::{AllocError, Global};

/// The fault's number, line and byte in brackets, then the faulty line and a mark under the place.
/// Cost: the text up to the end of that line.
pub fn fault_report(heap: Global, text: &[u8], fault: ReadFault) -> Result<Vec<u8>, AllocError>
    ensures { IfOk result (λ out. out.items ≡ fault_report text.now fault) }
{
    let mut out = format!(in heap; "(fault {fault})\n")?.into_bytes();
    let excerpt = excerpt(heap, line_of(text, fault.place.line), fault.place.byte)?;
    out.extend_from_slice(excerpt.as_slice())?;
    Ok(out)
}
