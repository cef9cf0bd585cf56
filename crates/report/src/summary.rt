//! The line under a rule.
ghost use Rattle.std.specs.Prelude.{◌≡◌, IfOk, Some, string_bytes};
ghost use Rattle.report.specs.Reports.{reach_text, summary};

use std::alloc::{AllocError, Global};
use std::fmt;

/// How far a rule reaches.
#[derive(Clone, Copy)]
struct Reach(Option<u64>);

impl fmt::Display for Reach {
    ghost output = { λ r. Some (reach_text r.0) };

    fn fmt<W: fmt::Write>(&self, f: &mut fmt::Formatter<W>) -> fmt::Result {
        match self.0 {
            Some(distance) => write!(f, "{distance}"),
            None => write!(f, "none"),
        }
    }
}

pub(crate) fn summary(
    heap: Global,
    formulas: usize,
    reach: Option<u64>,
) -> Result<String, AllocError>
    ensures { IfOk result (λ line. string_bytes line ≡ summary formulas reach) }
{
    let reach = Reach(reach);
    format!(in heap; "  {formulas} formulas, reach {reach}\n")
}
