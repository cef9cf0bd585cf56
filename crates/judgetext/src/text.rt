//! What the judge writes for a rule file and a record.
ghost use Rattle.std.specs.Prelude.{◌≡◌, ◌⊎◌, length, IfOk, string_bytes};
ghost use Rattle.judging.specs.Judged.{case_of};
ghost use Rattle.judgetext.specs.Outputs.{lines_upto, verdicts, Recorded, Misformed, Output};

use judging::judged::Judged;
use judging::workspace::Workspace;
use recordtext::lines;
use recordtext::reading::read;
use recordtext::state::ReadError;
use rules::table::Table;
use std::alloc::{AllocError, Global};

/// A line for each state and then each rule.
fn all_lines(heap: Global, judged: &Judged<'_>) -> Result<String, AllocError>
    ensures { let c = case_of judged.now in IfOk result (λ s. string_bytes s ≡ lines_upto c.table c.stamps c.rows (length c.stamps)) }
{
    let mut out = String::new(heap);
    for state in 0..judged.states() {
        for rule in judged.rules() {
            let truth = judged.truth(rule.number, state).unwrap();
            let line = lines::verdict(heap, rule.number, state, truth)?;
            out.push_str(line.as_str())?;
        }
    }
    Ok(out)
}

/// The verdicts on a record, or its refusal.
fn judged_text(
    heap: Global,
    table: &Table,
    stamps: &[u64],
    rows: &[u64],
) -> Result<String, AllocError>
    ensures { IfOk result (λ s. string_bytes s ≡ verdicts table.now stamps.now rows.now) }
{
    match Workspace::new(heap)?.judge(table, stamps, rows) {
        Ok(judged) => all_lines(heap, &judged),
        Err(refusal) => lines::refused(heap, refusal.fault.number()),
    }
}

/// The verdicts on a record that is given as text, or what is wrong with it.
fn record_text(heap: Global, table: &Table, text: &[u8]) -> Result<String, AllocError>
    ensures { IfOk result (λ s. Recorded table.now text.now (string_bytes s) ⊎ Misformed text.now (string_bytes s)) }
{
    match read(heap, text) {
        Ok(states) => judged_text(
            heap,
            table,
            states.stamps.as_slice(),
            states.rows.as_slice(),
        ),
        Err(ReadError::BadLine(line)) => lines::bad(heap, line),
        Err(ReadError::NoMemory(error)) => Err(error),
    }
}

/// What the judge writes for a rule file and a record: `(verdict N I T)` or `(verdict N I F)` for each state I and then rule N,
/// or one line that says why not. Cost: that of reading both texts, evaluating the record once, and a line for each state
/// and rule.
pub fn output(heap: Global, rules: &[u8], text: &[u8]) -> Result<String, AllocError>
    ensures { IfOk result (λ s. Output rules.now text.now (string_bytes s)) }
{
    match Table::new(heap)?.read(rules) {
        Ok(table) => record_text(heap, &table, text),
        Err(fault) => lines::fault(
            heap,
            fault.kind.number(),
            fault.place.line,
            fault.place.byte,
        ),
    }
}

#[cfg(test)]
mod tests {
    use super::output;
    use std::test::Fail;

    /// No clause can say that memory is left: each kind of answer is seen to come.
    #[test]
    fn each_answer_comes(rt: HostRuntime) -> Result<(), Fail> {
        for (rules, record, wanted) in [
            ("(rule 1 (true))\n", "(state 5 0)\n", "(verdict 1 0 T)\n"),
            ("(rule 01 (true))\n", "(state 5 0)\n", "(fault 12 1 7)\n"),
            (
                "(rule 1 (true))\n",
                "(state 5 0)\n(state 5 0)\n",
                "(refused 22)\n",
            ),
            (
                "(rule 1 (true))\n",
                "(state 5 0)\n(state 06 0)\n",
                "(bad 2)\n",
            ),
        ] {
            let text = output(rt.alloc(), rules.as_bytes(), record.as_bytes())?;
            assert_eq!(rt; text.as_str(), wanted);
        }
        Ok(())
    }
}
