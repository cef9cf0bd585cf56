//! Reads cases from standard input, one to a line: a name, what is expected, and a rule file in which `\n` stands for a
//! newline and `\x` with two digits for any byte. Prints what is expected beside what came, and under a fault the report
//! on it. A difference ends the run with status 1.
#![tactic(auto)]

mod case;
mod escape;
mod outcome;

use crate::case::Case;
use crate::escape::unescape;
use crate::outcome::outcome;
use anyhow::{bail, ensure};
use report::report::report;
use report::whole::Report;
use std::alloc::Global;
use std::io::Write;

/// Whether the case came out as expected.
fn try_case(rt: &HostRuntime, heap: Global, case: Case) -> anyhow::Result<bool> {
    let text = unescape(heap, case.text)?;
    let came = outcome(heap, text.as_slice())?;
    let same = came.as_str() == case.expected;
    let name = case.name;
    let expected = case.expected;
    println!(rt; "{name}: expected {expected}, got {came}")?;
    if let Report::Faulty(fault) = report(heap, text.as_slice())? {
        rt.stdout().write_all(fault.as_slice())?;
    }
    Ok(same)
}

fn run(rt: &HostRuntime) -> anyhow::Result<()> {
    let heap = rt.alloc();
    let mut cases = 0u64;
    let mut wrong = 0u64;
    for line in rt.lines(heap) {
        let line = line?;
        let Some(case) = Case::parse(line.as_str()) else {
            bail!("a line that is no case");
        };
        cases = cases.saturating_add(1);
        if !try_case(rt, heap, case)? {
            wrong = wrong.saturating_add(1);
        }
    }
    println!(rt; "{cases} cases, {wrong} wrong")?;
    ensure!(wrong == 0, "a case came out wrong");
    Ok(())
}

fn main(rt: HostRuntime) -> anyhow::Result<()> {
    run(&rt)
}
