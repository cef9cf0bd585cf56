//! Checks a rule file, from the path that is given or from standard input, and prints its rules or its first fault.
#![tactic(auto)]

use report::report::report;
use report::whole::Report;
use std::io::{Read, Write};
use std::process::ExitCode;
use std::{env, fs};

fn input(rt: &HostRuntime) -> anyhow::Result<Vec<u8>> {
    if let Some(path) = env::args(rt)?.nth(1) {
        return Ok(fs::read(rt, path.as_str())?);
    }
    let mut text = Vec::new(rt.alloc());
    rt.stdin().read_to_end(&mut text)?;
    Ok(text)
}

/// Prints the report. Ends with status 1 for a faulty file.
fn run(rt: &HostRuntime) -> anyhow::Result<ExitCode> {
    let text = input(rt)?;
    let (printed, code) = match report(rt.alloc(), text.as_slice())? {
        Report::Accepted(rules) => (rules, ExitCode::SUCCESS),
        Report::Faulty(fault) => (fault, ExitCode::FAILURE),
    };
    rt.stdout().write_all(printed.as_slice())?;
    Ok(code)
}

fn main(rt: HostRuntime) -> anyhow::Result<ExitCode> {
    run(&rt)
}
