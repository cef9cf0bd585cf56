//! Judges the record on standard input by the rules in the file `rules`.
#![tactic(auto)]

use judgetext::text::output;
use std::fs;
use std::io::{Read, Write};

fn run(rt: &HostRuntime) -> anyhow::Result<()> {
    let rules = fs::read(rt, "rules")?;
    let mut record = Vec::new(rt.alloc());
    rt.stdin().read_to_end(&mut record)?;
    let text = output(rt.alloc(), rules.as_slice(), record.as_slice())?;
    rt.stdout().write_all(text.as_bytes())?;
    Ok(())
}

fn main(rt: HostRuntime) -> anyhow::Result<()> {
    run(&rt)
}
