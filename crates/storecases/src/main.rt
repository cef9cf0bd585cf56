//! Holds both stores to a set kept the plainest way, on random calls, and prints what was compared.
#![tactic(auto)]

mod full;
mod model;
mod runs;
mod slot;
mod steps;
mod tally;

fn main(rt: HostRuntime) -> anyhow::Result<()> {
    runs::run_all(&rt)
}
