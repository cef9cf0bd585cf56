//! Measures the calls of the package. What it writes to standard output is the work done, the same at every run;
//! times, in microseconds, go to standard error.
#![tactic(auto)]

mod flight;
mod growing;
mod judged;
mod measures;
mod reading;
mod stores;

fn main(rt: HostRuntime) -> anyhow::Result<()> {
    measures::run_all(&rt)
}
