//! Each measurement: the work, a line about it, and its time.
use crate::stores::Work;
use crate::{flight, growing, judged, reading, stores};
use anyhow::{bail, ensure};
use gridstore::GridStore;
use liststore::ListStore;
use rules::table::Table;
use session::{Room, Session};
use std::time::Instant;
use std::{fs, io};
use store::Store;

/// What the work comes to, and the microseconds that it took.
fn timed<T: Drop, F: FnOnce() -> T + Drop>(rt: &HostRuntime, work: F) -> io::Result<(T, u128)>
    requires { F.IsAlwaysCallable work }
{
    let start = Instant::now(rt)?;
    let done = work();
    let micros = start.elapsed(rt)?.as_micros();
    Ok((done, micros))
}

fn time_store<S: Store>(
    rt: &HostRuntime,
    name: &str,
    store: &mut S,
    steps: u32,
    keys: usize,
) -> anyhow::Result<()> {
    let (Work { changes, count }, micros) = timed(
        rt,
        || stores::puts_and_drops(store, steps, keys, 64),
    )?;
    println!(rt; "{name}: {changes} changes, {count} facts at the end")?;
    eprintln!(rt; "{name}: {micros}")?;
    Ok(())
}

fn time_stores(rt: &HostRuntime) -> anyhow::Result<()> {
    let mut small = ListStore::new(rt.alloc(), 256)?;
    time_store(rt, "list of 256", &mut small, 300_000, 4)?;
    let mut large = ListStore::new(rt.alloc(), 65_536)?;
    time_store(rt, "list of 65536", &mut large, 100_000, 1_024)?;
    let mut grid = GridStore::new();
    time_store(rt, "grid", &mut grid, 1_000_000, 64)
}

fn time_reader(rt: &HostRuntime, text: &[u8]) -> anyhow::Result<()> {
    let (nodes, micros) = timed(rt, || reading::read_often(rt.alloc(), text, 1_000))?;
    let nodes = nodes?;
    println!(rt; "reader: {nodes} nodes")?;
    eprintln!(rt; "reader: {micros}")?;
    Ok(())
}

fn flown(rt: &HostRuntime, table: &Table) -> anyhow::Result<flight::Flight> {
    let list = ListStore::new(rt.alloc(), 256)?;
    let room = Room::new(rt.alloc())?;
    let mut session = Session::open(list, table, 1, room);
    let flown = flight::fly(rt, &mut session);
    let _ = session.close();
    Ok(flown?)
}

fn time_session(rt: &HostRuntime, table: &Table) -> anyhow::Result<()> {
    let flight = flown(rt, table)?;
    let no = flight.no;
    let undecided = flight.undecided;
    let yes = flight.yes;
    println!(rt; "session: {no} false, {undecided} undecided, {yes} true")?;
    time_flight(rt, flight)
}

fn time_flight(rt: &HostRuntime, flight: flight::Flight) -> anyhow::Result<()> {
    let committing = flight.committing / 1_000;
    let asking = flight.asking / 1_000;
    eprintln!(rt; "commits: {committing}")?;
    eprintln!(rt; "verdicts: {asking}")?;
    Ok(())
}

/// The times alone of a session whose windows are all of one kind.
fn time_windows(rt: &HostRuntime, windows: &str, table: &Table) -> anyhow::Result<()> {
    let flight = flown(rt, table)?;
    let first_half = flight.first_half / 1_000;
    let committing = flight.committing / 1_000;
    let asking = flight.asking / 1_000;
    eprintln!(rt; "256 commits, {windows}: {first_half}")?;
    eprintln!(rt; "512 commits, {windows}: {committing}")?;
    eprintln!(rt; "verdicts, {windows}: {asking}")?;
    Ok(())
}

/// How often a rule was true in one judging of the twenty.
fn time_judge(rt: &HostRuntime, table: &Table) -> anyhow::Result<usize> {
    let record = judged::random_record(rt.alloc())?;
    let (yes, micros) = timed(rt, || judged::judge_often(rt.alloc(), table, &record, 20))?;
    let yes = yes?;
    println!(rt; "judge: {yes} true")?;
    eprintln!(rt; "judge: {micros}")?;
    Ok(yes / 20)
}

/// The same record, state by state: it comes to what the judge says of it whole.
fn time_growing(rt: &HostRuntime, table: &Table, yes: usize) -> anyhow::Result<()> {
    let record = judged::random_record(rt.alloc())?;
    let (grown, micros) = timed(rt, || growing::grown(rt.alloc(), table, &record))?;
    let grown = grown?;
    let found = judged::count_true(|rule, state| growing::is_true(&grown, rule, state));
    ensure!(found == yes, "the record that grows comes to other values");
    println!(rt; "growing record: {found} true")?;
    eprintln!(rt; "growing record: {micros}")?;
    Ok(())
}

fn table_of(rt: &HostRuntime, file: &str) -> anyhow::Result<Table> {
    let text = fs::read(rt, file)?;
    let room = Table::new(rt.alloc())?;
    let Ok(table) = room.read(text.as_slice()) else {
        bail!("the rule file is refused");
    };
    Ok(table)
}

pub fn run_all(rt: &HostRuntime) -> anyhow::Result<()> {
    time_stores(rt)?;
    let text = fs::read(rt, "rules.txt")?;
    time_reader(rt, text.as_slice())?;
    let table = table_of(rt, "rules.txt")?;
    time_session(rt, &table)?;
    let yes = time_judge(rt, &table)?;
    time_growing(rt, &table, yes)?;
    let bounded = table_of(rt, "bounded.txt")?;
    time_windows(rt, "30 ticks", &bounded)?;
    let unbounded = table_of(rt, "unbounded.txt")?;
    time_windows(rt, "no bound", &unbounded)
}
