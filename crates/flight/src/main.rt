//! A small survey flight, from its rule file to its last verdicts.
//!
//! Relation 0 has the variance of a block, 1 the charge of the battery, 2 the height, 3 the lines that are planned,
//! 4 the lines that are flown, 5 the pilot's mark that a line is on.
#![tactic(auto)]

use anyhow::bail;
use liststore::ListStore;
use rules::table::Table;
use session::{CommitRefused, Room, Session, SessionFault};
use std::{fmt, fs, io};
use store::{Fact, Store};
use truth::Three;

/// What became of a change: how many calls altered the store, the last refusal, and how many alterations were undone where
/// the change was not committed.
#[derive(Clone, Copy, Default)]
struct Outcome {
    altered: u32,
    refused: Option<SessionFault>,
    undone: Option<usize>,
}

impl Outcome {
    fn note(&mut self, answer: Result<bool, SessionFault>) {
        match answer {
            Ok(true) => self.altered = self.altered.saturating_add(1),
            Ok(false) => {}
            Err(fault) => self.refused = Some(fault),
        }
    }
}

/// One change: some facts go, others come, and it is committed at the stamp, or else withdrawn.
fn change<S: Store>(
    session: &mut Session<'_, S>,
    gone: &[Fact],
    come: &[Fact],
    stamp: Option<u64>,
) -> Outcome {
    let mut outcome = Outcome::default();
    let slip = match session.begin() {
        Ok(slip) => slip,
        Err(fault) => {
            outcome.refused = Some(fault);
            return outcome;
        }
    };
    for f in gone {
        outcome.note(session.drop_fact(&slip, *f));
    }
    for f in come {
        outcome.note(session.put(&slip, *f));
    }
    let Some(stamp) = stamp else {
        outcome.undone = session.withdraw(slip);
        return outcome;
    };
    if let Err(CommitRefused { slip, fault }) = session.commit(slip, stamp) {
        outcome.refused = Some(fault);
        outcome.undone = session.withdraw(slip);
    }
    outcome
}

impl fmt::Display for Outcome {
    fn fmt<W: fmt::Write>(&self, f: &mut fmt::Formatter<W>) -> fmt::Result {
        let altered = self.altered;
        write!(f, "{altered} altered")?;
        if let Some(fault) = self.refused {
            write!(f, ", refused with {}", fault.number())?;
        }
        if let Some(count) = self.undone {
            write!(f, ", {count} undone")?;
        }
        Ok(())
    }
}

fn tell(rt: &HostRuntime, what: &str, outcome: Outcome) -> io::Result<()> {
    println!(rt; "{what}: {outcome}")
}

fn shown(verdict: Result<Three, SessionFault>) -> &'static str {
    match verdict {
        Ok(Three::True) => "true",
        Ok(Three::False) => "false",
        Ok(Three::Undecided) => "undecided",
        Err(_) => "refused",
    }
}

/// The verdict of every rule at every committed state.
fn show<S: Store>(
    rt: &HostRuntime,
    session: &Session<'_, S>,
    table: &Table,
    states: usize,
) -> io::Result<()> {
    for rule in table.rules() {
        let number = rule.number;
        print!(rt; "  rule {number}:")?;
        for state in 0..states {
            let verdict = shown(session.verdict(number, state));
            print!(rt; " {verdict}")?;
        }
        println!(rt; "")?;
    }
    Ok(())
}

/// The takeoff: the first state, and a fact out of range that is refused.
fn take_off<S: Store>(session: &mut Session<'_, S>) -> Outcome {
    let come = [
        Fact::new(1, 0, 98),
        Fact::new(2, 0, 0),
        Fact::new(3, 1, 0),
        Fact::new(3, 2, 0),
        Fact::new(16, 0, 0),
    ];
    change(session, &[], &come, Some(0))
}

/// The first line: the pilot marks it, and the variance is high.
fn first_line<S: Store>(session: &mut Session<'_, S>) -> Outcome {
    let gone = [Fact::new(2, 0, 0)];
    let come = [
        Fact::new(2, 0, 100),
        Fact::new(5, 0, 1),
        Fact::new(0, 0, 600),
    ];
    change(session, &gone, &come, Some(40))
}

/// A climb that is called off: what the put found there stays.
fn called_off<S: Store>(session: &mut Session<'_, S>) -> Outcome {
    let gone = [Fact::new(2, 0, 100)];
    let come = [Fact::new(2, 0, 140), Fact::new(5, 0, 1)];
    change(session, &gone, &come, None)
}

/// A change with the stamp of the last state, which is refused and withdrawn.
fn too_early<S: Store>(session: &mut Session<'_, S>) -> Outcome {
    change(session, &[], &[Fact::new(4, 1, 0)], Some(40))
}

/// The first line is flown, and the variance comes down.
fn line_flown<S: Store>(session: &mut Session<'_, S>) -> Outcome {
    let gone = [
        Fact::new(0, 0, 600),
        Fact::new(5, 0, 1),
        Fact::new(1, 0, 98),
    ];
    let come = [
        Fact::new(0, 0, 280),
        Fact::new(4, 1, 0),
        Fact::new(1, 0, 61),
    ];
    change(session, &gone, &come, Some(55))
}

/// The second line is flown.
fn last_line<S: Store>(session: &mut Session<'_, S>) -> Outcome {
    let gone = [Fact::new(1, 0, 61)];
    let come = [Fact::new(4, 2, 0), Fact::new(1, 0, 35)];
    change(session, &gone, &come, Some(110))
}

/// The landing, and then a look whether the mark of a line could still be set: a change that is not kept.
fn land<S: Store>(session: &mut Session<'_, S>) -> Result<bool, SessionFault> {
    let slip = session.begin()?;
    let _ = session.drop_fact(&slip, Fact::new(2, 0, 100));
    let _ = session.put(&slip, Fact::new(2, 0, 0));
    if let Err(CommitRefused { slip, fault }) = session.commit(slip, 140) {
        let _ = session.withdraw(slip);
        return Err(fault);
    }
    let next = session.begin()?;
    let marked = session.put(&next, Fact::new(5, 0, 1));
    let _ = session.withdraw(next);
    marked
}

fn fly<S: Store>(rt: &HostRuntime, session: &mut Session<'_, S>, table: &Table) -> io::Result<()> {
    tell(rt, "take off at 0", take_off(session))?;
    show(rt, session, table, 1)?;
    tell(rt, "first line at 40", first_line(session))?;
    show(rt, session, table, 2)?;
    tell(rt, "climb called off", called_off(session))?;
    tell(rt, "first line flown at 40 again", too_early(session))?;
    tell(rt, "first line flown at 55", line_flown(session))?;
    show(rt, session, table, 3)?;
    tell(rt, "second line flown at 110", last_line(session))?;
    show(rt, session, table, 4)?;
    match land(session) {
        Ok(marked) => println!(rt; "landed at 140; a mark would be new: {marked}")?,
        Err(fault) => println!(rt; "not landed: {}", fault.number())?,
    }
    show(rt, session, table, 5)?;
    match session.finish() {
        Ok(()) => println!(rt; "finished")?,
        Err(fault) => println!(rt; "not finished: {}", fault.number())?,
    }
    show(rt, session, table, 5)?;
    tell(rt, "a change after finish", last_line(session))
}

fn run(rt: &HostRuntime) -> anyhow::Result<()> {
    let text = fs::read(rt, "rules")?;
    let Ok(table) = Table::new(rt.alloc())?.read(text.as_slice()) else {
        bail!("the rule file is faulty");
    };
    let store = ListStore::new(rt.alloc(), 64)?;
    let room = Room::new(rt.alloc())?;
    let mut session = Session::open(store, &table, 7, room);
    let flown = fly(rt, &mut session, &table);
    let count = session.close().count();
    flown?;
    println!(rt; "the store comes back with {count} facts")?;
    Ok(())
}

fn main(rt: HostRuntime) -> anyhow::Result<()> {
    run(&rt)
}
