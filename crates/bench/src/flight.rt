//! A session: changes, commits, and the verdict of every rule at every state after each commit.
use crate::stores;
use random::Generator;
use session::{CommitRefused, Session, Slip};
use std::io;
use std::time::Instant;
use store::{Fact, Store};
use truth::Three;

/// The verdicts that were given, and the time that commits, the first 256 of them, and questions took, in nanoseconds.
#[derive(Clone, Copy, Default)]
pub struct Flight {
    pub no: u32,
    pub undecided: u32,
    pub yes: u32,
    pub committing: u128,
    pub first_half: u128,
    pub asking: u128,
}

/// A fact of few keys, its value a multiple of 200.
fn some_fact(generator: &mut Generator) -> Fact {
    let fact = stores::random_fact(generator, 4, 5);
    Fact {
        value: fact.value.wrapping_mul(200),
        ..fact
    }
}

/// Puts and drops four facts each.
fn alter<S: Store>(session: &mut Session<'_, S>, slip: &Slip, generator: &mut Generator) {
    for _ in 0..4 {
        let _ = session.put(slip, some_fact(generator));
        let _ = session.drop_fact(slip, some_fact(generator));
    }
}

/// One change, committed.
fn change<S: Store>(session: &mut Session<'_, S>, generator: &mut Generator, stamp: u64) -> u64 {
    let Ok(slip) = session.begin() else {
        return stamp;
    };
    alter(session, &slip, generator);
    let later = stamp
        .wrapping_add(1)
        .wrapping_add(generator.below(7) as u64);
    match session.commit(slip, later) {
        Ok(()) => later,
        Err(CommitRefused { slip, fault: _ }) => {
            let _ = session.withdraw(slip);
            stamp
        }
    }
}

/// Asks for the verdict of each of 16 rules at each of the states.
fn ask_all<S: Store>(session: &Session<'_, S>, states: usize, flight: &mut Flight) {
    for rule in 1..17 {
        for state in 0..states {
            let count = match session.verdict(rule, state) {
                Ok(Three::False) => &mut flight.no,
                Ok(Three::Undecided) => &mut flight.undecided,
                Ok(Three::True) => &mut flight.yes,
                Err(_) => continue,
            };
            *count = count.wrapping_add(1);
        }
    }
}

/// 512 commits, and the questions after each.
pub fn fly<S: Store>(rt: &HostRuntime, session: &mut Session<'_, S>) -> io::Result<Flight> {
    let mut generator = Generator::new(2);
    let mut flight = Flight::default();
    let mut stamp = 0;
    for state in 0..512 {
        let start = Instant::now(rt)?;
        stamp = change(session, &mut generator, stamp);
        let committed = start.elapsed(rt)?.as_nanos();
        flight.committing = flight.committing.wrapping_add(committed);
        if state == 255 {
            flight.first_half = flight.committing;
        }
        let start = Instant::now(rt)?;
        ask_all(session, state + 1, &mut flight);
        let asked = start.elapsed(rt)?.as_nanos();
        flight.asking = flight.asking.wrapping_add(asked);
    }
    Ok(flight)
}
