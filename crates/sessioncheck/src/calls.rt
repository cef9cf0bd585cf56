//! Calls of a session, and what they come to.
use crate::plain::Value;
use session::{CommitRefused, Session, SessionFault, Slip};
use std::mem::replace;
use store::{Fact, Store};
use truth::Three;

/// A call, with the slip that is held.
#[derive(Clone, Copy)]
pub enum Call {
    Begin,
    Put(Fact),
    Drop(Fact),
    Commit(u64),
    Withdraw,
    Finish,
}

/// What an accepted call comes to.
#[derive(Clone, Copy, PartialEq, Eq)]
pub enum Done {
    /// A begin, a commit or a finish.
    Accepted,
    /// A put or a drop, and whether it altered the store.
    Altered(bool),
    /// A withdraw, and how many alterations it undid; none with a slip that is not the open change's.
    Undone(Option<usize>),
}

/// A refusal by its number.
// Stays: a refusal's number is what its users see, so it is what is compared.
#[derive(Clone, Copy, PartialEq, Eq)]
pub struct Refused(pub u8);

impl From<SessionFault> for Refused {
    fn from(fault: SessionFault) -> Refused {
        Refused(fault.number())
    }
}

/// What a call comes to.
pub type Answer = Result<Done, Refused>;

// Stays: each check has values of its own, so that it shares no error with the other, and converts to them itself.
impl From<Three> for Value {
    fn from(truth: Three) -> Value {
        match truth {
            Three::False => Value::False,
            Three::Undecided => Value::Undecided,
            Three::True => Value::True,
        }
    }
}

fn accepted(answer: Result<(), SessionFault>) -> Answer {
    answer?;
    Ok(Done::Accepted)
}

fn altered(answer: Result<bool, SessionFault>) -> Answer {
    Ok(Done::Altered(answer?))
}

pub fn verdict<S: Store>(
    session: &Session<'_, S>,
    rule: u8,
    state: usize,
) -> Result<Value, Refused> {
    Ok(session.verdict(rule, state)?.into())
}

/// Withdraws with what is held.
// Stays: session and slip are no pair: slips of one session are tried with another.
pub fn give_back<S: Store>(session: &mut Session<'_, S>, held: Option<Slip>) -> Done {
    Done::Undone(held.and_then(|slip| session.withdraw(slip)))
}

/// Holds a slip; what was held is given back.
fn hold<S: Store>(session: &mut Session<'_, S>, held: &mut Option<Slip>, slip: Slip) {
    let before = replace(held, Some(slip));
    let _ = give_back(session, before);
}

fn begin<S: Store>(session: &mut Session<'_, S>, held: &mut Option<Slip>) -> Answer {
    let slip = session.begin()?;
    hold(session, held, slip);
    Ok(Done::Accepted)
}

/// A refused commit gives the slip back.
fn commit<S: Store>(
    session: &mut Session<'_, S>,
    held: &mut Option<Slip>,
    slip: Slip,
    stamp: u64,
) -> Answer {
    match session.commit(slip, stamp) {
        Ok(()) => Ok(Done::Accepted),
        Err(CommitRefused { slip, fault }) => {
            hold(session, held, slip);
            Err(fault.into())
        }
    }
}

/// Makes a call, if it needs no slip or one is held.
// Stays: a call is data, which lists hold and two sessions are given; a closure would be one session's alone.
pub fn make<S: Store>(
    session: &mut Session<'_, S>,
    held: &mut Option<Slip>,
    call: Call,
) -> Option<Answer> {
    let answer = match call {
        Call::Begin => begin(session, held),
        Call::Put(fact) => altered(session.put(held.as_ref()?, fact)),
        Call::Drop(fact) => altered(session.drop_fact(held.as_ref()?, fact)),
        Call::Commit(stamp) => {
            let slip = held.take()?;
            commit(session, held, slip, stamp)
        }
        Call::Withdraw => Ok(give_back(session, held.take())),
        Call::Finish => accepted(session.finish()),
    };
    Some(answer)
}
