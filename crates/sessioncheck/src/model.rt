//! A second session, kept the plainest way: unordered facts, and a copy of them at begin.
use crate::calls::{Answer, Call, Done, Refused};
use crate::plain::{End, Record, State};
use std::alloc::{AllocError, AllocFailed, Global};
use std::ops::RangeInclusive;
use store::Fact;

/// The keys and values that a store takes.
#[derive(Clone, Copy)]
struct Taken {
    greatest_key: u32,
    least_value: i32,
    greatest_value: i32,
}

const IN_RANGE: Taken = Taken {
    greatest_key: 65_535,
    least_value: -1_000_000_000,
    greatest_value: 1_000_000_000,
};

const IN_GRID: Taken = Taken {
    greatest_key: 63,
    least_value: 0,
    greatest_value: 63,
};

impl Taken {
    fn has(self, fact: Fact) -> bool {
        fact.key <= self.greatest_key
            && (self.least_value..=self.greatest_value).contains(&fact.value)
    }
}

/// Why a call of the model is not done.
#[derive(Drop)]
enum ModelError {
    Refused(Refused),
    OutOfMemory(AllocError),
}

impl From<Refused> for ModelError {
    fn from(refused: Refused) -> ModelError {
        ModelError::Refused(refused)
    }
}

impl From<AllocError> for ModelError {
    fn from(error: AllocError) -> ModelError {
        ModelError::OutOfMemory(error)
    }
}

impl<T: Drop> From<AllocFailed<T>> for ModelError {
    fn from(failed: AllocFailed<T>) -> ModelError {
        ModelError::OutOfMemory(failed.into())
    }
}

/// Refuses with the number if the test holds.
fn refuse_if(test: bool, number: u8) -> Result<(), Refused> {
    if test { Err(Refused(number)) } else { Ok(()) }
}

/// Refuses a fact that is out of range.
fn in_range(fact: Fact) -> Result<(), Refused> {
    refuse_if(fact.relation >= 16 || !IN_RANGE.has(fact), 23)
}

/// Whether two facts have the same parts.
// Stays: by its parts, since the comparison that `Fact` derives is the stores' own, which are what is tested.
fn equal(a: Fact, b: Fact) -> bool {
    a.relation == b.relation && a.key == b.key && a.value == b.value
}

fn has(facts: &[Fact], fact: Fact) -> bool {
    facts.iter().any(|other| equal(*other, fact))
}

/// The open change: the facts at its begin, and how many alterations it has.
#[derive(Drop)]
struct Change {
    kept: Vec<Fact>,
    altered: usize,
}

/// The open change; refuses where there is none.
fn opened(change: &mut Option<Change>) -> Result<&mut Change, Refused> {
    change.as_mut().ok_or(Refused(51))
}

// Stays: facts and states are no pairs: a state has the answers, and no facts.
#[derive(Drop)]
pub struct Model {
    heap: Global,
    taken: Taken,
    /// How many facts the store has room for.
    places: usize,
    facts: Vec<Fact>,
    change: Option<Change>,
    states: Vec<State>,
    end: End,
}

impl Model {
    pub fn of_list(heap: Global, places: usize) -> Model {
        Model::new(heap, IN_RANGE, places)
    }

    pub fn of_grid(heap: Global) -> Model {
        Model::new(heap, IN_GRID, 65_536)
    }

    fn new(heap: Global, taken: Taken, places: usize) -> Model {
        Model {
            heap,
            taken,
            places,
            facts: Vec::new(heap),
            change: None,
            states: Vec::new(heap),
            end: End::Open,
        }
    }

    /// Refuses a fact that is out of range, or that the store does not take.
    fn takes(&self, fact: Fact) -> Result<(), Refused> {
        in_range(fact)?;
        refuse_if(!self.taken.has(fact), 31)
    }

    /// Refuses while a change is open, and after finish.
    fn between_changes(&self) -> Result<(), Refused> {
        refuse_if(self.change.is_some(), 52)?;
        refuse_if(self.end == End::Finished, 53)
    }

    fn begin(&mut self) -> Result<Done, ModelError> {
        self.between_changes()?;
        let kept = Vec::from_slice(self.heap, self.facts.as_slice())?;
        self.change = Some(Change { kept, altered: 0 });
        Ok(Done::Accepted)
    }

    /// What a put or a drop comes to with a slip that is not the open change's.
    // Stays: a call is data, given to the session and the model.
    pub fn astray(&self, call: Call) -> Option<Answer> {
        let taken = match call {
            Call::Put(fact) => self.takes(fact),
            Call::Drop(fact) => in_range(fact),
            _ => return None,
        };
        Some(taken.and(Err(Refused(51))))
    }

    fn put(&mut self, fact: Fact) -> Result<Done, ModelError> {
        self.takes(fact)?;
        let change = opened(&mut self.change)?;
        if has(self.facts.as_slice(), fact) {
            return Ok(Done::Altered(false));
        }
        refuse_if(change.altered >= 64, 57)?;
        refuse_if(self.facts.len() >= self.places, 58)?;
        self.facts.push(fact)?;
        change.altered = change.altered.saturating_add(1);
        Ok(Done::Altered(true))
    }

    fn drop_fact(&mut self, fact: Fact) -> Answer {
        in_range(fact)?;
        let change = opened(&mut self.change)?;
        if !has(self.facts.as_slice(), fact) {
            return Ok(Done::Altered(false));
        }
        refuse_if(change.altered >= 64, 57)?;
        self.facts.retain(|other| !equal(*other, fact));
        change.altered = change.altered.saturating_add(1);
        Ok(Done::Altered(true))
    }

    fn commit(&mut self, stamp: u64) -> Result<Done, ModelError> {
        refuse_if(stamp > 4_000_000_000, 24)?;
        opened(&mut self.change)?;
        refuse_if(self.last_stamp().is_some_and(|last| stamp <= last), 55)?;
        let answers = self.answers();
        self.states.push(State { stamp, answers })?;
        self.change = None;
        Ok(Done::Accepted)
    }

    fn withdraw(&mut self) -> Done {
        let Some(Change { kept, altered }) = self.change.take() else {
            return Done::Undone(None);
        };
        self.facts = kept;
        Done::Undone(Some(altered))
    }

    fn finish(&mut self) -> Answer {
        self.between_changes()?;
        self.end = End::Finished;
        Ok(Done::Accepted)
    }

    /// A call with the open change's slip.
    // Stays: a call is data, which lists hold and two sessions are given; a closure would be one session's alone.
    fn done(&mut self, call: Call) -> Result<Done, ModelError> {
        Ok(match call {
            Call::Begin => self.begin()?,
            Call::Put(fact) => self.put(fact)?,
            Call::Drop(fact) => self.drop_fact(fact)?,
            Call::Commit(stamp) => self.commit(stamp)?,
            Call::Withdraw => self.withdraw(),
            Call::Finish => self.finish()?,
        })
    }

    /// What a call with the open change's slip comes to.
    pub fn make(&mut self, call: Call) -> Result<Answer, AllocError> {
        match self.done(call) {
            Ok(done) => Ok(Ok(done)),
            Err(ModelError::Refused(refused)) => Ok(Err(refused)),
            Err(ModelError::OutOfMemory(error)) => Err(error),
        }
    }

    /// How many facts of a relation have one of the values.
    fn count(&self, relation: u8, values: RangeInclusive<i32>) -> usize {
        let facts = self.facts.iter();
        facts
            .filter(|fact| fact.relation == relation && values.contains(&fact.value))
            .count()
    }

    /// Whether each key of relation 0 is one of relation 1.
    fn refers(&self) -> bool {
        self.facts.iter().all(|fact| {
            fact.relation != 0
                || self
                    .facts
                    .iter()
                    .any(|other| other.relation == 1 && other.key == fact.key)
        })
    }

    /// Whether no value of relation 0 is above one of relation 1 at its key.
    fn is_level(&self) -> bool {
        self.facts.iter().all(|fact| {
            fact.relation != 0
                || self.facts.iter().all(|other| {
                    other.relation != 1 || other.key != fact.key || fact.value <= other.value
                })
        })
    }

    /// The answers of the six queries of the rules.
    fn answers(&self) -> [bool; 6] {
        let all = self.count(0, i32::MIN..=i32::MAX);
        [
            self.count(0, 5..=9) > 0,
            self.count(0, 0..=4) == all,
            self.count(1, i32::MIN..=i32::MAX) <= 2,
            self.refers(),
            has(self.facts.as_slice(), Fact::new(2, 1, 3)),
            self.is_level(),
        ]
    }

    pub fn last_stamp(&self) -> Option<u64> {
        self.states.last().map(|state| state.stamp)
    }

    pub fn record(&self) -> Record<'_> {
        Record {
            states: self.states.as_slice(),
            end: self.end,
        }
    }
}
