//! One call of a store, what it came to, and the answers of the questions after it.
use crate::model::Model;
use random::Generator;
use std::alloc::AllocError;
use store::{Fact, Store, StoreFault};

#[derive(Clone, Copy)]
pub enum Call {
    Put,
    Drop,
    Walk,
}

#[derive(Clone, Copy)]
pub struct Step {
    pub call: Call,
    pub fact: Fact,
}

/// What a call came to: the method's answer, a refusal as its number and a fact as its parts.
// Stays: three calls have three kinds of answer, and none of them is a failure.
#[derive(Clone, Copy, PartialEq, Eq)]
pub enum Outcome {
    Put(Result<bool, u8>),
    Dropped(bool),
    Walked(Option<(u8, u32, i32)>),
}

/// A fact's relation, key and value. Facts are compared by these here, since the comparisons that `Fact` derives are the
/// stores' own.
pub fn parts(fact: Fact) -> (u8, u32, i32) {
    (fact.relation, fact.key, fact.value)
}

// Stays: `contains` and `takes` stand beside nothing: they are the answers of two questions.
#[derive(Clone, Copy, PartialEq, Eq)]
pub struct Answer {
    pub outcome: Outcome,
    pub contains: bool,
    pub count: usize,
    pub takes: bool,
    pub capacity: usize,
}

/// What facts are put together from.
// Stays: keys and values are no pairs: any key is drawn with any value.
#[derive(Clone, Copy)]
pub struct Tables<'a> {
    pub relations: usize,
    pub keys: &'a [u32],
    pub values: &'a [i32],
}

/// One of the items, or the default of no items.
fn pick<T: Copy + Default>(generator: &mut Generator, items: &[T]) -> T {
    items
        .get(generator.below(items.len()))
        .copied()
        .unwrap_or_default()
}

/// Half of the calls are puts, a quarter drops, a quarter walks.
pub fn random_step(generator: &mut Generator, tables: Tables) -> Step {
    let call = match generator.below(4) {
        0 | 1 => Call::Put,
        2 => Call::Drop,
        _ => Call::Walk,
    };
    let relation = (generator.below(tables.relations) & 0xff) as u8;
    let key = pick(generator, tables.keys);
    let value = pick(generator, tables.values);
    Step {
        call,
        fact: Fact::new(relation, key, value),
    }
}

// Stays: a call is data, drawn at random, which a store and the model are both given.
pub fn play<S: Store>(store: &mut S, step: Step) -> Answer {
    let fact = step.fact;
    let outcome = match step.call {
        Call::Put => Outcome::Put(store.put(fact).map_err(StoreFault::number)),
        Call::Drop => Outcome::Dropped(store.drop_fact(fact)),
        Call::Walk => Outcome::Walked(store.walk(fact).map(parts)),
    };
    Answer {
        outcome,
        contains: store.contains(fact),
        count: store.count(),
        takes: store.takes_fact(fact),
        capacity: store.capacity(),
    }
}

/// What the model says of the step; its memory may run out.
// Stays: the model is no store, whose laws are what is tested, so `play` cannot serve both.
pub fn expect(model: &mut Model, step: Step) -> Result<Answer, AllocError> {
    let fact = step.fact;
    let outcome = match step.call {
        Call::Put => Outcome::Put(model.put(fact)?),
        Call::Drop => Outcome::Dropped(model.drop_fact(fact)),
        Call::Walk => Outcome::Walked(model.walk(fact).map(parts)),
    };
    Ok(Answer {
        outcome,
        contains: model.contains(fact),
        count: model.count(),
        takes: model.takes(fact),
        capacity: model.places(),
    })
}
