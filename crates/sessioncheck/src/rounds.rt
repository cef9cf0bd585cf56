//! Random calls on a session and on the model.
use crate::calls::{Call, Refused, give_back, make, verdict};
use crate::model::Model;
use crate::plain::{evaluate, rule_value};
use crate::tally::Tally;
use gridstore::GridStore;
use liststore::ListStore;
use random::Generator;
use rules::table::Table;
use session::{Room, Session, Slip};
use std::alloc::{AllocError, Global};
use store::{Fact, Store};

/// After 64 alterations, the facts of key 63 in relation 1: the ends of facts and of stamps, from both sides.
const LIMITS: [Call; 18] = [
    Call::Put(fact!(1, 62, 0)),
    Call::Put(fact!(1, 63, 63)),
    Call::Put(fact!(1, 63, 64)),
    Call::Put(fact!(1, 63, -1)),
    Call::Drop(fact!(1, 63, 0)),
    Call::Commit(4_000_000_001),
    Call::Commit(3_999_999_999),
    Call::Begin,
    Call::Put(fact!(0, 0, 9)),
    Call::Put(fact!(15, 65_535, 1_000_000_000)),
    Call::Put(fact!(15, 0, -1_000_000_000)),
    Call::Put(fact!(15, 65_536, 0)),
    Call::Put(fact!(15, 0, 1_000_000_001)),
    Call::Put(fact!(15, 0, -1_000_000_001)),
    Call::Put(fact!(16, 0, 0)),
    Call::Put(fact!(0, 63, 64)),
    Call::Commit(4_000_000_000),
    Call::Finish,
];

/// A fact of few relations, keys and values, now and then one that is out of range or that the grid does not take.
fn some_fact(generator: &mut Generator) -> Fact {
    let fact = Fact {
        relation: generator.below(3) as u8,
        key: generator.below(3) as u32,
        value: generator.below(8) as i32,
    };
    match generator.below(40) {
        0 => Fact {
            relation: 16,
            ..fact
        },
        1 => Fact {
            key: 65_536,
            ..fact
        },
        2 => Fact { key: 64, ..fact },
        3 => Fact { value: -1, ..fact },
        _ => fact,
    }
}

/// A run of calls: what both sessions are, the slip of the open change, the slip of another session, the source of the
/// calls, and what was compared.
struct Round<'t, 'n, S: Store> {
    heap: Global,
    session: Session<'t, S>,
    model: Model,
    held: Option<Slip>,
    stray: Option<Slip>,
    generator: &'n mut Generator,
    tally: &'n mut Tally,
}

impl<S: Store> Round<'_, '_, S> {
    /// Every rule at every state, and one state more.
    fn verdicts(&mut self) -> Result<(), AllocError> {
        let record = self.model.record();
        let states = record.states.len();
        let columns = evaluate(self.heap, record)?;
        for number in 1..10u8 {
            for state in 0..states {
                let expected = rule_value(columns.as_slice(), number, state);
                self.tally
                    .verdict(verdict(&self.session, number, state), expected);
            }
            let beyond = verdict(&self.session, number, states);
            self.tally.answer(beyond, Err(Refused(59)));
        }
        Ok(())
    }

    /// A call with the slip that is held; nothing is compared where it needs one and none is held.
    fn call(&mut self, call: Call) -> Result<(), AllocError> {
        if let Some(found) = make(&mut self.session, &mut self.held, call) {
            let expected = self.model.make(call)?;
            self.tally.answer(found, expected);
        }
        Ok(())
    }

    /// A put or a drop, now and then with the other session's slip.
    fn alter(&mut self, call: Call) -> Result<(), AllocError> {
        if self.generator.below(12) > 0 {
            return self.call(call);
        }
        let found = make(&mut self.session, &mut self.stray, call);
        if found.is_some() {
            self.tally.answer(found, self.model.astray(call));
        }
        Ok(())
    }

    /// A stamp that is mostly later than the last.
    fn commit(&mut self) -> Result<(), AllocError> {
        let last = self.model.last_stamp().unwrap_or(0);
        let stamp = last.saturating_add(self.generator.below(6) as u64);
        if self.held.is_none() {
            return Ok(());
        }
        self.call(Call::Commit(stamp))?;
        self.verdicts()
    }

    /// One call.
    fn step(&mut self) -> Result<(), AllocError> {
        match self.generator.below(20) {
            0..=2 => self.call(Call::Begin)?,
            3..=11 => {
                let fact = some_fact(self.generator);
                self.alter(Call::Put(fact))?;
            }
            12..=14 => {
                let fact = some_fact(self.generator);
                self.alter(Call::Drop(fact))?;
            }
            15..=18 => self.commit()?,
            _ => self.call(Call::Withdraw)?,
        }
        Ok(())
    }

    /// Some calls, a finish, and every verdict once more.
    fn play(&mut self) -> Result<(), AllocError> {
        for _ in 0..160 {
            self.step()?;
        }
        for call in [Call::Finish, Call::Withdraw, Call::Finish, Call::Begin] {
            self.call(call)?;
        }
        self.verdicts()
    }

    /// A change of 64 alterations, and the calls at the limits.
    fn limits(&mut self) -> Result<(), AllocError> {
        self.call(Call::Begin)?;
        for value in 0..64 {
            self.call(Call::Put(Fact::new(1, 63, value)))?;
        }
        for call in LIMITS {
            self.call(call)?;
        }
        self.verdicts()
    }
}

/// A round in a session over the first store, with the slip of a session over the second.
fn one_round<S: Store + Drop, F: FnOnce(&mut Round<'_, '_, S>) -> Result<(), AllocError>>(
    heap: Global,
    table: &Table,
    stores: (S, S),
    model: Model,
    generator: &mut Generator,
    tally: &mut Tally,
    play: F,
) -> Result<(), AllocError>
    requires { F.IsAlwaysCallable play }
{
    let room = Room::new(heap)?;
    let other_room = Room::new(heap)?;
    let (store, other_store) = stores;
    let mut other = Session::open(other_store, table, 9, other_room);
    let stray = other.begin().ok();
    let mut round = Round {
        heap,
        session: Session::open(store, table, 7, room),
        model,
        held: None,
        stray,
        generator,
        tally,
    };
    let played = play(&mut round);
    let Round {
        heap: _,
        session,
        model: _,
        held,
        stray,
        generator: _,
        tally: _,
    } = round;
    let _ = give_back(&mut other, held);
    let _ = give_back(&mut other, stray);
    let _ = session.close();
    let _ = other.close();
    played
}

/// A round over list stores of that many places, and one over grids.
fn over_both<
    F: FnOnce(&mut Round<'_, '_, ListStore>) -> Result<(), AllocError>,
    G: FnOnce(&mut Round<'_, '_, GridStore>) -> Result<(), AllocError>,
>(
    heap: Global,
    table: &Table,
    places: usize,
    generator: &mut Generator,
    tally: &mut Tally,
    on_lists: F,
    on_grids: G,
) -> Result<(), AllocError>
    requires lists { F.IsAlwaysCallable on_lists }
    requires grids { G.IsAlwaysCallable on_grids }
{
    let lists = (ListStore::new(heap, places)?, ListStore::new(heap, places)?);
    let model = Model::of_list(heap, places);
    one_round(heap, table, lists, model, generator, tally, on_lists)?;
    let grids = (GridStore::new(), GridStore::new());
    let model = Model::of_grid(heap);
    one_round(heap, table, grids, model, generator, tally, on_grids)
}

/// Random rounds over both stores.
pub fn random_rounds(rt: &HostRuntime, table: &Table, tally: &mut Tally) -> anyhow::Result<()> {
    let mut generator = Generator::new(20_261_118);
    let before = tally.answers;
    for _ in 0..40 {
        over_both(
            rt.alloc(),
            table,
            9,
            &mut generator,
            tally,
            |round| round.play(),
            |round| round.play(),
        )?;
    }
    let answers = tally.answers.wrapping_sub(before);
    let (falses, open, trues) = (tally.falses, tally.open, tally.trues);
    println!(rt; "random calls over both stores: {answers} answers compared")?;
    println!(rt; "verdicts compared: {trues} true, {falses} false, {open} undecided")?;
    Ok(())
}

/// The limits over both stores: what `cases` has against constants, here the model says too.
pub fn limit_rounds(rt: &HostRuntime, table: &Table, tally: &mut Tally) -> anyhow::Result<()> {
    // No call of these is drawn.
    let mut generator = Generator::new(0);
    let before = tally.answers;
    over_both(
        rt.alloc(),
        table,
        70,
        &mut generator,
        tally,
        |round| round.limits(),
        |round| round.limits(),
    )?;
    let answers = tally.answers.wrapping_sub(before);
    println!(rt; "limits by both sessions: {answers} answers compared")?;
    Ok(())
}
