//! Limits from both sides, and every refusal.
use crate::calls::{Answer, Call, Done, Refused, give_back, make, verdict};
use crate::plain::Value;
use crate::tally::Tally;
use gridstore::GridStore;
use liststore::ListStore;
use rules::table::Table;
use session::{Room, Session, SessionFault, Slip};
use std::alloc::{AllocError, Global};
use store::{Fact, Store};

/// A call, and what it has to come to.
#[derive(Clone, Copy)]
struct Step(Call, Answer);

/// A rule and a state, and what the verdict has to be.
#[derive(Clone, Copy)]
struct Question(u8, usize, Result<Value, Refused>);

const ACCEPTED: Answer = Ok(Done::Accepted);

const ALTERED: Answer = Ok(Done::Altered(true));

const UNALTERED: Answer = Ok(Done::Altered(false));

/// After 64 alterations, facts 0 to 63 of relation 0: a 65th, and what such a change still may do.
const CROWDED: [Step; 5] = [
    Step(Call::Put(fact!(0, 0, 1)), Err(Refused(57))),
    Step(Call::Put(fact!(0, 0, 0)), UNALTERED),
    Step(Call::Drop(fact!(0, 0, 0)), Err(Refused(57))),
    Step(Call::Drop(fact!(0, 0, 1)), UNALTERED),
    Step(Call::Withdraw, Ok(Done::Undone(Some(64)))),
];

/// After 64 facts that fill the store: 57 where 58 fits too, then 58.
const FULL: [Step; 6] = [
    Step(Call::Put(fact!(0, 64, 0)), Err(Refused(57))),
    Step(Call::Commit(1), ACCEPTED),
    Step(Call::Begin, ACCEPTED),
    Step(Call::Put(fact!(0, 64, 0)), Err(Refused(58))),
    Step(Call::Put(fact!(0, 63, 0)), UNALTERED),
    Step(Call::Withdraw, Ok(Done::Undone(Some(0)))),
];

/// A withdraw leaves what a put had found there, and brings back what a drop had taken.
const WITHDRAWS: [Step; 13] = [
    Step(Call::Begin, ACCEPTED),
    Step(Call::Put(fact!(1, 1, 1)), ALTERED),
    Step(Call::Commit(5), ACCEPTED),
    Step(Call::Begin, ACCEPTED),
    Step(Call::Put(fact!(1, 1, 1)), UNALTERED),
    Step(Call::Put(fact!(1, 1, 2)), ALTERED),
    Step(Call::Drop(fact!(1, 1, 2)), ALTERED),
    Step(Call::Drop(fact!(1, 1, 1)), ALTERED),
    Step(Call::Withdraw, Ok(Done::Undone(Some(3)))),
    Step(Call::Begin, ACCEPTED),
    Step(Call::Drop(fact!(1, 1, 1)), ALTERED),
    Step(Call::Drop(fact!(1, 1, 2)), UNALTERED),
    Step(Call::Withdraw, Ok(Done::Undone(Some(1)))),
];

/// Ranges of facts and stamps; the stamp before was 5.
const RANGES: [Step; 12] = [
    Step(Call::Begin, ACCEPTED),
    Step(Call::Put(fact!(16, 0, 0)), Err(Refused(23))),
    Step(Call::Put(fact!(0, 65_536, 0)), Err(Refused(23))),
    Step(Call::Put(fact!(0, 0, 1_000_000_001)), Err(Refused(23))),
    Step(Call::Put(fact!(0, 0, -1_000_000_001)), Err(Refused(23))),
    Step(Call::Drop(fact!(16, 0, 0)), Err(Refused(23))),
    Step(Call::Drop(fact!(0, 65_536, 0)), Err(Refused(23))),
    Step(Call::Drop(fact!(0, 0, 1_000_000_001)), Err(Refused(23))),
    Step(Call::Drop(fact!(0, 0, -1_000_000_001)), Err(Refused(23))),
    Step(Call::Commit(5), Err(Refused(55))),
    Step(Call::Commit(4_000_000_001), Err(Refused(24))),
    Step(Call::Commit(4_000_000_000), ACCEPTED),
];

/// Verdicts after the ranges.
const VERDICTS: [Question; 4] = [
    Question(1, 1, Ok(Value::True)),
    Question(1, 2, Err(Refused(59))),
    Question(10, 0, Err(Refused(25))),
    Question(0, 2, Err(Refused(25))),
];

/// Begin and finish with a change open, and after finish.
const ENDINGS: [Step; 7] = [
    Step(Call::Begin, ACCEPTED),
    Step(Call::Begin, Err(Refused(52))),
    Step(Call::Finish, Err(Refused(52))),
    Step(Call::Withdraw, Ok(Done::Undone(Some(0)))),
    Step(Call::Finish, ACCEPTED),
    Step(Call::Finish, Err(Refused(53))),
    Step(Call::Begin, Err(Refused(53))),
];

/// After 512 states, of stamps 0 to 511.
const NO_FURTHER: [Step; 4] = [
    Step(Call::Begin, ACCEPTED),
    Step(Call::Commit(512), Err(Refused(56))),
    Step(Call::Commit(511), Err(Refused(55))),
    Step(Call::Withdraw, Ok(Done::Undone(Some(0)))),
];

/// A store with the room of a session over it.
#[derive(Drop)]
struct Prepared<S> {
    store: S,
    room: Room,
}

impl<S: Store> Prepared<S> {
    fn open(self, table: &Table, number: u16) -> Session<'_, S> {
        let Prepared { store, room } = self;
        Session::open(store, table, number, room)
    }
}

fn list(heap: Global) -> Result<Prepared<ListStore>, AllocError> {
    let store = ListStore::new(heap, 64)?;
    let room = Room::new(heap)?;
    Ok(Prepared { store, room })
}

fn grid(heap: Global) -> Result<Prepared<GridStore>, AllocError> {
    let room = Room::new(heap)?;
    Ok(Prepared {
        store: GridStore::new(),
        room,
    })
}

/// A session with the slip that is held, and what was compared.
struct Holder<'t, 'n, S: Store> {
    session: Session<'t, S>,
    held: Option<Slip>,
    tally: &'n mut Tally,
}

impl<S: Store> Holder<'_, '_, S> {
    fn step(&mut self, step: Step) {
        let Step(call, due) = step;
        let found = make(&mut self.session, &mut self.held, call);
        self.tally.answer(found, Some(due));
    }

    fn script(&mut self, steps: &[Step]) {
        for step in steps {
            self.step(*step);
        }
    }

    fn ask(&mut self, question: Question) {
        let Question(rule, state, due) = question;
        self.tally.answer(verdict(&self.session, rule, state), due);
    }

    /// 64 facts of relation 0 in one change.
    fn sixty_four(&mut self) {
        self.step(Step(Call::Begin, ACCEPTED));
        for key in 0..64 {
            self.step(Step(Call::Put(Fact::new(0, key, 0)), ALTERED));
        }
    }
}

fn alterations<S: Store>(holder: &mut Holder<'_, '_, S>) {
    holder.sixty_four();
    holder.script(&CROWDED);
}

fn chain<S: Store>(holder: &mut Holder<'_, '_, S>) {
    holder.script(&WITHDRAWS);
    holder.script(&RANGES);
    for question in VERDICTS {
        holder.ask(question);
    }
    holder.script(&ENDINGS);
}

/// 512 states, each in a change of its own, and no more.
fn states<S: Store>(holder: &mut Holder<'_, '_, S>) {
    for stamp in 0..512 {
        holder.step(Step(Call::Begin, ACCEPTED));
        holder.step(Step(Call::Commit(stamp), ACCEPTED));
    }
    holder.script(&NO_FURTHER);
}

/// A million changes, and no more.
fn changes<S: Store>(holder: &mut Holder<'_, '_, S>) {
    for _ in 0..1_000_000 {
        holder.step(Step(Call::Begin, ACCEPTED));
        holder.step(Step(Call::Withdraw, Ok(Done::Undone(Some(0)))));
    }
    holder.step(Step(Call::Begin, Err(Refused(54))));
}

/// A finish with no state.
fn no_state<S: Store>(holder: &mut Holder<'_, '_, S>) {
    holder.step(Step(Call::Finish, ACCEPTED));
    holder.ask(Question(1, 0, Err(Refused(59))));
}

fn full<S: Store>(holder: &mut Holder<'_, '_, S>) {
    holder.sixty_four();
    holder.script(&FULL);
}

/// Slips of another session of another number, and of an earlier change of this one: `other` has the same number.
fn wrong_slips<S: Store>(
    session: &mut Session<'_, S>,
    other: &mut Session<'_, S>,
    third: &mut Session<'_, S>,
    tally: &mut Tally,
) {
    let refused = Some(Err(Refused(51)));
    let mut stray = third.begin().ok();
    let mut held = session.begin().ok();
    for call in [
        Call::Put(Fact::new(0, 0, 0)),
        Call::Drop(Fact::new(0, 0, 0)),
        Call::Commit(1),
    ] {
        tally.answer(make(session, &mut stray, call), refused);
    }
    tally.answer(give_back(session, stray), Done::Undone(None));
    let twin = other.begin().ok();
    // Both slips have the same two numbers, so the twin ends this change, and its own slip is then an earlier change's.
    tally.answer(give_back(session, twin), Done::Undone(Some(0)));
    let mut next = None;
    tally.answer(make(session, &mut next, Call::Begin), Some(ACCEPTED));
    for call in [Call::Put(Fact::new(0, 0, 0)), Call::Commit(1)] {
        tally.answer(make(session, &mut held, call), refused);
    }
    tally.answer(give_back(session, held), Done::Undone(None));
    tally.answer(give_back(session, next), Done::Undone(Some(0)));
}

/// The change number that a store's refusal has beside it.
fn change_beside(answer: Result<bool, SessionFault>) -> Option<u32> {
    match answer {
        Err(SessionFault::Store(refused)) => Some(refused.change),
        _ => None,
    }
}

/// A fact that the store does not take: 31, with a wrong slip too, and that slip's change beside it.
fn not_taken<S: Store>(
    session: &mut Session<'_, S>,
    other: &mut Session<'_, S>,
    tally: &mut Tally,
) {
    let refused = Err(Refused(31));
    let mut held = session.begin().ok();
    tally.answer(
        make(session, &mut held, Call::Put(Fact::new(0, 63, 63))),
        Some(ALTERED),
    );
    tally.answer(
        make(session, &mut held, Call::Put(Fact::new(0, 64, 0))),
        Some(refused),
    );
    tally.answer(
        make(session, &mut held, Call::Drop(Fact::new(0, 64, 0))),
        Some(UNALTERED),
    );
    tally.answer(give_back(session, held), Done::Undone(Some(1)));
    let first = other.begin().ok();
    tally.answer(give_back(other, first), Done::Undone(Some(0)));
    let mut stray = other.begin().ok();
    tally.answer(
        make(session, &mut stray, Call::Put(Fact::new(0, 64, 0))),
        Some(refused),
    );
    if let Some(slip) = &stray {
        tally.answer(
            change_beside(session.put(slip, Fact::new(0, 64, 0))),
            Some(2),
        );
    }
    tally.answer(give_back(other, stray), Done::Undone(Some(0)));
}

/// The rules of the sessions, and what was compared.
#[derive(Drop)]
struct Cases<'t, 'n> {
    table: &'t Table,
    tally: &'n mut Tally,
}

impl Cases<'_, '_> {
    /// One case in a session of its own.
    fn play<S: Store + Drop, F: FnOnce(&mut Holder<'_, '_, S>)>(
        &mut self,
        prepared: Prepared<S>,
        case: F,
    )
        requires { F.IsAlwaysCallable case }
    {
        let mut holder = Holder {
            session: prepared.open(self.table, 7),
            held: None,
            tally: self.tally,
        };
        case(&mut holder);
        let Holder {
            mut session,
            held,
            tally: _,
        } = holder;
        let _ = give_back(&mut session, held);
        let _ = session.close();
    }

    /// Slips of other sessions; the second session has the number of the first.
    fn three_sessions<S: Store + Drop>(
        &mut self,
        first: Prepared<S>,
        second: Prepared<S>,
        third: Prepared<S>,
    ) {
        let mut session = first.open(self.table, 7);
        let mut twin = second.open(self.table, 7);
        let mut third = third.open(self.table, 8);
        wrong_slips(&mut session, &mut twin, &mut third, self.tally);
        let _ = session.close();
        let _ = twin.close();
        let _ = third.close();
    }

    /// What only the grid refuses.
    fn grid_alone(&mut self, first: Prepared<GridStore>, second: Prepared<GridStore>) {
        let mut session = first.open(self.table, 7);
        let mut other = second.open(self.table, 8);
        not_taken(&mut session, &mut other, self.tally);
        let _ = session.close();
        let _ = other.close();
    }

    /// The cases that every store has, each over a store of its own.
    fn over<S: Store + Drop, F: Fn(Global) -> Result<Prepared<S>, AllocError>>(
        &mut self,
        heap: Global,
        prepare: F,
    ) -> Result<(), AllocError>
        requires { F.IsAlwaysCallable prepare }
    {
        self.play(prepare(heap)?, alterations);
        self.play(prepare(heap)?, chain);
        self.play(prepare(heap)?, states);
        self.play(prepare(heap)?, changes);
        self.play(prepare(heap)?, no_state);
        self.three_sessions(prepare(heap)?, prepare(heap)?, prepare(heap)?);
        Ok(())
    }

    /// Every case over both stores.
    fn play_all(&mut self, heap: Global) -> Result<(), AllocError> {
        self.over(heap, list)?;
        self.over(heap, grid)?;
        self.play(list(heap)?, full);
        self.grid_alone(grid(heap)?, grid(heap)?);
        Ok(())
    }
}

/// Every case over both stores, and a line that says how many answers were compared.
// Stays: table and tally go to three functions of two files and on to each round, which takes the tally for itself; a struct
// of both would be made for these calls and taken apart in each.
pub fn both_stores(rt: &HostRuntime, table: &Table, tally: &mut Tally) -> anyhow::Result<()> {
    let mut cases = Cases { table, tally };
    cases.play_all(rt.alloc())?;
    let answers = tally.answers;
    println!(rt; "limits and refusals over both stores: {answers} answers compared")?;
    Ok(())
}
