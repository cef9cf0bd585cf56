//! A grid with every bit set, and a list store with every place used.
use crate::steps::parts;
use gridstore::GridStore;
use liststore::ListStore;
use store::{Fact, Store, StoreFault};

/// A put's answer as it is printed: 1 or 0, or the number of a refusal.
fn number(put: Result<bool, StoreFault>) -> u8 {
    put.map_or_else(StoreFault::number, u8::from)
}

/// How many of the facts that a grid takes pass the test.
fn count_taken<F: FnMut(Fact) -> bool>(test: F) -> u32
    requires { (state : F) (fact : _) → F.pre state fact }
{
    (0..16)
        .flat_map(|relation| (0..64).map(move |key| (relation, key)))
        .flat_map(|(relation, key)| (0..64).map(move |value| Fact::new(relation, key, value)))
        .map(test)
        .map(u32::from)
        .fold(0, u32::saturating_add)
}

/// A store that is filled, with the name that is printed for it.
#[derive(Drop)]
struct Filled<'a, S> {
    name: &'a str,
    store: &'a mut S,
}

impl<S: Store> Filled<'_, S> {
    /// Sets every bit.
    fn fill(&mut self, rt: &HostRuntime) -> anyhow::Result<()> {
        let name = self.name;
        let added = count_taken(|fact| self.store.put(fact) == Ok(true));
        let count = self.store.count();
        let met = count_taken(|fact| self.store.walk(fact).map(parts) == Some(parts(fact)));
        let present = count_taken(|fact| self.store.put(fact) == Ok(false));
        println!(rt;
            "{name} filled: put 1: {added}, count: {count}, walk met: {met}, put 0: {present}"
        )?;
        Ok(())
    }

    /// Puts facts that a full store has, and facts beside them that it may not take.
    fn probe(&mut self, rt: &HostRuntime) -> anyhow::Result<()> {
        let name = self.name;
        let last = number(self.store.put(Fact::new(15, 63, 63)));
        let beyond = number(self.store.put(Fact::new(15, 64, 63)));
        let lower = number(self.store.put(Fact::new(15, 63, -1)));
        println!(rt;
            "{name} full: put key 63: {last}, put key 64: {beyond}, put value -1: {lower}"
        )?;
        Ok(())
    }

    /// Makes one place free and fills it again.
    fn refill(&mut self, rt: &HostRuntime) -> anyhow::Result<()> {
        let name = self.name;
        let dropped = self.store.drop_fact(Fact::new(7, 31, 32));
        let again = number(self.store.put(Fact::new(7, 31, 32)));
        let count = self.store.count();
        println!(rt; "{name} full: drop: {dropped}, put: {again}, count: {count}")?;
        Ok(())
    }

    fn play(&mut self, rt: &HostRuntime) -> anyhow::Result<()> {
        self.fill(rt)?;
        self.probe(rt)?;
        self.refill(rt)
    }
}

fn empty_grid(rt: &HostRuntime, grid: &mut GridStore) -> anyhow::Result<()> {
    let taken = number(grid.put(Fact::new(0, 63, 0)));
    let refused = number(grid.put(Fact::new(0, 64, 0)));
    let dropped = grid.drop_fact(Fact::new(0, 63, 0));
    println!(rt; "grid empty: put key 63: {taken}, put key 64: {refused}, drop key 63: {dropped}")?;
    Ok(())
}

pub fn run(rt: &HostRuntime) -> anyhow::Result<()> {
    let mut grid = GridStore::new();
    empty_grid(rt, &mut grid)?;
    let mut filled = Filled {
        name: "grid",
        store: &mut grid,
    };
    filled.play(rt)?;
    let mut list = ListStore::new(rt.alloc(), 65_536)?;
    let mut filled = Filled {
        name: "list of 65536",
        store: &mut list,
    };
    filled.play(rt)
}
