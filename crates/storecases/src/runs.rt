//! The comparisons: each store alone, then both side by side.
use crate::model::Model;
use crate::slot::SlotStore;
use crate::steps::{Answer, Step, Tables};
use crate::tally::Tally;
use crate::{full, steps};
use anyhow::ensure;
use gridstore::GridStore;
use liststore::ListStore;
use random::Generator;
use std::alloc::{AllocError, Global};
use store::Store;

const STEPS: u32 = 20_000;

/// In and out of range, and at the edges of both.
const KEYS: [u32; 9] = [0, 1, 62, 63, 64, 65, 65_535, 65_536, 4_294_967_295];

const VALUES: [i32; 14] = [
    -2_147_483_648,
    -1_000_000_001,
    -1_000_000_000,
    -1,
    0,
    1,
    2,
    62,
    63,
    64,
    999_999_999,
    1_000_000_000,
    1_000_000_001,
    2_147_483_647,
];

/// What both stores take.
const SHARED_KEYS: [u32; 5] = [0, 1, 31, 62, 63];

const SHARED_VALUES: [i32; 6] = [0, 1, 2, 32, 62, 63];

/// Random calls on the model, whose answers go to `check` beside the calls.
fn compare<F: FnMut(Step, Answer) -> anyhow::Result<()>>(
    seed: u64,
    tables: Tables,
    model: &mut Model,
    mut check: F,
) -> anyhow::Result<Tally>
    requires { F.IsAlwaysCallable check }
{
    let mut generator = Generator::new(seed);
    let mut tally = Tally::default();
    for _ in 0..STEPS {
        let step = steps::random_step(&mut generator, tables);
        let expected = steps::expect(model, step)?;
        check(step, expected)?;
        tally.note(expected);
    }
    Ok(tally)
}

/// The calls on one store and on the model, and a line of what was compared.
fn alone<S: Store>(
    rt: &HostRuntime,
    name: &str,
    store: &mut S,
    model: &mut Model,
    relations: usize,
) -> anyhow::Result<()> {
    let tables = Tables {
        relations,
        keys: &KEYS,
        values: &VALUES,
    };
    let tally = compare(20_240_601, tables, model, |step, expected| {
        let found = steps::play(store, step);
        ensure!(found == expected, "the store and the model differ");
        Ok(())
    })?;
    println!(rt; "{name}: {tally}")?;
    Ok(())
}

/// The same calls on two stores and on the model, with facts that both stores take.
fn side_by_side<S: Store, T: Store>(
    first: &mut S,
    second: &mut T,
    model: &mut Model,
) -> anyhow::Result<Tally> {
    let tables = Tables {
        relations: 16,
        keys: &SHARED_KEYS,
        values: &SHARED_VALUES,
    };
    compare(7, tables, model, |step, expected| {
        let found = steps::play(first, step);
        ensure!(found == expected, "the first store and the model differ");
        let found = steps::play(second, step);
        ensure!(found == expected, "the second store and the model differ");
        Ok(())
    })
}

fn list_alone(rt: &HostRuntime, places: usize, relations: usize) -> anyhow::Result<()> {
    let name = format!(in rt.alloc(); "list of {places}")?;
    let mut list = ListStore::new(rt.alloc(), places)?;
    let mut model = Model::of_list(rt.alloc(), places);
    alone(rt, name.as_str(), &mut list, &mut model, relations)
}

fn both(rt: &HostRuntime) -> anyhow::Result<()> {
    let mut list = ListStore::new(rt.alloc(), 65_536)?;
    let mut grid = GridStore::new();
    let mut model = Model::of_grid(rt.alloc());
    let tally = side_by_side(&mut list, &mut grid, &mut model)?;
    println!(rt; "list of 65536 and grid: {tally}")?;
    Ok(())
}

/// Whether a store with one place less than the model is told apart.
fn alone_told_apart(rt: &HostRuntime) -> Result<bool, AllocError> {
    let mut list = ListStore::new(rt.alloc(), 65_535)?;
    let mut model = Model::of_list(rt.alloc(), 65_536);
    Ok(alone(rt, "list of 65535", &mut list, &mut model, 16).is_err())
}

/// Whether two stores are told apart from a model with 65,536 places.
fn two_told_apart(heap: Global, first: usize, second: usize) -> Result<bool, AllocError> {
    let mut first = ListStore::new(heap, first)?;
    let mut second = ListStore::new(heap, second)?;
    let mut model = Model::of_list(heap, 65_536);
    Ok(side_by_side(&mut first, &mut second, &mut model).is_err())
}

/// Holds stores to a model that differs from them in the room alone: a comparison that always held would show only here.
fn other_room(rt: &HostRuntime) -> anyhow::Result<()> {
    let alone = alone_told_apart(rt)?;
    let first = two_told_apart(rt.alloc(), 65_535, 65_536)?;
    let second = two_told_apart(rt.alloc(), 65_536, 65_535)?;
    println!(rt;
        "another room told apart: alone {alone}, as the first {first}, as the second {second}"
    )?;
    Ok(())
}

pub fn run_all(rt: &HostRuntime) -> anyhow::Result<()> {
    list_alone(rt, 0, 18)?;
    list_alone(rt, 1, 2)?;
    list_alone(rt, 256, 18)?;
    let mut slot_model = Model::of_list(rt.alloc(), 1);
    alone(rt, "slot", &mut SlotStore::new(), &mut slot_model, 2)?;
    let mut grid_model = Model::of_grid(rt.alloc());
    alone(rt, "grid", &mut GridStore::new(), &mut grid_model, 18)?;
    both(rt)?;
    full::run(rt)?;
    other_room(rt)
}
