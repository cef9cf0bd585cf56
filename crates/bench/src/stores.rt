//! Puts and drops on each store.
use random::Generator;
use store::{Fact, Store};

/// What was done: how often the set changed, and how many facts it has at the end.
#[derive(Clone, Copy)]
pub struct Work {
    pub changes: u32,
    pub count: usize,
}

pub fn random_fact(generator: &mut Generator, keys: usize, values: usize) -> Fact {
    Fact::new(
        (generator.below(16) & 0xff) as u8,
        (generator.below(keys) & 0xffff) as u32,
        (generator.below(values) & 0xffff) as i32,
    )
}

/// Two puts for each drop, of random facts with keys and values below the bounds.
pub fn puts_and_drops<S: Store>(store: &mut S, steps: u32, keys: usize, values: usize) -> Work {
    let mut generator = Generator::new(1);
    let changes = (0..steps)
        .map(|_| {
            let fact = random_fact(&mut generator, keys, values);
            if generator.below(3) == 0 {
                store.drop_fact(fact)
            } else {
                store.put(fact).unwrap_or(false)
            }
        })
        .map(u32::from)
        .fold(0, u32::wrapping_add);
    Work {
        changes,
        count: store.count(),
    }
}
