//! Random choices, the same in every run.
ghost use Rattle.std.specs.Prelude.{◌<◌, ◌≤◌};

use random::Generator;
use std::alloc::Global;

/// The source of the choices, and the memory for what is made of them.
#[derive(Drop)]
pub struct Random {
    source: Generator,
    pub heap: Global,
}

impl Random {
    pub fn new(heap: Global, seed: u64) -> Random {
        Random {
            source: Generator::new(seed),
            heap,
        }
    }

    /// From 0 to `limit`.
    pub fn up_to(&mut self, limit: u32) -> u32
        ensures { result ≤ limit }
    {
        let drawn = self.source.below(limit as usize + 1);
        u32::try_from(drawn).unwrap_or(0).min(limit)
    }

    /// One of the items.
    pub fn one_of<T: Copy, const N: usize>(&mut self, items: [T; N]) -> T
        requires { 0 < N }
    {
        items[self.source.below(N)]
    }

    /// 64 bits, from three draws.
    pub fn bits(&mut self) -> u64 {
        let high = u64::from(self.up_to(0xf_ffff));
        let middle = u64::from(self.up_to(0x3f_ffff));
        let low = u64::from(self.up_to(0x3f_ffff));
        (high << 44) | (middle << 22) | low
    }

    /// True once in `n` times.
    pub fn one_in(&mut self, n: u32) -> bool {
        self.up_to(n.saturating_sub(1)) == 0
    }
}
