//! Which of the values that stand in their places need not be worked out again.
ghost use Rattle.std.specs.Prelude.{◌≡◌, ◌≤◌, ℕ, Bool, false, length, take_while};
ghost use Rattle.eval.specs.Standing.{decided, stays_decided};

use truth::{Three, Truth};

/// Tells the values that stand from those that are to be worked out.
pub(crate) trait Standing<K: Truth> {
    ghost stays: { Self → ℕ → K → Bool };

    // Before this state every value stands.
    ghost from: { Self → ℕ };

    /// Whether the value in the place of a node at state `state` stands.
    fn stands(&self, state: usize, value: K) -> bool
        ensures { result ≡ stays self.now state value };

    /// The first state that is to be looked at.
    fn first(&self) -> usize
        ensures { result ≡ from self.now };
}

/// No value stands.
#[derive(Clone, Copy)]
pub(crate) struct Anew;

impl<K: Truth> Standing<K> for Anew {
    ghost stays = { λ s i x. false };

    ghost from = { λ s. 0 };

    fn stands(&self, state: usize, value: K) -> bool {
        false
    }

    fn first(&self) -> usize {
        0
    }
}

/// At the first `states` states true and false stand, and at the first `settled` of them nothing is undecided.
#[derive(Clone, Copy)]
pub(crate) struct Decided {
    pub states: usize,
    pub settled: usize,
    ghost within: { settled ≤ states },
}

impl Standing<Three> for Decided {
    ghost stays = { λ s. stays_decided s.states };

    ghost from = { λ s. s.settled };

    fn stands(&self, state: usize, value: Three) -> bool {
        state < self.states && is_decided(value)
    }

    fn first(&self) -> usize {
        self.settled
    }
}

/// How many values from the front on are true or false. Cost: those, and the first that is undecided.
pub(crate) fn count_decided(values: &[Three]) -> usize
    ensures { result ≡ length (take_while decided values.now) }
{
    values
        .iter()
        .take_while(|value| is_decided(**value))
        .count()
}

/// Whether a value is true or false.
fn is_decided(value: Three) -> bool
    ensures { result ≡ decided value }
{
    matches!(value, Three::True | Three::False)
}
