//! What the temporal operators read.
ghost use Rattle.std.specs.Prelude.{◌≡◌, ℕ, ◌*◌, ◌<◌, length};
ghost use Rattle.eval.specs.Columns.{value_at};

use truth::Truth;

/// An operator's operand: its value at each state.
pub(crate) trait Operand<K: Truth> {
    // The states at which there is one.
    ghost has: { Self → ℕ → Type 0 };

    ghost at: { Self → ℕ → K };

    /// The value at state `i`. Cost: constant.
    fn read(&self, i: usize) -> K
        requires { has self.now i }
        ensures { result ≡ at self.now i };
}

/// The values of a node at every state, among the values of all nodes, which are kept state by state.
#[derive(Drop)]
pub(crate) struct Column<'a, K> {
    pub values: &'a [K],
    pub states: usize,
    pub nodes: usize,
    pub node: usize,
    ghost whole: { length values.now ≡ states * nodes },
    ghost within: { node < nodes },
}

impl<K: Truth> Operand<K> for Column<'_, K> {
    ghost has = { λ c i. i < c.states };

    ghost at = { λ c. value_at K.Truth.kind c.values.now c.nodes c.node };

    fn read(&self, i: usize) -> K {
        self.values[i * self.nodes + self.node]
    }
}

/// The values of an operand, negated.
#[derive(Drop)]
pub(crate) struct Negated<'a, O> {
    pub of: &'a O,
}

impl<K: Truth, O: Operand<K>> Operand<K> for Negated<'_, O> {
    ghost has = { λ n. O.Operand.has n.of.now };

    ghost at = { λ n i. K.Truth.kind.not (O.Operand.at n.of.now i) };

    fn read(&self, i: usize) -> K {
        self.of.read(i).not()
    }
}

/// Yes at every state.
#[derive(Drop)]
pub(crate) struct Yes;

impl<K: Truth> Operand<K> for Yes {
    ghost has = { λ _ _. Unit {0} };

    ghost at = { λ _ _. K.Truth.kind.yes };

    fn read(&self, i: usize) -> K {
        K::yes()
    }
}
