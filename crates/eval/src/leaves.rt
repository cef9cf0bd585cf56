//! Where the values of query nodes come from.
ghost use Rattle.std.specs.Prelude.{◌≡◌, ℕ, slice_index};
ghost use Rattle.syntax.specs.Rows.{bit_of};
ghost use Rattle.eval.specs.Rows.{row_leaf};

use truth::Truth;

/// A source of the values of query nodes at states.
pub trait Leaves<K: Truth> {
    ghost leaf: { Self → ℕ → ℕ → K };

    /// The value of query node `node` at state `state`.
    fn value(&self, state: usize, node: usize) -> K
        ensures { result ≡ leaf self.now state node };
}

/// The leaves of a record that is given by rows: a set bit is yes, and whatever no row has is no.
#[derive(Clone, Copy)]
pub struct Rows<'a> {
    pub rows: &'a [u64],
}

impl<K: Truth> Leaves<K> for Rows<'_> {
    ghost leaf = { λ s. row_leaf K.Truth.kind s.rows.now };

    fn value(&self, state: usize, node: usize) -> K {
        if is_set(row_at(self.rows, state), node) {
            K::yes()
        } else {
            K::no()
        }
    }
}

/// The row of a state, with no bit set where there is none. Cost: one read.
fn row_at(rows: &[u64], state: usize) -> u64
    ensures { result ≡ slice_index rows.now state }
{
    rows.get(state).copied().unwrap_or(0)
}

/// Whether bit `m` of a row is set, from the lowest.
pub fn is_set(row: u64, m: usize) -> bool
    ensures { result ≡ bit_of row m }
{
    m < 64 && (row >> m) % 2 == 1
}
