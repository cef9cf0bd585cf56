//! The alterations of the open change, in their order.
ghost use Rattle.std.specs.Prelude.{◌≡◌, ◌+◌, ◌<◌, ◌≤◌, Bool, [], ◌∷◌, ◌++◌, MatchOption, vec_len, vec_capacity};

use store::Fact;

/// A fact that a put added, or that a drop removed.
// Stays: neither case is a failure, as in a Result; they are the two ways to alter a set.
#[derive(Clone, Copy)]
pub enum Alteration {
    Added(Fact),
    Removed(Fact),
}

/// At most 64, with room for them.
#[derive(Drop)]
pub struct Alterations {
    pub(crate) steps: Vec<Alteration>,
    ghost few: { vec_len steps ≤ 64 },
    ghost roomy: { 64 ≤ vec_capacity steps },
}

impl Alterations {
    pub(crate) fn len(&self) -> usize
        ensures { result ≡ vec_len self.now.steps }
    {
        self.steps.len()
    }

    pub(crate) fn push(&mut self, step: Alteration)
        requires { vec_len self.old.steps < 64 }
        ensures { self.new.steps.items ≡ self.old.steps.items ++ (step ∷ []) }
    {
        self.steps.push_reserved(step);
    }

    pub(crate) fn clear(&mut self)
        ensures { self.new.steps.items ≡ [] }
    {
        self.steps.clear();
    }

    /// The latest taken out.
    pub(crate) fn pop(&mut self) -> Option<Alteration>
        ensures { MatchOption result ((self.old.steps.items ≡ []) × (self.new.steps.items ≡ [])) (λ step. (vec_len self.new.steps + 1 ≡ vec_len self.old.steps) × (self.old.steps.items ≡ self.new.steps.items ++ (step ∷ []))) }
    {
        self.steps.pop()
    }
}
