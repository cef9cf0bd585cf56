//! One fact: a relation, a key and a value. Each call here takes constant time.
ghost use Rattle.std.specs.Prelude.{◌≡◌};
ghost use Rattle.store.specs.Facts.{before, same, in_range, fact_of, least_of, past, value_in, StrictTotalOrder, Equality};

const LAST_RELATION: u8 = 15;

const LAST_KEY: u32 = 65_535;

const FARTHEST_VALUE: i32 = 1_000_000_000;

/// A fact in range has a relation up to 15, a key up to 65,535 and a value between -1,000,000,000 and
/// 1,000,000,000. The types are wider, so that a call can be asked about a fact that is out of range.
///
/// Facts are ordered by relation, then by key, then by value.
#[derive(Clone, Copy, Debug, PartialEq, Eq, PartialOrd, Ord)]
pub struct Fact {
    pub relation: u8,
    pub key: u32,
    pub value: i32,
}

/// Whether `a` comes before `b`: by relation, then by key, then by value.
#[tactic(auto, unfolding(crate::specs::Facts::before), using(crate::proofs::Order::order))]
// Stays: a published function, whose contract also says that the derived order is strict and total.
pub fn is_before(a: Fact, b: Fact) -> bool
    ensures answer { result ≡ before a b }
    ensures order { StrictTotalOrder before }
{
    a < b
}

#[tactic(auto, unfolding(crate::specs::Facts::same), using(crate::proofs::Order::equality))]
// Stays: a published function, whose contract also says that the derived equality is one.
pub fn is_same(a: Fact, b: Fact) -> bool
    ensures answer { result ≡ same a b }
    ensures equality { Equality same }
{
    a == b
}

#[tactic(auto, unfolding(crate::specs::Facts::in_range, crate::specs::Facts::value_in))]
pub fn is_in_range(a: Fact) -> bool
    ensures { result ≡ in_range a }
{
    a.relation <= LAST_RELATION && a.key <= LAST_KEY && a.value_in(-FARTHEST_VALUE, FARTHEST_VALUE)
}

impl Fact {
    pub fn new(relation: u8, key: u32, value: i32) -> Fact
        ensures { result ≡ fact_of relation key value }
    {
        Fact {
            relation,
            key,
            value,
        }
    }

    /// Where a walk through a relation begins.
    #[tactic(auto, unfolding(crate::specs::Facts::least_of))]
    pub fn least_of(relation: u8) -> Fact
        ensures { result ≡ least_of relation }
    {
        Fact::new(relation, 0, i32::MIN)
    }

    /// Where a walk goes on after this fact: the next value, or this one where the type has no greater.
    #[tactic(auto, unfolding(crate::specs::Facts::past))]
    pub fn past(self) -> Fact
        ensures { result ≡ past self }
    {
        Fact {
            value: self.value.saturating_add(1),
            ..self
        }
    }

    #[tactic(auto, unfolding(crate::specs::Facts::value_in))]
    pub fn value_in(self, low: i32, high: i32) -> bool
        ensures { result ≡ value_in low high self }
    {
        (low..=high).contains(&self.value)
    }
}
