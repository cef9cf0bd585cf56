//! A store with one bit for each fact that it takes.
#![tactic(auto)]

ghost use Rattle.std.specs.Prelude.{◌≡◌, ◌<◌, ◌≤◌, true, false, length, Err, MatchOption, ◌≢◌};
ghost use Rattle.store.specs.declared.stores.StoreFault.TheVariants.{Full};
ghost use Rattle.store.specs.Stores.{empty, put_answer, after_put};
ghost use Rattle.gridstore.specs.Grid.{grid_takes, words_facts, grid_meaning, grid_fact, FirstBit, LowBit, FirstAhead};
ghost use Rattle.store.specs.Facts.{holds, with_fact, without_fact, first_from};
ghost use Rattle.std.proofs.Common.{arith, lit<};
ghost use Rattle.gridstore.specs.Grids.{words_rise, words_length, held_taken, taken_in_range};

use store::{Fact, Store, StoreFault};

const LAST_RELATION: u8 = 15;

const LAST_KEY: u32 = 63;

/// Takes the facts with keys from 0 to 63 and values from 0 to 63. Bit v of word 64 r + k stands for the fact of
/// relation r, key k and value v, so a word holds the values of one key, in order.
#[derive(Drop)]
pub struct GridStore {
    words: [u64; 1024],
    ghost size: { length words ≡ 1024 },
}

/// Whether the grid has a bit for the fact.
#[tactic(auto, unfolding(crate::specs::Grid::grid_takes, store::specs::Facts::value_in))]
fn is_taken(fact: Fact) -> bool
    ensures { result ≡ grid_takes fact }
{
    fact.relation <= LAST_RELATION && fact.key <= LAST_KEY && fact.value_in(0, 63)
}

/// Where the grid keeps a fact that it takes.
#[derive(Clone, Copy)]
struct Place {
    word: usize,
    bit: u32,
    ghost word_within: { word < 1024 },
    ghost bit_within: { bit < 64 },
}

impl Place {
    /// The fact's place, or none if the grid does not take the fact.
    #[tactic(auto, using(crate::specs::Grids::taken_word, crate::specs::Grids::taken_bit, crate::specs::Grids::taken_shape), unfolding(crate::specs::Grid::word_of, crate::specs::Grid::bit_of))]
    fn of(fact: Fact) -> Option<Place>
        ensures { MatchOption result (grid_takes fact ≡ false) (λ p. (grid_takes fact ≡ true) × (grid_fact p.word p.bit ≡ fact)) }
    {
        if !is_taken(fact) {
            return None;
        }
        Some(Place {
            word: usize::from(fact.relation) * 64 + fact.key as usize,
            bit: fact.value.unsigned_abs(),
        })
    }
}

/// The first bit of the word that is set, from `low` on: a shift and a count of trailing zeros.
#[tactic(auto, using(crate::specs::Binary::first_bit_none, crate::specs::Binary::first_bit_some))]
fn first_bit(word: u64, low: u32) -> Option<u32>
    ensures { FirstBit word low result }
{
    let rest = word.checked_shr(low)?;
    (rest != 0).then_some(low + rest.trailing_zeros())
}

/// The least bit that stands for a fact of the key at or after `start`, if one does.
fn low_bit(start: Fact, key: u32) -> Option<u32>
    requires { start.key ≤ key }
    ensures { LowBit start key result }
{
    if key > start.key {
        return Some(0);
    }
    let low = start.value.max(0).unsigned_abs();
    (low < 64).then_some(low)
}

/// The first bit of the key's word that is set and stands for a fact at or after `start`.
#[tactic(auto, using(crate::specs::Grids::first_ahead_none, crate::specs::Grids::first_ahead_from))]
fn first_ahead(word: u64, start: Fact, key: u32) -> Option<u32>
    requires { start.key ≤ key }
    ensures { FirstAhead word start key result }
{
    first_bit(word, low_bit(start, key)?)
}

/// How many bits of the words are set.
fn ones_of(words: &[u64]) -> usize
    requires { length words.now ≤ 1024 }
    ensures { result ≡ length (words_facts 0 words.now) }
{
    words.iter().map(|word| word.count_ones() as usize).sum()
}

impl GridStore {
    /// An empty grid. It asks for no memory: the 1024 words are part of the value.
    pub fn new() -> GridStore
        ensures { grid_meaning result.words ≡ empty grid_takes 65536 }
    {
        GridStore { words: [0; 1024] }
    }

    /// Whether the bit is set.
    #[tactic(auto, using(crate::specs::Grids::grid_contains))]
    fn is_set(&self, place: Place) -> bool
        ensures { result ≡ holds (grid_fact place.word place.bit) (words_facts 0 self.now.words) }
    {
        (self.words[place.word] >> place.bit) & 1 == 1
    }

    #[tactic(auto, using(crate::specs::Grids::grid_put))]
    fn set(&mut self, place: Place)
        ensures { words_facts 0 self.new.words ≡ with_fact (grid_fact place.word place.bit) (words_facts 0 self.old.words) }
    {
        self.words[place.word] |= 1 << place.bit;
    }

    #[tactic(auto, using(crate::specs::Grids::grid_drop))]
    fn clear(&mut self, place: Place)
        ensures { words_facts 0 self.new.words ≡ without_fact (grid_fact place.word place.bit) (words_facts 0 self.old.words) }
    {
        self.words[place.word] &= !(1 << place.bit);
    }

    /// The first fact of the start's relation at or after it, word by word from the start's key on.
    fn first_at(&self, start: Fact) -> Option<Fact>
        ensures { result ≡ first_from start (words_facts 0 self.now.words) }
    {
        if start.relation > LAST_RELATION {
            return None;
        }
        let row = usize::from(start.relation) * 64;
        // Stays: by `find_map` the result stayed open: std has no lemma that reads its clauses over a range.
        for key in start.key..64 {
            if let Some(bit) = first_ahead(self.words[row + key as usize], start, key) {
                return Some(Fact::new(start.relation, key, bit as i32));
            }
        }
        None
    }
}

impl Store for GridStore {
    ghost meaning = { λ s. grid_meaning s.words };

    ghost lawful = { λ s.
        record {
          rises = words_rise 0 s.words;
          taken = held_taken s.words s.size;
          ranged = taken_in_range;
          fits = omega (arith, words_length 0 s.words, s.size);
          small = lit< tt;
        } };

    /// Reads one word.
    #[tactic(auto, using(crate::specs::Grids::not_held))]
    fn contains(&self, fact: Fact) -> bool {
        Place::of(fact).is_some_and(|place| self.is_set(place))
    }

    /// Counts the ones of the 1024 words.
    fn count(&self) -> usize {
        ones_of(&self.words)
    }

    /// Constant time.
    fn takes_fact(&self, fact: Fact) -> bool {
        is_taken(fact)
    }

    /// Constant time.
    fn capacity(&self) -> usize {
        65_536
    }

    /// Reads at most one word for each key from the start's on, and counts trailing zeros.
    fn walk(&self, start: Fact) -> Option<Fact> {
        self.first_at(start)
    }

    /// Writes at most one word. A clear bit is room, so this is never refused with 58.
    fn put(&mut self, fact: Fact) -> Result<bool, StoreFault>
        ensures answer { result ≡ put_answer fact (grid_meaning self.old.words) }
        ensures after { grid_meaning self.new.words ≡ after_put fact (grid_meaning self.old.words) }
        ensures room { result ≢ Err Full }
    {
        let place = Place::of(fact).ok_or(StoreFault::NotTaken)?;
        if self.is_set(place) {
            return Ok(false);
        }
        self.set(place);
        Ok(true)
    }

    /// Writes at most one word.
    fn drop_fact(&mut self, fact: Fact) -> bool {
        match Place::of(fact) {
            Some(place) if self.is_set(place) => {
                self.clear(place);
                true
            }
            _ => false,
        }
    }
}
