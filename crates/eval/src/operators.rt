//! The temporal operators at one state, from what their operands are at every state.
//!
//! The cost is given in states looked at. A window of a state ends where its upper bound ends, so no operator looks past it.
ghost use Rattle.std.specs.Prelude.{◌≡◌, ◌+◌, ◌-◌, ◌<◌, ◌≤◌, false, length, if◌then◌else◌, nat_le};
ghost use Rattle.eval.specs.Outlooks.{seen, Covers};
ghost use Rattle.eval.specs.Stamps.{span};
ghost use Rattle.eval.specs.Truth.{all, below, mark, sometime, always, until, next, allnext, previous, once, sofar, since};

use crate::operand::{Negated, Operand, Yes};
use crate::outlook::Outlook;
use crate::windows::{contains, is_beyond, is_past};
use truth::Truth;

/// The value where the test holds, else no.
fn only_if<K: Truth>(test: bool, value: K) -> K
    ensures { result ≡ (if test then value else K.kind.no) }
{
    if test { value } else { K::no() }
}

/// The second operand at state `j` where the first has held so far, and how the first holds with state `j`.
fn turn<K: Truth, F: Operand<K>, G: Operand<K>>(first: &F, second: &G, held: K, j: usize) -> (K, K)
    requires first { F.has first.now j }
    requires second { G.has second.now j }
    ensures here { result.0 ≡ K.kind.and (G.at second.now j) held }
    ensures on { result.1 ≡ K.kind.and held (F.at first.now j) }
{
    let on = held.and(first.read(j));
    (second.read(j).and(held), on)
}

// Stays: each call asks that its operand covers the outlook. A struct of both would be made for that one call, and until
// and since have two operands.
impl Outlook<'_> {
    /// The distance to state `j`, 0 if that comes first.
    fn ahead(&self, j: usize) -> u64
        requires { j < length self.now.stamps.now }
        ensures { result ≡ span self.now.stamps.now self.now.state j }
    {
        self.stamps[j].saturating_sub(self.stamps[self.state])
    }

    /// The distance from state `j`, 0 if that comes later.
    fn behind(&self, j: usize) -> u64
        requires { j < length self.now.stamps.now }
        ensures { result ≡ span self.now.stamps.now j self.now.state }
    {
        self.stamps[self.state].saturating_sub(self.stamps[j])
    }

    /// The first state from this one on that lies beyond the window's upper bound, or the number of states.
    /// Cost: the states up to it.
    fn future_end(&self) -> usize
        ensures from { self.now.state ≤ result }
        ensures inside { result ≤ length self.now.stamps.now }
        ensures beyond { result < length self.now.stamps.now → below self.now.window.high (span self.now.stamps.now self.now.state result) ≡ false }
    {
        let Outlook {
            stamps,
            state,
            window,
        } = *self;
        let from = stamps[state];
        stamps[state..]
            .iter()
            .position(|stamp| is_beyond(window, stamp.saturating_sub(from)))
            .map_or(stamps.len(), |ahead| state + ahead)
    }

    /// The first state after those that lie before the window's upper bound in the past. Cost: the states from it on.
    fn past_start(&self) -> usize
        ensures inside { result ≤ self.now.state + 1 }
        ensures beyond { 0 < result → below self.now.window.high (span self.now.stamps.now (result - 1) self.now.state) ≡ false }
    {
        let Outlook {
            stamps,
            state,
            window,
        } = *self;
        let to = stamps[state];
        stamps[..=state]
            .iter()
            .rposition(|stamp| is_beyond(window, to.saturating_sub(*stamp)))
            .map_or(0, |last| last + 1)
    }

    /// The open mark.
    fn open_mark<K: Truth>(&self, pending: K) -> K
        ensures { result ≡ mark K.kind (seen K.kind self.now pending) self.now.window self.now.state }
    {
        if is_past(self.window, self.ahead(self.stamps.len() - 1)) {
            K::no()
        } else {
            pending
        }
    }

    /// The second operand at some state of the future window and the first at every state before it,
    /// or the first at every state from this one on and the open mark.
    /// `kept` is the first operand at every state from this one on. Cost: the states up to the window's end.
    pub fn until<K: Truth, F: Operand<K>, G: Operand<K>>(
        &self,
        first: &F,
        second: &G,
        kept: K,
        pending: K,
    ) -> K
        requires first { Covers self.now (F.has first.now) }
        requires second { Covers self.now (G.has second.now) }
        requires keeps { kept ≡ all K.kind (length self.now.stamps.now) (λ m. nat_le self.now.state m) (F.at first.now) }
        ensures { result ≡ until K.kind (seen K.kind self.now pending) self.now.window (F.at first.now) (G.at second.now) self.now.state }
    {
        let end = self.future_end();
        let mut any = K::no();
        let mut held = K::yes();
        // Stays: a fold would carry both values in a pair, and its closure ask for the place and both operands in a contract
        // as long as this loop.
        for j in self.state..end {
            let (here, on) = turn(first, second, held, j);
            any = any.or(only_if(contains(self.window, self.ahead(j)), here));
            held = on;
        }
        any.or(kept.and(self.open_mark(pending)))
    }

    /// The second operand at some state of the past window and the first at every state after it.
    /// Cost: the states from the window's start.
    // Stays: it goes back, joins from the left and has no open mark, so one text for this and `until` would take the
    // places, the test and the join as parameters.
    pub fn since<K: Truth, F: Operand<K>, G: Operand<K>>(&self, first: &F, second: &G) -> K
        requires first { Covers self.now (F.has first.now) }
        requires second { Covers self.now (G.has second.now) }
        ensures { result ≡ since K.kind (seen K.kind self.now K.kind.no) self.now.window (F.at first.now) (G.at second.now) self.now.state }
    {
        let start = self.past_start();
        let mut any = K::no();
        let mut held = K::yes();
        // Stays: a fold would carry both values in a pair, and its closure ask for the place and both operands.
        for j in (start..self.state + 1).rev() {
            let (here, on) = turn(first, second, held, j);
            any = only_if(contains(self.window, self.behind(j)), here).or(any);
            held = on;
        }
        any
    }

    /// Whether the operand comes up in the future window, or may still come. Cost: that of until.
    pub fn sometime<K: Truth, O: Operand<K>>(&self, operand: &O, pending: K) -> K
        requires { Covers self.now (O.has operand.now) }
        ensures { result ≡ sometime K.kind (seen K.kind self.now pending) self.now.window (O.at operand.now) self.now.state }
    {
        self.until(&Yes, operand, K::yes(), pending)
    }

    /// The operand at every state of the future window. Cost: that of sometime.
    // Stays: always, sofar and allnext are a line each, since a generic one would take the operator as a closure.
    pub fn always<K: Truth, O: Operand<K>>(&self, operand: &O, pending: K) -> K
        requires { Covers self.now (O.has operand.now) }
        ensures { result ≡ always K.kind (seen K.kind self.now pending) self.now.window (O.at operand.now) self.now.state }
    {
        self.sometime(&Negated { of: operand }, pending).not()
    }

    /// The operand at some state of the past window. Cost: that of since.
    pub fn once<K: Truth, O: Operand<K>>(&self, operand: &O) -> K
        requires { Covers self.now (O.has operand.now) }
        ensures { result ≡ once K.kind (seen K.kind self.now K.kind.no) self.now.window (O.at operand.now) self.now.state }
    {
        self.since(&Yes, operand)
    }

    /// The operand at every state of the past window. Cost: that of once.
    pub fn sofar<K: Truth, O: Operand<K>>(&self, operand: &O) -> K
        requires { Covers self.now (O.has operand.now) }
        ensures { result ≡ sofar K.kind (seen K.kind self.now K.kind.no) self.now.window (O.at operand.now) self.now.state }
    {
        self.once(&Negated { of: operand }).not()
    }

    /// The operand at the next state, if it lies in the window; at the last state the open mark. Cost: one state.
    pub fn next<K: Truth, O: Operand<K>>(&self, operand: &O, pending: K) -> K
        requires { Covers self.now (O.has operand.now) }
        ensures { result ≡ next K.kind (seen K.kind self.now pending) self.now.window (O.at operand.now) self.now.state }
    {
        let j = self.state + 1;
        if j < self.stamps.len() {
            only_if(contains(self.window, self.ahead(j)), operand.read(j))
        } else {
            self.open_mark(pending)
        }
    }

    /// The negation of next over the negated operand. Cost: that of next.
    // Stays: one line; a generic one for it and always would take the operator as a closure.
    pub fn allnext<K: Truth, O: Operand<K>>(&self, operand: &O, pending: K) -> K
        requires { Covers self.now (O.has operand.now) }
        ensures { result ≡ allnext K.kind (seen K.kind self.now pending) self.now.window (O.at operand.now) self.now.state }
    {
        self.next(&Negated { of: operand }, pending).not()
    }

    /// The operand at the previous state, if there is one in the window. Cost: one state.
    pub fn previous<K: Truth, O: Operand<K>>(&self, operand: &O) -> K
        requires { Covers self.now (O.has operand.now) }
        ensures { result ≡ previous K.kind (seen K.kind self.now K.kind.no) self.now.window (O.at operand.now) self.now.state }
    {
        if 0 < self.state {
            let j = self.state - 1;
            only_if(contains(self.window, self.behind(j)), operand.read(j))
        } else {
            K::no()
        }
    }
}
