//! Windows over the stamps of a record.
ghost use Rattle.std.specs.Prelude.{◌≡◌, not};
ghost use Rattle.eval.specs.Truth.{below, closed, within};
ghost use Rattle.eval.specs.Stamps.{rising};

use syntax::Window;

/// Whether the window takes in the distance.
pub fn contains(w: Window, distance: u64) -> bool
    ensures { result ≡ within w distance }
{
    u64::from(w.low) <= distance && !is_beyond(w, distance)
}

/// Whether the distance is above the window's upper bound.
pub fn is_beyond(w: Window, distance: u64) -> bool
    ensures { below w.high distance ≡ not result }
{
    w.high.is_some_and(|high| u64::from(high) < distance)
}

/// Whether a window whose record has come that far can gain no state any more.
pub fn is_past(w: Window, distance: u64) -> bool
    ensures { result ≡ closed w.high distance }
{
    w.high.is_some_and(|high| u64::from(high) <= distance)
}

/// Whether each stamp is later than the one before. Cost: the stamps once.
pub fn are_rising(stamps: &[u64]) -> bool
    ensures { result ≡ rising stamps.now }
{
    stamps.is_sorted_by(|before, after| before < after)
}
