//! Records that can be judged.
ghost use Rattle.std.specs.Prelude.{◌≡◌, true};
ghost use Rattle.judging.specs.Answers.{none_above, paired, timely};

use eval::windows::are_rising;
use rules::refusal::JudgeFault;

/// The stamps and rows of a record that no refusal fits.
// Stays: stamps and rows come as two slices, since those that are not as many are refused.
#[derive(Clone, Copy)]
pub(crate) struct Finished<'a> {
    pub(crate) stamps: &'a [u64],
    pub(crate) rows: &'a [u64],
    ghost pairs: { paired stamps.now rows.now ≡ true },
    ghost timed: { timely stamps.now ≡ true },
}

/// Whether there are as many rows as stamps, and at most 512.
fn are_paired(stamps: &[u64], rows: &[u64]) -> bool
    ensures { result ≡ paired stamps.now rows.now }
{
    stamps.len() == rows.len() && stamps.len() <= 512
}

/// Whether no stamp is above the limit. Cost: the stamps once.
fn is_none_above(limit: u64, stamps: &[u64]) -> bool
    ensures { result ≡ none_above limit stamps.now }
{
    stamps.iter().all(|stamp| *stamp <= limit)
}

/// Whether each stamp is later than the one before, and none above 4,000,000,000. Cost: the stamps twice.
fn are_timely(stamps: &[u64]) -> bool
    ensures { result ≡ timely stamps.now }
{
    are_rising(stamps) && is_none_above(4_000_000_000, stamps)
}

impl<'a> Finished<'a> {
    ghost use Rattle.judging.specs.Answers.{record_refusals, answered};
    ghost use Rattle.judging.specs.Finished.{parts_of, checked_parts};

    /// The record, or the first refusal that fits it. Cost: the stamps twice.
    pub(crate) fn new(stamps: &'a [u64], rows: &'a [u64]) -> Result<Finished<'a>, JudgeFault>
        ensures { checked_parts result ≡ answered (record_refusals stamps.now rows.now) (stamps.now, rows.now) }
    {
        if !are_paired(stamps, rows) {
            return Err(JudgeFault::Record);
        }
        if !are_timely(stamps) {
            return Err(JudgeFault::Stamp);
        }
        Ok(Finished { stamps, rows })
    }
}
