//! How an item fits a slot of a form.
ghost use Rattle.std.specs.Prelude.{◌≡◌};
ghost use Rattle.grammar.specs.Reading.{within as in_range, rising as in-range-from, ranged as in-its-range, argument as fits_slot};

use crate::fault::FaultKind;
use crate::shape::Slot;
use items::item::{Item, Kind};

fn within(low: i64, high: i64, item: Item) -> Result<Item, FaultKind>
    ensures { result ≡ in_range low high item }
{
    if (low..=high).contains(&item.number()) {
        Ok(item)
    } else {
        Err(FaultKind::BadNumber)
    }
}

/// In its range, and not below the number before it.
fn rising(low: i64, high: i64, before: i64, item: Item) -> Result<Item, FaultKind>
    ensures { result ≡ in-range-from low high before item }
{
    within(low, high, item)?;
    if before <= item.number() {
        Ok(item)
    } else {
        Err(FaultKind::Unordered)
    }
}

fn ranged(slot: Slot, before: i64, item: Item) -> Result<Item, FaultKind>
    ensures { result ≡ in-its-range slot before item }
{
    // Stays: of `Slot::Upper(low, high) | Slot::UpperOrEnd(low, high)` the check says "a bug in rattle": an i64 that two variants
    // bind in one arm is of type "(denote.Struct.Field.i64-field).Value" to it.
    match slot {
        Slot::Range(low, high) => within(low, high, item),
        Slot::Upper(low, high) => rising(low, high, before, item),
        Slot::UpperOrEnd(low, high) => rising(low, high, before, item),
    }
}

/// The item itself if it fits the slot after this number, or how it does not fit. Cost: constant.
pub fn fit(slot: Slot, before: i64, item: Item) -> Result<Item, FaultKind>
    ensures { result ≡ fits_slot slot before item }
{
    match (item.kind, slot) {
        (Kind::Number(_), _) => ranged(slot, before, item),
        (Kind::Misspelt, _) => Err(FaultKind::BadNumber),
        (Kind::End, Slot::UpperOrEnd(_, _)) => Ok(item),
        _ => Err(FaultKind::Misfit),
    }
}
