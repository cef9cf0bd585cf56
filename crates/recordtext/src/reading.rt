//! Reading a record from its text.
ghost use Rattle.recordtext.specs.Reads.{Spelt, Numbers, Body, Front, Reads};

use crate::state::{ReadError, RecordText, State, StateLine};
use std::alloc::Global;

/// The number that a text spells in decimal, without a sign or a leading zero.
fn natural(text: &str) -> Option<u64>
    ensures { Spelt text.now result }
{
    match text.as_bytes() {
        [b'+', ..] | [b'0', _, ..] => None,
        _ => text.parse().ok(),
    }
}

/// Two numbers with a space between and a bracket behind.
fn two_numbers(text: &str) -> Option<State>
    ensures { Numbers text.now result }
{
    let (stamp, row) = text.strip_suffix(')')?.split_once(' ')?;
    Some(State {
        stamp: natural(stamp)?,
        row: natural(row)?,
    })
}

/// The state on a line, which is given without its newline. Cost: linear in the line.
pub fn state_of(line: &[u8]) -> Option<State>
    ensures { Body line.now result }
{
    // The front is looked at first, so that a line of another form costs no more than that.
    let numbers = line.strip_prefix(b"(state ")?;
    two_numbers(std::str::from_utf8(numbers).ok()?)
}

/// The state on the first line of a text. Cost: linear in that line.
pub fn first_state(text: &[u8]) -> Option<StateLine>
    ensures { Front text.now result }
{
    let end = text.iter().position(|b| *b == b'\n')?;
    let state = state_of(&text[..end])?;
    Some(StateLine {
        state,
        length: end + 1,
    })
}

/// The record that a text has, a line for each state, or its first line outside that form. Cost: linear in the text.
pub fn read(heap: Global, text: &[u8]) -> Result<RecordText, ReadError>
    ensures { Reads text.now result }
{
    let mut stamps = Vec::new(heap);
    let mut rows = Vec::new(heap);
    let mut rest = text;
    while !rest.is_empty() {
        let line = first_state(rest).ok_or(ReadError::BadLine(stamps.len() + 1))?;
        stamps.push(line.state.stamp)?;
        rows.push(line.state.row)?;
        rest = &rest[line.length..];
    }
    Ok(RecordText { stamps, rows })
}
