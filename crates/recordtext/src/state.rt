//! States read from a text.
ghost use Rattle.std.specs.Prelude.{◌≡◌, alloc_error};
ghost use Rattle.recordtext.specs.declared.state.ReadError.TheVariants.{NoMemory};

use std::alloc::{AllocError, AllocFailed};

/// A stamp and a row.
#[derive(Clone, Copy, PartialEq, Eq, Debug)]
pub struct State {
    pub stamp: u64,
    pub row: u64,
}

/// The state on the first line of a text, and the number of bytes of that line with its newline.
#[derive(Clone, Copy, PartialEq, Eq, Debug)]
pub struct StateLine {
    pub state: State,
    pub length: usize,
}

/// The stamps and rows of a record, state by state.
// Stays: the judge takes stamps and rows as two slices, since it also refuses those that are not as many; a vector of
// states would be copied into two.
#[derive(PartialEq, Eq, Debug, Drop)]
pub struct RecordText {
    pub stamps: Vec<u64>,
    pub rows: Vec<u64>,
}

/// Why a text is not read as a record.
#[derive(Clone, Copy, PartialEq, Eq, Debug)]
pub enum ReadError {
    NoMemory(AllocError),
    /// The first line, from 1, that is not the line of a state.
    BadLine(usize),
}

impl<T: Drop> From<AllocFailed<T>> for ReadError {
    ghost from_gives = { λ _ r. r ≡ NoMemory alloc_error };

    fn from(failed: AllocFailed<T>) -> ReadError {
        ReadError::NoMemory(AllocError::from(failed))
    }
}
