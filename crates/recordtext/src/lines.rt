//! The lines that the judge writes.
ghost use Rattle.std.specs.Prelude.{◌≡◌, IfOk, string_bytes};
ghost use Rattle.recordtext.specs.Texts.{verdict_line, fault_line, refused_line, bad_line};

use std::alloc::{AllocError, Global};

/// The truth of a rule at a state.
pub fn verdict(heap: Global, rule: u8, state: usize, truth: bool) -> Result<String, AllocError>
    ensures { IfOk result (λ s. string_bytes s ≡ verdict_line rule state truth) }
{
    let letter = if truth { "T" } else { "F" };
    format!(in heap; "(verdict {rule} {state} {letter})\n")
}

/// The first fault of a rule file: its number, its line and its byte in that line.
pub fn fault(heap: Global, number: u8, line: usize, byte: usize) -> Result<String, AllocError>
    ensures { IfOk result (λ s. string_bytes s ≡ fault_line number line byte) }
{
    format!(in heap; "(fault {number} {line} {byte})\n")
}

/// A refused record, by the refusal's number.
pub fn refused(heap: Global, number: u8) -> Result<String, AllocError>
    ensures { IfOk result (λ s. string_bytes s ≡ refused_line number) }
{
    format!(in heap; "(refused {number})\n")
}

/// The first line of a record that is not the line of a state.
pub fn bad(heap: Global, line: usize) -> Result<String, AllocError>
    ensures { IfOk result (λ s. string_bytes s ≡ bad_line line) }
{
    format!(in heap; "(bad {line})\n")
}
