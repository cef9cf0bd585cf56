//! What becomes of a rule file.
use rules::table::Table;
use std::alloc::{AllocError, Global};
use writer::write::write;

/// The number, line and byte of a fault, or how an accepted file comes back from the writer.
pub fn outcome(heap: Global, text: &[u8]) -> Result<String, AllocError> {
    match Table::new(heap)?.read(text) {
        Ok(table) => String::from_str(heap, written(heap, &table, text)?),
        Err(fault) => format!(in heap; "{fault}"),
    }
}

/// Writes an accepted file's table into buffers of its length, one byte more and one byte less.
fn written(heap: Global, table: &Table, text: &[u8]) -> Result<&'static str, AllocError> {
    // Stays: each text stands once, where it is found, to be held against a case's text; an enum would name each thrice.
    let mut exact = vec![in heap; 7u8; text.len()]?;
    if write(table, exact.as_mut_slice()) != Ok(text.len()) || exact.as_slice() != text {
        return Ok("another text");
    }
    let mut longer = vec![in heap; 7u8; text.len().saturating_add(1)]?;
    if write(table, longer.as_mut_slice()) != Ok(text.len()) || longer.last() != Some(&7) {
        return Ok("a byte beyond the text");
    }
    let mut shorter = vec![in heap; 7u8; text.len().saturating_sub(1)]?;
    match write(table, shorter.as_mut_slice()) {
        Ok(_) => return Ok("no refusal"),
        Err(fault) if fault.number() != 27 => return Ok("another refusal"),
        Err(_) => {}
    }
    if shorter.iter().any(|b| *b != 7) {
        return Ok("a byte written in spite of the refusal");
    }
    again(heap, exact.as_slice())
}

/// Reads what was written.
fn again(heap: Global, text: &[u8]) -> Result<&'static str, AllocError> {
    match Table::new(heap)?.read(text) {
        Ok(_) => Ok("accepted"),
        Err(_) => Ok("not read again"),
    }
}
