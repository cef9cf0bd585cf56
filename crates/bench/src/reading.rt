//! The reader on a whole rule file.
use rules::table::Table;
use std::alloc::{AllocError, Global};

/// Reads the text that many times, and answers how many nodes it found in all.
pub fn read_often(heap: Global, text: &[u8], times: u32) -> Result<usize, AllocError> {
    (0..times).try_fold(0, |nodes: usize, _| {
        let read = Table::new(heap)?.read(text);
        Ok(read.map_or(nodes, |table| nodes.wrapping_add(table.nodes().len())))
    })
}
