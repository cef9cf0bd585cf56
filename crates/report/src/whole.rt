//! A report as it is handed out.

/// What is to be printed of a rule file, by what became of the file.
// Stays: a fault in the file is no failure of the report, which answers a Result for want of memory.
#[derive(Drop)]
pub enum Report {
    Accepted(Vec<u8>),
    Faulty(Vec<u8>),
}
