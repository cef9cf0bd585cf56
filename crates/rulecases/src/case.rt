//! A case as a line has it.

#[derive(Clone, Copy)]
pub struct Case<'a> {
    pub name: &'a str,
    pub expected: &'a str,
    pub text: &'a str,
}

impl<'a> Case<'a> {
    /// The three parts of a line, parted by bars.
    pub fn parse(line: &'a str) -> Option<Case<'a>> {
        let (name, rest) = line.split_once(" | ")?;
        let (expected, text) = rest.split_once(" | ")?;
        Some(Case {
            name,
            expected,
            text,
        })
    }
}
