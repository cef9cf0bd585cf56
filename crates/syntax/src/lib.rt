//! The twenty forms of a rule as data: queries with their bounds, operators with the numbers of their operands and their windows.
#![tactic(auto)]

/// Distances from `low` to `high`, or without an upper bound.
#[derive(Clone, Copy)]
pub struct Window {
    pub low: u32,
    pub high: Option<u32>,
}

/// A question about the facts of one state.
#[derive(Clone, Copy)]
pub enum Query {
    /// A fact of the relation has a value from the first number to the second.
    Some(u8, i32, i32),
    /// Every fact of the relation has one.
    Every(u8, i32, i32),
    /// This fact is there: relation, key and value.
    Fact(u8, u32, i32),
    /// The relation has from the first number to the second of facts.
    Number(u8, u32, u32),
    /// Each key of the first relation is a key of the second.
    Refer(u8, u8),
    /// At each key every value of the first relation is at most every value of the second.
    Level(u8, u8),
}

/// A formula whose operands are numbers of other nodes.
// Stays: operands are numbers: a row has its bits by them, users see them, and reading asks for no memory.
#[derive(Clone, Copy)]
pub enum Node {
    True,
    Query(Query),
    Not(usize),
    And(usize, usize),
    Or(usize, usize),
    Implies(usize, usize),
    Next(Window, usize),
    AllNext(Window, usize),
    Sometime(Window, usize),
    Always(Window, usize),
    Until(Window, usize, usize),
    Previous(Window, usize),
    Once(Window, usize),
    SoFar(Window, usize),
    Since(Window, usize, usize),
}

/// A numbered rule, and the node of its formula.
#[derive(Clone, Copy)]
pub struct Rule {
    pub number: u8,
    pub root: usize,
}
