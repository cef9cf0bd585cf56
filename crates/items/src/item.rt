//! The items of a text.
ghost use Rattle.std.specs.Prelude.{◌≡◌};
ghost use Rattle.items.specs.Items.{item_number};

/// A line, and a byte in that line, both from 1.
#[derive(Clone, Copy, PartialEq, Eq, Debug)]
pub struct Place {
    pub line: usize,
    pub byte: usize,
}

/// The words of the twenty forms.
#[derive(Clone, Copy, PartialEq, Eq, Debug)]
pub enum Form {
    True,
    Some,
    Every,
    Fact,
    Number,
    Refer,
    Level,
    Not,
    And,
    Or,
    Implies,
    Next,
    AllNext,
    Sometime,
    Always,
    Until,
    Previous,
    Once,
    SoFar,
    Since,
}

#[derive(Clone, Copy, PartialEq, Eq, Debug)]
pub enum Kind {
    Open,
    Close,
    Space,
    Newline,
    /// The word `rule`.
    Rule,
    /// The word `end`.
    End,
    Form(Form),
    /// A number in its one right spelling.
    Number(i64),
    /// Any other run of digits and minus signs, or a number beyond every range.
    Misspelt,
    /// A run of letters that is no word, or any other byte.
    Other,
}

#[derive(Clone, Copy, PartialEq, Eq, Debug)]
pub struct Item {
    pub kind: Kind,
    pub place: Place,
}

impl Item {
    /// The number that it is; every item but a number has the number 0. Cost: constant.
    // Stays: reading goes on with the number of every argument, and its definition gives the word `end` 0, so there is no none.
    pub fn number(self) -> i64
        ensures { result ≡ item_number self }
    {
        match self.kind {
            Kind::Number(n) => n,
            _ => 0,
        }
    }
}
