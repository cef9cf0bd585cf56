//! Reads one rule.
ghost use Rattle.grammar.specs.Files.{rule as expected-rule};
ghost use Rattle.rules.specs.Reads.{state_of, Reads};

use crate::narrow::narrow;
use crate::reader::Reader;
use grammar::fault::ReadFault;
use grammar::shape::Slot;
use items::item::Kind;
use syntax::Rule;

impl<'a> Reader<'a> {
    /// What follows the opening bracket of a rule, to the end of its line. Its number is at least `least`.
    pub(crate) fn rule(&mut self, least: u8) -> Result<Rule, ReadFault>
        ensures { Reads result (expected-rule least (state_of self.old)) (state_of self.new) }
    {
        self.expect(Kind::Rule)?;
        self.expect(Kind::Space)?;
        let item = self.argument(Slot::Upper(1, 99), i64::from(least))?;
        self.expect(Kind::Space)?;
        let root = self.formula(12)?;
        self.expect(Kind::Close)?;
        self.expect(Kind::Newline)?;
        Ok(Rule {
            number: narrow(item.number()),
            root,
        })
    }
}
