//! Reads a formula, and those inside it.
ghost use Rattle.grammar.specs.Reading.{formula as expected-formula, operand as expected-operand};
ghost use Rattle.rules.specs.Reads.{state_of, Reads};

use crate::build::{binary, leaf, unary};
use crate::reader::Reader;
use grammar::fault::ReadFault;
use grammar::forms::{arity, slots};
use grammar::shape::Arity;
use items::item::Kind;

impl<'a> Reader<'a> {
    /// A formula, with this many levels left: the number of its node.
    #[cycle(formula)]
    pub(crate) fn formula(&mut self, levels: usize) -> Result<usize, ReadFault>
        ensures { Reads result (expected-formula levels (state_of self.old)) (state_of self.new) }
    {
        let form = self.opening(levels)?;
        let args = self.arguments(slots(form))?;
        let args = args.as_slice();
        let node = match arity(form) {
            Arity::Zero => leaf(form, args),
            Arity::One => {
                let a = self.operand(levels - 1)?;
                unary(form, args, a)
            }
            Arity::Two => {
                let a = self.operand(levels - 1)?;
                let b = self.operand(levels - 1)?;
                binary(form, args, a, b)
            }
        };
        self.closing(node)
    }

    /// A space and a formula.
    #[cycle(formula)]
    fn operand(&mut self, levels: usize) -> Result<usize, ReadFault>
        ensures { Reads result (expected-operand (expected-formula levels) (state_of self.old)) (state_of self.new) }
    {
        self.expect(Kind::Space)?;
        self.formula(levels)
    }
}
