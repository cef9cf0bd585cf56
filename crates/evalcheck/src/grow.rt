//! Random formulas and records.
ghost use Rattle.std.specs.Prelude.{◌<◌};

use crate::chance::Random;
use crate::tree::{Bounds, Form, Leaf, Operator, Tree};
use recordtext::state::RecordText;
use std::alloc::AllocError;

const QUERIES: [Form; 6] = [
    Form::Some,
    Form::Every,
    Form::Fact,
    Form::Number,
    Form::Refer,
    Form::Level,
];

const UNARY: [Form; 8] = [
    Form::Not,
    Form::Next,
    Form::AllNext,
    Form::Sometime,
    Form::Always,
    Form::Previous,
    Form::Once,
    Form::SoFar,
];

const BINARY: [Form; 5] = [Form::And, Form::Or, Form::Implies, Form::Until, Form::Since];

impl Random {
    /// Windows of small numbers, so that distances fall on their edges; now and then a wide one.
    fn bounds(&mut self) -> Bounds {
        let low = u64::from(self.up_to(6));
        if self.one_in(5) {
            return Bounds { low, high: None };
        }
        if self.one_in(12) {
            return Bounds {
                low,
                high: Some(1_000_000_000),
            };
        }
        let width = u64::from(self.up_to(9));
        Bounds {
            low,
            high: Some(low + width),
        }
    }

    /// The items of a query, in range and with ordered bounds: small numbers, so that facts of few kinds meet them,
    /// and now and then the ends of the ranges.
    fn numbers(&mut self, form: Form) -> [i64; 3] {
        let wide = self.one_in(8);
        let relation = i64::from(self.up_to(if wide { 15 } else { 3 }));
        let low = i64::from(self.up_to(9));
        let high = low + i64::from(self.up_to(5));
        match form {
            Form::Refer | Form::Level => [relation, i64::from(self.up_to(3)), 0],
            Form::Fact => [
                relation,
                i64::from(self.up_to(if wide { 65_535 } else { 3 })),
                low,
            ],
            Form::Number => [relation, low / 3, if wide { 1_000_000 } else { high / 2 }],
            _ => [
                relation,
                if wide { -1_000_000_000 } else { low },
                if wide { 1_000_000_000 } else { high },
            ],
        }
    }

    fn leaf(&mut self) -> Leaf {
        let form = if self.one_in(8) {
            Form::True
        } else {
            self.one_of(QUERIES)
        };
        let numbers = self.numbers(form);
        Leaf { form, numbers }
    }

    /// An operator of one of the forms; a window is drawn for each, and kept where the form has one.
    fn operator<const N: usize>(&mut self, forms: [Form; N]) -> Operator
        requires { 0 < N }
    {
        let form = self.one_of(forms);
        let bounds = self.bounds();
        Operator {
            form,
            window: form.has_window().then_some(bounds),
        }
    }

    /// A formula of at most `size` formulas and `levels` levels.
    pub fn tree(&mut self, size: u32, levels: u32) -> Result<Tree, AllocError> {
        if size <= 1 || levels <= 1 {
            return Ok(Tree::Leaf(self.leaf()));
        }
        let rest = size - 1;
        if rest == 1 || self.one_in(3) {
            let operator = self.operator(UNARY);
            let operand = self.tree(rest, levels - 1)?;
            return Ok(Tree::One(operator, Box::new(self.heap, operand)?));
        }
        let operator = self.operator(BINARY);
        let left = self.up_to(rest - 2) + 1;
        let first = self.tree(left, levels - 1)?;
        let second = self.tree(rest - left, levels - 1)?;
        Ok(Tree::Two(
            operator,
            Box::new(self.heap, first)?,
            Box::new(self.heap, second)?,
        ))
    }

    /// A record of that many states: small steps between stamps, and rows of which every bit is random.
    pub fn record(&mut self, states: u32) -> Result<RecordText, AllocError> {
        let mut stamps = Vec::new(self.heap);
        let mut rows = Vec::new(self.heap);
        let mut stamp = u64::from(self.up_to(3));
        let sparse = self.one_in(2);
        for _ in 0..states {
            stamps.push(stamp)?;
            let bits = self.bits();
            rows.push(if sparse { bits & self.bits() } else { bits })?;
            let step = if self.one_in(40) {
                999_999_990 + self.up_to(20)
            } else {
                1 + self.up_to(4)
            };
            stamp = stamp.saturating_add(u64::from(step));
        }
        Ok(RecordText { stamps, rows })
    }
}
