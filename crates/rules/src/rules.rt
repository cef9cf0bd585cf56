//! Reads rules as far as the items go.
ghost use Rattle.std.specs.Prelude.{◌≡◌, ◌≤◌, [], IfOk, vec_items, vec_capacity};
ghost use Rattle.grammar.specs.Files.{all_rules};
ghost use Rattle.rules.specs.Reads.{state_of, ReadsAs};

use crate::reader::Reader;
use grammar::fault::ReadFault;
use syntax::Rule;

impl<'a> Reader<'a> {
    /// All rules, into the room that is handed in.
    pub(crate) fn rules(&mut self, mut rules: Vec<Rule>) -> Result<Vec<Rule>, ReadFault>
        requires empty { rules.items ≡ [] }
        requires wide { 16 ≤ vec_capacity rules }
        ensures read { ReadsAs vec_items result (all_rules (state_of self.old)) (state_of self.new) }
        ensures wide { IfOk result (λ v. 16 ≤ vec_capacity v) }
    {
        let mut least = 1;
        while !self.items.is_empty() {
            self.rule_opening(rules.len())?;
            let rule = self.rule(least)?;
            rules.push_reserved(rule);
            least = rule.number + 1;
        }
        Ok(rules)
    }
}
