//! Puts the text of rules.
ghost use Rattle.std.specs.Prelude.{◌<◌, [], length};
ghost use Rattle.grammar.specs.TableText.{rule_text, texts};
ghost use Rattle.rules.specs.Tables.{nodes_of, entries_of, text_of};
ghost use Rattle.writer.specs.Places.{Gains};

use crate::sink::Sink;
use rules::table::Table;
use syntax::Rule;

impl Sink<'_> {
    pub(crate) fn put_rule(&mut self, table: &Table, rule: Rule)
        requires { rule.root < length (nodes_of table.now) }
        ensures { Gains self.old self.new (rule_text (texts [] (entries_of table.now)) rule) }
    {
        self.put(b"(rule ");
        self.put_number(rule.number);
        self.put(b" ");
        self.put_node(table, rule.root);
        self.put(b")\n");
    }

    pub(crate) fn put_rules(&mut self, table: &Table)
        ensures { Gains self.old self.new (text_of table.now) }
    {
        for rule in table.rules() {
            self.put_rule(table, *rule);
        }
    }
}
