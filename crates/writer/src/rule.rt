//! The text of one rule.
ghost use Rattle.std.specs.Prelude.{◌≡◌, ◌<◌, [], length, IfOk, slice_index_or};
ghost use Rattle.grammar.specs.TableText.{rule_text, texts};
ghost use Rattle.rules.specs.Tables.{nodes_of, entries_of};
ghost use Rattle.writer.specs.Places.{Puts};
ghost use Rattle.writer.specs.Writing.{rule_texts};

use crate::sink::Sink;
use rules::table::Table;
use std::alloc::{AllocError, Global};
use syntax::Rule;

/// The text of the rule at that place among the rules, from 0; no text where there is none.
/// Cost: the text twice, once to count it.
pub fn rule_text(heap: Global, table: &Table, index: usize) -> Result<Vec<u8>, AllocError>
    ensures { IfOk result (λ text. text.items ≡ slice_index_or (rule_texts table.now) index []) }
{
    let Some(rule) = table.rules().get(index) else {
        return Ok(Vec::new(heap));
    };
    let length = put_alone(table, *rule, &mut []);
    let mut text = vec![in heap; 0u8; length]?;
    put_alone(table, *rule, text.as_mut_slice());
    Ok(text)
}

/// Puts the rule's text at the front of the buffer and answers its length.
fn put_alone(table: &Table, rule: Rule, out: &mut [u8]) -> usize
    requires { rule.root < length (nodes_of table.now) }
    ensures { Puts out.old 0 out.new result (rule_text (texts [] (entries_of table.now)) rule) }
{
    let mut sink = Sink::new(out);
    sink.put_rule(table, rule);
    sink.at
}
