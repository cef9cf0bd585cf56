//! Puts the text of a node.
ghost use Rattle.std.specs.Prelude.{◌≡◌, ◌<◌, true, [], map, length, slice_index_or};
ghost use Rattle.grammar.specs.Entries.{entry_of};
ghost use Rattle.grammar.specs.Ordered.{all_below};
ghost use Rattle.grammar.specs.TableText.{spaced, texts};
ghost use Rattle.rules.specs.Tables.{nodes_of, entries_of};
ghost use Rattle.writer.specs.Parts.{head_text};
ghost use Rattle.writer.specs.Places.{Gains};

use crate::sink::Sink;
use crate::word::word_of;
use rules::table::Table;
use syntax::Node;

impl Sink<'_> {
    fn put_head(&mut self, node: Node)
        ensures { Gains self.old self.new (head_text (entry_of node)) }
    {
        self.put(b"(");
        self.put(word_of(node));
        self.put_arguments(node);
    }

    #[cycle(node)]
    pub(crate) fn put_node(&mut self, table: &Table, n: usize)
        requires { n < length (nodes_of table.now) }
        ensures { Gains self.old self.new (slice_index_or (texts [] (entries_of table.now)) n []) }
    {
        let node = table.nodes()[n];
        self.put_head(node);
        match node {
            Node::True | Node::Query(_) => {}
            Node::Not(a)
            | Node::Next(_, a)
            | Node::AllNext(_, a)
            | Node::Sometime(_, a)
            | Node::Always(_, a)
            | Node::Previous(_, a)
            | Node::Once(_, a)
            | Node::SoFar(_, a) => self.put_operands(table, &[a]),
            Node::And(a, b)
            | Node::Or(a, b)
            | Node::Implies(a, b)
            | Node::Until(_, a, b)
            | Node::Since(_, a, b) => self.put_operands(table, &[a, b]),
        }
        self.put(b")");
    }

    /// Each after a space.
    #[cycle(node)]
    fn put_operands(&mut self, table: &Table, operands: &[usize])
        requires { all_below (length (nodes_of table.now)) operands.now ≡ true }
        ensures { Gains self.old self.new
            (spaced (map (λ n. slice_index_or (texts [] (entries_of table.now)) n []) operands.now)) }
    {
        for operand in operands {
            self.put(b" ");
            self.put_node(table, *operand);
        }
    }
}
