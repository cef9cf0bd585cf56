//! Writes the text of a table.
ghost use Rattle.std.specs.Prelude.{◌≡◌};
ghost use Rattle.rules.specs.Tables.{text_of};
ghost use Rattle.writer.specs.Writing.{answer, left, ReadAgain};

use crate::fault::WriteFault;
use crate::sink::Sink;
use rules::table::Table;

/// Puts the table's text at the front of the buffer and answers its length. A buffer without room for it stays as it was.
/// The text of a table that has a rule is read as that table.
/// Cost: the text twice, once to count it.
pub fn write(table: &Table, out: &mut [u8]) -> Result<usize, WriteFault>
    ensures answer { result ≡ answer (text_of table.now) out.old }
    ensures buffer { out.new ≡ left (text_of table.now) out.old }
    ensures law { ReadAgain table.now }
{
    let mut counter = Sink::new(&mut []);
    counter.put_rules(table);
    if out.len() < counter.at {
        return Err(WriteFault::TooShort);
    }
    let mut sink = Sink::new(out);
    sink.put_rules(table);
    Ok(sink.at)
}
