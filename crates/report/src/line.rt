//! The lines of a text.
ghost use Rattle.std.specs.Prelude.{◌≡◌};
ghost use Rattle.report.specs.Lines.{line_of};

/// The line with that number, from 1, without its newline; empty where the text has no such line. 0 is taken as 1.
/// Cost: the text up to the end of that line.
pub fn line_of(text: &[u8], line: usize) -> &[u8]
    ensures { result.now ≡ line_of text.now line }
{
    text.split(|b| *b == b'\n')
        .nth(line.saturating_sub(1))
        .unwrap_or(&[])
}
