//! The faulty line with a mark under the place.
ghost use Rattle.std.specs.Prelude.{◌≡◌, map, IfOk};
ghost use Rattle.report.specs.Excerpts.{excerpt, part, shown};

use std::alloc::{AllocError, Global};

fn shown(b: u8) -> u8
    ensures { result ≡ shown b }
{
    match b {
        b' '..=b'~' => b,
        _ => b'?',
    }
}

fn shown_part(heap: Global, line: &[u8], from: usize) -> Result<Vec<u8>, AllocError>
    ensures { IfOk result (λ out. out.items ≡ map shown (part line.now from)) }
{
    line.iter()
        .skip(from)
        .take(72)
        .map(|b| shown(*b))
        .collect(heap)
}

pub(crate) fn excerpt(heap: Global, line: &[u8], byte: usize) -> Result<Vec<u8>, AllocError>
    ensures { IfOk result (λ out. out.items ≡ excerpt line.now byte) }
{
    let from = byte.saturating_sub(61);
    let mut out = shown_part(heap, line, from)?;
    out.push(b'\n')?;
    let column = byte.saturating_sub(1) - from;
    out.resize(out.len() + column, b' ')?;
    out.extend_from_slice(b"^\n")?;
    Ok(out)
}
