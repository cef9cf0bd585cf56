//! Bytes written in printable text.
use std::alloc::{AllocError, Global};

/// The value of a hexadecimal digit, 0 for any other byte.
// Stays: `to_digit` also takes upper-case digits, which stand for 0 here.
fn digit(b: u8) -> u8 {
    match b {
        b'0'..=b'9' => b - b'0',
        b'a'..=b'f' => b - b'a' + 10,
        _ => 0,
    }
}

/// The first byte that a text stands for, and the text that follows; none where nothing is left, or an escape is cut off.
fn first_byte(text: &[u8]) -> Option<(u8, &[u8])> {
    match text {
        [b'\\', b'x', high, low, rest @ ..] => Some((digit(*high) << 4 | digit(*low), rest)),
        [] | [b'\\'] | [b'\\', b'x', ..] => None,
        [b'\\', _, rest @ ..] => Some((b'\n', rest)),
        [plain, rest @ ..] => Some((*plain, rest)),
    }
}

/// The bytes that a text stands for: `\x0d` is the byte 13, a backslash with any other byte, as `\n`, a newline, and every
/// other byte itself.
pub fn unescape(heap: Global, text: &str) -> Result<Vec<u8>, AllocError> {
    let mut out = Vec::new(heap);
    let mut rest = text.as_bytes();
    // Each turn takes a byte at least.
    for _ in 0..text.len() {
        let Some((byte, after)) = first_byte(rest) else {
            break;
        };
        out.push(byte)?;
        rest = after;
    }
    Ok(out)
}
