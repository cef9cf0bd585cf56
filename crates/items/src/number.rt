//! Numbers in their one right spelling.
ghost use Rattle.std.specs.Prelude.{◌≡◌, ◌+◌, ◌*◌, ◌-◌, cond, Some, None};
ghost use Rattle.items.specs.Items.{digit_after, read_on, natural as spelt-natural, number_of};

/// The number with this digit after it, unless the byte is no digit or the number is past every range.
fn followed(n: u32, d: u8) -> Option<u32>
    ensures { result ≡ cond (digit_after n d) (Some (n * 10 + (d - 48))) None }
{
    match d {
        b'0'..=b'9' if n <= 100_000_000 => Some(n * 10 + u32::from(d - b'0')),
        _ => None,
    }
}

/// The number that these digits spell, unless it is beyond every range.
fn value(digits: &[u8]) -> Option<u32>
    ensures { result ≡ read_on 0 digits.now }
{
    // Stays: tried `try_fold`; the check left open what it gives, `try_fold.result ≡ read_on 0 digits.now`.
    let mut n = 0;
    for d in digits {
        n = followed(n, *d)?;
    }
    Some(n)
}

fn natural(digits: &[u8]) -> Option<u32>
    ensures { result ≡ spelt-natural digits.now }
{
    match digits {
        [b'0'] => Some(0),
        [] | [b'0', ..] => None,
        _ => value(digits),
    }
}

/// The number that a run of digits and minus signs spells, if it spells one rightly.
pub(crate) fn number(run: &[u8]) -> Option<i64>
    ensures { result ≡ number_of run.now }
{
    match run {
        // Zero has no minus sign.
        [b'-', digits @ ..] => natural(digits).filter(|n| *n != 0).map(|n| -i64::from(n)),
        _ => natural(run).map(i64::from),
    }
}
