ghost use Rattle.std.specs.Prelude.{◌≡◌, ◌≤◌};
ghost use Rattle.loop_values.specs.Spelling.{is_blank, skip_blanks, skip_blanks_back, natural, up_to, positive, signed, spelled};

/// The number that a text spells, if it spells one.
pub(crate) fn spelled(text: &[u8]) -> Option<i64>
    ensures { result ≡ spelled text.now }
{
    signed(skip_blanks_back(skip_blanks(text)))
}

fn is_blank(c: u8) -> bool
    ensures { result ≡ is_blank c }
{
    c == b' ' || c == b'\t'
}

fn skip_blanks(text: &[u8]) -> &[u8]
    ensures { result.now ≡ skip_blanks text.now }
{
    let mut rest = text;
    while let [first, more @ ..] = rest {
        if !is_blank(*first) {
            return rest;
        }
        rest = more;
    }
    rest
}

fn skip_blanks_back(text: &[u8]) -> &[u8]
    ensures { result.now ≡ skip_blanks_back text.now }
{
    let mut rest = text;
    while let [more @ .., last] = rest {
        if !is_blank(*last) {
            return rest;
        }
        rest = more;
    }
    rest
}

/// The number that digits write, if there is nothing else and it is at most 2^63.
fn natural(digits: &[u8]) -> Option<u64>
    ensures { result ≡ up_to 9223372036854775808 (natural digits.now) }
{
    if digits.is_empty() {
        return None;
    }
    let mut n: u128 = 0;
    for c in digits {
        if !c.is_ascii_digit() {
            return None;
        }
        n = 10 * n + (*c - b'0') as u128;
        if n > 9223372036854775808 {
            return None;
        }
    }
    Some(n as u64)
}

fn signed(text: &[u8]) -> Option<i64>
    ensures { result ≡ signed text.now }
{
    match text {
        [] => None,
        [b'-', digits @ ..] => match natural(digits) {
            Some(n) => Some((-(n as i128)) as i64),
            None => None,
        },
        [b'+', digits @ ..] => positive(natural(digits)),
        _ => positive(natural(text)),
    }
}

fn positive(n: Option<u64>) -> Option<i64>
    ensures { result ≡ positive (up_to 9223372036854775807 n) }
{
    match n {
        Some(n) if n <= 9223372036854775807 => Some(n as i64),
        _ => None,
    }
}
