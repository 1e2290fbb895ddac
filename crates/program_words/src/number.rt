//! Numbers and choices as the values of settings.

ghost use Rattle.std.specs.Prelude.{◌≡◌, ◌≤◌, IfSome};
ghost use Rattle.std.specs.Str.{all_ascii_digits};
ghost use Rattle.program_words.specs.Numbers.{is_numeral, number_within, answer_named};

/// The most digits of a number.
const MOST_DIGITS: usize = 20;

/// Whether all bytes of a text are digits.
fn all_digits(text: &str) -> bool
    ensures { result ≡ all_ascii_digits text.now }
{
    for b in text.as_bytes() {
        if !b.is_ascii_digit() {
            return false;
        }
    }
    true
}

/// Whether a text is one to twenty digits.
fn is_numeral(text: &str) -> bool
    ensures { result ≡ is_numeral text.now }
{
    1 <= text.len() && text.len() <= MOST_DIGITS && all_digits(text)
}

/// The number that a text is, if it is one between these two.
pub(crate) fn number_within(least: u64, most: u64, text: &str) -> Option<u64>
    ensures is { result ≡ number_within least most text.now }
    ensures range { IfSome result (λ n. (least ≤ n) × (n ≤ most)) }
{
    if !is_numeral(text) {
        return None;
    }
    match text.parse::<u64>() {
        Ok(n) if least <= n && n <= most => Some(n),
        _ => None,
    }
}

/// What `yes` and `no` say.
pub(crate) fn answer_named(text: &str) -> Option<bool>
    ensures { result ≡ answer_named text.now }
{
    match text {
        "yes" => Some(true),
        "no" => Some(false),
        _ => None,
    }
}
