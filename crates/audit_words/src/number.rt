//! Numbers in words.

ghost use Rattle.std.specs.Prelude.{◌≡◌, ◌≤◌, IfSome, option_map};
ghost use Rattle.audit_words.specs.Limits.{AreWorkers};
ghost use Rattle.audit_words.specs.Numbers.{number_of, number_or, number_within, workers_of};

// The greatest number of digits.
const MOST_DIGITS: usize = 20;

// The greatest number of workers.
const MOST_WORKERS: u64 = 64;

// The number of a text of 1 to 20 digits.
fn number_of(text: &[u8]) -> Option<u128>
    ensures { result ≡ number_of text.now }
{
    if text.is_empty() || text.len() > MOST_DIGITS {
        return None;
    }
    let mut number: u128 = 0;
    for byte in text {
        if !byte.is_ascii_digit() {
            return None;
        }
        number = 10 * number + u128::from(*byte - b'0');
    }
    Some(number)
}

/// The number of a text of 1 to 20 digits, if it is from `least` to `most`.
pub(crate) fn number_within(text: &str, least: u64, most: u64) -> Option<u64>
    ensures value { result ≡ number_within least most text.now }
    ensures within { IfSome result (λ number. (least ≤ number) × (number ≤ most)) }
{
    let number = number_of(text.as_bytes())?;
    if u128::from(least) <= number && number <= u128::from(most) {
        Some(number as u64)
    } else {
        None
    }
}

/// The number of an option: `default` where there is no text, and else that of the text, from `least` to `most`.
pub(crate) fn number_or(text: Option<&str>, default: u64, least: u64, most: u64) -> Option<u64>
    requires from { least ≤ default }
    requires to { default ≤ most }
    ensures value { result ≡ number_or default least most (option_map (λ text. text.now) text.entry) }
    ensures within { IfSome result (λ number. (least ≤ number) × (number ≤ most)) }
{
    match text {
        None => Some(default),
        Some(text) => number_within(text, least, most),
    }
}

/// The number of workers that a text says; 1 where there is no text.
pub(crate) fn workers_of(text: Option<&str>) -> Option<u32>
    ensures value { result ≡ workers_of (option_map (λ text. text.now) text.entry) }
    ensures within { IfSome result AreWorkers }
{
    let workers = number_or(text, 1, 1, MOST_WORKERS)?;
    Some(workers as u32)
}
