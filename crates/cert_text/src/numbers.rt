//! Numbers in a text.
ghost use Rattle.std.specs.Prelude.{◌≡◌, ◌⊎◌, ◌≤◌, if◌then◌else◌, Err, Some, None, take, length, IfOk, option_map};
ghost use Rattle.std.specs.List.{list_all};
ghost use Rattle.std.specs.Char.{is_ascii_digit};
ghost use Rattle.std.specs.Str.Parse.{digits_value};
ghost use Rattle.cert_text.specs.Numbers.{begins_well, is_numeral, number_of, numbers_of, most_record};
ghost use Rattle.cert_text.specs.Words.{words_after, one_number, records_of};

use crate::CertFault;
use crate::words::{count_words, next_word, only_word};
use stale_model::{List, Memory};
use std::alloc::Global;

/// The greatest number of a record or of a key.
pub(crate) const MOST_RECORD: u64 = 4_294_967_295;

// Whether there is a first byte, and it is a zero only where it is alone.
fn begins_well(word: &[u8]) -> bool
    ensures { result ≡ begins_well word.now }
{
    match word {
        [] => false,
        [_] => true,
        [first, ..] => *first != b'0',
    }
}

// Whether all bytes are digits.
fn are_digits(word: &[u8]) -> bool
    ensures { result ≡ list_all is_ascii_digit word.now }
{
    word.iter().all(|byte| byte.is_ascii_digit())
}

// Whether a word is digits without a leading zero.
fn is_numeral(word: &[u8]) -> bool
    ensures { result ≡ is_numeral word.now }
{
    begins_well(word) && are_digits(word)
}

// The number of at most 19 digits, where each byte of a word is one.
fn digits_of(word: &[u8]) -> Option<u64>
    requires { length word.now ≤ 19 }
    ensures { result ≡ (if list_all is_ascii_digit word.now
        then Some (digits_value 10 word.now) else None) }
{
    let mut number: u64 = 0;
    for byte in word {
        if !byte.is_ascii_digit() {
            return None;
        }
        number = 10 * number + u64::from(*byte - b'0');
    }
    Some(number)
}

// The number that a word of any length is, where it is at most `most`.
fn long_number(word: &[u8], most: u64) -> Option<u64>
    ensures { result ≡ number_of most word.now }
{
    if !is_numeral(word) {
        return None;
    }
    let Ok(text) = std::str::from_utf8(word) else {
        return None;
    };
    let Ok(number) = text.parse::<u64>() else {
        return None;
    };
    if number <= most { Some(number) } else { None }
}

/// The number that a word is, where it is at most `most`: digits, of which the first is a zero only where it is alone.
pub fn number_of(word: &[u8], most: u64) -> Option<u64>
    ensures { result ≡ number_of most word.now }
{
    if word.len() > 19 {
        return long_number(word, most);
    }
    if !begins_well(word) {
        return None;
    }
    let number = digits_of(word)?;
    if number <= most { Some(number) } else { None }
}

/// The number that the only word is.
pub(crate) fn one_number(line: u32, words: &[u8], most: u64) -> Result<u64, CertFault>
    ensures { result ≡ one_number line most (words_after words.now) }
{
    let Some(word) = only_word(words) else {
        return Err(CertFault::Line { line });
    };
    match number_of(word, most) {
        Some(number) => Ok(number),
        None => Err(CertFault::Number { line }),
    }
}

/// The record or the key that the only word is.
pub(crate) fn one_record(line: u32, words: &[u8]) -> Result<u32, CertFault>
    ensures { result ≡ one_number line most_record (words_after words.now) }
{
    let number = one_number(line, words, MOST_RECORD)?;
    Ok(number as u32)
}

// The numbers that the first `count` words are, in a list with room for no more.
fn numbers_of(alloc: Global, words: &[u8], count: usize) -> Result<Option<Vec<u32>>, Memory>
    ensures { IfOk result (λ numbers. option_map (λ ns. ns.items) numbers
        ≡ numbers_of most_record (take count (words_after words.now))) }
{
    let mut numbers = Vec::with_capacity(alloc, count).map_err(|_| Memory)?;
    let mut left = count;
    let mut rest = words;
    while left > 0 {
        let Some((word, after)) = next_word(rest) else {
            return Ok(Some(numbers));
        };
        let Some(number) = number_of(word, MOST_RECORD) else {
            return Ok(None);
        };
        numbers.push(number as u32).map_err(|_| Memory)?;
        left -= 1;
        rest = after;
    }
    Ok(Some(numbers))
}

/// The records that the first `count` words are.
pub(crate) fn first_records(
    alloc: Global,
    line: u32,
    words: &[u8],
    count: usize,
) -> Result<List<u32>, CertFault>
    ensures { (result ≡ Err CertFault.Memory)
        ⊎ (result ≡ records_of line (take count (words_after words.now))) }
{
    match numbers_of(alloc, words, count)? {
        Some(numbers) => Ok(List::from_vec(numbers)),
        None => Err(CertFault::Number { line }),
    }
}

/// The records that words are.
pub(crate) fn records_of(alloc: Global, line: u32, words: &[u8]) -> Result<List<u32>, CertFault>
    ensures { (result ≡ Err CertFault.Memory) ⊎ (result ≡ records_of line (words_after words.now)) }
{
    first_records(alloc, line, words, count_words(words))
}
