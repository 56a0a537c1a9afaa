//! The lines of a certificate, and the line that words are.
ghost use Rattle.std.specs.Prelude.{◌≡◌, ◌⊎◌, ◌+◌, ◌^◌, ◌<◌, Err, option_map};
ghost use Rattle.cert_text.specs.Words.{words_after, keyword_of, pair_of, is_word, two_of, try_of, try_at, hard_of, soft_of, line_of};

use crate::CertFault;
use crate::numbers::{first_records, one_number, one_record, records_of};
use crate::words::{count_words, next_word, only_word, skip_words, word_at};
use stale_model::{End, Four, List, Try};
use std::alloc::Global;

/// The first word of a line.
#[derive(Clone, Copy)]
pub(crate) enum Keyword {
    StaleCert,
    Key,
    Duplicate,
    Unmatched,
    Infinite,
    Delta,
    Order,
    Pair,
    Two,
    Stuck,
    Try,
    End,
}

/// A line of a certificate.
#[derive(Drop)]
pub enum CertLine {
    Header,
    Key(u32),
    Duplicate(u32),
    Unmatched(u32),
    Infinite(u32),
    Delta(u64),
    Order(List<u32>),
    Pair(Four),
    TwoYes,
    TwoNo,
    Stuck(List<u32>),
    Try(Try),
    End,
}

/// The keyword that a word is.
pub(crate) fn keyword_of(word: &[u8]) -> Option<Keyword>
    ensures { result ≡ keyword_of word.now }
{
    if word == b"stale-cert".as_slice() {
        Some(Keyword::StaleCert)
    } else if word == b"key".as_slice() {
        Some(Keyword::Key)
    } else if word == b"duplicate".as_slice() {
        Some(Keyword::Duplicate)
    } else if word == b"unmatched".as_slice() {
        Some(Keyword::Unmatched)
    } else if word == b"infinite".as_slice() {
        Some(Keyword::Infinite)
    } else if word == b"delta".as_slice() {
        Some(Keyword::Delta)
    } else if word == b"order".as_slice() {
        Some(Keyword::Order)
    } else if word == b"pair".as_slice() {
        Some(Keyword::Pair)
    } else if word == b"two".as_slice() {
        Some(Keyword::Two)
    } else if word == b"stuck".as_slice() {
        Some(Keyword::Stuck)
    } else if word == b"try".as_slice() {
        Some(Keyword::Try)
    } else if word == b"end".as_slice() {
        Some(Keyword::End)
    } else {
        None
    }
}

// Whether the word is there, and is this one.
fn is_word(word: Option<&[u8]>, text: &[u8]) -> bool
    ensures { result ≡ is_word text.now (option_map (λ w. w.now) word.entry) }
{
    match word {
        Some(word) => word == text,
        None => false,
    }
}

// The header, where the words after its keyword are the word `1`.
fn header_of(line: u32, words: &[u8]) -> Result<CertLine, CertFault>
    ensures { result ≡ line_of line Keyword.StaleCert (words_after words.now) }
{
    if is_word(only_word(words), b"1") {
        Ok(CertLine::Header)
    } else {
        Err(CertFault::Line { line })
    }
}

// The end, where there are no words after its keyword.
fn end_of(line: u32, words: &[u8]) -> Result<CertLine, CertFault>
    ensures { result ≡ line_of line Keyword.End (words_after words.now) }
{
    match next_word(words) {
        Some(_) => Err(CertFault::Line { line }),
        None => Ok(CertLine::End),
    }
}

// The pair that words are.
fn pair_of(alloc: Global, line: u32, words: &[u8]) -> Result<CertLine, CertFault>
    ensures { (result ≡ Err CertFault.Memory) ⊎ (result ≡ pair_of line (words_after words.now)) }
{
    if count_words(words) != 4 {
        return Err(CertFault::Line { line });
    }
    let records = records_of(alloc, line, words)?;
    match records.as_slice() {
        [p, q, q2, p2] => Ok(CertLine::Pair(Four {
            p: *p,
            q: *q,
            q2: *q2,
            p2: *p2,
        })),
        _ => Err(CertFault::Line { line }),
    }
}

// Whether the key is 2-atomic, as a word says.
fn two_of(line: u32, words: &[u8]) -> Result<CertLine, CertFault>
    ensures { result ≡ two_of line (words_after words.now) }
{
    let word = only_word(words);
    if is_word(word, b"yes") {
        Ok(CertLine::TwoYes)
    } else if is_word(word, b"no") {
        Ok(CertLine::TwoNo)
    } else {
        Err(CertFault::Line { line })
    }
}

// The try whose chain is the first `count` words, and whose hard end stands after the next word.
fn hard_try(alloc: Global, line: u32, words: &[u8], count: usize) -> Result<CertLine, CertFault>
    requires { count + 1 < 2 ^ 64 }
    ensures { (result ≡ Err CertFault.Memory)
        ⊎ (result ≡ try_at line count (hard_of line) (words_after words.now)) }
{
    let chain = first_records(alloc, line, words, count)?;
    let end = records_of(alloc, line, skip_words(words, count + 1))?;
    match end.as_slice() {
        [p, u] => Ok(CertLine::Try(Try {
            chain,
            end: End::Hard { p: *p, u: *u },
        })),
        _ => Err(CertFault::Line { line }),
    }
}

// The same for a soft end.
fn soft_try(alloc: Global, line: u32, words: &[u8], count: usize) -> Result<CertLine, CertFault>
    requires { count + 1 < 2 ^ 64 }
    ensures { (result ≡ Err CertFault.Memory)
        ⊎ (result ≡ try_at line count (soft_of line) (words_after words.now)) }
{
    let chain = first_records(alloc, line, words, count)?;
    let end = records_of(alloc, line, skip_words(words, count + 1))?;
    match end.as_slice() {
        [p, q, q2] => Ok(CertLine::Try(Try {
            chain,
            end: End::Soft {
                p: *p,
                q: *q,
                q2: *q2,
            },
        })),
        _ => Err(CertFault::Line { line }),
    }
}

// The try that words are.
fn try_of(alloc: Global, line: u32, words: &[u8]) -> Result<CertLine, CertFault>
    ensures { (result ≡ Err CertFault.Memory) ⊎ (result ≡ try_of line (words_after words.now)) }
{
    let count = count_words(words);
    if count >= 4 && is_word(word_at(words, count - 3), b"hard") {
        return hard_try(alloc, line, words, count - 3);
    }
    if count >= 5 && is_word(word_at(words, count - 4), b"soft") {
        return soft_try(alloc, line, words, count - 4);
    }
    Err(CertFault::Line { line })
}

/// The line that a keyword and the words after it are.
pub(crate) fn line_of(
    alloc: Global,
    line: u32,
    keyword: Keyword,
    words: &[u8],
) -> Result<CertLine, CertFault>
    ensures { (result ≡ Err CertFault.Memory)
        ⊎ (result ≡ line_of line keyword (words_after words.now)) }
{
    match keyword {
        Keyword::StaleCert => header_of(line, words),
        Keyword::Key => Ok(CertLine::Key(one_record(line, words)?)),
        Keyword::Duplicate => Ok(CertLine::Duplicate(one_record(line, words)?)),
        Keyword::Unmatched => Ok(CertLine::Unmatched(one_record(line, words)?)),
        Keyword::Infinite => Ok(CertLine::Infinite(one_record(line, words)?)),
        Keyword::Delta => Ok(CertLine::Delta(one_number(line, words, u64::MAX)?)),
        Keyword::Order => Ok(CertLine::Order(records_of(alloc, line, words)?)),
        Keyword::Pair => pair_of(alloc, line, words),
        Keyword::Two => two_of(line, words),
        Keyword::Stuck => Ok(CertLine::Stuck(records_of(alloc, line, words)?)),
        Keyword::Try => try_of(alloc, line, words),
        Keyword::End => end_of(line, words),
    }
}
