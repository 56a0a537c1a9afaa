//! The lines of a text, and the words of a line.
ghost use Rattle.std.specs.Prelude.{◌≡◌, ◌+◌, ◌<◌, ◌≤◌, ◌∷◌, [], length, drop, position, slice_get, option_map, IfNone, IfSome, ◌==◌};
ghost use Rattle.std.specs.List.{list_any};
ghost use Rattle.cert_text.specs.Words.{lines_of, words_of, words_after, is_empty, only_word};

// The place of a byte.
fn place_of(text: &[u8], byte: u8) -> Option<usize>
    ensures { result ≡ position (λ b. b == byte) text.now }
{
    text.iter().position(|other| *other == byte)
}

/// The next line of a text, without its line feed, and what stands after it; none where no line feed is left.
pub fn next_line(text: &[u8]) -> Option<(&[u8], &[u8])>
    ensures none { IfNone result (lines_of text.now ≡ text.now ∷ []) }
    ensures some { IfSome result (λ p. lines_of text.now ≡ p.0.now ∷ lines_of p.1.now) }
    ensures shorter { IfSome result (λ p. length p.1.now < length text.now) }
{
    match place_of(text, b'\n') {
        Some(place) => Some((&text[..place], &text[place + 1..])),
        None => None,
    }
}

/// The first word of a text, and the rest, where a blank stands before each word.
pub(crate) fn first_word(text: &[u8]) -> (&[u8], &[u8])
    ensures word { words_of text.now ≡ result.0.now ∷ words_after result.1.now }
    ensures shorter { length result.1.now ≤ length text.now }
{
    match place_of(text, b' ') {
        Some(place) => (&text[..place], &text[place..]),
        None => (text, &[]),
    }
}

/// The next word after a blank, and the rest.
pub(crate) fn next_word(text: &[u8]) -> Option<(&[u8], &[u8])>
    ensures none { IfNone result (words_after text.now ≡ []) }
    ensures some { IfSome result (λ p. words_after text.now ≡ p.0.now ∷ words_after p.1.now) }
    ensures shorter { IfSome result (λ p. length p.1.now < length text.now) }
{
    match text {
        [] => None,
        [_, words @ ..] => Some(first_word(words)),
    }
}

// Whether one of the parts of a text between its blanks is empty.
fn has_empty_part(words: &[u8]) -> bool
    ensures { result ≡ list_any is_empty (words_of words.now) }
{
    let mut found = false;
    let mut empty = true;
    for byte in words {
        let blank = *byte == b' ';
        found = found || (empty && blank);
        empty = blank;
    }
    found || empty
}

/// Whether one of the words is empty.
pub(crate) fn has_empty_word(text: &[u8]) -> bool
    ensures { result ≡ list_any is_empty (words_after text.now) }
{
    match text {
        [] => false,
        [_, words @ ..] => has_empty_part(words),
    }
}

// How many parts of a text stand between its blanks.
fn count_parts(words: &[u8]) -> usize
    ensures { result ≡ length (words_of words.now) }
{
    let mut blanks = 0;
    for byte in words {
        if *byte == b' ' {
            blanks += 1;
        }
    }
    blanks + 1
}

/// How many words there are.
pub(crate) fn count_words(text: &[u8]) -> usize
    ensures { result ≡ length (words_after text.now) }
{
    match text {
        [] => 0,
        [_, words @ ..] => count_parts(words),
    }
}

/// The words after the first so many.
pub(crate) fn skip_words(text: &[u8], count: usize) -> &[u8]
    ensures { words_after result.now ≡ drop count (words_after text.now) }
{
    let mut left = count;
    let mut rest = text;
    while left > 0 {
        let Some((_, after)) = next_word(rest) else {
            return rest;
        };
        left -= 1;
        rest = after;
    }
    rest
}

/// The word at a place, counted from 0, and the rest after it.
pub(crate) fn word_at(text: &[u8], place: usize) -> Option<&[u8]>
    ensures { option_map (λ word. word.now) result ≡ slice_get (words_after text.now) place }
{
    match next_word(skip_words(text, place)) {
        Some((word, _)) => Some(word),
        None => None,
    }
}

/// The only word, if there is one and no other.
pub(crate) fn only_word(text: &[u8]) -> Option<&[u8]>
    ensures { option_map (λ word. word.now) result ≡ only_word (words_after text.now) }
{
    let (word, rest) = next_word(text)?;
    match next_word(rest) {
        Some(_) => None,
        None => Some(word),
    }
}
