//! Names of files in words.

ghost use Rattle.std.specs.Prelude.{◌≡◌};
ghost use Rattle.audit_words.specs.Files.{is_name, are_two_names};

/// Whether a word names a file.
pub(crate) fn is_name(word: &str) -> bool
    ensures { result ≡ is_name word.now }
{
    !word.is_empty()
}

/// Whether two words name two files.
pub(crate) fn are_two_names(one: &str, other: &str) -> bool
    ensures { result ≡ are_two_names one.now other.now }
{
    is_name(one) && is_name(other) && one != other
}
