//! Pieces of text: names as they are printed, and a label before a number.
ghost use Rattle.std.specs.Prelude.{◌≡◌, ◌<◌, ◌++◌, IfOk, OnOk, IsErr, MatchResult};
ghost use Rattle.std.specs.Fmt.{decimal};
ghost use Rattle.std.specs.String.{string_bytes};
ghost use Rattle.staleness_report.specs.Escaped.{hex_digit, escaped_byte, escaped};

use stale_model::{Bytes, Memory};
use std::alloc::{AllocError, Global};

/// The bytes of a text that was made.
///
/// # Errors
/// `Memory` where making the text found none.
pub fn bytes_of(text: Result<String, AllocError>) -> Result<Bytes, Memory>
    ensures { MatchResult text (λ text. result ≡ Ok (string_bytes text)) (λ _. IsErr result) }
{
    match text {
        Ok(text) => Ok(Bytes::from_vec(text.into_bytes())),
        Err(_) => Err(Memory),
    }
}

// The hexadecimal digit of a number, in lower case.
fn hex_digit(number: u8) -> char
    requires { number < 16 }
    ensures { result ≡ hex_digit number }
{
    if number < 10 {
        char::from(b'0' + number)
    } else {
        char::from(b'a' - 10 + number)
    }
}

// Puts one byte of a name behind a text.
fn push_escaped(text: &mut String, byte: u8) -> Result<(), AllocError>
    ensures { OnOk result (string_bytes text.new ≡ string_bytes text.old ++ escaped_byte byte) }
{
    if (0x21..=0x7e).contains(&byte) && byte != b'\\' {
        return text.push(char::from(byte));
    }
    text.push_str("\\x")?;
    text.push(hex_digit(byte / 16))?;
    text.push(hex_digit(byte % 16))
}

/// A name as it is printed: as [`escape`](crate::escape) has it, as a text.
///
/// # Errors
/// `AllocError` where memory ran out.
pub fn escaped_name(alloc: Global, name: &[u8]) -> Result<String, AllocError>
    ensures { IfOk result (λ text. string_bytes text ≡ escaped name.now) }
{
    let mut text = String::new(alloc);
    for byte in name {
        push_escaped(&mut text, *byte)?;
    }
    Ok(text)
}

/// Puts a label and a number behind a text.
///
/// # Errors
/// `AllocError` where memory ran out.
pub fn push_count(text: &mut String, label: &str, count: u64) -> Result<(), AllocError>
    ensures { OnOk result
        (string_bytes text.new ≡ string_bytes text.old ++ label.now ++ decimal count) }
{
    text.push_str(label)?;
    write!(text, "{count}")
}
