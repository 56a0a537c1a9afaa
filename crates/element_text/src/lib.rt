//! The text of a tree of elements, as XML and SVG have it, and the laws of that text.
//!
//! A tree is `Elements` of `specs/Elements.antt`. Its text is put together by calls in the order of the text: for each
//! element [`open_tag`], [`push_attribute`] or [`push_number_attribute`] for each attribute, [`end_tag`], what stands
//! inside, and [`close_tag`].
#![tactic(auto)]

ghost use Rattle.std.specs.Prelude.{◌≡◌, ◌++◌, OnOk, OnErr, codes, decimal};
ghost use Rattle.element_text.specs.Elements.{escaped_byte, escaped, label_text, attribute_text, open_text, close_text};
ghost use Rattle.element_text.specs.Gains.{GainsFront};

pub mod examples;
pub mod laws;

use itoa::Buffer;
use std::alloc::AllocError;

// Puts a byte of words or of a value behind a text.
fn push_escaped(text: &mut Vec<u8>, byte: u8) -> Result<(), AllocError>
    ensures gained { OnOk result (text.new.items ≡ text.old.items ++ escaped_byte byte) }
    ensures unchanged { OnErr result (text.new.items ≡ text.old.items) }
{
    match byte {
        b'&' => text.extend_from_slice(b"&amp;"),
        b'<' => text.extend_from_slice(b"&lt;"),
        b'>' => text.extend_from_slice(b"&gt;"),
        b'"' => text.extend_from_slice(b"&quot;"),
        b'\'' => text.extend_from_slice(b"&apos;"),
        _ => text.extend_from_slice(&[byte]),
    }
}

/// Puts words behind a text: `&`, `<`, `>`, `"` and `'` as XML's entities, any other byte as it is.
///
/// # Errors
/// `AllocError` where memory ran out; the text has gained a front of the words.
pub fn push_words(text: &mut Vec<u8>, words: &[u8]) -> Result<(), AllocError>
    ensures gained { OnOk result (text.new.items ≡ text.old.items ++ escaped words.now) }
    ensures front { OnErr result
        (GainsFront text.old.items text.new.items (escaped words.now)) }
{
    for byte in words {
        push_escaped(text, *byte)?;
    }
    Ok(())
}

/// Puts a number behind a text, as words, in decimal digits.
///
/// # Errors
/// `AllocError` where memory ran out; the text has gained a front of the digits.
pub fn push_number(text: &mut Vec<u8>, number: u64) -> Result<(), AllocError>
    ensures gained { OnOk result
        (text.new.items ≡ text.old.items ++ escaped (decimal number)) }
    ensures front { OnErr result
        (GainsFront text.old.items text.new.items (escaped (decimal number))) }
{
    let mut buffer = Buffer::new();
    push_words(text, buffer.format(number).as_bytes())
}

/// Puts `<` and a name behind a text, with which a start tag begins. Its attributes follow, and [`end_tag`].
///
/// # Errors
/// `AllocError` where memory ran out; the text has gained a front of the two.
pub fn open_tag(text: &mut Vec<u8>, name: &str) -> Result<(), AllocError>
    ensures gained { OnOk result (text.new.items ≡ text.old.items ++ open_text name.now) }
    ensures front { OnErr result
        (GainsFront text.old.items text.new.items (open_text name.now)) }
{
    text.extend_from_slice(b"<")?;
    text.extend_from_slice(name.as_bytes())
}

// Puts a blank, the name of an attribute and an equals sign behind a text.
fn push_label(text: &mut Vec<u8>, name: &str) -> Result<(), AllocError>
    ensures gained { OnOk result (text.new.items ≡ text.old.items ++ label_text name.now) }
    ensures front { OnErr result
        (GainsFront text.old.items text.new.items (label_text name.now)) }
{
    text.extend_from_slice(b" ")?;
    text.extend_from_slice(name.as_bytes())?;
    text.extend_from_slice(b"=")
}

/// Puts an attribute behind a text: a blank, its name, and its value in quotes, escaped as [`push_words`] has it.
///
/// # Errors
/// `AllocError` where memory ran out; the text has gained a front of the attribute.
pub fn push_attribute(text: &mut Vec<u8>, name: &str, value: &[u8]) -> Result<(), AllocError>
    ensures gained { OnOk result (text.new.items
        ≡ text.old.items ++ attribute_text (record { name = name.now; value = value.now })) }
    ensures front { OnErr result (GainsFront text.old.items text.new.items
        (attribute_text (record { name = name.now; value = value.now }))) }
{
    push_label(text, name)?;
    text.extend_from_slice(b"\"")?;
    push_words(text, value)?;
    text.extend_from_slice(b"\"")
}

/// Puts an attribute behind a text whose value is a number, in decimal digits.
///
/// # Errors
/// `AllocError` where memory ran out; the text has gained a front of the attribute.
pub fn push_number_attribute(text: &mut Vec<u8>, name: &str, value: u64) -> Result<(), AllocError>
    ensures gained { OnOk result (text.new.items
        ≡ text.old.items ++ attribute_text (record { name = name.now; value = decimal value })) }
    ensures front { OnErr result (GainsFront text.old.items text.new.items
        (attribute_text (record { name = name.now; value = decimal value }))) }
{
    let mut buffer = Buffer::new();
    push_attribute(text, name, buffer.format(value).as_bytes())
}

/// Puts `>` behind a text, with which a start tag ends.
///
/// # Errors
/// `AllocError` where memory ran out; the text is as before.
pub fn end_tag(text: &mut Vec<u8>) -> Result<(), AllocError>
    ensures gained { OnOk result (text.new.items ≡ text.old.items ++ codes ">") }
    ensures unchanged { OnErr result (text.new.items ≡ text.old.items) }
{
    text.extend_from_slice(b">")
}

/// Puts the end tag of an element behind a text, by the element's name.
///
/// # Errors
/// `AllocError` where memory ran out; the text has gained a front of the tag.
pub fn close_tag(text: &mut Vec<u8>, name: &str) -> Result<(), AllocError>
    ensures gained { OnOk result (text.new.items ≡ text.old.items ++ close_text name.now) }
    ensures front { OnErr result
        (GainsFront text.old.items text.new.items (close_text name.now)) }
{
    text.extend_from_slice(b"</")?;
    text.extend_from_slice(name.as_bytes())?;
    end_tag(text)
}

#[cfg(test)]
mod tests;
