ghost use Rattle.std.specs.Prelude.{◌≡◌, ◌++◌, [], ◌∷◌, IfOk, OnOk, codes, decimal};
ghost use Rattle.element_text.specs.Elements.{attributes_text, elements_text, open_text, Element, Words, End};

use super::*;
use std::alloc::Global;
use std::test::Fail;

// Puts an element with words and a number behind a text.
fn push_note(text: &mut Vec<u8>, words: &[u8], number: u64) -> Result<(), AllocError>
    ensures { OnOk result (text.new.items ≡ text.old.items ++ elements_text
        (Element (codes "text") [] (Words words.now (Words (decimal number) End)) End)) }
{
    open_tag(text, "text")?;
    end_tag(text)?;
    push_words(text, words)?;
    push_number(text, number)?;
    close_tag(text, "text")
}

// Puts the start tag of a drawing behind a text.
fn push_start(text: &mut Vec<u8>, width: u64, words: &[u8]) -> Result<(), AllocError>
    ensures { OnOk result (text.new.items ≡ text.old.items ++ (open_text (codes "svg")
        ++ attributes_text (record { name = codes "width"; value = decimal width }
        ∷ record { name = codes "aria-label"; value = words.now } ∷ []) ++ codes ">")) }
{
    open_tag(text, "svg")?;
    push_number_attribute(text, "width", width)?;
    push_attribute(text, "aria-label", words)?;
    end_tag(text)
}

// A drawing of some words and a number, by the calls in the order of its text.
fn drawing(alloc: Global, width: u64, words: &[u8]) -> Result<Vec<u8>, AllocError>
    ensures { IfOk result (λ text. text.items ≡ elements_text
        (Element (codes "svg")
        (record { name = codes "width"; value = decimal width }
        ∷ record { name = codes "aria-label"; value = words.now } ∷ [])
        (Element (codes "text") [] (Words words.now (Words (decimal width) End)) End) End)) }
{
    let mut text = Vec::new(alloc);
    push_start(&mut text, width, words)?;
    push_note(&mut text, words, width)?;
    close_tag(&mut text, "svg")?;
    Ok(text)
}

#[test]
fn writes_a_drawing(rt: HostRuntime) -> Result<(), Fail> {
    let text = drawing(rt.alloc(), 300, b"R&D ")?;
    let wanted = b"<svg width=\"300\" aria-label=\"R&amp;D \"><text>R&amp;D 300</text></svg>";
    assert_eq!(rt; text.as_slice(), wanted.as_slice());
    Ok(())
}
