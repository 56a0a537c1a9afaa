//! Numbers in groups of three digits.
ghost use Rattle.std.specs.Prelude.{◌≡◌, ◌++◌, OnOk};
ghost use Rattle.tick_axis.specs.Groups.{blank_before, grouped};

use itoa::Buffer;
use std::alloc::AllocError;

// Puts the blank behind a text that stands before so many last digits, where there is one.
fn push_blank(text: &mut Vec<u8>, count: usize) -> Result<(), AllocError>
    ensures { OnOk result (text.new.items ≡ text.old.items ++ blank_before count) }
{
    if count > 0 && count % 3 == 0 {
        text.push(b' ')?;
    }
    Ok(())
}

/// Puts a number behind a text, its digits in groups of three with a blank between: `129 856 793`.
///
/// # Errors
/// `AllocError` where memory ran out; some of the number may then stand there.
pub fn push_grouped(text: &mut Vec<u8>, number: u64) -> Result<(), AllocError>
    ensures { OnOk result (text.new.items ≡ text.old.items ++ grouped number) }
{
    let mut buffer = Buffer::new();
    let digits = buffer.format(number).as_bytes();
    for (place, digit) in digits.iter().enumerate() {
        text.push(*digit)?;
        push_blank(text, digits.len() - place - 1)?;
    }
    Ok(())
}
