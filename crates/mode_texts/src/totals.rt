//! The last line: totals over all keys.

ghost use Rattle.std.specs.Prelude.{◌≡◌, ℕ, ◌+◌, ◌<◌, ◌^◌, ◌++◌, ◌∷◌, [], List, Option, length, OnOk};
ghost use Rattle.std.specs.String.{string_bytes};
ghost use Rattle.mode_texts.specs.Totals.{greater, number_text, totals_line};
ghost use Rattle.mode_texts.specs.Counting.{totals_of};

use staleness_report::push_count;
use std::alloc::AllocError;

/// How many keys were counted, how many of them have the number 0, and the greatest number.
#[derive(Clone, Copy)]
pub(crate) struct Totals {
    keys: u64,
    zero: u64,
    worst: Option<u64>,
}

// The greater of a key's number, if it has one, and of the greatest so far.
fn greater(number: Option<u64>, greatest: Option<u64>) -> Option<u64>
    ensures { result ≡ greater number greatest }
{
    match (number, greatest) {
        (None, greatest) => greatest,
        (Some(number), None) => Some(number),
        (Some(number), Some(other)) => Some(number.max(other)),
    }
}

// Puts a number behind a text, or that there is none.
fn push_number(text: &mut String, number: Option<u64>) -> Result<(), AllocError>
    ensures { OnOk result (string_bytes text.new ≡ string_bytes text.old ++ number_text number) }
{
    match number {
        Some(number) => write!(text, "{number}"),
        None => text.push_str("none"),
    }
}

impl Totals {
    /// The totals of no keys.
    pub(crate) fn new() -> Totals
        ensures { result ≡ totals_of [] }
    {
        Totals {
            keys: 0,
            zero: 0,
            worst: None,
        }
    }

    /// Counts one more key, by its number, if it has one.
    pub(crate) fn add(&mut self, number: Option<u64>)
        requires { (numbers : List (Option ℕ)) × (self.old ≡ totals_of numbers)
            × (length numbers + 1 < 2 ^ 64) }
        ensures { (numbers : List (Option ℕ)) → self.old ≡ totals_of numbers
            → self.new ≡ totals_of (numbers ++ number ∷ []) }
    {
        self.keys += 1;
        if number == Some(0) {
            self.zero += 1;
        }
        self.worst = greater(number, self.worst);
    }

    /// Puts the last line behind a text.
    pub(crate) fn push_line(&self, text: &mut String) -> Result<(), AllocError>
        ensures { OnOk result ((numbers : List (Option ℕ)) → self.now ≡ totals_of numbers
            → string_bytes text.new ≡ string_bytes text.old ++ totals_line numbers) }
    {
        push_count(text, "total keys ", self.keys)?;
        push_count(text, " zero ", self.zero)?;
        text.push_str(" worst ")?;
        push_number(text, self.worst)?;
        text.push_str("\n")
    }
}
