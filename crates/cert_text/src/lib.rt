//! The text of certificates: what is said of each key of a history, as lines.
#![tactic(auto)]

ghost use Rattle.std.specs.Prelude.{◌≡◌, ◌≢◌, ◌⊎◌, ◌-◌, ◌^◌, ◌<◌, Err, length};
ghost use Rattle.cert_text.specs.Reading.{read_of};
ghost use Rattle.cert_text.specs.Laws.{ReadHasOneText, TextReadsBack, ShownHaveChains, ShownFit};

mod lines;
mod numbers;
mod parts;
mod words;
mod writing;

use crate::parts::Reading;
pub use lines::CertLine;
pub use numbers::number_of;
use stale_model::{List, Memory, Verdict};
use std::alloc::Global;
pub use words::next_line;
pub use writing::{push_numbers, push_order, push_refutation, write_cert};

/// Why a text is not a certificate. Lines are counted from 1.
#[derive(Clone, Copy, Debug, PartialEq, Eq)]
pub enum CertFault {
    /// The line is not there, is not ended by a line feed, has an empty word, begins with a word that
    /// may not stand there, has another number of words than its form, or another word where its form
    /// has a fixed one.
    Line { line: u32 },
    /// A word in a number's place is no number, or is out of range.
    Number { line: u32 },
    /// The number of a `key` line is not one more than that of the `key` line before (1 for the first),
    /// or is greater than the number of keys.
    Key { line: u32 },
    /// The line `end` comes before the part of this key, counted from 1.
    Absent { key: u32 },
    /// Memory ran out.
    Memory,
}

impl From<Memory> for CertFault {
    ghost use Rattle.std.specs.Prelude.{◌≡◌};
    ghost use Rattle.cert_text.specs.declared.CertFault.{CertFault};

    ghost from_gives = { λ memory fault. fault ≡ CertFault.Memory };

    fn from(_memory: Memory) -> CertFault {
        CertFault::Memory
    }
}

/// The verdicts of so many keys that a text is, in the order of the keys.
///
/// The text is lines of words between single blanks, each line ended by a line feed: the header, a part
/// for each key, and `end`. `keys` is the number of keys of the history that the certificate is of.
///
/// # Errors
/// The fault of the first line at fault, and within a line the first of `Line`, `Number`, `Key` and
/// `Absent`. A byte after the line `end` is a fault of the line after it. `Memory` may come at any time.
pub fn read_cert(alloc: Global, keys: u32, text: &[u8]) -> Result<List<Verdict>, CertFault>
    requires { length text.now < 2 ^ 32 - 1 }
    ensures read { (result ≡ Err CertFault.Memory) ⊎ (result ≡ read_of keys text.now) }
    ensures definite { read_of keys text.now ≢ Err CertFault.Memory }
{
    let mut reading = Reading::new(alloc);
    let mut line: u32 = 1;
    let mut rest = text;
    while let Some((words, after)) = next_line(rest) {
        reading = reading.step(alloc, keys, line, words)?;
        line += 1;
        rest = after;
    }
    reading.end(line, rest)
}

/// What is read has one text: where a text reads as verdicts, it is the text that `write_cert` writes
/// of them, and they are as many as the keys.
pub fn what_is_read_has_one_text()
    ensures { ReadHasOneText }
{}

/// What is written reads back: the text of verdicts reads as them, where their numbers fit their types
/// and each try has a chain that is not empty.
pub fn what_is_written_reads_back()
    ensures { TextReadsBack }
{}

/// Each try of a verdict that is shown has a chain that is not empty.
pub fn shown_verdicts_have_chains()
    ensures { ShownHaveChains }
{}

/// The numbers of a verdict that is shown of a valid key fit their types, where the records of its operations do.
pub fn shown_verdicts_fit()
    ensures { ShownFit }
{}

#[cfg(test)]
mod tests;
