//! The report on a history: a line for each key, and a last line of totals.
#![tactic(auto)]

ghost use Rattle.std.specs.Prelude.{◌≡◌, length, IfOk};
ghost use Rattle.std.specs.String.{string_bytes};
ghost use Rattle.stale_model.specs.Valid.{IsValidKey, IsValidHistory};
ghost use Rattle.staleness_report.specs.Escaped.{escaped};
ghost use Rattle.staleness_report.specs.Report.{key_line, total_line, report_text};

mod last_line;
mod lines;
mod text;

use crate::last_line::total_line;
use crate::lines::key_lines;
use stale_model::{Bytes, History, KeyOps, Memory, Verdict};
use std::alloc::{AllocError, Global};
pub use text::{bytes_of, escaped_name, push_count};

/// A name as it is printed: visible ASCII characters other than the backslash stand for themselves,
/// and every other byte is `\x` and two hexadecimal digits in lower case.
pub fn escape(alloc: Global, name: &[u8]) -> Result<Bytes, Memory>
    ensures { IfOk result (λ text. text ≡ escaped name.now) }
{
    bytes_of(escaped_name(alloc, name))
}

// The whole report.
fn report_text(alloc: Global, history: &History, verdicts: &[Verdict]) -> Result<String, AllocError>
    requires valid { IsValidHistory history.now }
    requires as_many { length verdicts.now ≡ length history.now.keys }
    ensures { IfOk result (λ text. string_bytes text ≡ report_text history.now verdicts.now) }
{
    let mut text = key_lines(alloc, history.keys.as_slice(), verdicts)?;
    text.push_str(&total_line(alloc, history, verdicts)?)?;
    Ok(text)
}

/// The line of one key, as [`report`] has it: its name, the number of its operations and its
/// verdict.
///
/// # Errors
/// `Memory` may come at any time.
pub fn key_line(alloc: Global, key: &KeyOps, verdict: &Verdict) -> Result<Bytes, Memory>
    requires { IsValidKey key.now }
    ensures { IfOk result (λ text. text ≡ key_line key.now verdict.now) }
{
    bytes_of(lines::key_line(alloc, key, verdict))
}

/// The last line of the report on a history, alone: how many keys, operations and skipped reads
/// there are, how many keys are of each kind, and the greatest delta in ticks. `verdicts` has one
/// verdict for each key, in the order of the keys.
///
/// # Errors
/// `Memory` may come at any time.
pub fn totals(alloc: Global, history: &History, verdicts: &[Verdict]) -> Result<Bytes, Memory>
    requires { IsValidHistory history.now }
    ensures { IfOk result (λ text. text ≡ total_line history.now verdicts.now) }
{
    bytes_of(total_line(alloc, history, verdicts))
}

/// The report on a history: for each key, in the order of the keys, a line
/// `key NAME operations N ..` with its verdict, and a last line of totals. `verdicts` has one
/// verdict for each key. A pair is named by the write records of its two clusters, and `two` says
/// whether the key is 2-atomic.
///
/// # Errors
/// `Memory` may come at any time.
pub fn report(alloc: Global, history: &History, verdicts: &[Verdict]) -> Result<Bytes, Memory>
    requires valid { IsValidHistory history.now }
    requires as_many { length verdicts.now ≡ length history.now.keys }
    ensures { IfOk result (λ text. text ≡ report_text history.now verdicts.now) }
{
    bytes_of(report_text(alloc, history, verdicts))
}
