//! The two files of a run, read line by line.
ghost use Rattle.std.specs.Prelude.{◌≡◌, ◌≢◌, ◌⊎◌, ◌<◌, ◌-◌, ◌^◌, Err, length};
ghost use Rattle.trace_check.specs.Reading.{trace_of};

mod files;
pub(crate) mod replies;

use crate::Trace;
use crate::reading::files::{calls_read, entries_read};
use crate::reading::replies::{journals_of, with_replies};
use stale_model::{Memory, Settings};
use std::alloc::Global;

/// Why two files are not those of a run. Lines are counted from 1.
#[derive(Clone, Copy, Debug, PartialEq, Eq)]
pub enum TraceFault {
    /// The first line of the history that isn't one of its form.
    History { line: u32 },
    /// The first line of the journal file that isn't one of its form, where the history has none.
    Journal { line: u32 },
    /// Memory ran out.
    Memory,
}

impl From<Memory> for TraceFault {
    ghost use Rattle.std.specs.Prelude.{◌≡◌};
    ghost use Rattle.trace_check.specs.declared.reading.TraceFault.{TraceFault};

    ghost from_gives = { λ memory fault. fault ≡ TraceFault.Memory };

    fn from(_memory: Memory) -> TraceFault {
        TraceFault::Memory
    }
}

/// The run that a history and a journal file read as: the calls of the history, each with the replies that stand in the
/// journal file at its tickets, and the journal of each replica.
///
/// # Errors
/// `History` or `Journal` with the first line that isn't as its file has it, of the history, or of the journal file where
/// the history has none. A file without its header is at fault in line 1, and bytes after the last line feed are a line at
/// fault. `Memory` may come at any time.
pub fn trace_of(
    alloc: Global,
    settings: &Settings,
    history: &[u8],
    journal: &[u8],
) -> Result<Trace, TraceFault>
    requires history { length history.now < 2 ^ 32 - 1 }
    requires journal { length journal.now < 2 ^ 32 - 1 }
    ensures read { (result ≡ Err TraceFault.Memory) ⊎ (result ≡ trace_of settings.now history.now journal.now) }
    ensures definite { trace_of settings.now history.now journal.now ≢ Err TraceFault.Memory }
{
    let calls = calls_read(alloc, settings, history)?;
    let lines = entries_read(alloc, settings, journal)?;
    let entries = with_replies(alloc, lines.as_slice(), calls.as_slice())?;
    let journals = journals_of(alloc, settings.replicas, lines.as_slice())?;
    Ok(Trace { entries, journals })
}

#[cfg(test)]
mod tests;
